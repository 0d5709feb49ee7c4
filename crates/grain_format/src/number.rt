//! Numbers in groups of seven bits, the lowest first, in their shortest spelling.
ghost use Rattle.std.specs.Prelude.{◌≡◌, ◌<◌, ◌^◌, ◌++◌, length, string_bytes, OnOk, MatchResult, Ok, Err};
ghost use Rattle.grain_format.specs.Numbers.{groups, groups_at, number};
ghost use Rattle.grain_format.specs.Texts.{counted_bytes};
ghost use Rattle.grain_format.specs.TextLaws.{TextFits};

use crate::error::FieldFault;
use std::alloc::AllocError;

/// The number at the front of the bytes, and what follows it. After the first group at most `more` groups are read.
#[tactic(auto, unfolding(crate::specs::Numbers::groups_at))]
pub(crate) fn groups(bytes: &[u8], more: u8) -> Result<(u64, &[u8]), FieldFault>
    ensures { MatchResult result
        (λ found. groups_at more bytes.now ≡ Ok (found.0, found.1.now))
        (λ fault. groups_at more bytes.now ≡ Err fault) }
{
    let Some((byte, rest)) = bytes.split_first() else {
        return Err(FieldFault::Truncated);
    };
    if *byte < 128 {
        return Ok((u64::from(*byte), rest));
    }
    let Some(less) = more.checked_sub(1) else {
        return Err(FieldFault::TooWide);
    };
    let (high, rest) = match groups(rest, less) {
        Ok(found) => found,
        Err(fault) => return Err(fault),
    };
    if high == 0 {
        return Err(FieldFault::NotShortest);
    }
    if high < 1 << 57 {
        Ok((128 * high + u64::from(*byte - 128), rest))
    } else {
        Err(FieldFault::TooWide)
    }
}

/// Appends a number, in a first group and at most `more` further ones.
#[tactic(auto, unfolding(crate::specs::Numbers::groups))]
fn put_groups(out: &mut Vec<u8>, n: u64, more: u8) -> Result<(), AllocError>
    ensures { OnOk result (out.new.items ≡ out.old.items ++ groups more n) }
{
    let Some(less) = more.checked_sub(1) else {
        out.push((n % 128) as u8)?;
        return Ok(());
    };
    if n < 128 {
        out.push(n as u8)?;
        return Ok(());
    }
    out.push((n % 128) as u8 + 128)?;
    put_groups(out, n / 128, less)?;
    Ok(())
}

/// Appends the shortest spelling of a number, of ten bytes at most.
///
/// # Errors
/// An allocation failed.
#[tactic(auto, unfolding(crate::specs::Numbers::number))]
pub fn put_number(out: &mut Vec<u8>, n: u64) -> Result<(), AllocError>
    ensures { OnOk result (out.new.items ≡ out.old.items ++ number n) }
{
    put_groups(out, n, 9)?;
    Ok(())
}

/// Appends how many bytes there are, and these. Time and memory are linear in their number.
///
/// # Errors
/// An allocation failed.
#[tactic(auto, unfolding(crate::specs::Texts::counted_bytes))]
pub fn put_bytes(out: &mut Vec<u8>, bytes: &[u8]) -> Result<(), AllocError>
    ensures spelled { OnOk result (out.new.items ≡ out.old.items ++ counted_bytes bytes.now) }
    ensures fits { OnOk result (length bytes.now < 2 ^ 64) }
{
    let len = bytes.len();
    put_number(out, len as u64)?;
    out.extend_from_slice(bytes)?;
    Ok(())
}

/// Appends a text: how many bytes it has, and these.
pub(crate) fn put_string(out: &mut Vec<u8>, string: &String) -> Result<(), AllocError>
    ensures spelled { OnOk result
        (out.new.items ≡ out.old.items ++ counted_bytes (string_bytes string.now)) }
    ensures fits { OnOk result (TextFits (string_bytes string.now)) }
{
    let text = string.as_str();
    put_bytes(out, text.as_bytes())?;
    Ok(())
}
