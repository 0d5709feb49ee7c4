//! Numbers encoded in groups of seven bits (LEB128).
//!
//! A group is a byte: seven bits of the number, the lowest group first, and the bit `0x80`, which says that another
//! group follows. There are ten groups at most, and a tenth is 0 or 1, so that each number fits 64 bits. A number has
//! longer encodings too, as `80 00` for 0: they are read, and never written. A signed number v is encoded as 2v, or as
//! -2v - 1 if it is negative, so that numbers near 0 are short on both sides. docs/FORMAT.md, "Varints", has the
//! format.
//!
//! A cursor is passed from call to call: each call reads from `at` on, and leaves it after the bytes that it read. It
//! takes constant time, since these are ten at most.

ghost use Rattle.std.specs.Prelude.{◌≡◌, ℕ, ℤ, ◌+◌, ◌^◌, ◌<◌, ◌↔◌, length, take, drop, Ok, Err, IfOk, OnOk, OnErr};
ghost use Rattle.grain_base.specs.Varint.{AppendsShortest, IsShortest, NumberStandsAt, NoneStands, NumberFlaw, ReadsNumber, U32Flaw, zigzag};
ghost use Rattle.grain_base.specs.declared.varint.Error.{Error};

use std::alloc::AllocError;
use std::fmt;

/// What is wrong with bytes that spell no number.
#[derive(Clone, Copy, Debug, PartialEq, Eq)]
pub enum Error {
    /// The bytes end where another group is due.
    Truncated,
    /// The number doesn't fit its type, or ten groups don't end it.
    Overflow,
}

impl fmt::Display for Error {
    ghost use Rattle.std.specs.Prelude.{Some};
    ghost use Rattle.grain_base.specs.Varint.{number_error_text};

    ghost output = { λ error. Some (number_error_text error) };

    fn fmt<W: fmt::Write>(&self, f: &mut fmt::Formatter<W>) -> fmt::Result {
        match self {
            Error::Truncated => write!(f, "number ends before its last group"),
            Error::Overflow => write!(f, "number is too wide to read"),
        }
    }
}

impl std::error::Error for Error {}

/// The greatest tenth group: after nine of them one of 64 bits is left.
const TENTH_MAX: u8 = 1;

/// Reads the number encoded at the cursor, and moves the cursor past it.
///
/// If none is encoded there, the cursor moves past ten bytes, or past all that are left if they are fewer.
///
/// # Errors
///
/// `Truncated` if fewer than ten bytes are left, each of which says that another follows; so also at the end of the
/// bytes and beyond it. Else `Overflow`: the tenth group is above 1 or says that another follows.
// Read in place: it is called for each number of a table, and a call takes as long as a number of one group.
#[inline(always)]
pub fn u64(bytes: &[u8], at: &mut usize) -> Result<u64, Error>
    // A number is read if and only if one is encoded there.
    ensures found { IfOk result (λ n. NumberStandsAt bytes.now at.old n at.new) }
    ensures spelled { (n end : ℕ) → NumberStandsAt bytes.now at.old n end
        → (result ≡ Ok n) × (at.new ≡ end) }

    // Elsewhere the error says what is wrong there.
    ensures error { (e : Error) → (result ≡ Err e) ↔ NumberFlaw (drop at.old bytes.now) e }
    ensures cursor { OnErr result (at.new ≡ at.old + length (take 10 (drop at.old bytes.now))) }
{
    // Most numbers are one group.
    match bytes.get(*at) {
        Some(byte) if *byte < 0x80 => {
            *at += 1;
            Ok(u64::from(*byte))
        }
        _ => groups(bytes, at),
    }
}

/// Reads a number of any number of groups, as [`u64`] does.
fn groups(bytes: &[u8], at: &mut usize) -> Result<u64, Error>
    ensures { ReadsNumber bytes.now at.old result at.new }
{
    let mut value = 0u64;
    for group in 0..9u32 {
        let Some(byte) = bytes.get(*at) else {
            return Err(Error::Truncated);
        };
        *at += 1;
        value |= u64::from(*byte & 0x7f) << (7 * group);
        if *byte < 0x80 {
            return Ok(value);
        }
    }
    let Some(byte) = bytes.get(*at) else {
        return Err(Error::Truncated);
    };
    *at += 1;
    if *byte > TENTH_MAX {
        return Err(Error::Overflow);
    }
    Ok(value | u64::from(*byte) << 63)
}

/// Reads the signed number encoded at the cursor, as [`u64`] does: 2v encodes v, -2v - 1 a negative v.
///
/// # Errors
///
/// As [`u64`].
#[inline]
pub fn i64(bytes: &[u8], at: &mut usize) -> Result<i64, Error>
    // Each number encodes a signed one.
    ensures found { IfOk result (λ v. NumberStandsAt bytes.now at.old (zigzag v) at.new) }
    ensures spelled { (v : ℤ) (end : ℕ) → NumberStandsAt bytes.now at.old (zigzag v) end
        → (result ≡ Ok v) × (at.new ≡ end) }

    // Elsewhere the error and the cursor are those of `u64`.
    ensures error { (e : Error) → (result ≡ Err e) ↔ NumberFlaw (drop at.old bytes.now) e }
    ensures cursor { OnErr result (at.new ≡ at.old + length (take 10 (drop at.old bytes.now))) }
{
    let raw = u64(bytes, at)?;
    let half = (raw >> 1) as i64;
    Ok(if raw & 1 == 0 { half } else { !half })
}

/// Reads the number encoded at the cursor if it fits a `u32`, as [`u64`] does.
///
/// # Errors
///
/// As [`u64`]; also `Overflow` for a number above 4294967295, with the cursor past it.
#[inline(always)]
pub fn u32(bytes: &[u8], at: &mut usize) -> Result<u32, Error>
    // A number is read if and only if one that fits is encoded there. The cursor also passes one that doesn't fit.
    ensures found { IfOk result (λ n. NumberStandsAt bytes.now at.old n at.new) }
    ensures spelled { (n end : ℕ) → NumberStandsAt bytes.now at.old n end
        → (at.new ≡ end) × (n < 2 ^ 32 → result ≡ Ok n) }

    // Elsewhere the error says what is wrong there.
    ensures error { (e : Error) → (result ≡ Err e) ↔ U32Flaw (drop at.old bytes.now) e }
    ensures cursor { NoneStands (drop at.old bytes.now)
        → at.new ≡ at.old + length (take 10 (drop at.old bytes.now)) }
{
    let value = u64(bytes, at)?;
    match u32::try_from(value) {
        Ok(value) => Ok(value),
        Err(_) => Err(Error::Overflow),
    }
}

/// Appends the shortest spelling of a number. It takes constant time, except for a growth of `out`, which doubles its room.
///
/// # Errors
///
/// `AllocError` if `out` can't grow, which then is as before: it grows once, before the first byte is written.
pub fn put_u64(out: &mut Vec<u8>, value: u64) -> Result<(), AllocError>
    ensures ok { OnOk result (AppendsShortest out.old.items out.new.items value) }
    ensures err { OnErr result (out.new.items ≡ out.old.items) }
{
    let mut groups = [0u8; 10];
    let mut last = 0;
    let mut rest = value;
    while rest >= 0x80 {
        groups[last] = (rest & 0x7f) as u8 | 0x80;
        rest >>= 7;
        last += 1;
    }
    groups[last] = rest as u8;
    out.extend_from_slice(&groups[..=last])
}

/// Appends the shortest spelling of a signed number, of 2v, or of -2v - 1 if v is negative, in as much time as
/// [`put_u64`].
///
/// # Errors
///
/// As [`put_u64`].
pub fn put_i64(out: &mut Vec<u8>, value: i64) -> Result<(), AllocError>
    ensures ok { OnOk result (AppendsShortest out.old.items out.new.items (zigzag value)) }
    ensures err { OnErr result (out.new.items ≡ out.old.items) }
{
    if value < 0 {
        put_u64(out, 2 * (!value as u64) + 1)
    } else {
        put_u64(out, 2 * value as u64)
    }
}
