//! The executable form: instructions as bytes.
//!
//! No call here allocates, and each has a result for every address.

ghost use Rattle.std.specs.Prelude.{◌≡◌, ℕ, ◌+◌, ◌<◌, ◌≤◌, List, Ok, IfSome, IfNone, length};
ghost use Rattle.std.specs.Int.{w16, w32};
ghost use Rattle.grain_code.specs.Numbers.{number_at};
ghost use Rattle.grain_code.specs.InstructionTable.{width_of};
ghost use Rattle.grain_code.specs.Split.{StandsAt, NoneStandsAt, Split, IsCount};
ghost use Rattle.grain_code.specs.declared.op.Op.{Op};

use crate::instruction::read;
use crate::op::Op;
use crate::tag_widths::width;

/// The `u16` at an address, lowest byte first, or `None` if it isn't wholly in the code. It takes constant time.
#[must_use]
pub fn u16_at(code: &[u8], at: usize) -> Option<u16>
    ensures { result ≡ number_at w16 code.now at }
{
    match code.get(at..)? {
        [low, high, ..] => Some(u16::from_le_bytes([*low, *high])),
        _ => None,
    }
}

/// The `u32` at an address, lowest byte first, or `None` if it isn't wholly in the code. It takes constant time.
#[must_use]
pub fn u32_at(code: &[u8], at: usize) -> Option<u32>
    ensures { result ≡ number_at w32 code.now at }
{
    match code.get(at..)? {
        [a, b, c, d, ..] => Some(u32::from_le_bytes([*a, *b, *c, *d])),
        _ => None,
    }
}

/// The instruction at an address, or `None` if there is none. It takes constant time.
#[inline(always)]
#[must_use]
pub fn decode(code: &[u8], at: usize) -> Option<Op>
    ensures found { IfSome result (λ op. StandsAt code.now at op) }
    ensures fits { IfSome result (λ op. at + width_of op ≤ length code.now) }
    ensures none { IfNone result (NoneStandsAt code.now at) }
{
    let (op, _width) = read(code, at)?;
    Some(op)
}

/// How many instructions the whole code is. It reads the code once.
///
/// # Errors
/// The address of the first thing that is no instruction.
pub fn count_instructions(code: &[u8]) -> Result<usize, usize>
    ensures counted { IsCount code.now result }
    ensures whole { (starts : List ℕ) → Split code.now starts → result ≡ Ok (length starts) }
{
    let mut at = 0;
    let mut count = 0;
    while at < code.len() {
        let Some(width) = width(code, at) else {
            return Err(at);
        };
        at += width;
        count += 1;
    }
    Ok(count)
}
