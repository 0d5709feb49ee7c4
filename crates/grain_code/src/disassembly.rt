//! Code read instruction by instruction.
//!
//! It stops at the first byte that is no instruction, since nothing says where a next one would begin.

ghost use Rattle.std.specs.Prelude.{◌≡◌, ℕ, List, drop, length};
ghost use Rattle.std.specs.Iterator.{at_most, Drains};
ghost use Rattle.grain_code.specs.Unread.{Unread};
ghost use Rattle.grain_code.specs.Disassembly.{StepsOn, IsDisassembly};
ghost use Rattle.grain_code.specs.declared.op.Op.{Op};

use crate::instruction::read;
use crate::op::Op;
use std::marker::Model;

/// The instructions of code with their addresses, as far as the code is instructions. Each takes constant time.
#[derive(Drop)]
pub struct Disassembly<'a> {
    code: &'a [u8],
    at: usize,
}

impl<'a> Model for Disassembly<'a> {
    ghost Value = { Unread };

    ghost view = { λ s. record { at = s.at; bytes = drop s.at s.code.now } };
}

impl Iterator for Disassembly<'_> {
    type Item = (usize, Op);

    ghost next_gives = { StepsOn };

    ghost remaining = { λ s. at_most (length s.bytes) };

    fn next(&mut self) -> Option<(usize, Op)> {
        let at = self.at;
        let (op, width) = read(self.code, at)?;
        self.at = at + width;
        Some((at, op))
    }
}

/// The instructions of code with their addresses, from address 0 up to the first thing that is no instruction. To read
/// them all reads the code once, and takes no memory.
#[must_use]
pub fn disassemble(code: &[u8]) -> Disassembly<'_>
    ensures from_the_start { result ≡ record { at = 0; bytes = code.now } }
    ensures gives { (items : List (ℕ × Op)) → Drains StepsOn result items
        → IsDisassembly 0 code.now items }
{
    disassemble_from(code, 0)
}

/// The instructions of code with their addresses, from an address up to the first thing that is no instruction.
pub(crate) fn disassemble_from(code: &[u8], at: usize) -> Disassembly<'_>
    ensures from_there { result ≡ record { at = at; bytes = drop at code.now } }
    ensures gives { (items : List (ℕ × Op)) → Drains StepsOn result items
        → IsDisassembly at (drop at code.now) items }
{
    Disassembly { code, at }
}
