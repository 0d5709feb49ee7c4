//! Chunks: the parts of the code that are run by themselves.
ghost use Rattle.std.specs.Prelude.{◌≡◌, ℕ, List};
ghost use Rattle.std.specs.Iterator.{Drains};
ghost use Rattle.grain_code.specs.Disassembly.{StepsOn, IsDisassembly};
ghost use Rattle.grain_code.specs.Span.{Span, body, front};
ghost use Rattle.grain_code.specs.declared.op.Op.{Op};

use crate::disassembly::{Disassembly, disassemble_from};
use std::marker::Model;

/// One body of code, as the top level of a program or a function of it: a span of the code that all chunks share, and
/// how many operands the stack has to hold for it.
///
/// Contracts see a `Span`. Each call takes constant time.
#[derive(Clone, Copy, Debug, Default, PartialEq, Eq)]
pub struct Chunk {
    entry: u32,
    end: u32,
    max_stack: u16,
}

impl Model for Chunk {
    ghost use Rattle.grain_code.specs.Span.{Span};

    ghost Value = { Span };

    ghost view = { λ c. record { entry = c.entry; end = c.end; max_stack = c.max_stack } };

    ghost inverse = { λ s. record { entry = s.entry; end = s.end; max_stack = s.max_stack } };
}

impl Chunk {
    /// The chunk of the code from the entry up to the end, which declares that many operands.
    #[must_use]
    pub fn new(entry: u32, end: u32, max_stack: u16) -> Chunk
        ensures { result ≡ record { entry = entry; end = end; max_stack = max_stack } }
    {
        Chunk {
            entry,
            end,
            max_stack,
        }
    }

    /// The address of the first instruction.
    #[must_use]
    pub fn entry(&self) -> u32
        ensures { result ≡ self.now.entry }
    {
        self.entry
    }

    /// The address past the last instruction.
    #[must_use]
    pub fn end(&self) -> u32
        ensures { result ≡ self.now.end }
    {
        self.end
    }

    /// How many operands the chunk declares that it stacks at most.
    #[must_use]
    pub fn max_stack(&self) -> u16
        ensures { result ≡ self.now.max_stack }
    {
        self.max_stack
    }

    /// Declares how many operands the chunk stacks at most.
    pub fn set_max_stack(&mut self, max_stack: u16)
        ensures { self.new ≡ record self.old { max_stack = max_stack } }
    {
        self.max_stack = max_stack;
    }

    /// The chunk's part of the code, which is empty if the span isn't in the code.
    #[must_use]
    pub fn body<'a>(&self, code: &'a [u8]) -> &'a [u8]
        ensures { result.now ≡ body self.now code.now }
    {
        code.get(self.entry as usize..self.end as usize)
            .unwrap_or_default()
    }

    /// The instructions of the chunk's part of the code, up to the first thing in it that is no instruction. Their
    /// addresses are those in the whole code. To read them all reads that part once.
    #[must_use]
    pub fn ops<'a>(&self, code: &'a [u8]) -> Disassembly<'a>
        ensures from_the_entry { result
            ≡ record { at = self.now.entry; bytes = body self.now code.now } }
        ensures gives { (items : List (ℕ × Op)) → Drains StepsOn result items
            → IsDisassembly self.now.entry (body self.now code.now) items }
    {
        disassemble_from(self.front(code), self.entry() as usize)
    }

    /// The code up to the chunk's end, which is empty where the code ends before.
    fn front<'a>(&self, code: &'a [u8]) -> &'a [u8]
        ensures { result.now ≡ front self.now code.now }
    {
        code.get(..self.end as usize).unwrap_or_default()
    }
}
