//! Code with its instructions.

ghost use Rattle.std.specs.Prelude.{◌≡◌, ℕ, Err, IfNone, IfOk, IfSome, Ok};
ghost use Rattle.grain_code.specs.Disassembly.{IsDisassembly};
ghost use Rattle.grain_rules.specs.EffectView.{flow_in};
ghost use Rattle.grain_rules.specs.Rows.{flow_of};
ghost use Rattle.grain_code.specs.Split.{IsCount};
ghost use Rattle.grain_listing.specs.ListedCode.{IsListedCode};

use grain_code::{Instruction, Op, count_instructions, disassemble};
use grain_rules::{Effect, NoPools};
use std::alloc::{AllocError, Global};

/// Code with its instructions.
#[derive(Drop)]
pub struct CodeListing {
    /// The code.
    pub bytes: Vec<u8>,
    /// Its instructions with their addresses, in order, up to the first thing that is none.
    pub items: Vec<(usize, Op)>,
}

/// The instructions of code with their addresses, in order, up to the first thing that is none.
///
/// # Errors
/// [`AllocError`] if memory was refused.
fn instructions_of(alloc: Global, code: &[u8]) -> Result<Vec<(usize, Op)>, AllocError>
    ensures { IfOk result (λ v. IsDisassembly 0 code.now v.items) }
{
    disassemble(code).collect(alloc)
}

impl CodeListing {
    /// Code with its instructions.
    ///
    /// # Errors
    /// [`AllocError`] if memory was refused.
    pub fn of(alloc: Global, bytes: Vec<u8>) -> Result<CodeListing, AllocError>
        ensures { IfOk result (IsListedCode bytes.items) }
    {
        let items = instructions_of(alloc, &bytes)?;
        Ok(CodeListing { bytes, items })
    }

    /// The address after the instruction at an address; that address where there is none.
    fn end_of(&self, at: usize) -> usize {
        match Instruction::at(&self.bytes, at) {
            Some(instruction) => at.saturating_add(instruction.width()),
            None => at,
        }
    }

    /// The address of the first thing that is no instruction, if there is one.
    pub fn damage(&self) -> Option<usize>
        ensures some { IfSome result (λ at. IsCount self.now.bytes.items (Err at)) }
        ensures none { IfNone result ((n : ℕ) × IsCount self.now.bytes.items (Ok n)) }
    {
        match count_instructions(&self.bytes) {
            Ok(_) => None,
            Err(at) => Some(at),
        }
    }

    /// The bytes of the instruction at an address.
    pub fn bytes_at(&self, at: usize) -> &[u8] {
        self.bytes.get(at..self.end_of(at)).unwrap_or_default()
    }

    /// The instruction at an address.
    pub fn op_at(&self, at: usize) -> Option<&Op> {
        let place = self.items.binary_search_by(|item| item.0.cmp(&at)).ok()?;
        Some(&self.items.get(place)?.1)
    }

    /// The instructions that have a byte from an entry up to an end.
    pub fn between(&self, entry: usize, end: usize) -> &[(usize, Op)] {
        let first = self
            .items
            .partition_point(|item| self.end_of(item.0) <= entry);
        let behind = self.items.partition_point(|item| item.0 < end);
        self.items.get(first..behind).unwrap_or_default()
    }
}

/// What an operation does if there are no pools.
pub fn effect_of(op: &Op) -> Effect
    ensures { flow_in result ≡ flow_of op.now }
{
    Effect::of(op, &NoPools)
}
