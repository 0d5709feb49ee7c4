//! Prefixes of code that have been tested.
//!
//! The test of code runs with and without a list of the starts. A trait makes that one loop, so that there is one proof.
ghost use Rattle.std.specs.Prelude.{◌≡◌, ⊤, ℕ, ◌+◌, ◌<◌, ◌≤◌, ◌/◌, List, length, take};
ghost use Rattle.grain_code.specs.InstructionTable.{width_of};
ghost use Rattle.grain_code.specs.Split.{Split, StandsAt};
ghost use Rattle.grain_code.specs.declared.op.Op.{Op};

use grain_code::Growing;

/// How far code has been tested: the address after the last instruction that has. Where the instructions begin may be
/// written down on the way. One loop serves both that way, and is compiled for each.
pub(crate) trait Front: Drop {
    /// The address after the front.
    ghost end_of: { Self → ℕ };
    /// There is room for all of this code.
    ghost HasRoom: { List ℕ → Self → Type 0 };
    /// What is written down is so of this code.
    ghost IsOf: { List ℕ → Self → Type 0 };

    /// The address after the front.
    fn end(&self) -> usize
        ensures { result ≡ end_of self.now };

    /// Takes in the instruction after the front, up to this address.
    fn push(&mut self, next: usize)
        requires further { end_of self.old < next }
        requires room { (code : List ℕ) × HasRoom code self.old × (next ≤ length code) }
        ensures end { end_of self.new ≡ next }
        ensures room { (code : List ℕ) → HasRoom code self.old → HasRoom code self.new }
        ensures is { (code : List ℕ) (op : Op) → end_of self.old ≤ length code
            → StandsAt code (end_of self.old) op → next ≡ end_of self.old + width_of op
            → IsOf code self.old → IsOf code self.new };
}

/// An address alone.
impl Front for usize {
    ghost end_of = { λ end. end };

    ghost HasRoom = { λ code end. ⊤ };

    ghost IsOf = { λ code end. ⊤ };

    #[inline(always)]
    fn end(&self) -> usize {
        *self
    }

    #[inline(always)]
    fn push(&mut self, next: usize) {
        *self = next;
    }
}

impl Front for Growing {
    ghost end_of = { λ g. g.end };

    ghost HasRoom = { λ code g. length code / 64 < g.room };

    ghost IsOf = { λ code g. Split (take g.end code) g.starts };

    #[inline(always)]
    fn end(&self) -> usize {
        Growing::end(self)
    }

    #[inline(always)]
    fn push(&mut self, next: usize) {
        Growing::push(self, next);
    }
}
