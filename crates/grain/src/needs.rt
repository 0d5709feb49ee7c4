//! What a program needs of its host: the capabilities that it declares, and slots for local variables.
ghost use Rattle.std.specs.Prelude.{◌≡◌, IfOk};
ghost use Rattle.grain_needs.specs.Capabilities.{AreLeast};
ghost use Rattle.grain_needs.specs.Slots.{AreSlots, root_slots};
ghost use Rattle.grain_rules.specs.Accepted.{IsAccepted};
ghost use Rattle.grain.specs.Needs.{AreSlotCounts};
ghost use Rattle.grain.specs.Program.{input_of};

use crate::program::Program;
use grain_base::Caps;
use grain_code::Chunk;
use grain_needs::{chunk_slots, least_caps};
use std::alloc::AllocError;

impl Program {
    /// Declares the least capabilities that suffice for the constants, the functions and the instructions of the program, and no
    /// others ([`least_caps`]).
    ///
    /// A program that is accepted stays accepted. It reads constants and code once, and takes no memory but the call stack, by the depth
    /// of the constants.
    pub fn declare_least_caps(&mut self)
        ensures least { AreLeast (input_of self.new) self.new.caps.0 }
        ensures rest { self.new ≡ record self.old { caps = self.new.caps } }
        ensures accepted { IsAccepted (input_of self.old) → IsAccepted (input_of self.new) }
    {
        self.caps = self.least_caps();
    }

    /// The least capabilities that suffice for the constants, the functions and the instructions of the program.
    fn least_caps(&self) -> Caps
        ensures { AreLeast (input_of self.now) result.0 }
    {
        let pools = self.pools();
        least_caps(&self.parts.consts, &self.code, &self.functions, &pools)
    }

    /// The number of slots that the instructions of each chunk name: the main chunk's, then those of the functions.
    ///
    /// [`chunk_slots`] says what a host does with them if the program is accepted. It reads the code of each chunk once.
    ///
    /// # Errors
    /// [`AllocError`] if the allocator refuses the list.
    pub fn slots(&self) -> Result<Vec<u32>, AllocError>
        ensures { IfOk result (λ slots. AreSlotCounts self.now slots.items) }
    {
        let chunks = self.chunks()?;
        let mut slots = Vec::with_capacity(self.alloc, chunks.len())?;
        for chunk in &chunks {
            slots.push(self.slots_of(chunk))?;
        }
        Ok(slots)
    }

    /// The number of slots that the instructions of a chunk name.
    fn slots_of(&self, chunk: &Chunk) -> u32
        ensures { AreSlots (root_slots self.now.chains) self.now.code chunk.now result }
    {
        let pools = self.pools();
        chunk_slots(&self.code, chunk, &pools)
    }
}
