//! Chunks: where they begin and end.
ghost use Rattle.std.specs.Prelude.{◌≡◌, ◌≤◌, [], OnOk, false, true};
ghost use Rattle.grain_builder.specs.Unfinished.{SameLabels, fresh};

use crate::assembler::Assembler;
use crate::level::Level;
use grain_base::pos::Site;
use grain_code::Chunk;
use rhai_errors::{CompileError, Problem, Thing};
use std::alloc::Global;

/// There are more operations than targets can name.
fn too_long() -> CompileError {
    CompileError::new(Site::NONE, Problem::TooMany(Thing::Operations))
}

impl Assembler {
    /// No operations yet: the first chunk begins.
    #[must_use]
    pub fn new(alloc: Global) -> Assembler
        ensures { result ≡ record {
          operands = 0;
          level = fresh 0;
          labels = [];
          outers = [];
          pending = 0;
          fixed = true;
          places = [];
        } }
    {
        Assembler {
            alloc,
            ops: Vec::new(alloc),
            chains: Vec::new(alloc),
            tables: Vec::new(alloc),
            labels: Vec::new(alloc),
            cuts: Vec::new(alloc),
            operands: 0,
            level: Level::outermost(alloc, 0),
            pending: 0,
            is_fixed: true,
        }
    }

    /// The chunk ends, whose last operation doesn't fall through and all of whose labels are bound. The next one begins.
    ///
    /// # Errors
    /// There are too many operations, or the allocator refused.
    pub fn end_chunk(&mut self) -> Result<(), CompileError>
        requires loose { self.old.fixed ≡ false }
        requires bound { self.old.pending ≡ 0 }
        ensures operands { OnOk result (self.new.operands ≡ 0) }
        ensures level { OnOk result (self.new.level ≡ fresh self.new.level.home) }
        ensures labels { OnOk result (SameLabels self.old self.new) }
        ensures further { OnOk result (1 ≤ self.new.level.home) }
        ensures places { OnOk result (self.new.places ≡ self.old.places) }
    {
        let Ok(entry) = u32::try_from(self.level.home()) else {
            return Err(too_long());
        };
        let Ok(end) = u32::try_from(self.ops.len()) else {
            return Err(too_long());
        };
        let next = self.ops.len();
        let level = Level::outermost(self.alloc, next);
        self.cuts.push(Chunk::new(entry, end, u16::MAX))?;
        self.operands = 0;
        self.level = level;
        self.is_fixed = true;
        Ok(())
    }
}
