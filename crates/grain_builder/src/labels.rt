//! Labels.
ghost use Rattle.std.specs.Prelude.{◌≡◌, ◌+◌, ◌≤◌, IfOk, OnOk, Some, false, length, slice_get};
ghost use Rattle.grain_builder.specs.Unfinished.{StaysIn, SameLabels, spot};

use crate::assembler::{Assembler, Label};
use crate::level::Level;
use crate::writing::{MAX_OPERANDS, too_many};
use grain_base::pos::Site;
use rhai_errors::{CompileError, Problem, Thing};

/// What a label has as its operation that isn't bound yet.
const NOWHERE: u32 = u32::MAX;

impl Assembler {
    /// A new label, at which this many operands are found at this level.
    ///
    /// # Errors
    /// As [`Assembler::label`].
    pub fn label_in(&mut self, operands: usize, level: Level) -> Result<u32, CompileError>
        ensures here { IfOk result (λ l. slice_get self.new.labels l ≡ Some (spot operands level)) }
        ensures outer { IfOk result (λ l. slice_get self.new.outers l ≡ Some self.old.pending) }
        ensures last { IfOk result (λ l. l ≡ length self.old.labels) }
        ensures more { OnOk result (length self.new.labels ≡ length self.old.labels + 1) }
        ensures pending { IfOk result (λ l. self.new.pending ≡ l + 1) }
        ensures labels { OnOk result (StaysIn self.old.labels self.new.labels) }
        ensures outers { OnOk result (StaysIn self.old.outers self.new.outers) }
        ensures operands { OnOk result (self.new.operands ≡ self.old.operands) }
        ensures level { OnOk result (self.new.level ≡ self.old.level) }
        ensures places { OnOk result (self.new.places ≡ self.old.places) }
    {
        let Ok(label) = u32::try_from(self.labels.len()) else {
            return Err(CompileError::new(Site::NONE, Problem::TooMany(Thing::Jumps)));
        };
        let outer = self.pending;
        self.labels.push(Label {
            at: NOWHERE,
            outer,
            operands,
            level,
        })?;
        self.pending = label as usize + 1;
        Ok(label)
    }

    /// A new label, at which this many operands are found.
    ///
    /// # Errors
    /// There are too many labels, or the allocator refused.
    pub fn label(&mut self, operands: usize) -> Result<u32, CompileError>
        ensures here { IfOk result (λ l. slice_get self.new.labels l ≡ Some (spot operands self.old.level)) }
        ensures outer { IfOk result (λ l. slice_get self.new.outers l ≡ Some self.old.pending) }
        ensures last { IfOk result (λ l. l ≡ length self.old.labels) }
        ensures more { OnOk result (length self.new.labels ≡ length self.old.labels + 1) }
        ensures pending { IfOk result (λ l. self.new.pending ≡ l + 1) }
        ensures labels { OnOk result (StaysIn self.old.labels self.new.labels) }
        ensures outers { OnOk result (StaysIn self.old.outers self.new.outers) }
        ensures operands { OnOk result (self.new.operands ≡ self.old.operands) }
        ensures level { OnOk result (self.new.level ≡ self.old.level) }
        ensures places { OnOk result (self.new.places ≡ self.old.places) }
    {
        let level = self.level.clone()?;
        self.label_in(operands, level)
    }

    /// Binds the label that was made last of those that aren't bound to the next operation.
    ///
    /// # Errors
    /// There are too many operations.
    pub fn bind(&mut self, label: u32) -> Result<(), CompileError>
        requires here { slice_get self.old.labels label ≡ Some (spot self.old.operands self.old.level) }
        requires innermost { self.old.pending ≡ label + 1 }
        ensures pending { OnOk result (slice_get self.old.outers label ≡ Some self.new.pending) }
        ensures labels { OnOk result (self.new.labels ≡ self.old.labels) }
        ensures outers { OnOk result (self.new.outers ≡ self.old.outers) }
        ensures operands { OnOk result (self.new.operands ≡ self.old.operands) }
        ensures level { OnOk result (self.new.level ≡ self.old.level) }
        ensures places { OnOk result (self.new.places ≡ self.old.places) }
    {
        let at = match u32::try_from(self.ops.len()) {
            Ok(at) if at < NOWHERE => at,
            _ => return Err(CompileError::new(Site::NONE, Problem::TooMany(Thing::Operations))),
        };
        let index = label as usize;
        let outer = self.labels[index].outer;
        self.labels[index].at = at;
        self.pending = outer;
        self.is_fixed = true;
        Ok(())
    }

    /// After an operation that doesn't fall through, the next one finds this many operands, at a level of the same chunk.
    ///
    /// # Errors
    /// There are more operands than a chunk can declare.
    pub fn resume(&mut self, place: Site, operands: usize, level: Level) -> Result<(), CompileError>
        requires loose { self.old.fixed ≡ false }
        requires home { level.home ≡ self.old.level.home }
        ensures operands { OnOk result (self.new.operands ≡ operands) }
        ensures level { OnOk result (self.new.level ≡ level) }
        ensures labels { OnOk result (SameLabels self.old self.new) }
        ensures places { OnOk result (self.new.places ≡ self.old.places) }
    {
        if operands > MAX_OPERANDS {
            return Err(too_many(place));
        }
        let _based = &level.floor;
        self.operands = operands;
        self.level = level;
        Ok(())
    }
}
