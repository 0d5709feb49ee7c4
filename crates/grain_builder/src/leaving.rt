//! What has to stay, and what a path that leads away drops first.
ghost use Rattle.std.specs.Prelude.{◌≡◌, ◌+◌, ◌-◌, ◌≤◌, OnOk, length};
ghost use Rattle.grain_builder.specs.Sound.{IsBased};
ghost use Rattle.grain_builder.specs.Unfinished.{IsSameButFloor, LeavesOperands, SameLabels, guarded, level_without_handlers, AddsPlace};

use crate::assembler::Assembler;
use crate::level::Level;
use grain_base::pos::Site;
use grain_code::Op;
use rhai_errors::CompileError;
use std::alloc::AllocError;

impl Assembler {
    /// How many handlers are armed.
    pub fn handlers(&self) -> usize
        ensures { result ≡ length self.now.level.bases }
    {
        self.level.handlers()
    }

    /// All operands that there are have to stay from here on.
    ///
    /// # Errors
    /// The allocator refused.
    pub fn guard(&mut self) -> Result<(), AllocError>
        requires { self.old.level.floor ≤ self.old.operands }
        ensures operands { OnOk result (self.new.operands ≡ self.old.operands) }
        ensures level { OnOk result (self.new.level ≡ guarded self.old.operands self.old.level) }
        ensures based { OnOk result (IsBased self.new.level) }
        ensures labels { OnOk result (SameLabels self.old self.new) }
        ensures places { OnOk result (self.new.places ≡ self.old.places) }
    {
        let level = self.level.guarded(self.operands)?;
        self.release(level);
        Ok(())
    }

    /// What has to stay from here on is what this level says, which has the same iterators and handlers.
    pub fn release(&mut self, level: Level)
        requires { IsSameButFloor level self.old.level }
        ensures operands { self.new.operands ≡ self.old.operands }
        ensures level { self.new.level ≡ level }
        ensures labels { SameLabels self.old self.new }
        ensures places { self.new.places ≡ self.old.places }
    {
        let _based = &level.floor;
        self.level = level;
    }

    /// Disarms this many handlers, the last first. Of the operands no more has to stay then than what the next handler stands on.
    ///
    /// # Errors
    /// The allocator refused.
    pub fn drop_handlers(&mut self, place: Site, count: usize) -> Result<(), CompileError>
        requires { count ≤ length self.old.level.bases }
        ensures operands { OnOk result (self.new.operands ≡ self.old.operands) }
        ensures level { OnOk result (self.new.level ≡ level_without_handlers count self.old.level) }
        ensures labels { OnOk result (SameLabels self.old self.new) }
        ensures placed { OnOk result (AddsPlace self.old self.new place) }
    {
        let level = self.level.without_handlers(self.alloc, 0)?;
        self.release(level);
        'handlers: for _turn in 0..count {
            self.drop_handler(place)?;
        }
        Ok(())
    }

    /// Disarms the last handler.
    fn drop_handler(&mut self, place: Site) -> Result<(), CompileError>
        requires { 1 ≤ length self.old.level.bases }
        ensures operands { OnOk result (self.new.operands ≡ self.old.operands) }
        ensures level { OnOk result (self.new.level ≡ level_without_handlers 1 self.old.level) }
        ensures labels { OnOk result (SameLabels self.old self.new) }
        ensures placed { OnOk result (AddsPlace self.old self.new place) }
    {
        let level = self.level.without_handlers(self.alloc, 1)?;
        self.disarm(place, level)
    }

    /// Drops this many operands.
    ///
    /// # Errors
    /// The allocator refused.
    pub fn drop_operands(&mut self, place: Site, count: usize) -> Result<(), CompileError>
        requires { self.old.level.floor + count ≤ self.old.operands }
        ensures leaves { OnOk result (LeavesOperands self.old self.new (self.old.operands - count)) }
        ensures placed { OnOk result (AddsPlace self.old self.new place) }
    {
        'operands: for _turn in 0..count {
            self.put(place, Op::Pop, 1, 0)?;
        }
        Ok(())
    }

    /// Drops this many operands below the one on top, which stays.
    ///
    /// # Errors
    /// The allocator refused.
    pub fn drop_below(&mut self, place: Site, count: usize) -> Result<(), CompileError>
        requires { self.old.level.floor + count + 1 ≤ self.old.operands }
        ensures leaves { OnOk result (LeavesOperands self.old self.new (self.old.operands - count)) }
        ensures placed { OnOk result (AddsPlace self.old self.new place) }
    {
        'operands: for _turn in 0..count {
            self.put(place, Op::Rotate(1), 2, 2)?;
            self.put(place, Op::Pop, 1, 0)?;
        }
        Ok(())
    }
}
