//! Loops: how they begin, and what is dropped when they are left.
ghost use Rattle.std.specs.Prelude.{◌≡◌, ◌+◌, ◌-◌, ◌≤◌, IfOk, OnOk, Some, false, slice_get, true};
ghost use Rattle.grain_builder.specs.Unfinished.{StaysIn, SameLabels, guarded, spot, level_without_iterator};
ghost use Rattle.rhai_emit.specs.Loops.{IsBare, count};
ghost use Rattle.rhai_emit.specs.Rules.{LeadsAway, IsWritten, Stands, AddsPlaces};
ghost use Rattle.rhai_emit.specs.Places.{here};

use crate::emitter::Emitter;
use crate::scope::{Local, Loop};
use grain_base::pos::Site;
use grain_code::Op;
use rhai_errors::{CompileError, Problem};
use rhai_syntax::{Binding, Literal};

impl Emitter {
    /// The body of a loop begins, which ends at a label that is open already. All operands that there are stay in it.
    pub fn begin_loop(
        &mut self,
        end: u32,
        is_wanted: bool,
        walks: bool,
    ) -> Result<Loop, CompileError>
        requires floor { self.old.code.level.floor ≤ self.old.code.operands }
        requires least { self.old.code.level.least + count walks ≤ self.old.code.level.iterators }
        requires ends { slice_get self.old.code.labels end ≡ Some (record {
          operands = self.old.code.operands + count is_wanted;
          iterators = self.old.code.level.iterators - count walks;
          bases = self.old.code.level.bases;
          home = self.old.code.level.home;
        }) }
        ensures operands { OnOk result (self.new.code.operands ≡ self.old.code.operands) }
        ensures level { OnOk result (self.new.code.level
            ≡ guarded self.old.code.operands self.old.code.level) }
        ensures labels { OnOk result (StaysIn self.old.code.labels self.new.code.labels) }
        ensures outers { OnOk result (StaysIn self.old.code.outers self.new.code.outers) }
        ensures next { IfOk result (λ l. slice_get self.new.code.labels l.next
            ≡ Some (spot self.old.code.operands self.old.code.level)) }
        ensures outer { IfOk result (λ l. slice_get self.new.code.outers l.next
            ≡ Some self.old.code.pending) }
        ensures pending { IfOk result (λ l. self.new.code.pending ≡ l.next + 1) }
        ensures stands { OnOk result (Stands self.new) }
        ensures places { OnOk result (self.new.code.places ≡ self.old.code.places) }
    {
        let height = self.code.operands();
        let handlers = self.code.handlers();
        self.code.guard()?;
        let next = self.code.label(height)?;
        let around = Loop {
            next,
            end,
            is_wanted,
            walks,
            height,
            handlers,
            locals: self.scope.len(),
        };
        self.scope.around = Some(around);
        Ok(around)
    }

    /// The label that is the last one that is open is bound to the next operation.
    pub fn bind(&mut self, label: u32) -> Result<(), CompileError>
        requires stands { Stands self.old }
        requires here { slice_get self.old.code.labels label
            ≡ Some (spot self.old.code.operands self.old.code.level) }
        requires innermost { self.old.code.pending ≡ label + 1 }
        ensures stands { OnOk result (Stands self.new) }
        ensures pending { OnOk result (slice_get self.old.code.outers label ≡ Some self.new.code.pending) }
        ensures labels { OnOk result (self.new.code.labels ≡ self.old.code.labels) }
        ensures outers { OnOk result (self.new.code.outers ≡ self.old.code.outers) }
        ensures operands { OnOk result (self.new.code.operands ≡ self.old.code.operands) }
        ensures level { OnOk result (self.new.code.level ≡ self.old.code.level) }
        ensures scope { OnOk result (self.new.scope ≡ self.old.scope) }
        ensures places { OnOk result (self.new.code.places ≡ self.old.code.places) }
    {
        self.code.bind(label)?;
        Ok(())
    }

    /// The place to which a loop comes back: its label is bound, and the turn is counted.
    pub fn turn(&mut self, place: Site, label: u32) -> Result<(), CompileError>
        requires stands { Stands self.old }
        requires here { slice_get self.old.code.labels label
            ≡ Some (spot self.old.code.operands self.old.code.level) }
        requires innermost { self.old.code.pending ≡ label + 1 }
        ensures stands { OnOk result (Stands self.new) }
        ensures pending { OnOk result (slice_get self.old.code.outers label ≡ Some self.new.code.pending) }
        ensures labels { OnOk result (StaysIn self.old.code.labels self.new.code.labels) }
        ensures outers { OnOk result (StaysIn self.old.code.outers self.new.code.outers) }
        ensures operands { OnOk result (self.new.code.operands ≡ self.old.code.operands) }
        ensures level { OnOk result (self.new.code.level ≡ self.old.code.level) }
        ensures around { OnOk result (self.new.scope.around ≡ self.old.scope.around) }
        ensures placed { OnOk result (AddsPlaces self.old self.new (here place)) }
    {
        self.bind(label)?;
        self.put(place, Op::Tick, 0, 0)
    }

    /// The next item becomes the value of the variable in a slot, or the iterator ends and the loop goes to its exit.
    pub fn next_item(
        &mut self,
        place: Site,
        exit: u32,
        slots: (u16, Option<u16>),
    ) -> Result<(), CompileError>
        requires room { self.old.code.level.floor ≤ self.old.code.operands }
        requires one { self.old.code.level.least + 1 ≤ self.old.code.level.iterators }
        requires there { slice_get self.old.code.labels exit
            ≡ Some (spot self.old.code.operands (level_without_iterator self.old.code.level)) }
        ensures written { OnOk result (IsWritten self.old self.new self.old.code.operands) }
        ensures placed { OnOk result (AddsPlaces self.old self.new (here place)) }
    {
        let (slot, counter) = slots;
        self.code.advance(place, exit, counter)?;
        self.put(place, Op::StoreShared(slot), 1, 0)
    }

    /// The loop that `break` and `continue` are about.
    pub fn innermost(&self, place: Site) -> Result<Loop, CompileError>
        ensures { IfOk result (λ l. self.now.scope.around ≡ Some l) }
    {
        match self.scope.around {
            Some(around) => Ok(around),
            None => Err(CompileError::new(place, Problem::OutsideLoop)),
        }
    }

    /// `continue`
    pub fn go_on(&mut self, place: Site) -> Result<(), CompileError>
        requires { Stands self.old }
        ensures away { OnOk result (LeadsAway self.old self.new) }
        ensures placed { OnOk result (AddsPlaces self.old self.new (here place)) }
    {
        let around = self.innermost(place)?;
        self.disarm_down(place, around)?;
        let above = self.code.operands() - around.height;
        self.code.drop_operands(place, above)?;
        self.unwind(place, around.locals)?;
        self.code.jump(place, around.next, 0)
    }

    /// Leaves the innermost loop, whose value isn't wanted.
    pub fn leave_loop(&mut self, place: Site, around: Loop) -> Result<(), CompileError>
        requires stands { Stands self.old }
        requires is { self.old.scope.around ≡ Some around }
        requires unwanted { around.is_wanted ≡ false }
        ensures away { OnOk result (LeadsAway self.old self.new) }
        ensures placed { OnOk result (AddsPlaces self.old self.new (here place)) }
    {
        self.disarm_down(place, around)?;
        self.drop_walk(place, around.walks)?;
        let above = self.code.operands() - around.height;
        self.code.drop_operands(place, above)?;
        self.unwind(place, around.locals)?;
        self.code.jump(place, around.end, 0)
    }

    /// Leaves the innermost loop with the value on top, which has a slot of its own while the operands of the loop go.
    pub fn leave_with(&mut self, place: Site, around: Loop) -> Result<(), CompileError>
        requires stands { Stands self.old }
        requires is { self.old.scope.around ≡ Some around }
        requires wanted { around.is_wanted ≡ true }
        requires room { self.old.code.level.floor + 1 ≤ self.old.code.operands }
        ensures away { OnOk result (LeadsAway self.old self.new) }
        ensures placed { OnOk result (AddsPlaces self.old self.new (here place)) }
    {
        self.disarm_down(place, around)?;
        self.drop_walk(place, around.walks)?;
        let below = self.code.operands() - around.height - 1;
        self.code.drop_below(place, below)?;
        self.unwind(place, around.locals)?;
        self.code.jump(place, around.end, 0)
    }

    /// Disarms the handlers that were armed in the loop.
    fn disarm_down(&mut self, place: Site, around: Loop) -> Result<(), CompileError>
        requires stands { Stands self.old }
        requires is { self.old.scope.around ≡ Some around }
        ensures bare { OnOk result (IsBare around self.new.code.level self.new.code.labels) }
        ensures operands { OnOk result (self.new.code.operands ≡ self.old.code.operands) }
        ensures height { around.height ≤ self.old.code.level.floor }
        ensures home { OnOk result (self.new.code.level.home ≡ self.old.code.level.home) }
        ensures labels { OnOk result (SameLabels self.old.code self.new.code) }
        ensures scope { OnOk result (self.new.scope ≡ self.old.scope) }
        ensures placed { OnOk result (AddsPlaces self.old self.new (here place)) }
    {
        let handlers = self.code.handlers() - around.handlers;
        self.code.drop_handlers(place, handlers)
    }

    /// Drops the iterator of a loop that has one.
    fn drop_walk(&mut self, place: Site, walks: bool) -> Result<(), CompileError>
        requires { self.old.code.level.least + count walks ≤ self.old.code.level.iterators }
        ensures operands { OnOk result (self.new.code.operands ≡ self.old.code.operands) }
        ensures level { OnOk result (self.new.code.level ≡ record self.old.code.level {
          iterators = self.old.code.level.iterators - count walks;
        }) }
        ensures labels { OnOk result (SameLabels self.old.code self.new.code) }
        ensures scope { OnOk result (self.new.scope ≡ self.old.scope) }
        ensures placed { OnOk result (AddsPlaces self.old self.new (here place)) }
    {
        if walks {
            return self.code.drop_iterator(place);
        }
        Ok(())
    }

    /// Declares the variable that counts the items of a loop, if there is one.
    pub fn walked(
        &mut self,
        place: Site,
        counter: Option<Binding>,
    ) -> Result<Option<u16>, CompileError>
        requires { self.old.code.level.floor ≤ self.old.code.operands }
        ensures written { OnOk result (IsWritten self.old self.new self.old.code.operands) }
        ensures placed { OnOk result (AddsPlaces self.old self.new (here place)) }
    {
        let Some(counter) = counter else {
            return Ok(None);
        };
        self.literal(place, Literal::Int(0))?;
        let slot = self.declare(place, Local::variable(counter))?;
        Ok(Some(slot))
    }
}
