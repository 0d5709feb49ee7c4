//! The code of switches.
ghost use Rattle.std.specs.Prelude.{◌≡◌, IfSome, true, ◌+◌, ◌-◌, ◌<◌, ◌≤◌, OnOk, Some, slice_get};
ghost use Rattle.grain_builder.specs.Unfinished.{StaysIn, spot};
ghost use Rattle.rhai_emit.specs.Loops.{count};
ghost use Rattle.rhai_compile.specs.Writes.{Writes};
ghost use Rattle.rhai_emit.specs.Rules.{IsWritten, Stands, AddsPlaces};
ghost use Rattle.rhai_emit.specs.Switches.{AreArms};
ghost use Rattle.rhai_emit.specs.Places.{pass, arm_places, arms_places, both, here, expr_places};

use crate::coder::Coder;
use grain::Op;
use grain_base::pos::Site;
use rhai_emit::{Emitter, Labels, check_arms};
use rhai_errors::CompileError;
use rhai_syntax::{Arm, Expr};

impl<F: Fn(&mut Emitter, &Expr, usize, bool) -> Result<(), CompileError>> Coder<F> {
    pub(crate) fn switch(
        &self,
        emitter: &mut Emitter,
        place: Site,
        subject: &Expr,
        arms: &[Arm],
        is_wanted: bool,
    ) -> Result<(), CompileError>
        requires rules { Writes (F.pre self.now.writes) (F.post self.now.writes) self.now.depth }
        requires stands { Stands emitter.old }
        ensures written { OnOk result (IsWritten emitter.old emitter.new (emitter.old.code.operands + count is_wanted)) }
        ensures placed { OnOk result (AddsPlaces emitter.old emitter.new
            (both (here place) (both (expr_places subject.now) (arms_places arms.now)))) }
    {
        check_arms(emitter.alloc, arms)?;
        self.expr(emitter, subject, true)?;
        let labels = emitter.arm_labels(arms, is_wanted)?;
        emitter.dispatch(place, arms, &labels, 0)?;
        for (index, arm) in arms.iter().enumerate() {
            self.arm(emitter, arms, &labels, (index, arm), is_wanted)?;
        }
        emitter.code.bind(labels.none)?;
        emitter.put(place, Op::Pop, 1, 0)?;
        emitter.nothing(place, is_wanted)?;
        emitter.code.bind(labels.end)
    }

    /// The code of an arm, which leads to the end.
    fn arm(
        &self,
        emitter: &mut Emitter,
        arms: &[Arm],
        labels: &Labels,
        which: (usize, &Arm),
        is_wanted: bool,
    ) -> Result<(), CompileError>
        requires rules { Writes (F.pre self.now.writes) (F.post self.now.writes) self.now.depth }
        requires stands { Stands emitter.old }
        requires room { emitter.old.code.level.floor + 1 ≤ emitter.old.code.operands }
        requires arms { AreArms labels.now emitter.old.code.operands emitter.old.code }
        requires within { labels.now.none + which.0 < labels.now.first }
        requires pending { emitter.old.code.pending + which.0 ≡ labels.now.first + 1 }
        requires end { slice_get emitter.old.code.labels labels.now.end
            ≡ Some (spot (emitter.old.code.operands - 1 + count is_wanted) emitter.old.code.level) }
        ensures operands { OnOk result (emitter.new.code.operands ≡ emitter.old.code.operands) }
        ensures level { OnOk result (emitter.new.code.level ≡ emitter.old.code.level) }
        ensures labels { OnOk result (StaysIn emitter.old.code.labels emitter.new.code.labels) }
        ensures outers { OnOk result (StaysIn emitter.old.code.outers emitter.new.code.outers) }
        ensures pending { OnOk result (emitter.new.code.pending + which.entry.0 ≡ labels.now.first) }
        ensures around { OnOk result (emitter.new.scope.around ≡ emitter.old.scope.around) }
        ensures placed { OnOk result (AddsPlaces emitter.old emitter.new
            (both (arms_places arms.now) (arm_places which.entry.1.now))) }
    {
        let (index, arm) = which;
        let operands = emitter.code.operands();
        emitter.code.bind(labels.arm(index))?;
        self.condition(emitter, arms, labels, index)?;
        emitter.put(arm.place, Op::Pop, 1, 0)?;
        self.expr(emitter, &arm.body, is_wanted)?;
        emitter.code.jump(arm.place, labels.end, operands)
    }

    /// The condition of an arm, if it has one, and where the switch goes if it doesn't hold.
    fn condition(
        &self,
        emitter: &mut Emitter,
        arms: &[Arm],
        labels: &Labels,
        index: usize,
    ) -> Result<(), CompileError>
        requires rules { Writes (F.pre self.now.writes) (F.post self.now.writes) self.now.depth }
        requires stands { Stands emitter.old }
        requires room { emitter.old.code.level.floor + 1 ≤ emitter.old.code.operands }
        requires arms { AreArms labels.now emitter.old.code.operands emitter.old.code }
        ensures written { OnOk result (IsWritten emitter.old emitter.new (emitter.old.code.operands)) }
        ensures placed { OnOk result (AddsPlaces emitter.old emitter.new (arms_places arms.now)) }
    {
        let Some(arm) = arm_at(arms, index) else {
            return Ok(());
        };
        let Some(condition) = &arm.condition else {
            return Ok(());
        };
        let operands = emitter.code.operands();
        let body = emitter.code.label(operands)?;
        self.expr(emitter, condition, true)?;
        emitter.jump_where(condition.place, true, body)?;
        emitter.dispatch(condition.place, arms, labels, index.saturating_add(1))?;
        emitter.code.bind(body)
    }
}

/// The arm with this index, if there is one.
fn arm_at(arms: &[Arm], index: usize) -> Option<&Arm>
    ensures { IfSome result (λ a. (test : _) → pass test (arms_places arms.now) ≡ true
        → pass test (arm_places a.now) ≡ true) }
{
    arms.get(index)
}
