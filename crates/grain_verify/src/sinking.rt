//! Whether an instruction sinks below what was there when the last handler was armed.
ghost use Rattle.std.specs.Prelude.{◌≡◌, ◌-◌, ◌≤◌, ◌∷◌, ◌⊎◌, false, IfErr, OnOk};
ghost use Rattle.grain_code.specs.InstructionTable.{Instr, form};
ghost use Rattle.grain_code.specs.declared.op.Op.{Op};
ghost use Rattle.grain_verify.specs.Arrivals.{view};
ghost use Rattle.grain_rules.specs.Counts.{last_base};
ghost use Rattle.grain_verify.specs.FlowView.{IsMetBy, IsShort};
ghost use Rattle.grain_rules.specs.EffectView.{flow};
ghost use Rattle.grain_verify.specs.Lists.{IsShared, as_base, list_count};
ghost use Rattle.grain_rules.specs.Setting.{Setting};
ghost use Rattle.grain_rules.specs.Sinking.{ReachesUpTo, Stays, untouched};
ghost use Rattle.grain_verify.specs.Operands.{stack_effect};
ghost use Rattle.grain_rules.specs.Rows.{flow_of, is_quiet};
ghost use Rattle.grain_verify.specs.SinkingView.{RefusesSinking};

use crate::lists::{Base, Lists};
use crate::state::{Arrival, State};
use grain_code::{Instruction, tag_row};
use grain_rules::{Effect, VerifyError};

/// Whether the instruction is quiet, or else leaves what was there when the last handler was armed. If it faults, that handler's
/// code runs on what it left, and would find fewer operands or iterators than were tested there.
///
/// # Errors
/// `SinksBelowHandler` at its address. If a handler is armed, the iterator that it takes is looked for first
/// ([`State::without_iterators`]); else its flow needs it.
#[inline(always)]
pub(crate) fn check_stays(
    instruction: &Instruction<'_>,
    effect: Effect,
    here: Arrival,
    lists: &Lists,
) -> Result<(), VerifyError>
    requires known { (op : Op) × Instr (instruction.now.tag ∷ instruction.now.fields.now) op }
    requires shared { IsShared lists.now }
    requires list { here.state.list ≤ list_count lists.now }
    requires operands { effect.needs ≤ here.state.operands }
    ensures stays { (s : Setting) (op : Op)
        → Instr (instruction.now.tag ∷ instruction.now.fields.now) op
        → (effect.needs, effect.takes, effect.gives) ≡ stack_effect s op
        → flow effect.flow effect.target ≡ flow_of op
        → OnOk result (Stays s op (view lists.now here.state)) }
    ensures err { (s : Setting) (op : Op)
        → Instr (instruction.now.tag ∷ instruction.now.fields.now) op
        → (effect.needs, effect.takes, effect.gives) ≡ stack_effect s op
        → flow effect.flow effect.target ≡ flow_of op
        → IfErr result (λ e.
        IsShort (flow effect.flow effect.target) here.at (view lists.now here.state) e
        ⊎ (IsMetBy (flow effect.flow effect.target) (view lists.now here.state)
        × RefusesSinking op here.at (last_base (view lists.now here.state).bases)
        (untouched s op (view lists.now here.state)) e)) }
{
    let Arrival { at, state, .. } = here;
    if state.list == 0 {
        return Ok(());
    }
    let needed = effect.iterators_needed();
    let State { iterators, .. } = state.without_iterators(needed, at)?;
    let left = Base {
        operands: state.operands - effect.takes,
        iterators,
    };
    check_sinking(instruction.tag, at, left, lists.last_base(state.list))
}

/// Whether the instruction at an address, by its tag, is quiet, or else leaves what was there when the last handler was armed.
///
/// `left` is what it leaves as it was: the operands without those that it takes, and the iterators without the one that
/// it needs.
///
/// # Errors
/// `SinksBelowHandler` with the operands, or with the iterators if there are enough operands.
#[inline(always)]
fn check_sinking(tag: u8, at: u32, left: Base, last: Base) -> Result<(), VerifyError>
    ensures stays { (op : Op) → (form op).0 ≡ tag
        → OnOk result (is_quiet op ≡ false → ReachesUpTo (as_base last) (as_base left)) }
    ensures sinks { (op : Op) → (form op).0 ≡ tag
        → IfErr result (RefusesSinking op at (as_base last) (as_base left)) }
{
    let enough = left.operands >= last.operands;
    if (enough && left.iterators >= last.iterators) || is_quiet(tag) {
        return Ok(());
    }
    let (need, have) = if enough {
        (last.iterators, left.iterators)
    } else {
        (last.operands, left.operands)
    };
    Err(VerifyError::SinksBelowHandler {
        at: at as usize,
        need: need as usize,
        have: have as usize,
    })
}

/// Whether instructions with this tag are quiet: those eight (docs/FORMAT.md, "Verification") at which a machine has to fault
/// never, or only with at least what was there when the last handler was armed. Of a byte with which no instruction begins
/// nothing is said.
#[inline(always)]
#[must_use]
pub fn is_quiet(tag: u8) -> bool
    ensures { (op : Op) → (form op).0 ≡ tag → result ≡ is_quiet op }
{
    tag_row(tag).is_quiet
}
