//! What an instruction does, and what comes next, if its tag and its target decide: most instructions need no more, so that the walk
//! rarely decodes.
ghost use Rattle.std.specs.Prelude.{◌≡◌, ℕ, ◌+◌, ◌≤◌, ◌<◌, ◌^◌, ◌∷◌, IfSome, List, length, true};
ghost use Rattle.grain_code.specs.Flows.{is_fixed};
ghost use Rattle.grain_code.specs.InstructionTable.{Instr, form, width_of};
ghost use Rattle.grain_code.specs.Split.{StandsAt};
ghost use Rattle.grain_code.specs.declared.field.Field.{Field};
ghost use Rattle.grain_code.specs.declared.field.Field.TheVariants.{Target};
ghost use Rattle.grain_code.specs.declared.op.Op.{Op};
ghost use Rattle.grain_verify.specs.Plain.{IsFloor, IsPlainStep};
ghost use Rattle.grain_verify.specs.TagRows.{IsEffectOf, IsRowOf};
ghost use Rattle.grain_rules.specs.declared.asks.Asks.TheVariants.{Nothing};
ghost use Rattle.grain_verify.specs.declared.lists.Lists.{Lists};

use crate::state::{Arrival, State};
use grain_code::{Flow, Head, Instruction, TagRow, tag_row};
use grain_rules::{Asks, Effect};

/// What the table of tags says about the instructions with a tag.
#[inline(always)]
pub(crate) fn row_of(tag: u8) -> &'static TagRow
    ensures { IsRowOf result.now tag }
{
    tag_row(tag)
}

/// The target with which the fields of an instruction begin.
#[inline(always)]
fn first_target(fields: &[u8]) -> u32
    requires { 4 ≤ length fields.now }
    ensures { (tag : ℕ) (op : Op) (target : ℕ) (others : List Field)
        → Instr (tag ∷ fields.now) op → (form op).1 ≡ Target target ∷ others → result ≡ target }
{
    u32::from_le_bytes([fields[0], fields[1], fields[2], fields[3]])
}

/// What an instruction does whose row says all of it, and that it is left by this flow.
#[inline(always)]
pub(crate) fn effect_by_row(instruction: &Instruction<'_>, row: &TagRow, flow: Flow) -> Effect
    requires known { (op : Op) × Instr (instruction.now.tag ∷ instruction.now.fields.now) op }
    requires row { IsRowOf row.now instruction.now.tag }
    requires fixed { is_fixed row.now ≡ true }
    requires flow { row.now.flow ≡ flow }
    ensures does { (op : Op) → Instr (instruction.now.tag ∷ instruction.now.fields.now) op
        → IsEffectOf result op }
    ensures needs { result.needs ≡ row.now.needs }
    ensures takes { result.takes ≡ row.now.takes }
    ensures asks { result.asks ≡ Nothing }
    ensures flow { result.flow ≡ flow }
{
    let target = if flow.has_target() {
        first_target(instruction.fields)
    } else {
        0
    };
    Effect {
        asks: Asks::Nothing,
        needs: u32::from(row.needs),
        takes: u32::from(row.takes),
        gives: u32::from(row.gives),
        flow,
        target,
        quiet: row.is_quiet,
    }
}

/// What an instruction does, if its row says all of it.
#[inline(always)]
pub(crate) fn effect_by_tag(instruction: &Instruction<'_>, row: &TagRow) -> Option<Effect>
    requires known { (op : Op) × Instr (instruction.now.tag ∷ instruction.now.fields.now) op }
    requires row { IsRowOf row.now instruction.now.tag }
    ensures { IfSome result (λ e. (op : Op)
        → Instr (instruction.now.tag ∷ instruction.now.fields.now) op → IsEffectOf e op) }
{
    if !row.is_fixed() {
        return None;
    }
    Some(effect_by_row(instruction, row, row.flow))
}

/// What falls through a plain instruction, which does no more than its tag says, if it finds the operands that it needs
/// above the floor.
#[inline(always)]
pub(crate) fn plain_next(row: &TagRow, head: Head, here: Arrival, floor: u64) -> Option<Arrival>
    requires row { IsRowOf row.now head.tag }
    requires room { here.at + head.width < 2 ^ 32 }
    requires operands_room { here.state.operands + 1 < 2 ^ 32 }
    requires ordinal_room { here.ordinal + 1 < 2 ^ 64 }
    requires small { floor ≤ 2 ^ 32 }
    ensures { IfSome result (λ next. (code : List ℕ) (lists : Lists) (op : Op)
        → StandsAt code here.at op
        → (form op).0 ≡ head.tag → head.width ≡ width_of op → IsFloor lists here.state floor
        → IsPlainStep code lists here next) }
{
    let state = here.state;
    // The operands come first: the walk compares them again where the row isn't plain, and so keeps one register less.
    if floor + u64::from(row.needs) <= u64::from(state.operands) && row.is_plain {
        let left = state.operands - u32::from(row.takes) + u32::from(row.gives);
        let after = State {
            operands: left,
            ..state
        };
        return Some(here.next(usize::from(head.width), after));
    }
    None
}
