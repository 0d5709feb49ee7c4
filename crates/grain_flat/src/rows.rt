//! What single rows of a flat form stand for.
ghost use Rattle.std.specs.Prelude.{◌≡◌, ◌≢◌, ℕ, IfNone, IfSome, Option};
ghost use Rattle.grain_pools.specs.declared.chain.Root.{Root};
ghost use Rattle.grain_pools.specs.declared.chain.Step.{Step};
ghost use Rattle.grain_pools.specs.declared.chain.Tail.{Tail};
ghost use Rattle.grain_flat.specs.Flat.{asked_row, root_row, step_row, tail_row};

use crate::records::{CConstant, CStep};
use crate::shapes::{
    ASSIGN, ASSIGN_THROUGH, INDEX, LOCAL, METHOD, NAMED, PROPERTY, READ, TEMPORARY, THIS,
};
use grain_base::Position;
use grain_pools::{Root, Step, StepFlags, Tail};

/// What a constant with this row asks, or that it can't be said, if there is such a constant's row.
pub(crate) fn asked_of(row: &CConstant) -> Option<Option<u16>>
    ensures some { IfSome result (λ asked. asked_row asked ≡ row.now) }
    ensures none { IfNone result ((asked : Option ℕ) → asked_row asked ≢ row.now) }
{
    match (row.is_known, row.caps) {
        (1, caps) => Some(Some(caps)),
        (0, 0) => Some(None),
        _ => None,
    }
}

/// A root of this kind, name and slot, if there is one.
pub(crate) fn root_of(kind: u32, name: u32, slot: u16) -> Option<Root>
    ensures some { IfSome result (λ r. root_row r ≡ (kind, name, slot)) }
    ensures none { IfNone result ((r : Root) → root_row r ≢ (kind, name, slot)) }
{
    let pos = Position::NONE;
    match (kind, name, slot) {
        (LOCAL, name, slot) => Some(Root::Local { slot, name }),
        (NAMED, name, 0) => Some(Root::Named { name, pos }),
        (THIS, 0, 0) => Some(Root::This { pos }),
        (TEMPORARY, 0, 0) => Some(Root::Temporary),
        _ => None,
    }
}

/// A tail of this kind and op-assignment, if there is one.
pub(crate) fn tail_of(kind: u32, op: u32) -> Option<Tail>
    ensures some { IfSome result (λ t. tail_row t ≡ (kind, op)) }
    ensures none { IfNone result ((t : Tail) → tail_row t ≢ (kind, op)) }
{
    match (kind, op) {
        (READ, 0) => Some(Tail::Read),
        (ASSIGN, 0) => Some(Tail::Assign { op: None }),
        (ASSIGN_THROUGH, op) => Some(Tail::Assign { op: Some(op) }),
        _ => None,
    }
}

/// A step with this row, if there is one.
pub(crate) fn step_of(row: &CStep) -> Option<Step>
    ensures some { IfSome result (λ s. step_row s ≡ row.now) }
    ensures none { IfNone result ((s : Step) → step_row s ≢ row.now) }
{
    let flags = StepFlags::SKIP_IF_UNIT;
    let pos = Position::NONE;
    match *row {
        CStep {
            kind: INDEX,
            name: 0,
            getter: 0,
            setter: 0,
            operand,
            argc: 0,
        } => Some(Step::Index {
            operand,
            flags,
            pos,
            bracket: pos,
        }),
        CStep {
            kind: PROPERTY,
            name,
            getter,
            setter,
            operand: 0,
            argc: 0,
        } => Some(Step::Property {
            name,
            getter,
            setter,
            flags,
            pos,
        }),
        CStep {
            kind: METHOD,
            name,
            getter: 0,
            setter: 0,
            operand,
            argc,
        } => Some(Step::Method {
            name,
            argc,
            operand,
            flags,
            pos,
        }),
        _ => None,
    }
}
