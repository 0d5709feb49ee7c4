//! Chains of each root, step and tail.

use crate::chance::Chance;
use crate::lists::position;
use grain::{Chain, Flags, Root, Step, StepFlags, Tail};
use std::alloc::{AllocError, Global};

/// How many steps a chain has at most.
const STEPS: u32 = 4;

/// How many operands the steps of a chain take at most.
const OPERANDS: u16 = 4;

/// How many entries the pools have that chains have indices into.
#[derive(Clone, Copy)]
pub struct Sizes {
    /// Names.
    pub names: u32,
    /// Op-assignments.
    pub assign_ops: u32,
}

#[derive(Clone, Copy)]
enum RootKind {
    Local,
    Named,
    This,
    Temporary,
}

static ROOTS: [RootKind; 4] = [
    RootKind::Local,
    RootKind::Named,
    RootKind::This,
    RootKind::Temporary,
];

#[derive(Clone, Copy)]
enum StepKind {
    Index,
    Property,
    Method,
}

static STEP_KINDS: [StepKind; 3] = [StepKind::Index, StepKind::Property, StepKind::Method];

fn root(chance: &mut Chance, sizes: Sizes) -> Root {
    let name = chance.below(sizes.names);
    match chance.pick(&ROOTS).unwrap_or(RootKind::Temporary) {
        RootKind::Local => Root::Local {
            slot: chance.small(8),
            name,
        },
        RootKind::Named => Root::Named {
            name,
            pos: position(chance),
        },
        RootKind::This => Root::This {
            pos: position(chance),
        },
        RootKind::Temporary => Root::Temporary,
    }
}

fn flags(chance: &mut Chance) -> StepFlags {
    if chance.one_in(3) {
        StepFlags::SKIP_IF_UNIT
    } else {
        StepFlags::empty()
    }
}

fn property(chance: &mut Chance, sizes: Sizes) -> Step {
    Step::Property {
        name: chance.below(sizes.names),
        getter: chance.below(sizes.names),
        setter: chance.below(sizes.names),
        flags: flags(chance),
        pos: position(chance),
    }
}

/// A step whose operands are below this number.
fn step(chance: &mut Chance, sizes: Sizes, operands: u16) -> Step {
    let operand = chance.small(operands);
    match chance.pick(&STEP_KINDS).unwrap_or(StepKind::Property) {
        StepKind::Index if operands > 0 => Step::Index {
            operand,
            flags: flags(chance),
            pos: position(chance),
            bracket: position(chance),
        },
        StepKind::Method => Step::Method {
            name: chance.below(sizes.names),
            argc: u8::try_from(operands.saturating_sub(operand)).unwrap_or(0),
            operand,
            flags: flags(chance),
            pos: position(chance),
        },
        StepKind::Index | StepKind::Property => property(chance, sizes),
    }
}

fn tail(chance: &mut Chance, sizes: Sizes) -> Tail {
    if chance.one_in(2) {
        return Tail::Read;
    }
    let op = chance.below(sizes.assign_ops);
    Tail::Assign {
        op: chance.one_in(2).then_some(op),
    }
}

/// A chain.
pub fn chain(alloc: Global, chance: &mut Chance, sizes: Sizes) -> Result<Chain, AllocError> {
    let operands = chance.small(OPERANDS);
    let root = root(chance, sizes);
    let mut steps = Vec::new(alloc);
    for _turn in 0..chance.below(STEPS) {
        steps.push(step(chance, sizes, operands))?;
    }
    Ok(Chain {
        root,
        steps,
        tail: tail(chance, sizes),
        operands,
    })
}
