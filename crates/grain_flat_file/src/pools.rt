//! The pools of a program as rows.
ghost use Rattle.std.specs.Prelude.{◌≡◌, ◌∷◌, ◌++◌, [], IfOk, OnOk, length, map};
ghost use Rattle.grain_flat.specs.Flat.{chain_row, root_row, step_row, step_rows, tail_row};
ghost use Rattle.grain_flat_file.specs.Contents.{AreChainLists, AreSwitchLists, constant_row, flags_of, range_row, step_flags, switch_cases, switch_ranges, switch_targets_of};
ghost use Rattle.grain_flat.specs.Flat.{case_row, switch_row};
ghost use Rattle.grain_pools.specs.Dispatch.{arms};
ghost use Rattle.grain_pools.specs.declared.switch.SwitchRange.{SwitchRange};

use crate::records::CRange;
use crate::unflat::Unflat;
use grain_base::{Dynamic, Flags};
use grain_flat::shapes::{
    ASSIGN, ASSIGN_THROUGH, INDEX, LOCAL, METHOD, NAMED, PROPERTY, READ, TEMPORARY, THIS,
};
use grain_flat::{CCase, CChain, CConstant, CStep, CSwitch};
use grain_pools::{Chain, Root, Step, Switch, SwitchRange, Tail};
use grain_rules::constant_caps;
use std::alloc::{AllocError, Global};
use std::collections::HashMap;

#[tactic(auto, unfolding(crate::specs::Contents::constant_row))]
fn constant_row(value: &Dynamic) -> CConstant
    ensures { result ≡ constant_row value.now }
{
    match constant_caps(value) {
        Some(caps) => CConstant {
            is_known: 1,
            caps: caps.bits(),
        },
        None => CConstant {
            is_known: 0,
            caps: 0,
        },
    }
}

/// The capabilities that each constant requires of the host.
pub(crate) fn constant_rows(
    alloc: Global,
    constants: &[Dynamic],
) -> Result<Vec<CConstant>, AllocError>
    ensures { IfOk result (λ rows. rows.items ≡ map constant_row constants.now) }
{
    let mut rows = Vec::with_capacity(alloc, constants.len())?;
    for constant in constants {
        rows.push(constant_row(constant))?;
    }
    Ok(rows)
}

fn root_row(root: &Root) -> (u32, u32, u16)
    ensures { result ≡ root_row root.now }
{
    match root {
        Root::Local { slot, name } => (LOCAL, *name, *slot),
        Root::Named { name, pos: _ } => (NAMED, *name, 0),
        Root::This { pos: _ } => (THIS, 0, 0),
        Root::Temporary => (TEMPORARY, 0, 0),
    }
}

fn tail_row(tail: &Tail) -> (u32, u32)
    ensures { result ≡ tail_row tail.now }
{
    match tail {
        Tail::Read => (READ, 0),
        Tail::Assign { op: None } => (ASSIGN, 0),
        Tail::Assign { op: Some(op) } => (ASSIGN_THROUGH, *op),
    }
}

fn step_row(step: &Step) -> CStep
    ensures { result ≡ step_row step.now }
{
    match step {
        Step::Index { operand, .. } => CStep {
            kind: INDEX,
            name: 0,
            getter: 0,
            setter: 0,
            operand: *operand,
            argc: 0,
        },
        Step::Property {
            name,
            getter,
            setter,
            ..
        } => CStep {
            kind: PROPERTY,
            name: *name,
            getter: *getter,
            setter: *setter,
            operand: 0,
            argc: 0,
        },
        Step::Method {
            name,
            argc,
            operand,
            ..
        } => CStep {
            kind: METHOD,
            name: *name,
            getter: 0,
            setter: 0,
            operand: *operand,
            argc: *argc,
        },
    }
}

fn flags_of(step: &Step) -> u8
    ensures { result ≡ flags_of step.now }
{
    match step {
        Step::Index { flags, .. } | Step::Property { flags, .. } | Step::Method { flags, .. } => {
            flags.bits()
        }
    }
}

/// The row of a chain, unless it has too many steps.
fn chain_row(chain: &Chain) -> Result<CChain, Unflat>
    ensures { IfOk result (λ row. row ≡ chain_row chain.now) }
{
    let steps = count_of(chain.steps.len())?;
    let (root, root_name, slot) = root_row(&chain.root);
    let (tail, op) = tail_row(&chain.tail);
    Ok(CChain {
        root,
        root_name,
        steps,
        tail,
        op,
        operands: chain.operands,
        slot,
    })
}

/// Chains as rows.
#[derive(Drop)]
pub(crate) struct ChainLists {
    /// The chains.
    pub(crate) rows: Vec<CChain>,
    /// The steps of all.
    pub(crate) steps: Vec<CStep>,
    /// The flags of these.
    pub(crate) flags: Vec<u8>,
}

impl ChainLists {
    /// Of no chains, with room for this many.
    fn new(alloc: Global, count: usize) -> Result<ChainLists, AllocError>
        ensures { IfOk result (AreChainLists []) }
    {
        let rows = Vec::with_capacity(alloc, count)?;
        Ok(ChainLists {
            rows,
            steps: Vec::new(alloc),
            flags: Vec::new(alloc),
        })
    }

    /// Adds steps.
    fn add_steps(&mut self, steps: &[Step]) -> Result<(), AllocError>
        ensures steps { OnOk result
            (self.new.steps.items ≡ self.old.steps.items ++ map step_row steps.now) }
        ensures flags { OnOk result
            (self.new.flags.items ≡ self.old.flags.items ++ map flags_of steps.now) }
        ensures rows { self.new.rows ≡ self.old.rows }
    {
        for step in steps {
            self.steps.push(step_row(step))?;
            self.flags.push(flags_of(step))?;
        }
        Ok(())
    }

    /// Adds a chain.
    fn add(&mut self, chain: &Chain) -> Result<(), Unflat>
        ensures rows { OnOk result
            (self.new.rows.items ≡ self.old.rows.items ++ chain_row chain.now ∷ []) }
        ensures steps { OnOk result
            (self.new.steps.items ≡ self.old.steps.items ++ step_rows chain.now) }
        ensures flags { OnOk result
            (self.new.flags.items ≡ self.old.flags.items ++ step_flags chain.now) }
    {
        let row = chain_row(chain)?;
        self.rows.push(row)?;
        self.add_steps(&chain.steps)?;
        Ok(())
    }
}

/// The chains as rows.
pub(crate) fn chain_lists(alloc: Global, chains: &[Chain]) -> Result<ChainLists, Unflat>
    ensures { IfOk result (AreChainLists chains.now) }
{
    let mut lists = ChainLists::new(alloc, chains.len())?;
    for chain in chains {
        lists.add(chain)?;
    }
    Ok(lists)
}

fn range_row(range: &SwitchRange) -> CRange
    ensures { result ≡ range_row range.now }
{
    CRange {
        from: range.from,
        to: range.to,
        is_inclusive: range.inclusive,
        target: range.target,
    }
}

/// Switches as rows.
#[derive(Drop)]
pub(crate) struct SwitchLists {
    /// The switches.
    pub(crate) rows: Vec<CSwitch>,
    /// The cases of all.
    pub(crate) cases: Vec<CCase>,
    /// Where the ranges of all lead.
    pub(crate) targets: Vec<u32>,
    /// The ranges of all.
    pub(crate) ranges: Vec<CRange>,
}

/// Adds the cases of a switch.
fn add_cases(rows: &mut Vec<CCase>, cases: &HashMap<Dynamic, (u32, u32)>) -> Result<(), AllocError>
    ensures cases { OnOk result
        (rows.new.items ≡ rows.old.items ++ map case_row cases.now.entries) }
{
    for (key, (target, constant)) in cases.iter() {
        let _ = key;
        rows.push(CCase {
            target: *target,
            constant: *constant,
        })?;
    }
    Ok(())
}

/// How many entries there are, as a row says it.
pub(crate) fn count_of(count: usize) -> Result<u32, Unflat>
    ensures { IfOk result (λ row. row ≡ count) }
{
    match u32::try_from(count) {
        Ok(count) => Ok(count),
        Err(_) => Err(Unflat::TooLong),
    }
}

/// How many cases a switch has.
fn count_cases(switch: &Switch) -> usize
    ensures { result ≡ length (switch_cases switch.now) }
{
    match &switch.cases {
        Some(cases) => cases.len(),
        None => 0,
    }
}

/// The row of a switch, unless it has too many cases or ranges.
fn switch_row(switch: &Switch) -> Result<CSwitch, Unflat>
    ensures { IfOk result (λ row. row ≡ switch_row (arms switch.now)) }
{
    let cases = count_of(count_cases(switch))?;
    let ranges = count_of(switch.ranges.len())?;
    Ok(CSwitch {
        cases,
        ranges,
        otherwise: switch.default,
    })
}

impl SwitchLists {
    /// Of no switches, with room for this many.
    fn new(alloc: Global, count: usize) -> Result<SwitchLists, AllocError>
        ensures { IfOk result (AreSwitchLists []) }
    {
        let rows = Vec::with_capacity(alloc, count)?;
        Ok(SwitchLists {
            rows,
            cases: Vec::new(alloc),
            targets: Vec::new(alloc),
            ranges: Vec::new(alloc),
        })
    }

    /// Adds the cases of a switch.
    fn add_cases_of(&mut self, switch: &Switch) -> Result<(), AllocError>
        ensures cases { OnOk result
            (self.new.cases.items ≡ self.old.cases.items ++ switch_cases switch.now) }
        ensures rows { self.new.rows ≡ self.old.rows }
        ensures targets { self.new.targets ≡ self.old.targets }
        ensures ranges { self.new.ranges ≡ self.old.ranges }
    {
        match &switch.cases {
            Some(cases) => add_cases(&mut self.cases, cases),
            None => Ok(()),
        }
    }

    /// Adds ranges.
    fn add_ranges(&mut self, ranges: &[SwitchRange]) -> Result<(), AllocError>
        ensures targets { OnOk result (self.new.targets.items
            ≡ self.old.targets.items ++ map (λ (r : SwitchRange). r.target) ranges.now) }
        ensures ranges { OnOk result
            (self.new.ranges.items ≡ self.old.ranges.items ++ map range_row ranges.now) }
        ensures rows { self.new.rows ≡ self.old.rows }
        ensures cases { self.new.cases ≡ self.old.cases }
    {
        for range in ranges {
            self.targets.push(range.target)?;
            self.ranges.push(range_row(range))?;
        }
        Ok(())
    }

    /// Adds a switch.
    fn add(&mut self, switch: &Switch) -> Result<(), Unflat>
        ensures rows { OnOk result
            (self.new.rows.items ≡ self.old.rows.items ++ switch_row (arms switch.now) ∷ []) }
        ensures cases { OnOk result
            (self.new.cases.items ≡ self.old.cases.items ++ switch_cases switch.now) }
        ensures targets { OnOk result
            (self.new.targets.items ≡ self.old.targets.items ++ switch_targets_of switch.now) }
        ensures ranges { OnOk result
            (self.new.ranges.items ≡ self.old.ranges.items ++ switch_ranges switch.now) }
    {
        let row = switch_row(switch)?;
        self.rows.push(row)?;
        self.add_cases_of(switch)?;
        self.add_ranges(&switch.ranges)?;
        Ok(())
    }
}

/// The switches as rows.
pub(crate) fn switch_lists(alloc: Global, switches: &[Switch]) -> Result<SwitchLists, Unflat>
    ensures { IfOk result (AreSwitchLists switches.now) }
{
    let mut lists = SwitchLists::new(alloc, switches.len())?;
    for switch in switches {
        lists.add(switch)?;
    }
    Ok(lists)
}
