//! What verification reads of a flat form, where it stands: no pools are made of it.
ghost use Rattle.std.specs.Prelude.{◌≡◌, ◌+◌, ◌≤◌, ◌<◌, ◌^◌, ◌++◌, ◌∷◌, [], IfNone, OnOk, Some, length, map, option_map, drop, slice_get, sum_by, take};
ghost use Rattle.std.specs.List.{flat_map};
ghost use Rattle.grain_pools.specs.Dispatch.{first_past};
ghost use Rattle.grain_rules.specs.Facts.{Entry};
ghost use Rattle.grain_rules.specs.FirstOut.{alone, first_out, refused};
ghost use Rattle.grain_rules.specs.Indices.{size, test_of};
ghost use Rattle.grain_pools.specs.Names.{names_in};
ghost use Rattle.grain_flat.specs.Flat.{IsFlat};
ghost use Rattle.grain_flat.specs.RowFacts.{part_begins, chain_by_rows, chains_by_rows, facts_by_rows, leads_of, parts, root_asked, root_by_row};
ghost use Rattle.grain_flat.specs.RowFacts.{step_asked, step_by_row, tail_by_row, taken};
ghost use Rattle.grain_flat.specs.RowTables.{AreTables, left_of};

use crate::records::{CCase, CChain, CPools, CStep, CSwitch};
use crate::shapes::{ASSIGN_THROUGH, INDEX, LOCAL, NAMED, PROPERTY, READ, TEMPORARY, THIS};
use grain_base::{Caps, Flags};
use grain_code::Pool;
use grain_pools::{start_at, text_in};
use grain_rules::{BadIndex, Read, Targets, check_among, check_below, name_caps};
use std::alloc::{AllocError, Global};
use std::marker::Model;

/// Where the arms of a switch begin, among those of all switches.
#[derive(Clone, Copy)]
pub(crate) struct ArmsBegin {
    /// Its cases.
    cases: usize,
    /// Its ranges.
    ranges: usize,
}

/// Where the steps of each chain and the arms of each switch begin.
#[derive(Drop)]
pub(crate) struct Tables {
    pub(crate) steps: Vec<usize>,
    pub(crate) arms: Vec<ArmsBegin>,
}

impl Tables {
    /// Of no chains and no switches. They take no memory.
    #[inline(always)]
    pub(crate) fn new(alloc: Global) -> Tables {
        Tables {
            steps: Vec::new(alloc),
            arms: Vec::new(alloc),
        }
    }

    /// Fills them for a flat form.
    ///
    /// # Errors
    /// [`AllocError`] if the memory was refused.
    pub(crate) fn fill(&mut self, pools: &CPools<'_>) -> Result<(), AllocError>
        requires { IsFlat pools.now }
        ensures { OnOk result (AreTables pools.now self.new.steps.items self.new.arms.items) }
    {
        fill_steps(&mut self.steps, pools.chains)?;
        fill_arms(&mut self.arms, pools.switches)
    }
}

/// A flat form, with where the steps of each chain and the arms of each switch begin.
#[derive(Drop)]
pub(crate) struct Rows<'a> {
    pools: CPools<'a>,
    tables: Tables,
}

impl<'a> Model for Rows<'a> {
    ghost use Rattle.grain_flat.specs.RowTables.{AreTables};
    ghost use Rattle.grain_flat.specs.declared.records.CPools.{CPools};

    ghost Value = { CPools };

    ghost view = { λ r. r.pools };

    ghost invariant = { λ r. AreTables r.pools r.tables.steps.items r.tables.arms.items };
}

/// Where the steps of each chain begin.
fn fill_steps(begins: &mut Vec<usize>, rows: &[CChain]) -> Result<(), AllocError>
    requires { sum_by (λ (c : CChain). c.steps) rows.now < 2 ^ 64 }
    ensures { OnOk result
        (begins.new.items ≡ part_begins (λ (c : CChain). c.steps) 0 rows.now) }
{
    begins.clear();
    begins.try_reserve_exact(rows.len())?;
    let mut from = 0;
    for row in rows {
        begins.push(from)?;
        from += row.steps as usize;
    }
    Ok(())
}

/// Where the arms of each switch begin.
fn fill_arms(begins: &mut Vec<ArmsBegin>, rows: &[CSwitch]) -> Result<(), AllocError>
    requires cases { sum_by (λ (s : CSwitch). s.cases) rows.now < 2 ^ 64 }
    requires ranges { sum_by (λ (s : CSwitch). s.ranges) rows.now < 2 ^ 64 }
    ensures cases { OnOk result (map (λ (b : ArmsBegin). b.cases) begins.new.items
        ≡ part_begins (λ (s : CSwitch). s.cases) 0 rows.now) }
    ensures ranges { OnOk result (map (λ (b : ArmsBegin). b.ranges) begins.new.items
        ≡ part_begins (λ (s : CSwitch). s.ranges) 0 rows.now) }
{
    begins.clear();
    begins.try_reserve_exact(rows.len())?;
    let mut cases = 0;
    let mut ranges = 0;
    for row in rows {
        begins.push(ArmsBegin { cases, ranges })?;
        cases += row.cases as usize;
        ranges += row.ranges as usize;
    }
    Ok(())
}

/// What a root asks.
fn root_asks(row: &CChain) -> Caps
    ensures { result.0 ≡ root_asked row.now }
{
    if row.root == THIS {
        Caps::THIS
    } else {
        Caps::empty()
    }
}

/// What a step asks.
fn step_asks(row: &CStep) -> Caps
    ensures { result.0 ≡ step_asked row.now }
{
    match row.kind {
        INDEX => Caps::INDEXING,
        PROPERTY => Caps::PROPERTY,
        _ => Caps::METHOD,
    }
}

/// What a chain asks.
fn chain_asks(row: &CChain, steps: &[CStep]) -> Caps
    ensures { result.0 ≡ (chain_by_rows row.now steps.now).asks }
{
    let mut all = root_asks(row);
    for step in steps {
        all = all.union(step_asks(step));
    }
    all
}

/// How many operands a chain takes.
fn taken(row: &CChain) -> u32
    ensures { result ≡ taken row.now }
{
    u32::from(row.operands) + u32::from(row.root == TEMPORARY) + u32::from(row.tail != READ)
}

/// How many a pool has; of custom syntax sites there are none.
#[inline(always)]
#[tactic(auto, using(crate::proofs::RowEntries::names_long, crate::proofs::RowEntries::chains_long, crate::proofs::RowEntries::cases_long))]
fn size_of(pools: &CPools<'_>, pool: Pool) -> usize
    requires { IsFlat pools.now }
    ensures { result ≡ size (alone (facts_by_rows pools.now)) pool }
{
    match pool {
        Pool::Constants => pools.constants.len(),
        Pool::Names => pools.starts.len() - 1,
        Pool::Operators => pools.operators,
        Pool::OpAssignments => pools.op_assignments,
        Pool::Fragments => pools.fragments,
        Pool::Chains => pools.chains.len(),
        Pool::Switches => pools.switches.len(),
        Pool::SyntaxSites => 0,
    }
}

/// The entry at an index, if there is one. It is cut for the prover alone.
fn entry_at<T>(all: &[T], index: usize) -> Option<&T>
    ensures entry { option_map (λ entry. entry.now) result ≡ slice_get all.now index }
    ensures none { IfNone result (length all.now ≤ index) }
{
    all.get(index)
}

/// A number of entries of a list, from one on.
fn part<T>(all: &[T], from: usize, count: u32) -> &[T]
    requires { from + count ≤ length all.now }
    ensures { result.now ≡ take count (drop from all.now) }
{
    &all[from..from + count as usize]
}

impl<'a> Rows<'a> {
    /// The pools of this flat form, beside its tables.
    pub(crate) fn new(pools: &CPools<'a>, tables: Tables) -> Rows<'a>
        requires { AreTables pools.now tables.steps.items tables.arms.items }
        ensures same { result ≡ pools.now }
        ensures small { length pools.now.steps.now < 2 ^ 63 }
    {
        Rows {
            pools: *pools,
            tables,
        }
    }

    /// The memory of its tables.
    pub(crate) fn into_tables(self) -> Tables {
        let Rows { tables, .. } = self;
        tables
    }

    /// The name at an index, if there is one.
    fn name(&self, index: u32) -> Option<&'a str>
        ensures { option_map (λ s. s.now) result
            ≡ slice_get (names_in self.now.names.now self.now.starts.now) index }
    {
        let index = index as usize;
        let from = start_at(self.pools.starts, index)?;
        let to = start_at(self.pools.starts, index + 1)?;
        Some(text_in(self.pools.names, from, to))
    }

    /// The chain at an index and its steps, if there is one.
    fn chain(&self, index: u32) -> Option<(&'a CChain, &'a [CStep])>
        ensures { option_map (λ c. chain_by_rows c.0.now c.1.now) result
            ≡ slice_get (chains_by_rows self.now.chains.now self.now.steps.now) index }
    {
        let index = index as usize;
        let row = entry_at(self.pools.chains, index)?;
        let from = self.tables.steps[index];
        Some((row, part(self.pools.steps, from, row.steps)))
    }

    /// The cases of the switch at an index, which has this row.
    fn cases_of(&self, index: usize, row: &CSwitch) -> &'a [CCase]
        requires { slice_get self.now.switches.now index ≡ Some row.now }
        ensures { slice_get (parts (λ (s : CSwitch). s.cases) self.now.switches.now
            self.now.cases.now) index ≡ Some result.now }
    {
        let from = self.tables.arms[index];
        part(self.pools.cases, from.cases, row.cases)
    }

    /// Where the ranges of the switch at an index lead, which has this row.
    fn ranges_of(&self, index: usize, row: &CSwitch) -> &'a [u32]
        requires { slice_get self.now.switches.now index ≡ Some row.now }
        ensures { slice_get (parts (λ (s : CSwitch). s.ranges) self.now.switches.now
            self.now.ranges.now) index ≡ Some result.now }
    {
        let from = self.tables.arms[index];
        part(self.pools.ranges, from.ranges, row.ranges)
    }

    /// Where the switch at an index leads, if there is one.
    fn leads(&self, index: u32) -> Option<RowTargets<'a>>
        ensures { option_map left_of result ≡ slice_get (leads_of self.now) index }
    {
        let index = index as usize;
        let row = entry_at(self.pools.switches, index)?;
        Some(RowTargets {
            cases: self.cases_of(index, row),
            ranges: self.ranges_of(index, row),
            otherwise: Some(row.otherwise),
        })
    }

    /// Tests an index into a pool.
    fn check(&self, pool: Pool, index: u32) -> Result<(), BadIndex>
        ensures { refused result
            ≡ first_out (test_of (alone (facts_by_rows self.now)) (Entry pool index) ∷ []) }
    {
        check_below(self.size(pool), pool, index)
    }

    fn check_root(&self, row: &CChain) -> Result<(), BadIndex>
        ensures { refused result
            ≡ first_out (map (test_of (alone (facts_by_rows self.now))) (root_by_row row.now)) }
    {
        if row.root == LOCAL || row.root == NAMED {
            return self.check(Pool::Names, row.root_name);
        }
        Ok(())
    }

    /// Tests the names of a step, and then the last operand that it takes.
    fn check_step(&self, operands: u16, row: &CStep) -> Result<(), BadIndex>
        ensures { refused result ≡ first_out
            (map (test_of (alone (facts_by_rows self.now))) (step_by_row operands row.now)) }
    {
        match row.kind {
            INDEX => check_among(operands, u32::from(row.operand)),
            PROPERTY => {
                self.check(Pool::Names, row.name)?;
                self.check(Pool::Names, row.getter)?;
                self.check(Pool::Names, row.setter)
            }
            _ => {
                self.check(Pool::Names, row.name)?;
                if row.argc == 0 {
                    return Ok(());
                }
                check_among(operands, u32::from(row.operand) + u32::from(row.argc) - 1)
            }
        }
    }

    #[tactic(auto, using(crate::proofs::RowTests::mentions_append))]
    fn check_steps(&self, operands: u16, rows: &[CStep]) -> Result<(), BadIndex>
        ensures { refused result ≡ first_out (map (test_of (alone (facts_by_rows self.now)))
            (flat_map (step_by_row operands) rows.now)) }
    {
        for row in rows {
            self.check_step(operands, row)?;
        }
        Ok(())
    }

    fn check_tail(&self, row: &CChain) -> Result<(), BadIndex>
        ensures { refused result
            ≡ first_out (map (test_of (alone (facts_by_rows self.now))) (tail_by_row row.now)) }
    {
        if row.tail == ASSIGN_THROUGH {
            return self.check(Pool::OpAssignments, row.op);
        }
        Ok(())
    }

    /// Tests what the root and the steps of a chain name.
    #[tactic(auto, using(crate::proofs::RowTests::mentions_append))]
    fn check_front(&self, row: &CChain, steps: &[CStep]) -> Result<(), BadIndex>
        ensures { refused result ≡ first_out (map (test_of (alone (facts_by_rows self.now)))
            (root_by_row row.now ++ flat_map (step_by_row row.now.operands) steps.now)) }
    {
        self.check_root(row)?;
        self.check_steps(row.operands, steps)
    }

    /// Tests what a chain names.
    fn check_inside(&self, row: &CChain, steps: &[CStep]) -> Result<(), BadIndex>
        ensures { refused result ≡ first_out (map (test_of (alone (facts_by_rows self.now)))
            (chain_by_rows row.now steps.now).mentions) }
    {
        self.check_front(row, steps)?;
        self.check_tail(row)
    }
}

/// A constant of a case that is at or above the number of constants, if there is one.
fn bad_case(cases: &[CCase], consts: usize) -> Option<u32>
    ensures { result ≡ first_past consts (map (λ (c : CCase). c.constant) cases.now) }
{
    for case in cases {
        if case.constant as usize >= consts {
            return Some(case.constant);
        }
    }
    None
}

/// The targets of a switch that are left: those of its cases, those of its ranges, and where it leads else.
#[derive(Drop)]
pub(crate) struct RowTargets<'a> {
    cases: &'a [CCase],
    ranges: &'a [u32],
    otherwise: Option<u32>,
}

impl Targets for RowTargets<'_> {
    ghost left = { left_of };

    #[inline(always)]
    fn next(&mut self) -> Option<u32> {
        if let Some((first, rest)) = self.cases.split_first() {
            self.cases = rest;
            return Some(first.target);
        }
        if let Some((first, rest)) = self.ranges.split_first() {
            self.ranges = rest;
            return Some(*first);
        }
        self.otherwise.take()
    }
}

impl<'a> Read for Rows<'a> {
    ghost facts = { facts_by_rows };

    ghost leads = { leads_of };

    type Leads = RowTargets<'a>;

    #[inline(always)]
    fn size(&self, pool: Pool) -> usize {
        size_of(&self.pools, pool)
    }

    #[inline(always)]
    fn switches(&self) -> usize {
        self.pools.switches.len()
    }

    fn name_asks(&self, name: u32) -> Caps {
        match self.name(name) {
            Some(name) => name_caps(name),
            None => Caps::empty(),
        }
    }

    fn chain_takes(&self, chain: u32) -> u32 {
        match self.chain(chain) {
            Some((row, _)) => taken(row),
            None => 0,
        }
    }

    fn chain_asks(&self, chain: u32) -> Caps {
        match self.chain(chain) {
            Some((row, steps)) => chain_asks(row, steps),
            None => Caps::empty(),
        }
    }

    fn check_chain(&self, chain: u32) -> Result<(), BadIndex> {
        match self.chain(chain) {
            Some((row, steps)) => self.check_inside(row, steps),
            None => Ok(()),
        }
    }

    fn bad_constant(&self, switch: u32) -> Option<u32> {
        let index = switch as usize;
        let row = entry_at(self.pools.switches, index)?;
        bad_case(self.cases_of(index, row), self.pools.constants.len())
    }

    #[inline(always)]
    fn targets(&self, switch: u32) -> RowTargets<'a> {
        match self.leads(switch) {
            Some(targets) => targets,
            None => RowTargets {
                cases: &[],
                ranges: &[],
                otherwise: None,
            },
        }
    }

    #[inline(always)]
    fn default_target(&self, switch: u32) -> Option<u32> {
        match entry_at(self.pools.switches, switch as usize) {
            Some(row) => Some(row.otherwise),
            None => None,
        }
    }
}
