//! What verification reads of `Pools`: the instance of `Read` for hosts in Rattle. Those in C and Rust
//! have flat rows, which are read in place by `grain_flat`.
ghost use Rattle.std.specs.Prelude.{◌≡◌, ◌<◌, ◌≤◌, ◌++◌, ◌∷◌, [], IfNone, IfSome, get_or, length, map, option_map, slice_get};
ghost use Rattle.std.specs.List.{flat_map};
ghost use Rattle.std.specs.Option.{option_to_list};
ghost use Rattle.grain_pools.specs.Dispatch.{Case, first_past, listed};
ghost use Rattle.grain_pools.specs.declared.switch.SwitchRange.{SwitchRange};
ghost use Rattle.grain_rules.specs.Code.{switch_targets};
ghost use Rattle.grain_rules.specs.Facts.{Entry, case_consts, chain_facts, facts_of, root_mentions, step_mentions, tail_mentions};
ghost use Rattle.grain_rules.specs.FirstOut.{alone, first_out, refused};
ghost use Rattle.grain_rules.specs.Indices.{size, test_of};
ghost use Rattle.grain_rules.specs.Setting.{unset};

use crate::asks::{chain_caps, name_caps};
use crate::bounds::{BadIndex, check_among, check_below};
use crate::pools::Pools;
use crate::read::{Read, Targets};
use grain_base::{Caps, Dynamic, Flags};
use grain_code::Pool;
use grain_pools::{Chain, Root, Step, Switch, SwitchRange, Tail};
use std::collections::HashMap;
use std::collections::hash_map::Iter;

/// The chain of an index, if there is one. It is cut for the prover alone.
#[inline(always)]
fn chain_at(chains: &[Chain], index: u32) -> Option<&Chain>
    ensures { option_map (λ c. c.now) result ≡ slice_get chains.now index }
{
    chains.get(index as usize)
}

/// The switch of an index, if there is one. It is cut for the prover alone.
#[inline(always)]
fn switch_at(switches: &[Switch], index: u32) -> Option<&Switch>
    ensures found { IfSome result (λ s. (index < length switches.now)
        × (get_or (map switch_targets switches.now) index [] ≡ switch_targets s.now)) }
    ensures none { IfNone result (length switches.now ≤ index) }
{
    switches.get(index as usize)
}

/// How many a pool has; of custom syntax sites there are none.
#[inline(always)]
fn size_of(pools: &Pools<'_>, pool: Pool) -> usize
    ensures { result ≡ size (alone (facts_of pools.now)) pool }
{
    match pool {
        Pool::Constants => pools.consts,
        Pool::Names => pools.names.len(),
        Pool::Operators => pools.tokens,
        Pool::OpAssignments => pools.assign_ops,
        Pool::Fragments => pools.residuals,
        Pool::Chains => pools.chains.len(),
        Pool::Switches => pools.switches.len(),
        Pool::SyntaxSites => 0,
    }
}

/// Tests an index of a chain into a pool.
fn check(pools: &Pools<'_>, pool: Pool, index: u32) -> Result<(), BadIndex>
    ensures { refused result
        ≡ first_out (test_of (alone (facts_of pools.now)) (Entry pool index) ∷ []) }
{
    check_below(size_of(pools, pool), pool, index)
}

fn check_root(pools: &Pools<'_>, root: &Root) -> Result<(), BadIndex>
    ensures { refused result
        ≡ first_out (map (test_of (alone (facts_of pools.now))) (root_mentions root.now)) }
{
    match root {
        Root::Local { name, .. } | Root::Named { name, .. } => check(pools, Pool::Names, *name),
        Root::This { .. } | Root::Temporary => Ok(()),
    }
}

/// Tests the names of a step, and then the last operand that it takes.
fn check_step(pools: &Pools<'_>, operands: u16, step: &Step) -> Result<(), BadIndex>
    ensures { refused result
        ≡ first_out (map (test_of (alone (facts_of pools.now))) (step_mentions operands step.now)) }
{
    match step {
        Step::Index { operand, .. } => check_among(operands, u32::from(*operand)),
        Step::Property {
            name,
            getter,
            setter,
            ..
        } => {
            check(pools, Pool::Names, *name)?;
            check(pools, Pool::Names, *getter)?;
            check(pools, Pool::Names, *setter)
        }
        Step::Method {
            name,
            argc,
            operand,
            ..
        } => {
            check(pools, Pool::Names, *name)?;
            if *argc == 0 {
                return Ok(());
            }
            check_among(operands, u32::from(*operand) + u32::from(*argc) - 1)
        }
    }
}

#[tactic(auto, using(crate::proofs::IndexTests::mentions_append))]
fn check_steps(pools: &Pools<'_>, operands: u16, steps: &[Step]) -> Result<(), BadIndex>
    ensures { refused result ≡ first_out (map (test_of (alone (facts_of pools.now)))
        (flat_map (step_mentions operands) steps.now)) }
{
    for step in steps {
        check_step(pools, operands, step)?;
    }
    Ok(())
}

fn check_tail(pools: &Pools<'_>, tail: &Tail) -> Result<(), BadIndex>
    ensures { refused result
        ≡ first_out (map (test_of (alone (facts_of pools.now))) (tail_mentions tail.now)) }
{
    match tail {
        Tail::Assign { op: Some(op) } => check(pools, Pool::OpAssignments, *op),
        Tail::Read | Tail::Assign { op: None } => Ok(()),
    }
}

/// Tests what the root and the steps of a chain name.
#[tactic(auto, using(crate::proofs::IndexTests::mentions_append))]
fn check_front(pools: &Pools<'_>, chain: &Chain) -> Result<(), BadIndex>
    ensures { refused result ≡ first_out (map (test_of (alone (facts_of pools.now)))
        (root_mentions chain.now.root
        ++ flat_map (step_mentions chain.now.operands) chain.now.steps.items)) }
{
    check_root(pools, &chain.root)?;
    check_steps(pools, chain.operands, &chain.steps)
}

/// Tests what a chain names.
fn check_inside(pools: &Pools<'_>, chain: &Chain) -> Result<(), BadIndex>
    ensures { refused result
        ≡ first_out (map (test_of (alone (facts_of pools.now))) (chain_facts chain.now).mentions) }
{
    check_front(pools, chain)?;
    check_tail(pools, &chain.tail)
}

/// A constant of a case that is at or above the number of constants, if there is one.
fn bad_case(cases: &HashMap<Dynamic, (u32, u32)>, consts: usize) -> Option<u32>
    ensures { result ≡ first_past consts (map (λ c. c.1.1) cases.now.entries) }
{
    for (_, (_, constant)) in cases {
        if *constant as usize >= consts {
            return Some(*constant);
        }
    }
    None
}

/// A constant of a switch's case that is at or above the number of constants, if there is one.
fn bad_constant_in(switch: &Switch, consts: usize) -> Option<u32>
    ensures { result ≡ first_past consts (case_consts switch.now) }
{
    bad_case(switch.cases.as_ref()?, consts)
}

/// The targets of a switch that are left: those of its cases, those of its ranges, and where it leads by default.
#[derive(Drop)]
pub struct SwitchTargets<'a> {
    cases: Option<Iter<'a, Dynamic, (u32, u32)>>,
    ranges: &'a [SwitchRange],
    default: Option<u32>,
}

impl Targets for SwitchTargets<'_> {
    ghost left = { λ s. map (λ (c : Case). c.1.0) (listed s.cases)
        ++ map (λ (r : SwitchRange). r.target) s.ranges.now ++ option_to_list s.default };

    #[inline(always)]
    fn next(&mut self) -> Option<u32> {
        if let Some(cases) = &mut self.cases {
            if let Some((_, (target, _))) = cases.next() {
                return Some(*target);
            }
        }
        if let Some((first, rest)) = self.ranges.split_first() {
            self.ranges = rest;
            return Some(first.target);
        }
        self.default.take()
    }
}

impl<'a> Read for Pools<'a> {
    ghost facts = { facts_of };

    ghost leads = { λ p. map switch_targets p.switches.now };

    type Leads = SwitchTargets<'a>;

    #[inline(always)]
    fn size(&self, pool: Pool) -> usize {
        size_of(self, pool)
    }

    #[inline(always)]
    fn switches(&self) -> usize {
        self.switches.len()
    }

    fn name_asks(&self, name: u32) -> Caps {
        match self.names.get(name) {
            Some(name) => name_caps(name),
            None => Caps::empty(),
        }
    }

    fn chain_takes(&self, chain: u32) -> u32 {
        match chain_at(self.chains, chain) {
            Some(chain) => chain.consumes() as u32,
            None => 0,
        }
    }

    fn chain_asks(&self, chain: u32) -> Caps {
        match chain_at(self.chains, chain) {
            Some(chain) => chain_caps(chain),
            None => Caps::empty(),
        }
    }

    fn check_chain(&self, chain: u32) -> Result<(), BadIndex> {
        match chain_at(self.chains, chain) {
            Some(chain) => check_inside(self, chain),
            None => Ok(()),
        }
    }

    fn bad_constant(&self, switch: u32) -> Option<u32> {
        bad_constant_in(self.switches.get(switch as usize)?, self.consts)
    }

    #[inline(always)]
    fn targets(&self, switch: u32) -> SwitchTargets<'a> {
        match self.switches.get(switch as usize) {
            Some(switch) => SwitchTargets {
                cases: match &switch.cases {
                    Some(cases) => Some(cases.iter()),
                    None => None,
                },
                ranges: &switch.ranges,
                default: Some(switch.default),
            },
            None => SwitchTargets {
                cases: None,
                ranges: &[],
                default: None,
            },
        }
    }

    #[inline(always)]
    fn default_target(&self, switch: u32) -> Option<u32> {
        match switch_at(self.switches, switch) {
            Some(switch) => Some(switch.default),
            None => None,
        }
    }
}

/// No pools: none has an entry.
#[derive(Clone, Copy)]
pub struct NoPools;

impl Read for NoPools {
    ghost facts = { λ p. unset.facts };

    ghost leads = { λ p. [] };

    type Leads = SwitchTargets<'static>;

    fn size(&self, _: Pool) -> usize {
        0
    }

    fn switches(&self) -> usize {
        0
    }

    fn name_asks(&self, _: u32) -> Caps {
        Caps::empty()
    }

    fn chain_takes(&self, _: u32) -> u32 {
        0
    }

    fn chain_asks(&self, _: u32) -> Caps {
        Caps::empty()
    }

    fn check_chain(&self, _: u32) -> Result<(), BadIndex> {
        Ok(())
    }

    fn bad_constant(&self, _: u32) -> Option<u32> {
        None
    }

    fn targets(&self, _: u32) -> SwitchTargets<'static> {
        SwitchTargets {
            cases: None,
            ranges: &[],
            default: None,
        }
    }

    fn default_target(&self, _: u32) -> Option<u32> {
        None
    }
}
