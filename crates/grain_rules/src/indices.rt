//! Indices into pools and among the operands of chains.
ghost use Rattle.std.specs.Prelude.{◌≡◌, [], ◌∷◌, ◌<◌, IfErr, OnOk, get_or, map};
ghost use Rattle.std.specs.Option.{option_to_list};
ghost use Rattle.grain_rules.specs.Facts.{Entry};
ghost use Rattle.grain_pools.specs.Dispatch.{first_past};
ghost use Rattle.grain_code.specs.declared.field.Pool.{Pool};
ghost use Rattle.grain_code.specs.declared.op.Op.{Op};
ghost use Rattle.grain_rules.specs.FirstOut.{CasesPass, ChainsPass, HavePassed, alone, bound_word, first_out};
ghost use Rattle.grain_rules.specs.FirstOut.{receiver_mentions, refused, tests_inside};
ghost use Rattle.grain_rules.specs.Indices.{Indexed, IsOut, cases_of, test_of, tests_of};

use crate::bounds::{BadIndex, Bound, check_below};
use crate::passed::{Passed, add_passed, has_passed};
use crate::read::Read;
use grain_code::{Op, Pool, Receiver};

/// Tests an index against the size of its pool.
fn check<P: Read>(pools: &P, pool: Pool, index: u32) -> Result<(), BadIndex>
    ensures { refused result
        ≡ first_out (test_of (alone (P.facts pools.now)) (Entry pool index) ∷ []) }
{
    check_below(pools.size(pool), pool, index)
}

/// Tests an index if there is one.
fn check_some<P: Read>(pools: &P, pool: Pool, index: Option<u32>) -> Result<(), BadIndex>
    ensures { refused result ≡ first_out (map (test_of (alone (P.facts pools.now)))
        (map (Entry pool) (option_to_list index))) }
{
    match index {
        Some(index) => check(pools, pool, index),
        None => Ok(()),
    }
}

/// Tests the index of a chain, and those inside the chain, unless they have passed before.
#[tactic(auto, using(crate::proofs::PassedEntries::chains_more))]
fn check_chain_at<P: Read>(pools: &P, passed: &mut [u64], index: u32) -> Result<(), BadIndex>
    requires { ChainsPass (P.facts pools.now) passed.old }
    ensures passed { ChainsPass (P.facts pools.now) passed.new }
    ensures refused { refused result
        ≡ first_out (test_of (alone (P.facts pools.now)) (Entry Pool.Chains index)
        ∷ tests_inside (P.facts pools.now) index) }
{
    check(pools, Pool::Chains, index)?;
    if !has_passed(passed, index) {
        pools.check_chain(index)?;
        add_passed(passed, index);
    }
    Ok(())
}

/// Tests the name of a receiver that has one.
fn check_receiver<P: Read>(pools: &P, receiver: Receiver) -> Result<(), BadIndex>
    ensures { refused result ≡ first_out (map (test_of (alone (P.facts pools.now))) (receiver_mentions receiver)) }
{
    match receiver {
        Receiver::Named(name) => check(pools, Pool::Names, name),
        Receiver::Local(_) | Receiver::This => Ok(()),
    }
}

/// Tests the indices of an operation, and those inside the chain that it names.
fn check_fields<P: Read>(pools: &P, passed: &mut [u64], op: &Op) -> Result<(), BadIndex>
    requires { ChainsPass (P.facts pools.now) passed.old }
    ensures passed { ChainsPass (P.facts pools.now) passed.new }
    ensures refused { refused result ≡ first_out (tests_of (alone (P.facts pools.now)) op.now) }
{
    match *op {
        Op::Const(constant) => check(pools, Pool::Constants, constant),
        Op::LoadNamed(name)
        | Op::DeclareLocal { name, .. }
        | Op::ShareNamed(name)
        | Op::LoadSharedNamed(name)
        | Op::MakeClosure(name)
        | Op::ExportLocal { alias: name, .. }
        | Op::Import { alias: name } => check(pools, Pool::Names, name),
        Op::ExportNamed { name, alias } => {
            check(pools, Pool::Names, name)?;
            check(pools, Pool::Names, alias)
        }
        Op::AssignNamed { name, op }
        | Op::AssignLocal {
            var_name: name,
            op,
            ..
        } => {
            check(pools, Pool::Names, name)?;
            check_some(pools, Pool::OpAssignments, op)
        }
        Op::AssignThis { op } => check_some(pools, Pool::OpAssignments, op),
        Op::Call { name, op, .. } => {
            check(pools, Pool::Names, name)?;
            check_some(pools, Pool::Operators, op)
        }
        Op::CallRef { name, receiver, .. } => {
            check(pools, Pool::Names, name)?;
            check_receiver(pools, receiver)
        }
        Op::CallFnPtr {
            receiver: Some(receiver),
            ..
        } => check_receiver(pools, receiver),
        Op::PushHandler { catch_var, .. } => check_some(pools, Pool::Names, catch_var),
        Op::EvalAst { residual, .. } => check(pools, Pool::Fragments, residual),
        Op::Chain(chain) => check_chain_at(pools, passed, chain),
        Op::Switch(switch) => check(pools, Pool::Switches, switch),
        Op::CustomSyntax(site) => check(pools, Pool::SyntaxSites, site),
        _ => Ok(()),
    }
}

/// A constant of a case, of the switch at an index, that is at or above the number of constants, if there is one. If
/// these cases have passed before, there is none.
#[tactic(auto, using(crate::proofs::PassedEntries::cases_more))]
fn bad_constant_at<P: Read>(pools: &P, passed: &mut [u64], index: u32) -> Option<u32>
    requires { CasesPass (P.facts pools.now) passed.old }
    ensures passed { CasesPass (P.facts pools.now) passed.new }
    ensures past { result ≡ first_past (P.facts pools.now).consts
        (get_or (P.facts pools.now).cases index []) }
{
    if has_passed(passed, index) {
        return None;
    }
    let bad = pools.bad_constant(index);
    if bad.is_none() {
        add_passed(passed, index);
    }
    bad
}

/// A constant of a case, of the switch that an operation names, that is at or above the number of constants, if there is
/// one.
fn bad_constant_of<P: Read>(pools: &P, passed: &mut [u64], op: &Op) -> Option<u32>
    requires { CasesPass (P.facts pools.now) passed.old }
    ensures passed { CasesPass (P.facts pools.now) passed.new }
    ensures past { result ≡ first_past (P.facts pools.now).consts (cases_of (alone (P.facts pools.now)) op.now) }
{
    let Op::Switch(index) = op else {
        return None;
    };
    bad_constant_at(pools, passed, *index)
}

/// Tests every index of an operation: its own, those inside the chain that it names, and those of the cases of its switch.
#[tactic(auto, using(crate::proofs::IndexTests::indexed, crate::proofs::IndexTests::index_out, crate::proofs::IndexTests::case_out))]
#[inline(always)]
pub(crate) fn check_op<P: Read, const N: usize>(
    pools: &P,
    passed: &mut Passed<N>,
    op: &Op,
) -> Result<(), BadIndex>
    requires { HavePassed (P.facts pools.now) passed.old.chains passed.old.switches }
    ensures passed { HavePassed (P.facts pools.now) passed.new.chains passed.new.switches }
    ensures ok { OnOk result (Indexed (alone (P.facts pools.now)) op.now) }
    ensures err { IfErr result
        (λ bad. IsOut (alone (P.facts pools.now)) op.now (bound_word bad.bound) bad.index) }
{
    check_fields(pools, &mut passed.chains, op)?;
    match bad_constant_of(pools, &mut passed.switches, op) {
        Some(index) => Err(BadIndex {
            bound: Bound::Pool(Pool::Constants),
            index,
        }),
        None => Ok(()),
    }
}
