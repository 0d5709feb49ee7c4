//! The test of code: whether it is whole instructions, each with its indices in bounds.
//!
//! It covers all bytes, also those that no run reaches, and comes before the walk: then the walk may read any instruction that it
//! reaches without a test.
ghost use Rattle.std.specs.Prelude.{◌≡◌, [], ℕ, ◌+◌, ◌<◌, ◌≤◌, ◌/◌, IfErr, IfOk, OnOk, length, take};
ghost use Rattle.grain_code.specs.InstructionTable.{width_of};
ghost use Rattle.grain_code.specs.Split.{Split, StandsAt};
ghost use Rattle.grain_code.specs.declared.op.Op.{Op};
ghost use Rattle.grain_rules.specs.Accepted.{AreIndexed};
ghost use Rattle.grain_rules.specs.FirstOut.{HavePassed, alone};
ghost use Rattle.grain_rules.specs.Flaw.{CodeFlaw};
ghost use Rattle.grain_rules.specs.Setting.{Setting, with_caps};

use crate::bounds::word_of;
use crate::error::VerifyError;
use crate::front::Front;
use crate::indices::check_op;
use crate::passed::{FEW_WORDS, Passed, WORDS};
use crate::read::Read;
use crate::unindexed::unindexed_width;
use grain_code::{Growing, Instruction, Pool, Starts};

/// The result of the test of code.
#[derive(Drop)]
pub(crate) struct Tested<F: Drop> {
    /// The front of the code up to which it passes.
    pub(crate) front: F,
    /// Whether all of it passes.
    pub(crate) result: Result<(), VerifyError>,
}

/// The result of [`start_code`].
#[derive(Drop)]
pub struct Started {
    /// The starts of the code, if it passes.
    pub starts: Starts,
    /// Whether the code passes.
    pub tested: Result<(), VerifyError>,
}

/// Takes in the instructions without an index that follow a front one after another.
#[inline(always)]
fn skip_unindexed<F: Front>(code: &[u8], front: F) -> F
    requires inside { F.end_of front ≤ length code.now }
    requires room { F.HasRoom code.now front }
    requires is { F.IsOf code.now front }
    ensures further { F.end_of front ≤ F.end_of result }
    ensures inside { F.end_of result ≤ length code.now }
    ensures room { F.HasRoom code.now result }
    ensures is { F.IsOf code.now result }
    ensures indexed { (s : Setting) → AreIndexed s (take (F.end_of front) code.now)
        → AreIndexed s (take (F.end_of result) code.now) }
{
    let mut front = front;
    while let Some(width) = unindexed_width(code, front.end()) {
        let next = front.end() + width;
        front.push(next);
    }
    front
}

/// Where the next instruction begins, once the one at an address has been tested.
#[inline(always)]
pub(crate) fn check_at<P: Read, const N: usize>(
    pools: &P,
    passed: &mut Passed<N>,
    code: &[u8],
    at: usize,
) -> Result<usize, VerifyError>
    requires passed { HavePassed (P.facts pools.now) passed.old.chains passed.old.switches }
    requires inside { at < length code.now }
    requires front { AreIndexed (alone (P.facts pools.now)) (take at code.now) }
    ensures passed { HavePassed (P.facts pools.now) passed.new.chains passed.new.switches }
    ensures further { IfOk result (λ next. (at < next) × (next ≤ length code.now)) }
    ensures ok { IfOk result (λ next. AreIndexed (alone (P.facts pools.now)) (take next code.now)) }
    ensures stands { IfOk result (λ next. (op : Op) × StandsAt code.now at op
        × (next ≡ at + width_of op)) }
    ensures err { IfErr result (λ e. CodeFlaw (alone (P.facts pools.now)) code.now e) }
{
    let Some(instruction) = Instruction::at(code, at) else {
        return Err(VerifyError::Undecodable { at });
    };
    let Some(op) = instruction.op() else {
        unreachable!();
    };
    match check_op(pools, passed, &op) {
        Ok(()) => Ok(at + instruction.width()),
        Err(bad) => Err(VerifyError::BadIndex {
            at,
            what: word_of(bad.bound),
            index: bad.index,
        }),
    }
}

/// Tests what follows a front at the begin of the code, if what has passed is known to pass.
fn test_instructions<P: Read, F: Front, const N: usize>(
    pools: &P,
    passed: &mut Passed<N>,
    code: &[u8],
    front: F,
) -> Tested<F>
    requires passed { HavePassed (P.facts pools.now) passed.old.chains passed.old.switches }
    requires begun { F.end_of front ≡ 0 }
    requires room { F.HasRoom code.now front }
    requires is { F.IsOf code.now front }
    ensures ok { OnOk result.result (AreIndexed (alone (P.facts pools.now)) code.now) }
    ensures is { OnOk result.result (F.IsOf code.now result.front) }
    ensures whole { OnOk result.result (F.end_of result.front ≡ length code.now) }
    ensures err { IfErr result.result (λ e. CodeFlaw (alone (P.facts pools.now)) code.now e) }
{
    let mut front = skip_unindexed(code, front);
    while front.end() < code.len() {
        match check_at(pools, passed, code, front.end()) {
            Ok(next) => front.push(next),
            Err(error) => {
                return Tested {
                    front,
                    result: Err(error),
                };
            }
        }
        front = skip_unindexed(code, front);
    }
    Tested {
        front,
        result: Ok(()),
    }
}

/// Tests the same over pools of 256 chains and switches at most. It is compiled apart: if one function has sets of both
/// sizes, the larger is cleared in each call.
#[inline(never)]
#[tactic(auto, using(crate::proofs::PassedEntries::none_passed))]
fn test_by_few_words<P: Read, F: Front>(pools: &P, code: &[u8], front: F) -> Tested<F>
    requires begun { F.end_of front ≡ 0 }
    requires room { F.HasRoom code.now front }
    requires is { F.IsOf code.now front }
    ensures ok { OnOk result.result (AreIndexed (alone (P.facts pools.now)) code.now) }
    ensures is { OnOk result.result (F.IsOf code.now result.front) }
    ensures whole { OnOk result.result (F.end_of result.front ≡ length code.now) }
    ensures err { IfErr result.result (λ e. CodeFlaw (alone (P.facts pools.now)) code.now e) }
{
    test_instructions(pools, &mut Passed::<FEW_WORDS>::new(), code, front)
}

/// Tests the same over pools of any size. It is compiled apart for the same reason.
#[inline(never)]
#[tactic(auto, using(crate::proofs::PassedEntries::none_passed))]
fn test_by_all_words<P: Read, F: Front>(pools: &P, code: &[u8], front: F) -> Tested<F>
    requires begun { F.end_of front ≡ 0 }
    requires room { F.HasRoom code.now front }
    requires is { F.IsOf code.now front }
    ensures ok { OnOk result.result (AreIndexed (alone (P.facts pools.now)) code.now) }
    ensures is { OnOk result.result (F.IsOf code.now result.front) }
    ensures whole { OnOk result.result (F.end_of result.front ≡ length code.now) }
    ensures err { IfErr result.result (λ e. CodeFlaw (alone (P.facts pools.now)) code.now e) }
{
    test_instructions(pools, &mut Passed::<WORDS>::new(), code, front)
}

/// Tests all that follows a front at the begin of the code.
#[inline(always)]
#[tactic(auto, using(crate::proofs::IndexedCode::code_any, crate::proofs::IndexedCode::flaw_any, crate::proofs::PassedEntries::none_passed))]
fn test_code<P: Read, F: Front>(pools: &P, code: &[u8], front: F) -> Tested<F>
    requires begun { F.end_of front ≡ 0 }
    requires room { F.HasRoom code.now front }
    requires is { F.IsOf code.now front }
    ensures ok { OnOk result.result
        ((caps : ℕ) → AreIndexed (with_caps caps (P.facts pools.now)) code.now) }
    ensures is { OnOk result.result (F.IsOf code.now result.front) }
    ensures whole { OnOk result.result (F.end_of result.front ≡ length code.now) }
    ensures err { IfErr result.result
        (λ e. (caps : ℕ) → CodeFlaw (with_caps caps (P.facts pools.now)) code.now e) }
{
    let entries = pools.size(Pool::Chains).max(pools.size(Pool::Switches));
    if entries == 0 {
        test_instructions(pools, &mut Passed::<0>::new(), code, front)
    } else if entries <= 64 * FEW_WORDS {
        test_by_few_words(pools, code, front)
    } else {
        test_by_all_words(pools, code, front)
    }
}

/// Tests that the code is instructions from its start to its end, each with its indices in bounds. What many
/// instructions name is tested once, if a bit remembers that it has passed. It takes no memory.
///
/// # Errors
/// `Undecodable` and `BadIndex`, of the first instruction that doesn't pass and its first index that is out of bounds.
/// Of the cases of a switch any such index may be named.
pub fn check_code<P: Read>(pools: &P, code: &[u8]) -> Result<(), VerifyError>
    ensures ok { OnOk result ((caps : ℕ) → AreIndexed (with_caps caps (P.facts pools.now)) code.now) }
    ensures err { IfErr result
        (λ e. (caps : ℕ) → CodeFlaw (with_caps caps (P.facts pools.now)) code.now e) }
{
    test_code(pools, code, 0usize).result
}

/// Tests what [`check_code`] tests, with the same errors, and writes down where the instructions begin. The code is read once:
/// to test it first and to look for its starts afterwards would read it twice. It takes no memory.
#[inline(always)]
pub fn start_code<P: Read>(pools: &P, code: &[u8], growing: Growing) -> Started
    requires begun { growing.end ≡ 0 }
    requires none { growing.starts ≡ [] }
    requires room { length code.now / 64 < growing.room }
    ensures ok { OnOk result.tested
        ((caps : ℕ) → AreIndexed (with_caps caps (P.facts pools.now)) code.now) }
    ensures starts { OnOk result.tested (Split code.now result.starts.starts) }
    ensures err { IfErr result.tested
        (λ e. (caps : ℕ) → CodeFlaw (with_caps caps (P.facts pools.now)) code.now e) }
{
    let Tested { front, result } = test_code(pools, code, growing);
    Started {
        starts: front.finish(),
        tested: result,
    }
}
