//! The runs of a state, and how they continue.
ghost use Rattle.std.specs.Prelude.{◌≡◌, ◌≢◌, ◌<◌, ◌≤◌, ◌↔◌, ◌++◌, ◌∷◌, ℕ, Err, IfErr, OnOk, length, vec_capacity, vec_len};
ghost use Rattle.std.specs.List.{All};
ghost use Rattle.grain.specs.Program.{Program};
ghost use Rattle.rhai_engine.specs.Ends.{IsEarly};
ghost use Rattle.rhai_engine.specs.Runs.{AreRunsOf, Continues, IsAskingRun, IsAskingSomehow, IsStageOf};
ghost use Rattle.rhai_engine.specs.Runs.{IsNewest, IsLast, IsPausedRun, KeepsStage, MayBegin};
ghost use Rattle.rhai_engine.specs.Runs.{stage_chunks, outer_chunks, run_chunks, stage_status};

use crate::event::{BeginError, Event, Slice, Status, event_of_end};
use crate::outside::Outside;
use grain_code::Chunk;
use grain_machine::{Parked, Prepared, Progress, RunLimits, Waiting};
use rhai_runtime::{Fault, Script};
use rhai_values::{Value, Walk};
use std::alloc::Global;

/// A run that waits for a call of the host.
#[derive(Drop)]
pub(crate) struct Calling {
    /// The chunk of its outermost frame.
    chunk: Chunk,
    run: Waiting<Value, Walk>,
}

/// The last run of a state.
#[derive(Drop)]
pub(crate) enum Stage {
    /// There is none.
    Empty,
    /// It can be resumed.
    Ready {
        chunk: Chunk,
        run: Parked<Value, Walk>,
    },
    /// It waits for a call of the host.
    Asking(Calling),
}

/// Continues a run for as many turns as the fuel allows.
pub(crate) fn resumed(
    alloc: Global,
    prepared: &Prepared,
    script: &mut Script<Outside>,
    limits: RunLimits,
    chunk: Chunk,
    run: Parked<Value, Walk>,
) -> (Stage, Slice)
    requires { IsPausedRun prepared.now.program limits.depth chunk run }
    ensures continues { Continues prepared.now.program limits.depth chunk result.0 result.1.event }
    ensures turns { result.1.turns ≤ limits.fuel }
{
    match prepared.main().resume(alloc, run, script, limits) {
        Progress::Paused(run) => {
            let slice = Slice {
                event: Event::Paused,
                turns: limits.fuel,
            };
            (Stage::Ready { chunk, run }, slice)
        }
        Progress::Waits { run, turns } => {
            let slice = Slice {
                event: Event::Calls,
                turns,
            };
            (Stage::Asking(Calling { chunk, run }), slice)
        }
        Progress::Ended { ending, turns } => {
            let event = event_of_end(ending.outcome);
            (Stage::Empty, Slice { event, turns })
        }
    }
}

/// Has the call fail for which a run waits.
pub(crate) fn failed(
    prepared: &Prepared,
    script: &mut Script<Outside>,
    calling: Calling,
    fault: Fault,
) -> (Stage, Event)
    requires { IsAskingSomehow prepared.now.program calling }
    ensures { (depth : ℕ) → IsAskingRun prepared.now.program depth calling
        → Continues prepared.now.program depth calling.chunk result.0 result.1 }
{
    let Calling { chunk, run } = calling;
    match prepared.main().fail(script, run, fault) {
        Ok(run) => (Stage::Ready { chunk, run }, Event::Paused),
        Err(ending) => (Stage::Empty, event_of_end(ending.outcome)),
    }
}

/// Answers the call for which a run waits. If the limits don't allow the value, the call fails.
pub(crate) fn answered(
    prepared: &Prepared,
    script: &mut Script<Outside>,
    calling: Calling,
    value: Value,
) -> (Stage, Event)
    requires { IsAskingSomehow prepared.now.program calling }
    ensures { (depth : ℕ) → IsAskingRun prepared.now.program depth calling
        → Continues prepared.now.program depth calling.chunk result.0 result.1 }
{
    match script.answered(value) {
        Ok(value) => {
            let Calling { chunk, run } = calling;
            let rest = prepared.main().answer(script, run, value);
            (Stage::Ready { chunk, run: rest }, Event::Paused)
        }
        Err(fault) => failed(prepared, script, calling, fault),
    }
}

/// The last run of a state, if a run is so far that was the last. If it has ended, the run outside it is the last again.
pub(crate) fn continued(
    script: &mut Script<Outside>,
    outer: &mut Vec<Calling>,
    stage: Stage,
) -> Stage
    ensures runs { run_chunks result outer.new.items ≡ stage_chunks stage ++ outer_chunks outer.old.items }
    ensures keeps { KeepsStage stage result }
    ensures held { (program : Program) (depth : ℕ) → IsStageOf program depth stage
        → All (IsAskingRun program depth) outer.old.items
        → AreRunsOf program depth result outer.new.items }
{
    match stage {
        Stage::Empty => {
            script.end_run();
            match outer.pop() {
                Some(calling) => Stage::Asking(calling),
                None => Stage::Empty,
            }
        }
        stage => stage,
    }
}

/// Whether a run of a function may begin, of which nothing else is known.
pub(crate) fn may_begin(last: &Stage, outer: &Vec<Calling>, runs: usize) -> Result<(), BeginError>
    requires { IsLast last.now outer.now.items }
    ensures ok { OnOk result (MayBegin last.now) }
    ensures busy { (result ≡ Err BeginError.Busy) ↔ (stage_status last.now ≡ Status.Ready) }
    ensures room { OnOk result (length (run_chunks last.now outer.now.items) ≤ runs) }
    ensures full { (result ≡ Err BeginError.TooManyRuns)
        ↔ ((stage_status last.now ≢ Status.Ready)
        × (runs < length (run_chunks last.now outer.now.items))) }
    ensures early { IfErr result IsEarly }
{
    match last {
        Stage::Empty => Ok(()),
        Stage::Ready { .. } => Err(BeginError::Busy),
        Stage::Asking(_) => {
            if outer.len() < runs {
                Ok(())
            } else {
                Err(BeginError::TooManyRuns)
            }
        }
    }
}

/// A run of a function is the last. If a run waits that was the last, it is outside now.
pub(crate) fn begun(
    last: Stage,
    outer: &mut Vec<Calling>,
    chunk: Chunk,
    run: Parked<Value, Walk>,
) -> Stage
    requires reserved { vec_len outer.old < vec_capacity outer.old }
    ensures stage { IsNewest result chunk run }
    ensures runs { MayBegin last
        → run_chunks result outer.new.items ≡ chunk ∷ run_chunks last outer.old.items }
    ensures waiting { (program : Program) (depth : ℕ) → IsStageOf program depth last
        → All (IsAskingRun program depth) outer.old.items
        → All (IsAskingRun program depth) outer.new.items }
{
    match last {
        Stage::Asking(calling) => {
            outer.push_reserved(calling);
            Stage::Ready { chunk, run }
        }
        Stage::Ready { .. } | Stage::Empty => Stage::Ready { chunk, run },
    }
}
