//! Runs, and the calls for which they wait.
ghost use Rattle.std.specs.Prelude.{◌≡◌, ◌≢◌, ◌≤◌, ◌↔◌, true, false};
ghost use Rattle.rhai_engine.specs.Session.{BeginsFunction, KeepsProgram, idle, with_run};
ghost use Rattle.rhai_runtime.specs.Named.{LacksFunction};
ghost use Rattle.rhai_session.specs.Shown.{EndsCall, IsResumed, IsStoppedOnce, WaitsForHost};
ghost use Rattle.rhai_session.specs.declared.event.HostEvent.{HostEvent};
ghost use Rattle.grain_engine_c.specs.Numbers.{event_number};

use crate::events::{IDLE, event_of};
use crate::handle::CSession;
use crate::status::{ACCEPTED, NO_NAME, NOT_NOW, status_of};
use grain_flat_file::CValue;
use rhai_session::Answer;
use std::alloc::Global;

/// Begins a run: of the top level if `is_call` is false, else of the function of this name with as many parameters as `count` says,
/// whose arguments the rows are.
///
/// - 0: it begins. Otherwise nothing has changed.
/// - 3: the allocator refused.
/// - 14: the script has no such function.
/// - 15: a run can continue or has ended and this isn't known yet; or as many runs wait as may; or the top level is to begin
///   while a run waits; or the handle keeps nothing.
/// - 16: the name is no text, or the rows aren't as many values within the bounds.
#[unsafe(no_mangle)]
pub extern "C" fn grain_proved_session_begin(
    alloc: Global,
    session: &mut CSession,
    is_call: bool,
    name: &[u8],
    rows: &[CValue],
    texts: &[u8],
    count: u32,
) -> u32
    ensures made { session.new.made ≡ session.old.made }
    ensures empty { session.old.made ≡ false → result ≡ NOT_NOW }
    ensures top { result ≡ ACCEPTED → is_call ≡ false → session.new.content.state
        ≡ with_run session.old.content.state session.old.content.state.program.main }
    ensures function { result ≡ ACCEPTED → is_call ≡ true → BeginsFunction
        session.old.content.state session.new.content.state name.now count }
    ensures no_name { result ≡ NO_NAME → is_call ≡ true
        → LacksFunction session.old.content.state.program name.now count }
    ensures refused { result ≢ ACCEPTED → session.old.made ≡ true
        → session.new.content ≡ session.old.content }
{
    let Some(mut kept) = session.take(alloc) else {
        return NOT_NOW;
    };
    let begun = if is_call {
        kept.begin_call(name, rows, texts, count as usize)
    } else {
        kept.begin()
    };
    session.keep(alloc, kept);
    status_of(begun)
}

/// Resumes the last run for at most this many turns, and writes how many it made. The result says what happened: 0 no run is under way,
/// 1 it has returned, 2 it waits for a call of the host, 3 its turns are used up, 4 it has failed, 5 it has ended since an
/// allocation failed.
#[unsafe(no_mangle)]
pub extern "C" fn grain_proved_session_resume(
    alloc: Global,
    session: &mut CSession,
    turns: u64,
    used: &mut u64,
) -> u32
    ensures made { session.new.made ≡ session.old.made }
    ensures empty { session.old.made ≡ false → (result ≡ IDLE) × (used.new ≡ 0) }
    ensures turns { used.new ≤ turns }
    ensures goes { session.old.made ≡ true → (step : HostEvent) × (result ≡ event_number step)
        × IsResumed session.old.content session.new.content step used.new }
    ensures keeps { session.old.made ≡ true
        → KeepsProgram session.old.content.state session.new.content.state }
{
    let Some(mut kept) = session.take(alloc) else {
        *used = 0;
        return IDLE;
    };
    let (event, took) = kept.resume(turns);
    session.keep(alloc, kept);
    *used = took;
    event_of(event)
}

/// Ends the call for which the last run waits: it returns the value that the rows are, or throws it.
///
/// - 0: the run can continue, or [`grain_proved_session_resume`] says how it has ended. Otherwise nothing has changed.
/// - 3: the allocator refused.
/// - 15: no run waits for a call.
/// - 16: the rows are not one value within the bounds.
#[unsafe(no_mangle)]
pub extern "C" fn grain_proved_session_answer(
    alloc: Global,
    session: &mut CSession,
    is_thrown: bool,
    rows: &[CValue],
    texts: &[u8],
) -> u32
    ensures made { session.new.made ≡ session.old.made }
    ensures empty { session.old.made ≡ false → result ≡ NOT_NOW }
    ensures refused { result ≢ ACCEPTED → session.old.made ≡ true
        → session.new.content ≡ session.old.content }
    ensures asked { session.old.made ≡ true
        → (result ≡ NOT_NOW) ↔ (WaitsForHost session.old.content → ⊥) }
    ensures ended { result ≡ ACCEPTED → EndsCall session.old.content session.new.content }
    ensures keeps { session.old.made ≡ true
        → KeepsProgram session.old.content.state session.new.content.state }
{
    let Some(mut kept) = session.take(alloc) else {
        return NOT_NOW;
    };
    let answer = if is_thrown {
        Answer::Throw
    } else {
        Answer::Return
    };
    let answered = kept.answer(answer, rows, texts);
    session.keep(alloc, kept);
    status_of(answered)
}

/// Replaces the first argument of the call for which the last run waits, if it was taken out of a variable: when the call has ended,
/// the variable has this value. Returns as [`grain_proved_session_answer`]; 15 also if the argument wasn't taken out of a variable.
#[unsafe(no_mangle)]
pub extern "C" fn grain_proved_session_receiver(
    alloc: Global,
    session: &mut CSession,
    rows: &[CValue],
    texts: &[u8],
) -> u32
    ensures made { session.new.made ≡ session.old.made }
    ensures empty { session.old.made ≡ false → result ≡ NOT_NOW }
    ensures kept { session.old.made ≡ true → session.new.content ≡ session.old.content }
    ensures asked { result ≡ ACCEPTED → WaitsForHost session.old.content }
{
    let Some(mut kept) = session.take(alloc) else {
        return NOT_NOW;
    };
    let replaced = kept.replace_receiver(rows, texts);
    session.keep(alloc, kept);
    status_of(replaced)
}

/// Ends the call for which the last run waits by a fault that no script catches. Returns as [`grain_proved_session_answer`]; 16: the
/// text is not UTF-8.
#[unsafe(no_mangle)]
pub extern "C" fn grain_proved_session_fail(
    alloc: Global,
    session: &mut CSession,
    why: &[u8],
) -> u32
    ensures made { session.new.made ≡ session.old.made }
    ensures empty { session.old.made ≡ false → result ≡ NOT_NOW }
    ensures refused { result ≢ ACCEPTED → session.old.made ≡ true
        → session.new.content ≡ session.old.content }
    ensures asked { session.old.made ≡ true
        → (result ≡ NOT_NOW) ↔ (WaitsForHost session.old.content → ⊥) }
    ensures ended { result ≡ ACCEPTED → EndsCall session.old.content session.new.content }
    ensures keeps { session.old.made ≡ true
        → KeepsProgram session.old.content.state session.new.content.state }
{
    let Some(mut kept) = session.take(alloc) else {
        return NOT_NOW;
    };
    let failed = kept.fail(why);
    session.keep(alloc, kept);
    status_of(failed)
}

/// Ends the last run, whatever it waits for.
#[unsafe(no_mangle)]
pub extern "C" fn grain_proved_session_stop(alloc: Global, session: &mut CSession)
    ensures made { session.new.made ≡ session.old.made }
    ensures stopped { session.old.made ≡ true
        → IsStoppedOnce session.old.content session.new.content }
    ensures keeps { session.old.made ≡ true
        → KeepsProgram session.old.content.state session.new.content.state }
{
    if let Some(mut kept) = session.take(alloc) {
        kept.stop();
        session.keep(alloc, kept);
    }
}

/// Ends all runs, and drops all variables and what was printed.
#[unsafe(no_mangle)]
pub extern "C" fn grain_proved_session_reset(alloc: Global, session: &mut CSession)
    ensures made { session.new.made ≡ session.old.made }
    ensures idle { session.old.made ≡ true → session.new.content.state ≡ idle
        session.old.content.state.program session.old.content.state.calls session.old.content.state.nested }
{
    if let Some(mut kept) = session.take(alloc) {
        kept.reset();
        session.keep(alloc, kept);
    }
}
