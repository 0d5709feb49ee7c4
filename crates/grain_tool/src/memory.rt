//! Runs that are ended if the process has too much memory.

use grain_machine::{Host, Outcome, Prepared, Progress, RunLimits};
use rhai_runtime::{Fault, Script, World};
use rhai_values::Value;
use std::alloc::AllocError;
use std::fs;

/// How many operations are done between two looks at the memory. A look takes as long as some hundred of them.
const SLICE: u64 = 20_000;

/// How many bytes a page has on x86-64.
const PAGE: u64 = 4096;

/// How many bytes of memory the process has, if the system says so. Those that were swapped out don't count.
fn resident(rt: &HostRuntime) -> Option<u64> {
    let pages = fs::read_to_string(rt, "/proc/self/statm").ok()?;
    let resident = pages.split(' ').nth(1)?.parse::<u64>().ok()?;
    resident.checked_mul(PAGE)
}

/// Whether the process has more memory than this, or nothing says how much it has.
fn has_more(rt: &HostRuntime, most: u64) -> bool {
    resident(rt).is_none_or(|size| size > most)
}

/// How a run of the program ends. `None` if the process has more bytes of memory than it may before that.
///
/// # Errors
/// There is no room for the operands.
pub fn run_within<W: World + Drop>(
    rt: &HostRuntime,
    prepared: &Prepared,
    script: &mut Script<W>,
    limits: RunLimits,
    most: u64,
) -> Result<Option<Outcome<Value, Fault>>, AllocError> {
    let main = prepared.main();
    let mut run = main.start(rt.alloc())?;
    script.began();
    let mut left = limits.fuel;
    'slices: for _slice in 0..u64::MAX {
        let fuel = left.min(SLICE);
        let slice = RunLimits {
            fuel,
            depth: limits.depth,
        };
        match main.resume(rt.alloc(), run, script, slice) {
            Progress::Ended { ending, .. } => return Ok(Some(ending.outcome)),
            Progress::Waits { .. } => return Ok(Some(Outcome::Unanswered)),
            Progress::Paused(rest) => run = rest,
        }
        left = left.saturating_sub(fuel);
        if left == 0 {
            return Ok(Some(Outcome::OutOfFuel));
        }
        if has_more(rt, most) {
            return Ok(None);
        }
    }
    Ok(None)
}
