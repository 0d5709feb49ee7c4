//! The line program: a verdict on standard output for each case on standard input.
//!
//! Each line of the input that is neither empty nor a comment is a case, and is answered by one
//! line. [`run`] of `grain_lines` does so over any [`Source`] and [`Sink`], and says by a [`RunError`] why it had
//! to stop before the end. The forms of cases and verdicts are those of docs/FORMAT.md. What a verdict on a
//! program means is said at [`grain::verify`].
#![tactic(auto)]

pub use grain_lines::{Failed, OverRead, OverWrite, RunError, Sink, Source, Summary, run, status};
use std::io;
use std::process::ExitCode;

fn main(rt: HostRuntime) -> ExitCode {
    let mut reader = OverRead::new(rt.stdin());
    let mut writer = OverWrite::new(rt.stdout());
    let outcome = run(rt.alloc(), &mut reader, &mut writer);
    ExitCode::from(status(&outcome))
}
