//! `grain run`: a script or a program file, verified and run.

use crate::memory::run_within;
use crate::terminal::Terminal;
use clap::ArgMatches;
use grain::Program;
use grain_cli::arguments::{Argument, FILE, Subcommand};
use grain_cli::excerpt::{push_marked, site_of};
use grain_cli::failure::Failure;
use grain_cli::files::shown;
use grain_cli::loading::{WORK, allowed_of};
use grain_cli::places::{chunk_at, write_place};
use grain_listing::{name_of, push_name, push_shown};
use grain_machine::{Outcome, Prepared, RunLimits, prepare};
use grain_scripts::modules::INCLUDE;
use grain_scripts::scripts::{Input, Surroundings, input_in};
use rhai_runtime::{Fault, Script, World};
use rhai_values::{Cause, SizeLimits, Value};
use std::alloc::{AllocError, Global};
use std::io::{BufWriter, Write};

/// How deep values may be nested.
const NESTING: usize = 64;

/// How many calls a backtrace shows.
const SHOWN_CALLS: usize = 16;

/// How far a run may go.
#[derive(Clone, Copy)]
struct Bounds {
    run: RunLimits,
    size: SizeLimits,
}

/// What is run, and how far.
#[derive(Clone, Copy)]
struct Task<'a> {
    /// The path of the file.
    path: &'a str,
    /// The text that the program was compiled from, if it is a script's.
    script: Option<&'a str>,
    prepared: &'a Prepared,
    limits: RunLimits,
    /// How many bytes of memory the process may have.
    memory: Option<u64>,
}

impl<'a> Task<'a> {
    fn program(&self) -> &'a Program {
        self.prepared.verified().program()
    }
}

/// `grain run`
pub const SUBCOMMAND: Subcommand = Subcommand {
    name: "run",
    about: "Runs a script or a program file, after verifying it",
    example: "Example:\n  grain run --fuel 1000 script.rhai -- one two",
    arguments: &[
        FILE,
        Argument::Number {
            name: "fuel",
            value: "TURNS",
            is_required: false,
            help: "Stop after this many operations (default: never)",
        },
        Argument::Size {
            name: "depth",
            value: "CALLS",
            default: "10000",
            help: "Nest calls this deep at most",
        },
        Argument::Size {
            name: "size",
            value: "SIZE",
            default: "16000000",
            help: "Allow this many values and bytes of text in one value",
        },
        Argument::Number {
            name: "memory",
            value: "BYTES",
            is_required: false,
            help: "Stop once the process has more memory than this (default: never)",
        },
        WORK,
        INCLUDE,
        Argument::Rest {
            name: "ARG",
            help: "Texts that the script gets from the function `args()`",
        },
    ],
};

fn bounds_of(matches: &ArgMatches<'_>) -> Bounds {
    Bounds {
        run: RunLimits {
            fuel: matches.get_one::<u64>("fuel").unwrap_or(u64::MAX),
            depth: matches.get_one::<usize>("depth").unwrap_or(0),
        },
        size: SizeLimits {
            size: matches.get_one::<usize>("size").unwrap_or(0),
            depth: NESTING,
        },
    }
}

/// The arguments of the script, as an array of strings.
fn words(alloc: Global, matches: &ArgMatches<'_>) -> Result<Value, AllocError> {
    let mut words = Vec::new(alloc);
    for word in matches.get_raw("ARG").unwrap_or_default() {
        words.push(Value::text(alloc, String::from_str(alloc, word)?)?)?;
    }
    Value::array(alloc, words)
}

/// Why a run can't begin.
fn unready(alloc: Global, path: &str, cause: &Cause) -> Failure {
    match cause {
        Cause::OutOfMemory => Failure::OutOfMemory,
        cause => Failure::of(alloc, shown(path), format_args!("{cause}")),
    }
}

/// How a run of the program ends. `None` if the process had more memory than it may have.
fn outcome_of<W: World + Drop>(
    rt: &HostRuntime,
    task: Task<'_>,
    script: &mut Script<W>,
) -> Result<Option<Outcome<Value, Fault>>, AllocError> {
    match task.memory {
        Some(most) => run_within(rt, task.prepared, script, task.limits, most),
        None => {
            let main = task.prepared.main();
            let ending = main.run(rt.alloc(), script, task.limits)?;
            Ok(Some(ending.outcome))
        }
    }
}

/// The function and the position of an address. A function of the library, which isn't in the script, has its name alone.
fn write_call(alloc: Global, program: &Program, at: usize) -> Result<String, AllocError> {
    let is_placed = !program.position(program.main().entry() as usize).is_none();
    match chunk_at(program, at) {
        Some(place) if is_placed && program.position(at).is_none() => {
            let mut text = String::new(alloc);
            push_name(name_of(program, place), &mut text)?;
            Ok(text)
        }
        _ => write_place(alloc, program, at),
    }
}

/// Appends the line of a script at which a fault is, after the text so far, with a caret.
fn push_line(task: Task<'_>, fault: &Fault, text: &mut String) -> Result<(), AllocError> {
    let (Some(script), Some(place)) = (task.script, site_of(fault.position(task.program()))) else {
        return Ok(());
    };
    text.push('\n')?;
    push_marked(script, place, text)?;
    // The caret's line has an end, and what follows begins with one.
    let _end = text.pop();
    Ok(())
}

/// Appends the calls that a fault ended, each on a line of its own.
fn push_calls(
    program: &Program,
    fault: &Fault,
    calls: &[usize],
    text: &mut String,
) -> Result<(), AllocError> {
    let alloc: Global = *text.allocator();
    let place = write_call(alloc, program, fault.at)?;
    write!(text, "\n  in {place}")?;
    for call in calls.iter().take(SHOWN_CALLS) {
        let place = write_call(alloc, program, *call)?;
        write!(text, "\n  called from {place}")?;
    }
    let left_out = calls.len().saturating_sub(SHOWN_CALLS);
    if left_out > 0 {
        write!(text, "\n  and {left_out} more calls")?;
    }
    Ok(())
}

/// Why a script failed: the fault, its line, and the calls that it ended.
fn report(
    alloc: Global,
    task: Task<'_>,
    fault: &Fault,
    calls: &[usize],
) -> Result<String, AllocError> {
    let mut text = String::new(alloc);
    push_shown(&fault.text(alloc, task.program())?, &mut text)?;
    push_line(task, fault, &mut text)?;
    if !calls.is_empty() {
        push_calls(task.program(), fault, calls, &mut text)?;
    }
    Ok(text)
}

/// What a run returned, or why it failed.
fn result(
    alloc: Global,
    task: Task<'_>,
    outcome: Outcome<Value, Fault>,
    calls: &[usize],
) -> Result<Value, Failure> {
    let path = task.path;
    match outcome {
        Outcome::Returned(Some(value)) => Ok(value),
        Outcome::Returned(None) => Ok(Value::Unit),
        Outcome::Faulted(
            Fault {
                cause: Cause::Exited(value),
                ..
            },
        )
        | Outcome::Uncatchable(
            Fault {
                cause: Cause::Exited(value),
                ..
            },
        ) => Ok(value),
        Outcome::Faulted(fault) | Outcome::Uncatchable(fault) => {
            let text = report(alloc, task, &fault, calls)?;
            Err(Failure::of_lines(alloc, shown(path), text))
        }
        Outcome::OutOfFuel => Err(Failure::of(alloc, shown(path), "out of fuel")),
        Outcome::OutOfMemory => Err(Failure::OutOfMemory),
        // No function of the command has a run wait.
        Outcome::Unanswered => Err(Failure::of(alloc, shown(path), "a call was not answered")),
    }
}

/// Runs the program, and gives what it returned, or why it failed.
fn value_of<W: World + Drop>(
    rt: &HostRuntime,
    task: Task<'_>,
    script: &mut Script<W>,
) -> Result<Value, Failure> {
    match outcome_of(rt, task, script)? {
        Some(outcome) => result(rt.alloc(), task, outcome, script.backtrace()),
        None => Err(Failure::of(
            rt.alloc(),
            shown(task.path),
            "more memory is needed than --memory allows",
        )),
    }
}

/// Prints the value of a script, unless it is unit.
fn show<W: World + Drop>(
    alloc: Global,
    script: &mut Script<W>,
    value: &Value,
) -> Result<(), AllocError> {
    if !matches!(value, Value::Unit) {
        let line = format!(in alloc; "{value}")?;
        // If it can't be written, the world knows why.
        let _written = script.world_mut().print(line.as_str());
    }
    Ok(())
}

/// Runs the program, and prints its value: what was printed is written also if the run fails.
fn run_script<O: Write + Drop, E: Write + Drop>(
    rt: &HostRuntime,
    task: Task<'_>,
    script: &mut Script<Terminal<O, E>>,
) -> Result<(), Failure> {
    let value = value_of(rt, task, script);
    if let Ok(value) = &value {
        show(rt.alloc(), script, value)?;
    }
    script.world_mut().finish()?;
    let _value = value?;
    Ok(())
}

/// Runs a program whose script has this world: what it prints, and at last its value.
fn run_in<O: Write + Drop, E: Write + Drop>(
    rt: &HostRuntime,
    task: Task<'_>,
    size: SizeLimits,
    world: Terminal<O, E>,
) -> Result<(), Failure> {
    match Script::new(rt.alloc(), task.program(), world, size) {
        Ok(mut script) => run_script(rt, task, &mut script),
        Err(cause) => Err(unready(rt.alloc(), task.path, &cause)),
    }
}

/// Runs what was prepared in this process: what it prints goes to standard output, and what it debugs to standard error.
fn run_prepared<'a>(
    rt: &HostRuntime,
    matches: &ArgMatches<'_>,
    path: &'a str,
    script: Option<&'a str>,
    prepared: &'a Prepared,
) -> Result<(), Failure> {
    let alloc = rt.alloc();
    let bounds = bounds_of(matches);
    let limits = bounds.run;
    let memory = matches.get_one::<u64>("memory");
    let task = Task {
        path,
        script,
        prepared,
        limits,
        memory,
    };
    let words = words(alloc, matches)?;
    let output = match BufWriter::new(alloc, rt.stdout()) {
        Ok(output) => output,
        Err(error) => return Err(Failure::of_output(error)),
    };
    let world = Terminal::new(alloc, output, rt.stderr(), words);
    run_in(rt, task, bounds.size, world)
}

/// Runs a program that was verified.
fn run_here(
    rt: &HostRuntime,
    matches: &ArgMatches<'_>,
    path: &str,
    input: Input,
) -> Result<(), Failure> {
    let Input { verified, script } = input;
    let prepared = prepare(rt.alloc(), verified)?;
    let text = script.as_deref();
    run_prepared(rt, matches, path, text, &prepared)
}

/// Runs a script or a program file.
pub fn run(rt: &HostRuntime, matches: &ArgMatches<'_>) -> Result<u8, Failure> {
    let path = matches.get_str("FILE").unwrap_or("-");
    let surroundings = Surroundings::of(rt, matches)?;
    let input = input_in(rt, &surroundings, path, allowed_of(matches))?;
    run_here(rt, matches, path, input)?;
    Ok(0)
}
