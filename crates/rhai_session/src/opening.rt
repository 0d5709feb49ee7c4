//! Sessions of source texts and of program files.
ghost use Rattle.std.specs.Prelude.{◌≡◌, None, IfOk, []};
ghost use Rattle.grain.specs.Program.{input_of};
ghost use Rattle.grain_rules.specs.Accepted.{IsAccepted};
ghost use Rattle.rhai_engine.specs.Session.{idle};
ghost use Rattle.rhai_session.specs.Shown.{shown_of};

use crate::modules::{CModuleText, ModuleTable, read_text, shown_name};
use crate::session::Session;
use crate::stops::{CompileStop, LoadStop};
use grain::{Caps, Chunk, Flags, Program, Refusal, Verified, VerifyError};
use grain_file::{Limits, read};
use grain_machine::prepare;
use rhai_compile::{CompileError, LinkError, Options, Problem, compile, compile_with, report};
use rhai_engine::Bounds;
use std::alloc::{AllocError, Global};
use std::sync::Arc;

/// What the text of a script is called in reports. That of a module is called by the module's name.
const SCRIPT: &str = "script";

/// Variables that the text doesn't declare are those that the host sets.
const OPTIONS: Options = Options {
    strict_variables: false,
    debug_id: 0,
};

/// Why a text isn't compiled, which reports call by this name.
fn stop_of(alloc: Global, name: &str, source: &str, error: CompileError) -> CompileStop {
    if error.problem == Problem::OutOfMemory {
        return CompileStop::OutOfMemory;
    }
    match report(alloc, name, source, &error) {
        Ok(report) => CompileStop::NoScript(report),
        Err(AllocError) => CompileStop::OutOfMemory,
    }
}

/// Why a script with modules isn't compiled.
fn stop_of_link(alloc: Global, source: &str, stopped: LinkError) -> CompileStop {
    let LinkError { module, error } = stopped;
    let Some(module) = module else {
        return stop_of(alloc, SCRIPT, source, error);
    };
    match shown_name(alloc, module.name.as_str()) {
        Ok(name) => stop_of(alloc, name.as_str(), module.source.as_str(), error),
        Err(AllocError) => CompileStop::OutOfMemory,
    }
}

/// How many bytes of code chunks span, each for itself: verification takes time by that.
fn spans_of(chunks: &[Chunk]) -> u64 {
    chunks.iter().fold(0u64, |spans, chunk| {
        let len = chunk.end().saturating_sub(chunk.entry());
        spans.saturating_add(u64::from(len))
    })
}

/// Why a program isn't accepted.
fn stop_of_refusal(refusal: Refusal) -> LoadStop {
    match refusal.error {
        VerifyError::OutOfMemory => LoadStop::OutOfMemory,
        _ => LoadStop::Refused(refusal),
    }
}

impl Session {
    /// A session of a verified program.
    fn of(alloc: Global, verified: Verified, bounds: Bounds) -> Result<Session, LoadStop>
        ensures { IfOk result (λ made. made
            ≡ shown_of (idle verified.program bounds.calls bounds.runs) None [] [] 0 [] None) }
    {
        let prepared = Arc::new(alloc, prepare(alloc, verified)?)?;
        Ok(Session::new(alloc, prepared, bounds)?)
    }

    /// A session of a program that the compiler has made.
    fn of_compiled(
        alloc: Global,
        verified: Verified,
        bounds: Bounds,
    ) -> Result<Session, CompileStop>
        ensures { IfOk result (λ made. made
            ≡ shown_of (idle verified.program bounds.calls bounds.runs) None [] [] 0 [] None) }
    {
        match Session::of(alloc, verified, bounds) {
            Ok(session) => Ok(session),
            // A compiled program has no constant of another host.
            Err(_) => Err(CompileStop::OutOfMemory),
        }
    }

    /// Compiles a source text, which can't import modules. It takes time linear in the length of the text, except as [`compile`]
    /// says.
    ///
    /// # Errors
    /// [`CompileStop::NoScript`]: the bytes aren't UTF-8, or the text has an error.
    pub fn compile(alloc: Global, source: &[u8], bounds: Bounds) -> Result<Session, CompileStop>
        ensures accepted { IfOk result (λ made. IsAccepted (input_of made.state.program)) }
        ensures new { IfOk result (λ made. made
            ≡ shown_of (idle made.state.program bounds.calls bounds.runs) None [] [] 0 [] None) }
    {
        let source = read_text(alloc, SCRIPT, source)?;
        match compile(alloc, source, &OPTIONS) {
            Ok(verified) => Session::of_compiled(alloc, verified, bounds),
            Err(error) => Err(stop_of(alloc, SCRIPT, source, error)),
        }
    }

    /// Compiles a source text, and the modules of a table that it imports. It takes time as [`compile_with`] does, and linear in the
    /// length of the table's names and texts, n log n in the length of the names.
    ///
    /// # Errors
    /// [`CompileStop::NoScript`], tested in this order: the bytes of the script aren't UTF-8; a name or a text of the table isn't,
    /// or two of its modules have the same name; the script or a module that it imports has an error, such as the import of a
    /// module that isn't in the table. The report of an error in a module begins with the name of the module.
    pub fn compile_modules(
        alloc: Global,
        source: &[u8],
        modules: &[CModuleText<'_>],
        bounds: Bounds,
    ) -> Result<Session, CompileStop>
        ensures accepted { IfOk result (λ made. IsAccepted (input_of made.state.program)) }
        ensures new { IfOk result (λ made. made
            ≡ shown_of (idle made.state.program bounds.calls bounds.runs) None [] [] 0 [] None) }
    {
        let source = read_text(alloc, SCRIPT, source)?;
        let mut table = ModuleTable::new(alloc, modules)?;
        match compile_with(alloc, source, &OPTIONS, &mut table) {
            Ok(verified) => Session::of_compiled(alloc, verified, bounds),
            Err(stopped) => Err(stop_of_link(alloc, source, stopped)),
        }
    }

    /// Reads and verifies a program file, for a host with these capabilities.
    ///
    /// # Errors
    /// Tested in the order of [`LoadStop`].
    pub fn load(
        alloc: Global,
        bytes: &[u8],
        host: Caps,
        work: u64,
        limits: &Limits,
        bounds: Bounds,
    ) -> Result<Session, LoadStop>
        ensures accepted { IfOk result (λ made. IsAccepted (input_of made.state.program)) }
        ensures new { IfOk result (λ made. made
            ≡ shown_of (idle made.state.program bounds.calls bounds.runs) None [] [] 0 [] None) }
    {
        let program = match read(alloc, bytes, limits) {
            Ok(program) => program,
            Err(error) => return Err(LoadStop::Read(error)),
        };
        let missing = program.caps().difference(host);
        if !missing.is_empty() {
            return Err(LoadStop::Lacks(missing));
        }
        Session::of_program(alloc, program, work, bounds)
    }

    /// Verifies a program, if its chunks span no more code than this.
    fn of_program(
        alloc: Global,
        program: Program,
        work: u64,
        bounds: Bounds,
    ) -> Result<Session, LoadStop>
        ensures accepted { IfOk result (λ made. IsAccepted (input_of made.state.program)) }
        ensures new { IfOk result (λ made. made
            ≡ shown_of (idle made.state.program bounds.calls bounds.runs) None [] [] 0 [] None) }
    {
        if spans_of(program.chunks()?.as_slice()) > work {
            return Err(LoadStop::Work);
        }
        match program.into_verified() {
            Ok(verified) => Session::of(alloc, verified, bounds),
            Err(rejected) => Err(stop_of_refusal(rejected.refusal)),
        }
    }
}
