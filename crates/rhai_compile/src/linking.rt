//! Programs of several texts: a script, and the modules that it imports. All are compiled to one program.
//!
//! The texts share one table of names and one list of functions. The lines of all texts are numbered as if the texts were one
//! file, so that a line determines its text. No position of the program is one of a module.
ghost use Rattle.std.specs.Prelude.{◌≡◌, IfErr, IfNone, IfOk};
ghost use Rattle.grain.specs.Program.{declared_by, input_of};
ghost use Rattle.grain.specs.Verified.{IsVerified};
ghost use Rattle.grain_needs.specs.Capabilities.{AreLeast};
ghost use Rattle.rhai_compile.specs.Positions.{ArePositions, IsPositionOf};
ghost use Rattle.rhai_errors.specs.Places.{HasPlaces};

use crate::prelude::with_prelude;
use crate::programs::compile_syntax;
use grain::Verified;
use rhai_emit::Options;
use rhai_errors::{CompileError, Lines, Problem, Thing};
use rhai_syntax::{Import, Syntax, parse, parse_more};
use std::alloc::{AllocError, Global};
use std::collections::HashMap;

/// How many modules a program may have, so that compilation ends even if a resolver has a module for each name.
pub const MAX_MODULES: usize = 1000;

/// Where the texts of modules come from.
pub trait Modules {
    /// The text of the module of this name, or none if there is no such module. It is called once for each name.
    ///
    /// # Errors
    /// The allocator refused.
    fn source(&mut self, name: &str) -> Result<Option<String>, AllocError>;
}

/// A module of a program.
#[derive(Drop)]
pub struct Module {
    /// Its name, as `import` has it.
    pub name: String,
    /// Its text.
    pub source: String,
}

/// Why a script isn't compiled, or a module that it imports.
#[derive(Drop)]
pub struct LinkError {
    /// The module in which the error is, or none if that is the script.
    pub module: Option<Module>,
    /// What is wrong. Each place lies in the text of the module, or in that of the script.
    pub error: CompileError,
}

/// A module, and how many lines of other texts are counted before its own.
#[derive(Drop)]
struct Text {
    module: Module,
    before: u32,
}

/// The texts of modules so far, and how many lines they have together with the script.
#[derive(Drop)]
struct Texts {
    list: Vec<Text>,
    lines: u32,
}

/// A text whose imports are loaded: those from `next` on are left.
#[derive(Clone, Copy, Drop)]
struct Visit {
    module: Option<u32>,
    next: usize,
    end: usize,
}

/// Compiles a script and the modules that it imports to one verified program, as [`compile`](crate::compile) does a script that
/// imports none. Each module is read once. It takes time linear in the length of all texts, and in the number of modules.
///
/// # Errors
/// The first thing that is wrong with a text, or the allocator refused.
pub fn compile_with<M: Modules>(
    alloc: Global,
    source: &str,
    options: &Options,
    modules: &mut M,
) -> Result<Verified, LinkError>
    ensures placed { IfErr result (λ e. IfNone e.module (HasPlaces source.now e.error)) }
    ensures positions { IfOk result (λ built. ArePositions (IsPositionOf source.now) built.program) }
    ensures verified { IfOk result IsVerified }
    ensures declared { IfOk result (λ built. declared_by built.program ≡ built.depths) }
    ensures least { IfOk result (λ built. AreLeast (input_of built.program) built.program.caps.0) }
{
    let mut texts = Texts {
        list: Vec::new(alloc),
        lines: line_ends(source).saturating_add(1),
    };
    match compiled_texts(alloc, source, options, modules, &mut texts) {
        Ok(built) => Ok(built),
        Err(error) => Err(located(texts, source, error)),
    }
}

/// Compiles the texts. The lines of errors are numbered as if the texts were one file.
fn compiled_texts<M: Modules>(
    alloc: Global,
    source: &str,
    options: &Options,
    modules: &mut M,
    texts: &mut Texts,
) -> Result<Verified, CompileError>
    ensures positions { IfOk result (λ built. ArePositions (IsPositionOf source.now) built.program) }
    ensures verified { IfOk result IsVerified }
    ensures declared { IfOk result (λ built. declared_by built.program ≡ built.depths) }
    ensures least { IfOk result (λ built. AreLeast (input_of built.program) built.program.caps.0) }
{
    let syntax = parse(alloc, source)?;
    let lines = Lines::new(alloc, source)?;
    let syntax = with_modules(alloc, syntax, modules, texts)?;
    check_calls(&syntax)?;
    let syntax = with_prelude(alloc, syntax, texts.lines)?;
    compile_syntax(alloc, options, syntax, &lines)
}

/// The program with all modules that it imports, and that these import.
fn with_modules<M: Modules>(
    alloc: Global,
    syntax: Syntax,
    modules: &mut M,
    texts: &mut Texts,
) -> Result<Syntax, CompileError> {
    let mut syntax = syntax;
    let mut states: HashMap<u32, bool> = HashMap::new(alloc);
    let mut open = Vec::new(alloc);
    open.push(Visit {
        module: None,
        next: 0,
        end: syntax.interface.imports.len(),
    })?;
    for _turn in 0..u64::MAX {
        let Some(visit) = open.pop() else {
            break;
        };
        let Some(import) = next_import(&syntax, visit) else {
            if let Some(module) = visit.module {
                let _ = states.insert(module, true)?;
            }
            continue;
        };
        open.push(Visit {
            next: visit.next.saturating_add(1),
            ..visit
        })?;
        match states.get(&import.module).copied() {
            Some(true) => {}
            Some(false) => return Err(CompileError::new(import.place, Problem::CyclicImport)),
            None => {
                let _ = states.insert(import.module, false)?;
                let next = syntax.interface.imports.len();
                syntax = with_module(alloc, syntax, import, modules, texts)?;
                open.push(Visit {
                    module: Some(import.module),
                    next,
                    end: syntax.interface.imports.len(),
                })?;
            }
        }
    }
    Ok(syntax)
}

/// The next of a text's imports, if there is one left.
fn next_import(syntax: &Syntax, visit: Visit) -> Option<Import> {
    if visit.next >= visit.end {
        return None;
    }
    syntax.interface.imports.get(visit.next).copied()
}

/// The program with a module that it imports.
fn with_module<M: Modules>(
    alloc: Global,
    syntax: Syntax,
    import: Import,
    modules: &mut M,
    texts: &mut Texts,
) -> Result<Syntax, CompileError> {
    if texts.list.len() >= MAX_MODULES {
        return Err(CompileError::new(import.place, Problem::TooMany(Thing::Modules)));
    }
    let name = String::from_str(alloc, syntax.texts.get(import.module))?;
    let Some(source) = modules.source(name.as_str())? else {
        return Err(CompileError::new(import.place, Problem::NoSuchModule));
    };
    let before = texts.lines;
    texts.lines = before
        .saturating_add(line_ends(source.as_str()))
        .saturating_add(1);
    let read = source.clone()?;
    let module = Module {
        name: name.clone()?,
        source,
    };
    texts.list.push(Text { module, before })?;
    parse_more(alloc, read.as_str(), syntax, Some(name), before)
}

/// Each function of a module that is called is one that it has for others.
fn check_calls(syntax: &Syntax) -> Result<(), CompileError> {
    for call in &syntax.interface.calls {
        if !syntax.interface.functions.contains(&(call.name, call.argc)) {
            return Err(CompileError::new(call.place, Problem::NoSuchFunction));
        }
    }
    Ok(())
}

/// The error with the text in which it is, and with its place there.
fn located(texts: Texts, source: &str, error: CompileError) -> LinkError
    ensures { IfNone result.module (HasPlaces source.now result.error) }
{
    let mut found = None;
    for text in texts.list {
        if text.before < error.place.line {
            found = Some(text);
        }
    }
    match found {
        Some(Text { module, before }) => {
            let error = error.counted_from(before).within(module.source.as_str());
            LinkError {
                module: Some(module),
                error,
            }
        }
        None => LinkError {
            module: None,
            error: error.within(source),
        },
    }
}

/// How many lines of a text have an end.
fn line_ends(text: &str) -> u32 {
    let mut count: u32 = 0;
    for c in text.chars() {
        if c == '\n' {
            count = count.saturating_add(1);
        }
    }
    count
}
