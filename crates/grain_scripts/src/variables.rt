//! Variables that the host of a script has.

use crate::sources::refused;
use grain::pos::Site;
use grain::{Op, Position, Program, Receiver, Root, disassemble};
use grain_cli::arguments::Argument;
use grain_cli::excerpt::{before, site_of};
use grain_cli::failure::Failure;
use grain_cli::files::shown;
use grain_cli::places::chunk_at;
use grain_listing::{name_of, push_name};
use rhai_compile::{CompileError, Problem, flaws};
use std::alloc::{AllocError, Global};
use std::collections::{BTreeMap, BTreeSet};

/// The argument that names the variables of the host.
pub const VARS: Argument = Argument::Text {
    name: "vars",
    value: "NAMES",
    is_required: false,
    help: "Variables that the host of the script has, as in \"user,path\"",
};

/// The names of the variables that the host of a script has.
#[derive(Drop)]
pub struct HostVariables<'a> {
    names: BTreeSet<&'a str>,
}

/// The names of a list, in which commas separate them.
fn names_of<'a>(alloc: Global, list: &'a str) -> Result<Vec<&'a str>, AllocError> {
    let mut names = Vec::new(alloc);
    for item in list.split(',') {
        names.push(item.trim())?;
    }
    Ok(names)
}

/// Whether a name has letters, digits and underscores alone.
fn is_word(name: &str) -> bool {
    name != "" && name.chars().all(|c| c.is_ascii_alphanumeric() || c == '_')
}

/// A script that declares variables, a line each.
fn declarations(alloc: Global, names: &[&str]) -> Result<String, AllocError> {
    let mut script = String::new(alloc);
    for name in names {
        write!(script, "let {name};\n")?;
    }
    Ok(script)
}

/// The first name that no variable can have. They are declared together: a compilation of each would take longer.
fn first_wrong<'a>(alloc: Global, names: &[&'a str]) -> Result<Option<&'a str>, AllocError> {
    if let Some(name) = names.iter().find(|name| !is_word(name)) {
        return Ok(Some(*name));
    }
    let script = declarations(alloc, names)?;
    let flaws = flaws(alloc, script.as_str())?;
    match flaws.first() {
        None => Ok(None),
        Some(flaw) if flaw.problem == Problem::OutOfMemory => Err(AllocError),
        Some(flaw) => {
            let index = flaw.place.line.saturating_sub(1) as usize;
            Ok(Some(names.get(index).copied().unwrap_or_default()))
        }
    }
}

/// Why a name of the list isn't taken.
fn unnamed(alloc: Global, name: &str) -> Failure {
    if name == "" {
        Failure::of_argument(alloc, "--vars", "a name is empty")
    } else {
        Failure::of_argument(alloc, name, "no variable can have this name (--vars)")
    }
}

/// A use of a variable by its name.
#[derive(Clone, Copy)]
struct Use {
    /// The address of the operation.
    at: usize,
    /// The index of the name.
    name: u32,
    /// Where it is in the script.
    position: Position,
    /// Whether the position is that of an assignment, which has the name before it.
    is_assigned: bool,
}

/// The handlers of a program, whose faults are bound to variables by their names.
#[derive(Drop)]
struct Catches {
    /// The name of each, by the address at which it catches.
    names: BTreeMap<usize, u32>,
    /// The name of the one whose fault hasn't become a local variable yet.
    current: Option<u32>,
}

impl Catches {
    /// Whether an operation takes what a handler caught, to make a local variable of it. It is asked of each operation in turn.
    fn takes(&mut self, at: usize, op: &Op) -> Result<bool, AllocError> {
        if let Some(name) = self.names.get(&at) {
            self.current = Some(*name);
        }
        match *op {
            Op::LoadNamed(name) if self.current == Some(name) => return Ok(true),
            Op::UnwindTo(_) | Op::PopHandler => return Ok(false),
            Op::DeclareLocal { name, .. } if self.current != Some(name) => return Ok(false),
            _ => self.current = None,
        }
        if let Op::PushHandler {
            target,
            catch_var: Some(name),
        } = *op
        {
            let _old = self.names.insert(target as usize, name)?;
        }
        Ok(false)
    }
}

/// What an operation uses by its name.
fn named(op: &Op) -> Option<u32> {
    match *op {
        Op::LoadNamed(name)
        | Op::ShareNamed(name)
        | Op::LoadSharedNamed(name)
        | Op::ExportNamed { name, .. }
        | Op::AssignNamed { name, .. }
        | Op::CallRef {
            receiver: Receiver::Named(name),
            ..
        }
        | Op::CallFnPtr {
            receiver: Some(Receiver::Named(name)),
            ..
        } => Some(name),
        _ => None,
    }
}

/// The use of a variable by an operation, if it uses one by its name.
fn use_of(program: &Program, at: usize, op: &Op) -> Option<Use> {
    if let Op::Chain(index) = *op {
        return match program.chains().get(index as usize)?.root {
            Root::Named { name, pos } => Some(Use {
                at,
                name,
                position: pos,
                is_assigned: false,
            }),
            _ => None,
        };
    }
    Some(Use {
        at,
        name: named(op)?,
        position: program.position(at),
        is_assigned: matches!(op, Op::AssignNamed { .. }),
    })
}

/// The place of the name to which a value is assigned, if it is on the line of the sign. Otherwise it is that of the sign.
fn target_of(script: &str, place: Site, name: &str) -> Site {
    let line = before(script, place);
    match line.rfind(name) {
        Some(at) => {
            let columns = line.get(..at).unwrap_or_default().chars().count();
            let column = u32::try_from(columns.saturating_add(1)).unwrap_or(place.column);
            Site {
                line: place.line,
                column,
            }
        }
        None => place,
    }
}

/// Why a script isn't taken that uses a variable which its host doesn't have. In a module no position is known.
fn stray(
    alloc: Global,
    (path, script): (&str, &str),
    program: &Program,
    found: Use,
) -> Result<Failure, AllocError> {
    let name = program.names().get(found.name).unwrap_or_default();
    let Some(place) = site_of(found.position) else {
        return stray_in_module(alloc, path, program, name, found.at);
    };
    let place = if found.is_assigned {
        target_of(script, place, name)
    } else {
        place
    };
    let error = CompileError::new(place, Problem::UnknownVariable(Site::NONE));
    Ok(refused(alloc, path, script, error))
}

/// The same of an operation at an address, with the names of the variable and of the function in place of a position.
fn stray_in_module(
    alloc: Global,
    path: &str,
    program: &Program,
    name: &str,
    at: usize,
) -> Result<Failure, AllocError> {
    let mut text = String::from_str(alloc, "no variable has the name `")?;
    push_name(name, &mut text)?;
    text.push('`')?;
    if let Some(place) = chunk_at(program, at) {
        text.push_str(" (")?;
        push_name(name_of(program, place), &mut text)?;
        text.push(')')?;
    }
    Ok(Failure::of_lines(alloc, shown(path), text))
}

impl<'a> HostVariables<'a> {
    /// The variables of a list, in which commas separate the names.
    ///
    /// # Errors
    /// A name is none that a variable can have.
    pub fn of(alloc: Global, list: &'a str) -> Result<HostVariables<'a>, Failure> {
        let listed = names_of(alloc, list)?;
        if let Some(name) = first_wrong(alloc, &listed)? {
            return Err(unnamed(alloc, name));
        }
        let mut names = BTreeSet::new(alloc);
        for name in listed {
            let _new = names.insert(name).map_err(AllocError::from)?;
        }
        Ok(HostVariables { names })
    }

    /// Whether it is the use of a variable that the host has.
    fn has(&self, program: &Program, found: Use) -> bool {
        match program.names().get(found.name) {
            Some(name) => self.names.contains(name),
            None => false,
        }
    }

    /// The first use of a variable that the host doesn't have. Local variables aren't used by their names.
    fn first_stray(&self, alloc: Global, program: &Program) -> Result<Option<Use>, AllocError> {
        let mut catches = Catches {
            names: BTreeMap::new(alloc),
            current: None,
        };
        for (at, op) in disassemble(program.code()) {
            if catches.takes(at, &op)? {
                continue;
            }
            if let Some(found) = use_of(program, at, &op)
                && !self.has(program, found)
            {
                return Ok(Some(found));
            }
        }
        Ok(None)
    }

    /// Refuses a program that uses a variable which the host doesn't have.
    ///
    /// # Errors
    /// It uses one.
    pub fn admit(
        &self,
        alloc: Global,
        path: &str,
        script: &str,
        program: &Program,
    ) -> Result<(), Failure> {
        match self.first_stray(alloc, program)? {
            Some(found) => Err(stray(alloc, (path, script), program, found)?),
            None => Ok(()),
        }
    }
}
