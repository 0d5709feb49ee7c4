//! Calls of functions that neither a script nor the library has.

use grain::pos::Site;
use grain::{Dynamic, Op, Position, Program, Step, disassemble};
use grain_cli::excerpt::site_of;
use grain_listing::push_name;
use rhai_library::Callee;
use std::alloc::{AllocError, Global};
use std::collections::BTreeSet;

/// The functions that the command adds to the library.
const OF_COMMAND: &str = "args";

/// What names of functions are made of.
const LETTERS: &str = "abcdefghijklmnopqrstuvwxyz_";

/// How many bytes a name has at most for which a similar one is sought: each of them is edited in 56 ways, and each result is
/// compared with the names of the library.
const LONGEST_COMPARED: usize = 40;

/// How many calls are listed at most.
const MOST_LISTED: usize = 20;

/// What is probably wrong in a script that can be compiled.
#[derive(Drop)]
pub struct Warning {
    /// Where it is.
    pub place: Site,
    /// A sentence about it.
    pub message: String,
}

/// What is known of the names of a program, each by its index.
#[derive(Drop)]
struct Known<'a> {
    program: &'a Program,
    /// The names of the script's functions.
    functions: BTreeSet<&'a str>,
    /// Whether a function has the name.
    is_function: Vec<bool>,
    /// Whether a property may have the name: what it holds may be called as a method.
    is_property: Vec<bool>,
}

/// Sets the mark at an index, if there is one.
fn mark(marks: &mut Vec<bool>, index: u32) {
    if let Some(mark) = marks.get_mut(index as usize) {
        *mark = true;
    }
}

/// The strings among the constants, which name properties where an object map is written out.
fn strings(alloc: Global, program: &Program) -> Result<BTreeSet<&str>, AllocError> {
    let mut strings = BTreeSet::new(alloc);
    for constant in program.consts() {
        if let Dynamic::Str(text) = constant {
            let _new = strings.insert(text.as_str())?;
        }
    }
    Ok(strings)
}

impl<'a> Known<'a> {
    fn of(alloc: Global, program: &'a Program) -> Result<Known<'a>, AllocError> {
        let strings = strings(alloc, program)?;
        let mut is_function = Vec::new(alloc);
        let mut is_property = Vec::new(alloc);
        for name in program.names().iter() {
            is_function.push(Callee::named(name).is_some() || name == OF_COMMAND)?;
            is_property.push(strings.contains(name))?;
        }
        let mut functions = BTreeSet::new(alloc);
        for function in program.functions() {
            mark(&mut is_function, function.name);
            if let Some(name) = program.names().get(function.name) {
                let _new = functions.insert(name)?;
            }
        }
        for chain in program.chains() {
            for step in &chain.steps {
                if let Step::Property { name, .. } = step {
                    mark(&mut is_property, *name);
                }
            }
        }
        Ok(Known {
            program,
            functions,
            is_function,
            is_property,
        })
    }
}

/// The name that an operation calls, and whether that may be a method.
fn called(op: &Op) -> Option<(u32, bool)> {
    match *op {
        Op::Call { name, op: None, .. } => Some((name, false)),
        Op::CallRef { name, .. } => Some((name, true)),
        _ => None,
    }
}

/// Appends a letter, if there is one.
fn push_some(text: &mut String, letter: Option<char>) -> Result<(), AllocError> {
    match letter {
        Some(letter) => text.push(letter),
        None => Ok(()),
    }
}

/// A mistake of one letter.
#[derive(Clone, Copy)]
enum Edit {
    /// There is one too many.
    Omit,
    /// It is swapped with the next one.
    Swap,
    /// It is another one than this.
    Replace(char),
    /// This one is missing before it.
    Insert(char),
}

/// The name with the edit at a byte of it.
fn edited(alloc: Global, name: &str, at: usize, edit: Edit) -> Result<String, AllocError> {
    let mut text = String::from_str(alloc, name.get(..at).unwrap_or_default())?;
    let mut letters = name.get(at..).unwrap_or_default().chars();
    match edit {
        Edit::Omit => {
            let _omitted = letters.next();
        }
        Edit::Swap => {
            let first = letters.next();
            push_some(&mut text, letters.next())?;
            push_some(&mut text, first)?;
        }
        Edit::Replace(letter) => {
            let _replaced = letters.next();
            text.push(letter)?;
        }
        Edit::Insert(letter) => text.push(letter)?,
    }
    for letter in letters {
        text.push(letter)?;
    }
    Ok(text)
}

impl<'a> Known<'a> {
    /// Whether a function has this name.
    fn has(&self, name: &str) -> bool {
        Callee::named(name).is_some() || self.functions.contains(name)
    }

    /// The name with the edit, if a function has that.
    fn tried(
        &self,
        alloc: Global,
        name: &str,
        at: usize,
        edit: Edit,
    ) -> Result<Option<String>, AllocError> {
        let text = edited(alloc, name, at, edit)?;
        Ok(if self.has(text.as_str()) {
            Some(text)
        } else {
            None
        })
    }

    /// The name with one mistake mended at a byte of it, if a function has that.
    fn mended_at(
        &self,
        alloc: Global,
        name: &str,
        at: usize,
    ) -> Result<Option<String>, AllocError> {
        for edit in [Edit::Omit, Edit::Swap] {
            if let Some(found) = self.tried(alloc, name, at, edit)? {
                return Ok(Some(found));
            }
        }
        for letter in LETTERS.chars() {
            for edit in [Edit::Replace(letter), Edit::Insert(letter)] {
                if let Some(found) = self.tried(alloc, name, at, edit)? {
                    return Ok(Some(found));
                }
            }
        }
        Ok(None)
    }

    /// The name with one mistake mended, if a function has that.
    fn mended(&self, alloc: Global, name: &str) -> Result<Option<String>, AllocError> {
        if name.len() > LONGEST_COMPARED {
            return Ok(None);
        }
        for at in 0..name.len().saturating_add(1) {
            if let Some(found) = self.mended_at(alloc, name, at)? {
                return Ok(Some(found));
            }
        }
        Ok(None)
    }

    /// The sentence about a call of a function that isn't known.
    fn message_of(&self, alloc: Global, name: &str) -> Result<String, AllocError> {
        let mut text = String::from_str(
            alloc,
            "neither the script nor the library has a function `",
        )?;
        push_name(name, &mut text)?;
        text.push('`')?;
        if let Some(similar) = self.mended(alloc, name)? {
            write!(text, " (is it `{similar}`?)")?;
        }
        Ok(text)
    }

    /// Whether no function has the name, nor a property if it is called as a method.
    fn is_unknown(&self, name: u32, is_method: bool) -> bool {
        let has = |marks: &Vec<bool>| marks.get(name as usize).is_none_or(|mark| *mark);
        !has(&self.is_function) && !(is_method && has(&self.is_property))
    }

    /// Lists a call, if its function is unknown and it has a position. Those of the library's own functions have none.
    fn visit(
        &self,
        alloc: Global,
        warnings: &mut Vec<Warning>,
        (name, is_method): (u32, bool),
        position: Position,
    ) -> Result<(), AllocError> {
        if warnings.len() >= MOST_LISTED || !self.is_unknown(name, is_method) {
            return Ok(());
        }
        let (Some(name), Some(place)) = (self.program.names().get(name), site_of(position)) else {
            return Ok(());
        };
        let message = self.message_of(alloc, name)?;
        warnings.push(Warning { place, message })?;
        Ok(())
    }

    /// Lists the methods that chains call.
    fn visit_chains(&self, alloc: Global, warnings: &mut Vec<Warning>) -> Result<(), AllocError> {
        for chain in self.program.chains() {
            for step in &chain.steps {
                if let Step::Method { name, pos, .. } = step {
                    self.visit(alloc, warnings, (*name, true), *pos)?;
                }
            }
        }
        Ok(())
    }
}

/// Calls of functions that neither the script nor the library has, the first few of them. A method isn't listed if a property
/// may have its name. It takes time linear in the program's size, but n log n in its constants.
///
/// # Errors
/// Out of memory.
pub fn unknown_calls(alloc: Global, program: &Program) -> Result<Vec<Warning>, AllocError> {
    let known = Known::of(alloc, program)?;
    let mut warnings = Vec::new(alloc);
    for (at, op) in disassemble(program.code()) {
        if let Some(call) = called(&op) {
            known.visit(alloc, &mut warnings, call, program.position(at))?;
        }
    }
    known.visit_chains(alloc, &mut warnings)?;
    Ok(warnings)
}
