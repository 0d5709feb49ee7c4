//! The local variables of the top level, which stay to be read when its run has ended.

use grain::{Program, disassemble};
use grain_code::Op;
use rhai_values::Value;
use std::alloc::{AllocError, Global};

/// The local variables that the top level had at the end of its last run.
#[derive(Drop)]
pub(crate) struct Top {
    /// The indices of their names, by slot, if a run has begun.
    names: Vec<u32>,
    values: Vec<Value>,
}

impl Top {
    pub(crate) fn new(alloc: Global) -> Top {
        Top {
            names: Vec::new(alloc),
            values: Vec::new(alloc),
        }
    }

    /// Learns the names of the program's variables, unless they are known.
    ///
    /// # Errors
    /// Out of memory. Nothing has changed.
    pub(crate) fn learn(&mut self, alloc: Global, program: &Program) -> Result<(), AllocError> {
        if self.names.is_empty() {
            self.names = names_at_end(alloc, program)?;
        }
        Ok(())
    }

    /// How many variables there are.
    pub(crate) fn len(&self) -> usize {
        self.names.len()
    }

    /// Keeps these values, by slot.
    pub(crate) fn keep(&mut self, values: Vec<Value>) {
        self.values = values;
    }

    /// Forgets all values.
    pub(crate) fn clear(&mut self) {
        self.values.clear();
    }

    /// The value of the variable whose name has this index.
    pub(crate) fn value(&self, name: u32) -> Option<&Value> {
        // The last one of a name hides those before it.
        for (known, value) in self.names.iter().zip(self.values.iter()).rev() {
            if *known == name {
                return Some(value);
            }
        }
        None
    }
}

/// The names of the variables that the top level declares and that no block ends. It reads the code once. Of code that isn't
/// compiled they may be others.
fn names_at_end(alloc: Global, program: &Program) -> Result<Vec<u32>, AllocError> {
    let mut names = Vec::new(alloc);
    let main = program.main();
    let span = main.entry() as usize..main.end() as usize;
    let Some(code) = program.code().get(span) else {
        return Ok(names);
    };
    for (_at, op) in disassemble(code) {
        match op {
            Op::DeclareLocal { name, .. } => names.push(name)?,
            Op::UnwindTo(depth) => names.truncate(depth as usize),
            _ => {}
        }
    }
    Ok(names)
}
