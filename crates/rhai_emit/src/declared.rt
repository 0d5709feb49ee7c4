//! Which functions a script declares, by their names.

use rhai_errors::{CompileError, Problem, Thing};
use rhai_syntax::Function;
use std::alloc::Global;
use std::collections::HashSet;

/// The functions that a script declares. Each question takes constant time.
#[derive(Drop)]
pub(crate) struct Declared {
    /// Each function: its name, its number of parameters, and the type of its receiver.
    functions: HashSet<(u32, usize, Option<u32>)>,
    /// The names with these numbers of parameters.
    counts: HashSet<(u32, usize)>,
    /// The names of those that are declared for no receiver.
    names: HashSet<u32>,
}

impl Declared {
    /// No functions.
    pub(crate) fn new(alloc: Global) -> Declared {
        Declared {
            functions: HashSet::new(alloc),
            counts: HashSet::new(alloc),
            names: HashSet::new(alloc),
        }
    }

    /// Adds a function.
    ///
    /// # Errors
    /// There is one of the same name, number of parameters and type of `this`; or the allocator refused.
    pub(crate) fn add(&mut self, function: &Function) -> Result<(), CompileError> {
        let name = function.name;
        let count = function.params.len();
        if !self.functions.insert((name, count, function.this_type))? {
            return Err(CompileError::new(function.place, Problem::Repeated(Thing::Function)));
        }
        let _is_new = self.counts.insert((name, count))?;
        if function.this_type.is_none() {
            let _is_new = self.names.insert(name)?;
        }
        Ok(())
    }

    /// Whether there is a function of that name with this many parameters, for any receiver.
    pub(crate) fn has(&self, name: u32, count: usize) -> bool {
        self.counts.contains(&(name, count))
    }

    /// Whether there is one of that name that is declared for no receiver.
    pub(crate) fn has_name(&self, name: u32) -> bool {
        self.names.contains(&name)
    }

    /// Whether there is one that is declared for no receiver, as a call by name finds it.
    pub(crate) fn has_plain(&self, name: u32, count: usize) -> bool {
        self.functions.contains(&(name, count, None))
    }
}
