//! The world of scripts in the process of a host.

use rhai_runtime::World;
use rhai_values::{Cause, Reason};
use std::alloc::{AllocError, Global};
use std::collections::BTreeMap;

/// A world that keeps the output, and knows which functions the host does.
#[derive(Drop)]
pub(crate) struct Outside {
    alloc: Global,
    printed: String,
    /// How long the output may be.
    limit: usize,
    /// The numbers of parameters of the host's functions, by their names.
    functions: BTreeMap<String, Vec<usize>>,
}

impl Outside {
    /// A world without output, whose host has no functions.
    pub(crate) fn new(alloc: Global, limit: usize) -> Outside {
        Outside {
            alloc,
            printed: String::new(alloc),
            limit,
            functions: BTreeMap::new(alloc),
        }
    }

    /// The host does calls of this function with this many arguments.
    pub(crate) fn register(&mut self, name: &str, params: usize) -> Result<(), AllocError> {
        if let Some(known) = self.functions.get_mut(name) {
            if !known.contains(&params) {
                known.push(params)?;
            }
            return Ok(());
        }
        let mut known = Vec::new(self.alloc);
        known.push(params)?;
        let name = String::from_str(self.alloc, name)?;
        let _ = self.functions.insert(name, known)?;
        Ok(())
    }

    /// The output since it was cleared.
    pub(crate) fn printed(&self) -> &str {
        self.printed.as_str()
    }

    /// Drops the output.
    pub(crate) fn clear(&mut self) {
        self.printed.clear();
    }
}

impl World for Outside {
    fn print(&mut self, line: &str) -> Result<(), Cause> {
        let added = line.len().saturating_add(1);
        if self.printed.len().saturating_add(added) > self.limit {
            let why = String::from_str(self.alloc, "Too much output")?;
            return Err(Cause::Detailed(Reason::World, why));
        }
        self.printed.reserve(added)?;
        self.printed.push_str(line)?;
        self.printed.push('\n')?;
        Ok(())
    }

    fn debug(&mut self, line: &str) -> Result<(), Cause> {
        self.print(line)
    }

    fn is_awaited(&mut self, name: &str, arguments: usize) -> bool {
        match self.functions.get(name) {
            Some(known) => known.contains(&arguments),
            None => false,
        }
    }
}
