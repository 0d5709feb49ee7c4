//! The variables that closures share. Each lies at an index, and its value is dropped when nothing refers to it any more.

use crate::cause::Cause;
use crate::value::Value;
use std::alloc::{AllocError, Global};
use std::rc::Rc;

/// How large what was added may be, whatever else there is, before unused variables are looked for. A variable counts as at
/// most this, so that one look at all of them follows each large value at most, and not many.
const ADDED_AT_LEAST: usize = 4096;

/// A variable that is shared.
#[derive(Drop)]
struct Share {
    value: Value,
    /// Its index. Each value that refers to the variable has the same counter.
    index: Rc<usize>,
}

/// The shared variables of a script, by their indices.
#[derive(Drop)]
pub(crate) struct Shares {
    alloc: Global,
    list: Vec<Share>,
    /// The indices of those that nothing referred to at the last look, to be used again.
    unused: Vec<usize>,
    /// How large the values are together that were added since the last look.
    added: usize,
}

impl Shares {
    /// No variables.
    pub(crate) fn new(alloc: Global) -> Shares {
        Shares {
            alloc,
            list: Vec::new(alloc),
            unused: Vec::new(alloc),
            added: 0,
        }
    }

    /// The value of the variable at an index.
    #[inline(always)]
    pub(crate) fn get(&self, index: usize) -> Option<&Value> {
        match self.list.get(index) {
            Some(share) => Some(&share.value),
            None => None,
        }
    }

    /// The place of the value of the variable at an index.
    #[inline(always)]
    pub(crate) fn get_mut(&mut self, index: usize) -> Option<&mut Value> {
        match self.list.get_mut(index) {
            Some(share) => Some(&mut share.value),
            None => None,
        }
    }

    /// Adds a variable with this value, and returns what refers to it. It looks for unused ones so seldom that all these looks take
    /// time by how large the values are that are added.
    ///
    /// # Errors
    /// Out of memory: then the value is lost.
    pub(crate) fn add(&mut self, value: Value) -> Result<Rc<usize>, Cause> {
        let size = value.measure().size.min(ADDED_AT_LEAST);
        self.added = self.added.saturating_add(size);
        let most = self
            .list
            .len()
            .saturating_mul(4)
            .saturating_add(ADDED_AT_LEAST);
        if self.added > most {
            self.find_unused()?;
        }
        if let Some(index) = self.unused.pop()
            && let Some(share) = self.list.get_mut(index)
        {
            share.value = value;
            return Ok(share.index.clone()?);
        }
        self.append(value)
    }

    fn append(&mut self, value: Value) -> Result<Rc<usize>, Cause> {
        let index = Rc::new(self.alloc, self.list.len())?;
        let share = Share {
            value,
            index: index.clone()?,
        };
        self.list.push(share)?;
        Ok(index)
    }

    /// Drops the values of the variables that nothing refers to.
    fn find_unused(&mut self) -> Result<(), AllocError> {
        self.added = 0;
        self.unused.clear();
        let mut index = 0usize;
        for share in &mut self.list {
            if Rc::strong_count(&share.index) == 1 {
                share.value = Value::Unit;
                self.unused.push(index)?;
            }
            index = index.saturating_add(1);
        }
        Ok(())
    }
}
