//! Texts without repeats, each with its index.

use grain_base::pos::Site;
use rhai_errors::{CompileError, Problem, Thing};
use std::alloc::Global;
use std::collections::HashMap;

/// Texts without repeats. Each has one index, by which it is found in constant time.
#[derive(Drop)]
pub struct Names {
    list: Vec<String>,
    indices: HashMap<String, u32>,
}

impl Names {
    /// No texts.
    pub fn new(alloc: Global) -> Names {
        Names {
            list: Vec::new(alloc),
            indices: HashMap::new(alloc),
        }
    }

    /// The index of the text, which is added if it isn't there.
    ///
    /// # Errors
    /// There are more texts than 32 bits count, or the allocator refused.
    pub fn index(&mut self, name: String) -> Result<u32, CompileError> {
        if let Some(index) = self.indices.get(name.as_str()) {
            return Ok(*index);
        }
        let Ok(index) = u32::try_from(self.list.len()) else {
            return Err(CompileError::new(Site::NONE, Problem::TooMany(Thing::Names)));
        };
        let copy = name.clone()?;
        self.list.push(name)?;
        let _ = self.indices.insert(copy, index)?;
        Ok(index)
    }

    /// The index of the text, if it is there.
    pub fn find(&self, name: &str) -> Option<u32> {
        self.indices.get(name).copied()
    }

    /// The text at an index, or the empty text if there is none.
    pub fn get(&self, index: u32) -> &str {
        match self.list.get(index as usize) {
            Some(name) => name.as_str(),
            None => "",
        }
    }

    /// All texts, by their indices.
    pub fn list(&self) -> &[String] {
        &self.list
    }
}
