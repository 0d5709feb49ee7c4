//! The names that a text and its modules have for each other.

use crate::ast::Constant;
use std::alloc::Global;
use std::collections::{HashMap, HashSet};

/// What is known of a text before it is read.
#[derive(Drop)]
pub(crate) struct Links {
    /// The name of the module, unless it is the main text.
    pub(crate) module: Option<String>,
    /// The functions of a module, by their names and numbers of parameters, with their names in the program.
    pub(crate) own: HashMap<(u32, usize), u32>,
    /// The names of these functions, with their names in the program.
    pub(crate) own_names: HashMap<u32, u32>,
    /// The modules, as texts, by the names that the text gives them.
    pub(crate) aliases: HashMap<u32, u32>,
    /// What is declared outside of blocks.
    pub(crate) declared: HashSet<u32>,
    /// What is declared there more than once.
    pub(crate) repeated: HashSet<u32>,
    /// What is read as `global::NAME`.
    pub(crate) globals: HashSet<u32>,
    /// The variables and constants of a module that were read outside of blocks.
    pub(crate) values: HashMap<u32, Constant>,
}

impl Links {
    pub(crate) fn new(alloc: Global, module: Option<String>) -> Links {
        Links {
            module,
            own: HashMap::new(alloc),
            own_names: HashMap::new(alloc),
            aliases: HashMap::new(alloc),
            declared: HashSet::new(alloc),
            repeated: HashSet::new(alloc),
            globals: HashSet::new(alloc),
            values: HashMap::new(alloc),
        }
    }
}
