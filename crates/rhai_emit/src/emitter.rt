//! The state of rules that write code.

use crate::declared::Declared;
use crate::options::Options;
use crate::pools::PoolBuilder;
use crate::scope::{Local, Scope};
use grain_base::pos::Site;
use grain_builder::Assembler;
use rhai_syntax::{Binding, Constant};
use std::alloc::Global;
use std::collections::HashMap;

/// What is known of a function before its code is made.
#[derive(Drop)]
pub struct Signature {
    /// Where it begins.
    pub place: Site,
    /// Its name.
    pub name: u32,
    /// Its parameters.
    pub params: Vec<Binding>,
    /// The name of the type of `this`, if it is declared for one.
    pub this_type: Option<u32>,
    /// Whether only this script may call it.
    pub is_private: bool,
    /// Whether it is a closure.
    pub is_closure: bool,
    /// The names that it uses.
    pub uses: Vec<u32>,
    /// The variables that a closure captures, which come before its parameters.
    pub captured: Vec<Local>,
}

/// Code in the making, with the pools and the variables that it names.
#[derive(Drop)]
pub struct Emitter {
    /// What allocates.
    pub alloc: Global,
    /// How the text is compiled.
    pub options: Options,
    /// The operations so far.
    pub code: Assembler,
    /// The pools.
    pub pools: PoolBuilder,
    /// The variables of the chunk that is written.
    pub scope: Scope,
    /// The functions.
    pub signatures: Vec<Signature>,
    /// The functions, by their names.
    pub(crate) declared: Declared,
    /// The constants that are read by names with `::`.
    pub(crate) constants: HashMap<u32, Constant>,
}
