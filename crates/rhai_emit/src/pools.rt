//! The pools that operations have indices into, without repeats.

use crate::table::Table;
use grain_base::pos::Site;
use rhai_errors::{CompileError, Problem, Thing};
use rhai_lexer::{Names, Operator};
use rhai_syntax::Literal;
use std::alloc::Global;
use std::collections::HashMap;

/// The pools of a program in the making.
#[derive(Drop)]
pub struct PoolBuilder {
    /// What allocates.
    pub alloc: Global,
    /// The names.
    pub names: Names,
    /// The texts of string constants.
    pub texts: Names,
    /// The constants.
    pub consts: Vec<Literal>,
    places: HashMap<Literal, u32>,
    /// The operators that are called.
    pub tokens: Vec<Operator>,
    /// The operators of op-assignments.
    pub assign_ops: Vec<Operator>,
    /// The switches.
    pub switches: Vec<Table>,
}

impl PoolBuilder {
    /// PoolBuilder with these names and texts, and nothing else.
    pub fn new(alloc: Global, names: Names, texts: Names) -> PoolBuilder {
        PoolBuilder {
            alloc,
            names,
            texts,
            consts: Vec::new(alloc),
            places: HashMap::new(alloc),
            tokens: Vec::new(alloc),
            assign_ops: Vec::new(alloc),
            switches: Vec::new(alloc),
        }
    }

    /// The index of the name with this spelling.
    pub fn name(&mut self, spelled: &str) -> Result<u32, CompileError> {
        let name = String::from_str(self.alloc, spelled)?;
        self.names.index(name)
    }

    /// The index of a name of two parts.
    pub fn joined(&mut self, front: &str, name: u32) -> Result<u32, CompileError> {
        let mut joined = String::from_str(self.alloc, front)?;
        joined.push_str(self.names.get(name))?;
        self.names.index(joined)
    }

    /// The index of a constant.
    pub fn constant(&mut self, literal: Literal) -> Result<u32, CompileError> {
        if let Some(place) = self.places.get(&literal) {
            return Ok(*place);
        }
        let place = index_of(self.consts.len(), Thing::Constants)?;
        self.consts.push(literal)?;
        let _ = self.places.insert(literal, place)?;
        Ok(place)
    }

    /// The index of an operator.
    pub fn token(&mut self, operator: Operator) -> Result<u32, CompileError> {
        place_in(&mut self.tokens, operator)
    }

    /// The index of an op-assignment.
    pub fn assign_op(&mut self, operator: Operator) -> Result<u32, CompileError> {
        place_in(&mut self.assign_ops, operator)
    }
}

/// The place of an operator among others, to which it is added if it isn't there.
fn place_in(list: &mut Vec<Operator>, operator: Operator) -> Result<u32, CompileError> {
    for (place, found) in list.iter().enumerate() {
        if *found == operator {
            return index_of(place, Thing::Operators);
        }
    }
    let place = index_of(list.len(), Thing::Operators)?;
    list.push(operator)?;
    Ok(place)
}

/// A count as an index, which code has as two bytes.
pub fn index_of(count: usize, thing: Thing) -> Result<u32, CompileError> {
    match u16::try_from(count) {
        Ok(index) => Ok(u32::from(index)),
        Err(_) => Err(CompileError::new(Site::NONE, Problem::TooMany(thing))),
    }
}
