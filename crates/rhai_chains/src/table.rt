//! What the names and constants of a program mean, found once before it runs.
ghost use Rattle.std.specs.Prelude.{◌<◌, IfSome, length};

use grain::Program;
use rhai_library::Callee;
use rhai_values::{Cause, Text, Value, value_of};
use std::alloc::{AllocError, Global};
use std::collections::BTreeMap;
use std::rc::Rc;

/// A function of the program.
#[derive(Clone, Copy, Drop)]
struct Declared {
    params: usize,
    /// The name of the type of its receiver, if it is declared for one.
    this_type: Option<u32>,
    index: usize,
}

/// What one name means.
#[derive(Drop)]
struct Meaning {
    /// The name itself, to be shared.
    name: Rc<Text>,
    callee: Option<Callee>,
    declared: Vec<Declared>,
}

/// What the names and constants of a program mean.
#[derive(Drop)]
pub struct NameTable {
    constants: Vec<Value>,
    /// By the index of the name.
    meanings: Vec<Meaning>,
    indices: BTreeMap<String, u32>,
}

impl NameTable {
    /// The table of the program. It takes time n log n in the number of its names, and linear in its other pools and functions.
    ///
    /// # Errors
    /// Out of memory, or [`Cause::Unsupported`] if a constant is a value of another host.
    pub fn of(alloc: Global, program: &Program) -> Result<NameTable, Cause> {
        let mut table = NameTable {
            constants: Vec::new(alloc),
            meanings: Vec::new(alloc),
            indices: BTreeMap::new(alloc),
        };
        for constant in program.consts() {
            table.constants.push(value_of(alloc, constant)?)?;
        }
        table.add_names(alloc, program)?;
        table.add_functions(program)?;
        Ok(table)
    }

    fn add_names(&mut self, alloc: Global, program: &Program) -> Result<(), AllocError> {
        let mut index = 0u32;
        for name in program.names().iter() {
            self.meanings.push(Meaning {
                name: Rc::new(alloc, Text::of(String::from_str(alloc, name)?))?,
                callee: Callee::named(name),
                declared: Vec::new(alloc),
            })?;
            let _ = self.indices.insert(String::from_str(alloc, name)?, index)?;
            index = index.saturating_add(1);
        }
        Ok(())
    }

    fn add_functions(&mut self, program: &Program) -> Result<(), AllocError> {
        let mut index = 0usize;
        for function in program.functions() {
            if let Some(meaning) = self.meanings.get_mut(function.name as usize) {
                meaning.declared.push(Declared {
                    params: function.params.len(),
                    this_type: function.this_type,
                    index,
                })?;
            }
            index = index.saturating_add(1);
        }
        Ok(())
    }

    /// The value of the constant at an index.
    #[must_use]
    pub fn constant(&self, index: u32) -> Option<&Value> {
        self.constants.get(index as usize)
    }

    /// The name at an index, to be shared.
    #[must_use]
    pub fn name(&self, index: u32) -> Option<&Rc<Text>> {
        match self.meanings.get(index as usize) {
            Some(meaning) => Some(&meaning.name),
            None => None,
        }
    }

    /// The index of a name. It takes time by the logarithm of the number of names.
    #[must_use]
    pub fn index_of(&self, name: &str) -> Option<u32> {
        match self.indices.get(name) {
            Some(index) => Some(*index),
            None => None,
        }
    }

    /// The function of the library, or `print` or `debug`, that has this name.
    #[must_use]
    pub fn callee(&self, name: u32) -> Option<Callee> {
        self.meanings.get(name as usize)?.callee
    }

    /// The function of the program that has this name and number of parameters, and is declared for no receiver.
    #[must_use]
    pub fn function(&self, program: &Program, name: u32, params: usize) -> Option<usize>
        ensures { IfSome result (λ index. index < length program.now.functions) }
    {
        let meaning = self.meanings.get(name as usize)?;
        for declared in &meaning.declared {
            if declared.params == params && declared.this_type.is_none() {
                return within(program, declared.index);
            }
        }
        None
    }

    /// As [`function`](NameTable::function), by the name's text. What it says must be tested: nothing is proved of the table's names.
    #[must_use]
    pub fn function_named(&self, program: &Program, name: &str, params: usize) -> Option<usize> {
        self.function(program, self.index_of(name)?, params)
    }

    /// Whether the program has a function of this name and number of parameters that is declared for this type of receiver, or for
    /// none.
    #[must_use]
    pub fn is_declared(&self, this_type: Option<&str>, name: &str, params: usize) -> bool {
        let this_type = match this_type {
            Some(this_type) => match self.index_of(this_type) {
                Some(index) => Some(index),
                None => return false,
            },
            None => None,
        };
        let Some(index) = self.index_of(name) else {
            return false;
        };
        match self.meanings.get(index as usize) {
            Some(meaning) => meaning.declared.iter().any(|declared| declared.params == params
                && declared.this_type == this_type),
            None => false,
        }
    }

    /// Whether the program has functions of this name with this number of parameters.
    #[must_use]
    pub fn has_functions(&self, name: u32, params: usize) -> bool {
        match self.meanings.get(name as usize) {
            Some(meaning) => meaning
                .declared
                .iter()
                .any(|declared| declared.params == params),
            None => false,
        }
    }

    /// The function of the program that a method call on this value calls: one that is declared for its type, else one that is
    /// declared for no receiver.
    #[must_use]
    pub fn method(
        &self,
        program: &Program,
        name: u32,
        params: usize,
        receiver: &Value,
    ) -> Option<usize>
        ensures { IfSome result (λ index. index < length program.now.functions) }
    {
        match self.typed(program, name, params, receiver) {
            Some(index) => Some(index),
            None => self.function(program, name, params),
        }
    }

    /// The function of the program that has this name and number of parameters, and is declared for the type of this value.
    #[must_use]
    pub fn typed(
        &self,
        program: &Program,
        name: u32,
        params: usize,
        receiver: &Value,
    ) -> Option<usize>
        ensures { IfSome result (λ index. index < length program.now.functions) }
    {
        let meaning = self.meanings.get(name as usize)?;
        for declared in &meaning.declared {
            if declared.params == params && is_for(program, declared.this_type, receiver) {
                return within(program, declared.index);
            }
        }
        None
    }
}

/// The index, if the program has a function there.
fn within(program: &Program, index: usize) -> Option<usize>
    ensures { IfSome result (λ index. index < length program.now.functions) }
{
    if index < program.functions().len() {
        Some(index)
    } else {
        None
    }
}

/// Whether a function is declared for the type of the value.
fn is_for(program: &Program, this_type: Option<u32>, receiver: &Value) -> bool {
    let Some(name) = this_type else {
        return false;
    };
    match program.names().get(name) {
        Some("int") => receiver.type_name() == "i64",
        Some(name) => receiver.type_name() == name,
        None => false,
    }
}
