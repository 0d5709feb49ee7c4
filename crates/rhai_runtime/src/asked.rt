//! A call that the embedding program does while the run waits.
ghost use Rattle.std.specs.Prelude.{◌≡◌, IfSome, Some, slice_get};
ghost use Rattle.rhai_runtime.specs.Asked.{asked_arguments, asked_name};

use rhai_values::{Lent, Value};
use std::alloc::{AllocError, Global};

/// A call that the embedding program does while the run waits.
#[derive(Drop)]
pub struct Asked {
    pub(crate) name: String,
    pub(crate) arguments: Vec<Value>,
    /// Where the first argument was taken from, if it was lent by a variable.
    pub(crate) lent: Option<Lent>,
}

impl Asked {
    /// A call of no function.
    pub(crate) fn new(alloc: Global) -> Asked {
        Asked {
            name: String::new(alloc),
            arguments: Vec::new(alloc),
            lent: None,
        }
    }

    /// Appends the name and the arguments of a call.
    pub(crate) fn fill(&mut self, name: &str, arguments: &[Value]) -> Result<(), AllocError> {
        self.name.push_str(name)?;
        for argument in arguments {
            self.arguments.push(argument.clone()?)?;
        }
        Ok(())
    }

    /// Drops the name and the arguments, and keeps their memory for another call.
    pub(crate) fn clear(&mut self) {
        self.name.clear();
        self.arguments.clear();
        self.lent = None;
    }

    /// The name of the function.
    #[must_use]
    pub fn name(&self) -> &str
        ensures { result.now ≡ asked_name self.now }
    {
        self.name.as_str()
    }

    /// Its arguments. For a method the first is the value on which it is called.
    #[must_use]
    pub fn arguments(&self) -> &[Value]
        ensures { result.now ≡ asked_arguments self.now }
    {
        self.arguments.as_slice()
    }

    /// The first argument, if it was taken out of a variable: the function may change it, and it goes back there.
    pub fn receiver(&mut self) -> Option<&mut Value>
        ensures { IfSome result (λ receiver. slice_get (asked_arguments self.old) 0 ≡ Some receiver.now) }
    {
        match &self.lent {
            Some(_) => self.arguments.first_mut(),
            None => None,
        }
    }
}

/// What a script keeps of a run that waits while a function is run from outside.
#[derive(Drop)]
pub(crate) struct OuterRun {
    /// The call for which it waits.
    pub(crate) asked: Option<Asked>,
    /// How many functions had been entered and not left.
    pub(crate) entered: usize,
}
