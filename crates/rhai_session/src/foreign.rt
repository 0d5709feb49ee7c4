//! Values of the host's own that are passed to a script.
ghost use Rattle.std.specs.Prelude.{◌≡◌};

use crate::event::Refused;
use crate::session::Session;
use rhai_values::{Cause, Foreign, Value};
use std::alloc::AllocError;
use std::rc::Rc;

/// Appends the values of the host's own that are in a value.
#[cycle(collect)]
fn collect(value: &Value, found: &mut Vec<Rc<Foreign>>) -> Result<(), AllocError> {
    match value {
        Value::Foreign(foreign) => {
            found.push(foreign.clone()?)?;
            Ok(())
        }
        Value::Array(list) => collect_all(list.items(), found),
        Value::Pointer(pointer) => collect_all(pointer.bound(), found),
        Value::Map(object) => {
            for (_, value) in object.entries() {
                collect(value, found)?;
            }
            Ok(())
        }
        _ => Ok(()),
    }
}

/// Appends those that are in values.
#[cycle(collect)]
fn collect_all(values: &[Value], found: &mut Vec<Rc<Foreign>>) -> Result<(), AllocError> {
    for value in values {
        collect(value, found)?;
    }
    Ok(())
}

impl Session {
    /// Remembers the values of the host's own that are in values, and returns how many it remembered before.
    ///
    /// # Errors
    /// Out of memory. Then it remembers no more than before.
    pub(crate) fn remember(&mut self, values: &[Value]) -> Result<usize, AllocError>
        ensures { self.new ≡ self.old }
    {
        let before = self.passed.len();
        match collect_all(values, &mut self.passed) {
            Ok(()) => Ok(before),
            Err(error) => {
                self.passed.truncate(before);
                Err(error)
            }
        }
    }

    /// Shows the values of the host's own of which no copy is left, each as often as it was passed, and forgets them. It takes time by
    /// how many are remembered.
    ///
    /// # Errors
    /// Out of memory: none is forgotten, and none is shown.
    pub fn show_dropped(&mut self) -> Result<(), Refused>
        ensures { (self.new.state ≡ self.old.state) × (self.new.ended ≡ self.old.ended) }
    {
        self.clear_shown();
        match self.write_dropped() {
            Ok(left) => {
                self.count = self.passed.len().saturating_sub(left.len());
                self.passed = left;
                Ok(())
            }
            Err(cause) => {
                self.clear_shown();
                Err(Refused::from(cause))
            }
        }
    }

    /// Writes those of which no copy is left, and returns the others.
    fn write_dropped(&mut self) -> Result<Vec<Rc<Foreign>>, Cause>
        ensures { (self.new.state ≡ self.old.state) × (self.new.ended ≡ self.old.ended) }
    {
        let mut left = Vec::new(self.alloc);
        for foreign in &self.passed {
            if Rc::strong_count(foreign) > 1 {
                left.push(foreign.clone()?)?;
            } else {
                self.shown.write(&Value::Foreign(foreign.clone()?))?;
            }
        }
        Ok(left)
    }
}
