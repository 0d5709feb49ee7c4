//! What lies outside a script.

use rhai_values::{Cause, Value};
use std::alloc::Global;

/// What a script reaches outside itself: its output, and functions that the embedding program adds.
pub trait World {
    /// Writes a line that `print` was given.
    ///
    /// # Errors
    /// Why it can't be written. No script catches one of [`Reason::World`](rhai_values::Reason).
    fn print(&mut self, line: &str) -> Result<(), Cause>;

    /// Writes a line that `debug` was given.
    ///
    /// # Errors
    /// As [`print`](World::print).
    fn debug(&mut self, line: &str) -> Result<(), Cause>;

    /// Calls a function of the world. It is called if neither the script nor the library has one of this name that takes
    /// these arguments, and the embedding program does no calls of it. `None` means that the world has none either.
    ///
    /// # Errors
    /// Why the function fails.
    fn call(
        &mut self,
        _alloc: Global,
        _name: &str,
        _arguments: &[Value],
    ) -> Result<Option<Value>, Cause> {
        Ok(None)
    }

    /// Whether the embedding program does calls of this function, with this number of arguments, itself while the run waits. It is
    /// called if neither the script nor the library has one. [`Script::asked`](crate::Script::asked) then has the call.
    fn is_awaited(&mut self, _name: &str, _arguments: usize) -> bool {
        false
    }
}

/// A world that keeps what a script prints.
#[derive(Drop)]
pub struct Recorder {
    /// The lines, each with its line feed.
    pub text: String,
}

impl Recorder {
    /// A world in which nothing was printed yet.
    #[must_use]
    pub fn new(alloc: Global) -> Recorder {
        Recorder {
            text: String::new(alloc),
        }
    }
}

impl World for Recorder {
    fn print(&mut self, line: &str) -> Result<(), Cause> {
        self.text.push_str(line)?;
        self.text.push('\n')?;
        Ok(())
    }

    fn debug(&mut self, line: &str) -> Result<(), Cause> {
        self.print(line)
    }
}
