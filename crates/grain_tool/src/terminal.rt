//! What scripts print.

use grain_cli::failure::Failure;
use rhai_runtime::World;
use rhai_values::{Cause, Reason, Value};
use std::alloc::Global;
use std::io;
use std::io::Write;

/// A world of a script whose `print` goes to one writer and whose `debug` goes to another. Its function `args` gives the arguments
/// of the script.
#[derive(Drop)]
pub struct Terminal<O, E> {
    alloc: Global,
    output: O,
    errors: E,
    /// What the function `args` gives.
    arguments: Value,
    /// Why the output could not be written.
    failure: Option<io::Error>,
}

impl<O: Write + Drop, E: Write + Drop> Terminal<O, E> {
    /// A world with these writers, and these arguments of the script.
    pub fn new(alloc: Global, output: O, errors: E, arguments: Value) -> Terminal<O, E> {
        Terminal {
            alloc,
            output,
            errors,
            arguments,
            failure: None,
        }
    }

    /// Writes what is left of the output.
    ///
    /// # Errors
    /// It could not be written, now or before.
    pub fn finish(&mut self) -> Result<(), Failure> {
        if let Some(error) = self.failure.take() {
            return Err(Failure::of_output(error));
        }
        self.output.flush().map_err(Failure::of_output)
    }

    fn failed(&mut self, error: io::Error) -> Cause {
        self.failure = Some(error);
        match String::from_str(self.alloc, "standard output can't be written") {
            Ok(text) => Cause::Detailed(Reason::World, text),
            Err(_) => Cause::OutOfMemory,
        }
    }
}

impl<O: Write + Drop, E: Write + Drop> World for Terminal<O, E> {
    fn print(&mut self, line: &str) -> Result<(), Cause> {
        let written = match self.output.write_all(line.as_bytes()) {
            Ok(()) => self.output.write_all(b"\n".as_slice()),
            Err(error) => Err(error),
        };
        match written {
            Ok(()) => Ok(()),
            Err(error) => Err(self.failed(error)),
        }
    }

    fn debug(&mut self, line: &str) -> Result<(), Cause> {
        // Where standard error can't be written there is nowhere to say so.
        let _said = self.errors.write_all(line.as_bytes());
        let _ended = self.errors.write_all(b"\n".as_slice());
        Ok(())
    }

    fn call(
        &mut self,
        _alloc: Global,
        name: &str,
        arguments: &[Value],
    ) -> Result<Option<Value>, Cause> {
        if name == "args" && arguments.is_empty() {
            Ok(Some(self.arguments.clone()?))
        } else {
            Ok(None)
        }
    }
}
