//! Why scripts fail, and where.
ghost use Rattle.std.specs.Prelude.{◌≡◌, false, true};
ghost use Rattle.grain_base.specs.Place.{is_none, place_of};
ghost use Rattle.grain_bytecode.specs.Positions.{place_at};
ghost use Rattle.grain.specs.Program.{places_of};

use grain::Program;
use grain_base::Position;
use grain_pools::Step;
use rhai_values::Cause;
use std::alloc::{AllocError, AllocFailed, Global};

/// A fault of a script.
#[derive(Drop)]
pub struct Fault {
    /// Why it came.
    pub cause: Cause,
    /// The address of the operation that failed, in the chunk where the fault came.
    pub at: usize,
    /// Where the operation, or the step of a chain, that failed is in the source text. It is none of a value that was thrown, or if
    /// positions were stripped.
    pub step: Position,
}

impl Fault {
    /// Where it is in the source text: its step, or else its address by the table of the program that was run.
    pub fn position(&self, program: &Program) -> Position
        ensures step { is_none self.now.step ≡ false → result ≡ self.now.step }
        ensures address { is_none self.now.step ≡ true
            → place_of result ≡ place_at (places_of program.now) self.now.at }
    {
        if self.step.is_none() {
            program.position(self.at)
        } else {
            self.step
        }
    }

    /// The cause, followed by the line and the column if the program's positions have them.
    ///
    /// # Errors
    /// Out of memory.
    pub fn text(&self, alloc: Global, program: &Program) -> Result<String, AllocError> {
        let cause = &self.cause;
        let position = self.position(program);
        match (position.line(), position.position()) {
            (Some(line), Some(column)) => {
                format!(in alloc; "{cause} (line {line}, position {column})")
            }
            (Some(line), None) => format!(in alloc; "{cause} (line {line})"),
            (None, _) => format!(in alloc; "{cause}"),
        }
    }
}

/// Why an operation fails, and at which step if it is a chain.
#[derive(Drop)]
pub struct OpError {
    /// Why it fails.
    pub cause: Cause,
    /// Where the step is in the source text, or none.
    pub step: Position,
}

impl OpError {
    /// The error with the position of its step, or else of the operation at an address of the program.
    #[must_use]
    pub fn located(self, program: &Program, at: usize) -> OpError {
        let OpError { cause, step } = self;
        let step = if step.is_none() {
            program.position(at)
        } else {
            step
        };
        OpError { cause, step }
    }

    /// A step of a chain fails so.
    #[cold]
    pub fn of_step(step: &Step, cause: Cause) -> OpError {
        let pos = match step {
            Step::Index { pos, .. } | Step::Property { pos, .. } | Step::Method { pos, .. } => *pos,
        };
        OpError { cause, step: pos }
    }
}

impl From<Cause> for OpError {
    fn from(cause: Cause) -> OpError {
        OpError {
            cause,
            step: Position::NONE,
        }
    }
}

impl From<AllocError> for OpError {
    fn from(_: AllocError) -> OpError {
        OpError::from(Cause::OutOfMemory)
    }
}

impl<T: Drop> From<AllocFailed<T>> for OpError {
    fn from(_: AllocFailed<T>) -> OpError {
        OpError::from(Cause::OutOfMemory)
    }
}
