//! A program of which contracts still speak when it is dropped.
ghost use Rattle.std.specs.Prelude.{◌≡◌};
ghost use Rattle.std.specs.Borrow.{ftrue};
ghost use Rattle.grain.specs.Program.{Program};
ghost use Rattle.grain.specs.contracts.program.Program as whole;

use grain::Program;
use std::marker::Model;

/// What is recalled of a program that may be dropped. It takes no memory: only contracts see it.
#[derive(Drop)]
pub(crate) struct Recalled {
    pub ghost program: { Program } by { whole.the_row.coded },
}

impl Model for Recalled {
    ghost also_owns = { λ _. ftrue };
}

unsafe impl Send for Recalled {}

impl Recalled {
    /// Recalls this program.
    pub(crate) fn of(_program: &Program) -> Recalled
        ensures { result.program ≡ _program.now }
    {
        Recalled {}
    }
}
