//! Writing a program as a file, and its outline.
ghost use Rattle.std.specs.Prelude.{◌≡◌, ℕ, List, IfOk, IfErr, OnOk};
ghost use Rattle.grain_format.specs.Reading.{Decides};
ghost use Rattle.grain_file.specs.Outline.{IsOutline};
ghost use Rattle.grain_file.specs.ProgramFile.{Bounds, IsFile, IsWithin, file_format, kept, refusal_of};

use crate::draft::Draft;
use crate::items::{Item, Placed, Unmarked};
use grain::Program;
use grain_format::WriteError;
use std::alloc::Global;

/// The file of a program (docs/FORMAT.md, "Program files"). It goes over the program once, and sorts the cases of switches.
///
/// # Errors
/// `Unkept` with the first thing that no file keeps, in the order of the file: a value of the host among the constants, a case
/// whose key isn't its constant, and fragments of syntax. `OutOfMemory` if an allocation failed.
pub fn write(alloc: Global, program: &Program) -> Result<Vec<u8>, WriteError>
    // What is written is a file of the program, for readers whose limits let values nest as deep as they do in it, and switches
    // have as many cases.
    ensures file { IfOk result (λ v. (bounds : Bounds) → IsWithin bounds (kept program.now)
        → IsFile bounds v.items (kept program.now)) }
    // Unless memory runs out, it is written exactly where there is no reason against it; otherwise the first reason is named.
    ensures decides { Decides result (refusal_of (kept program.now)) }
    // A program that has a file is written, memory apart.
    ensures accepts { (bounds : Bounds) (bytes : List ℕ) → IsFile bounds bytes (kept program.now)
        → IfErr result (λ e. e ≡ WriteError.OutOfMemory) }
{
    write_whole(alloc, program)
}

fn write_whole(alloc: Global, program: &Program) -> Result<Vec<u8>, WriteError>
    ensures spelled { IfOk result (λ v. (bounds : Bounds)
        → v.items ≡ (file_format bounds).spelling (kept program.now)) }
    ensures fits { OnOk result ((bounds : Bounds) → IsWithin bounds (kept program.now)
        → (file_format bounds).Fits (kept program.now)) }
    ensures decides { Decides result (refusal_of (kept program.now)) }
{
    let mut draft = Draft::new(alloc, Unmarked);
    draft.program(alloc, program)?;
    Ok(draft.bytes)
}

/// The parts of the file of a program, in their order. It costs what [`write`] does, and memory for an item of each part.
///
/// # Errors
/// As [`write`].
pub fn outline(alloc: Global, program: &Program) -> Result<Vec<Item>, WriteError>
    // The items lie one after another in the file, from its first byte to its last.
    ensures outline { IfOk result (λ v. IsOutline v.items program.now) }
    // It fails as `write` does.
    ensures decides { Decides result (refusal_of (kept program.now)) }
{
    let mut draft = Draft::new(alloc, Placed::new(alloc));
    draft.program(alloc, program)?;
    Ok(draft.marks.items)
}
