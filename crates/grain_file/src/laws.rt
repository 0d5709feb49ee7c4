//! Laws of program files.
//!
//! The functions do nothing: each contract is a law.
ghost use Rattle.std.specs.Prelude.{◌≡◌, ◌≤◌, ◌↔◌, ℕ, List, None};
ghost use Rattle.grain.specs.Program.{Program, input_of};
ghost use Rattle.grain_rules.specs.Accepted.{AreDeepest, IsAccepted};
ghost use Rattle.grain_file.specs.ProgramFile.{Bounds, IsFile, Kept, kept, refusal_of};
ghost use Rattle.grain_file.specs.SidecarFile.{IsSidecarFile, SidecarParts};
ghost use Rattle.grain_file.specs.Writable.{IsWritableProgram};

/// A program has one file and a file is of one program, whatever the limits of readers. A file within limits is one within
/// greater ones.
pub fn files_are_canonical()
    ensures one_file { (bounds other : Bounds) (a b : List ℕ) (k : Kept)
        → IsFile bounds a k → IsFile other b k → a ≡ b }
    ensures one_program { (bounds other : Bounds) (a : List ℕ) (k l : Kept)
        → IsFile bounds a k → IsFile other a l → k ≡ l }
    ensures wider { (bounds more : Bounds) (a : List ℕ) (k : Kept) → bounds.depth ≤ more.depth
        → bounds.cases ≤ more.cases → IsFile bounds a k → IsFile more a k }
{}

/// Programs of which as much is kept are accepted alike, and have the same depths: they differ in memory alone. So whoever knows
/// one program of a file knows what [`load`](crate::load) says of it.
pub fn files_are_accepted_alike()
    ensures accepted { (p q : Program) → kept p ≡ kept q → IsAccepted (input_of p)
        → IsAccepted (input_of q) }
    ensures depths { (p q : Program) → kept p ≡ kept q → (depths : List ℕ)
        → AreDeepest (input_of p) depths → AreDeepest (input_of q) depths }
{}

/// No reason stands against a program, so that it is written, exactly where it has nothing that no file keeps.
pub fn writable_programs_are_written()
    ensures { (p : Program) → (refusal_of (kept p) ≡ None) ↔ IsWritableProgram p }
{}

/// A sidecar has one file, and a sidecar file is of one sidecar.
pub fn sidecar_files_are_canonical()
    ensures one_file { (a b : List ℕ) (k : SidecarParts)
        → IsSidecarFile a k → IsSidecarFile b k → a ≡ b }
    ensures one_sidecar { (a : List ℕ) (k l : SidecarParts)
        → IsSidecarFile a k → IsSidecarFile a l → k ≡ l }
{}
