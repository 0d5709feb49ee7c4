//! Laws of flat forms.
//!
//! The function does nothing: its contract is a law.
ghost use Rattle.std.specs.Prelude.{ℕ, List, Option};
ghost use Rattle.grain.specs.Program.{Program, chunks_of, input_of};
ghost use Rattle.grain_flat.specs.Answers.{Accepts, Refuses};
ghost use Rattle.grain_flat.specs.declared.records.CProgram.{CProgram};
ghost use Rattle.grain_flat_file.specs.Contents.{IsFlatFormOf};
ghost use Rattle.grain_rules.specs.Accepted.{AreDeepest, AreSafe, AreTyped, IsAccepted};
ghost use Rattle.grain_rules.specs.Flaw.{FlawAt};
ghost use Rattle.grain_rules.specs.declared.error.VerifyError.{VerifyError};

/// A verdict on the flat form of a program, under the capabilities that it declares, is one on the program.
pub fn verdicts_are_of_the_program()
    ensures accepted { (p : Program) (c : CProgram) (numbers : List ℕ) → IsFlatFormOf p c
        → Accepts p.caps.0 c.code.now c.chunks.now c.pools numbers → IsAccepted (input_of p) }
    ensures typed { (p : Program) (c : CProgram) (numbers : List ℕ) → IsFlatFormOf p c
        → Accepts p.caps.0 c.code.now c.chunks.now c.pools numbers
        → AreTyped (input_of p) numbers × AreDeepest (input_of p) numbers × AreSafe (input_of p) numbers }
    ensures refused { (p : Program) (c : CProgram) (place : Option ℕ) (e : VerifyError)
        → IsFlatFormOf p c → Refuses p.caps.0 c.code.now c.chunks.now c.pools place e
        → (IsAccepted (input_of p) → ⊥) × FlawAt (input_of p) place e }
{}
