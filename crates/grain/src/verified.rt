//! Accepted programs as values: who has one need not verify again.
ghost use Rattle.std.specs.Prelude.{◌≡◌, ◌⊎◌, IfErr, IfOk};
ghost use Rattle.grain_rules.specs.Accepted.{IsAccepted};
ghost use Rattle.grain_rules.specs.Flaw.{Flaw};
ghost use Rattle.grain_verify.specs.Refusals.{IsLocatedRefusal};
ghost use Rattle.grain.specs.Program.{declared_by, input_of};
ghost use Rattle.grain.specs.Tightened.{IsTightened};
ghost use Rattle.grain.specs.Verified.{IsVerified};

use crate::program::Program;
use grain_rules::VerifyError;
use grain_verify::{Meter, Refusal};
use std::fmt;
use std::marker::Model;

/// A program that was accepted, with the depth of each chunk: the greatest operand count that any run of it reaches.
///
/// It owns the program. Only [`Verified::tighten`] changes it, and leaves it accepted. What acceptance promises (docs/THEOREM.md)
/// is true of each value of this type.
#[derive(Drop)]
pub struct Verified {
    program: Program,
    depths: Vec<u16>,
}

impl Model for Verified {
    ghost use Rattle.std.specs.Coded.{codes};
    ghost use Rattle.grain_base.specs.contracts.value.Dynamic as value;
    ghost use Rattle.grain_pools.specs.contracts.switch.Switch as switch;
    ghost use Rattle.grain.specs.Verified.{IsVerified, Verified};

    ghost Value = { Verified };

    ghost coded = { Prim.hlevel (codes, value.the_row.coded, switch.the_row.coded) };

    ghost view = { λ v. record { program = v.program; depths = v.depths.items } };

    ghost invariant = { λ v. IsVerified (record { program = v.program; depths = v.depths.items }) };
}

/// A program that was refused, unchanged, and why.
#[derive(Debug, Drop)]
pub struct Rejected {
    /// The program.
    pub program: Program,
    /// What is wrong, and in which chunk.
    pub refusal: Refusal,
}

impl fmt::Display for Rejected {
    ghost use Rattle.std.specs.Prelude.{Some};
    ghost use Rattle.grain_rules.specs.Texts.{verify_error_text};

    ghost output = { λ rejected. Some (verify_error_text rejected.refusal.error) };

    fn fmt<W: fmt::Write>(&self, f: &mut fmt::Formatter<W>) -> fmt::Result {
        write!(f, "{}", self.refusal.error)
    }
}

impl Program {
    /// Verifies the program, as [`Program::verify`] does and at its cost, and keeps the verdict with it.
    ///
    /// # Errors
    /// As [`Program::verify`], with the program and the chunk that is refused.
    pub fn into_verified(self) -> Result<Verified, Rejected>
        // The program is as it was, and accepted or refused by the rules.
        ensures program { IfOk result (λ v. v.program ≡ self) }
        ensures verified { IfOk result IsVerified }
        ensures unchanged { IfErr result (λ r. r.program ≡ self) }
        ensures located { IfErr result (λ r. IsLocatedRefusal (input_of self) r.refusal) }
        ensures flaws { IfErr result (λ r. (r.refusal.error ≡ VerifyError.OutOfMemory)
            ⊎ Flaw (input_of self) r.refusal.error) }
        // What is accepted is refused only if memory runs out.
        ensures accepts { IsAccepted (input_of self)
            → IfErr result (λ r. r.refusal.error ≡ VerifyError.OutOfMemory) }
    {
        match self.verify_located(&mut Meter::new()) {
            Ok(depths) => Ok(Verified {
                program: self,
                depths,
            }),
            Err(refusal) => Err(Rejected {
                program: self,
                refusal,
            }),
        }
    }
}

impl Verified {
    /// The program.
    pub fn program(&self) -> &Program
        ensures program { result.now ≡ self.now.program }
        ensures verified { IsVerified self.now }
    {
        &self.program
    }

    /// The depth of each chunk: of the main chunk, then of those of the functions.
    pub fn depths(&self) -> &[u16]
        ensures depths { result.now ≡ self.now.depths }
        ensures verified { IsVerified self.now }
    {
        &self.depths
    }

    /// The program alone.
    pub fn into_program(self) -> Program
        ensures program { result ≡ self.program }
        ensures accepted { IsAccepted (input_of result) }
    {
        self.program
    }

    /// Has each chunk declare its depth, as [`Program::tighten_stack`] does, without verifying again. It takes time by the number
    /// of functions.
    pub fn tighten(&mut self)
        ensures tightened { IsTightened self.old.program self.new.program }
        ensures verified { IsVerified self.new }
        ensures declared { declared_by self.new.program ≡ self.new.depths }
        ensures depths { self.new.depths ≡ self.old.depths }
    {
        self.program.declare(&self.depths);
    }
}
