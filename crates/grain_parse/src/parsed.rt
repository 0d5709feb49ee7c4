//! What a text says, before its open chunks declare their depths.
ghost use Rattle.std.specs.Prelude.{◌≡◌, ℕ, IfErr, IfOk, List, MatchOption};
ghost use Rattle.grain.specs.Program.{input_of};
ghost use Rattle.grain.specs.Tightened.{undeclared};
ghost use Rattle.grain_needs.specs.Capabilities.{AreLeast};
ghost use Rattle.grain_parse.specs.Depths.{HasDepths};
ghost use Rattle.grain_parse.specs.Placed.{IsPlacedError};

use crate::chunks::stacks_of;
use crate::error::ParseError;
use grain::Program;
use grain_base::Caps;
use grain_rules::VerifyError;
use std::alloc::Global;

/// What a text says. Its open chunks, which say `stack auto` or nothing of their stack, still have to declare their depths.
#[derive(Drop)]
pub struct Parsed {
    /// The program, in which open chunks declare 65535 operands. It has all capabilities if the text declares none.
    pub program: Program,
    /// Which chunks are open: 0 the main one, 1 that of the first function.
    pub automatic: Vec<usize>,
    /// The capabilities that the text declares, if it does.
    pub caps: Option<Caps>,
}

impl Parsed {
    /// The program, in which each open chunk declares its depth. If the text declares no capabilities, the program declares
    /// the least that suffice. It is verified if a chunk is open, and costs as much.
    ///
    /// # Errors
    /// `Refused` if the program is verified and isn't accepted, `OutOfMemory` if an allocation failed.
    pub fn finish(self, alloc: Global) -> Result<Program, ParseError>
        // All else is as it was.
        ensures rest { IfOk result (λ p.
            undeclared p ≡ record (undeclared self.program) { caps = p.caps }) }
        ensures depths { IfOk result (HasDepths self.automatic.items self.program) }
        ensures caps { IfOk result (λ p. MatchOption self.caps (AreLeast (input_of p) p.caps.0)
            (λ caps. p.caps ≡ self.program.caps)) }
        ensures errors { (texts : List (List ℕ)) → IfErr result (IsPlacedError texts) }
    {
        let Parsed {
            program,
            automatic,
            caps,
        } = self;
        match with_depths(alloc, program, &automatic) {
            Ok(program) => Ok(declaring(program, caps)),
            Err(error) => Err(error),
        }
    }
}

/// The program, in which the chunks with these indices declare their depths.
fn with_depths(
    alloc: Global,
    mut program: Program,
    automatic: &[usize],
) -> Result<Program, ParseError>
    ensures rest { IfOk result (λ p. undeclared p ≡ undeclared program) }
    ensures depths { IfOk result (HasDepths automatic.now program) }
    ensures errors { (texts : List (List ℕ)) → IfErr result (IsPlacedError texts) }
{
    if automatic.is_empty() {
        return Ok(program);
    }
    let depths = match program.verify() {
        Ok(depths) => depths,
        Err(VerifyError::OutOfMemory) => return Err(ParseError::OutOfMemory),
        Err(refusal) => return Err(ParseError::Refused(refusal)),
    };
    let chunks = program.chunks()?;
    let stacks = stacks_of(alloc, &chunks, automatic, &depths)?;
    program.declare(&stacks);
    Ok(program)
}

/// The program, with the capabilities that its text declares, or else the least that suffice.
fn declaring(mut program: Program, caps: Option<Caps>) -> Program
    ensures caps { MatchOption caps (AreLeast (input_of result) result.caps.0)
        (λ given. result.caps ≡ program.caps) }
    ensures rest { result ≡ record program { caps = result.caps } }
{
    if caps.is_none() {
        program.declare_least_caps();
    }
    program
}
