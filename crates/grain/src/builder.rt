//! Building a program from operations whose targets are indices.
ghost use Rattle.std.specs.Prelude.{◌≡◌, ◌↔◌, ◌⊎◌, ℕ, ◌+◌, ◌-◌, ◌<◌, IfErr, IfOk, IsTrue, OnOk, length, map, slice_index};
ghost use Rattle.std.specs.List.{All};
ghost use Rattle.grain_code.specs.Assembly.{CanAssemble, IsAssembly};
ghost use Rattle.grain.specs.Build.{AreCuts, AreDeepestByIndex, BuildFlaw, CanBuild, CanLay, IsFirstBadCut, IsLaid, draft, head_of, span_of};
ghost use Rattle.grain.specs.Verified.{IsVerified};
ghost use Rattle.grain_rules.specs.ByIndex.{IsCut, span_moved};

use crate::program::{Parts, Program};
use crate::verified::Verified;
use grain_base::{Caps, FnAccess};
use grain_bytecode::{AssembleError, assemble, resolve_switch_targets};
use grain_code::{Chunk, Function, Op};
use grain_rules::VerifyError;
use std::alloc::{AllocError, AllocFailed, Global};
use std::fmt;

/// A part of a list of operations that becomes a chunk.
#[derive(Clone, Copy, Debug, PartialEq, Eq)]
pub struct Cut {
    /// The index of its first operation.
    pub first: usize,
    /// The index past its last operation.
    pub end: usize,
    /// How many operands it declares that it stacks at most.
    pub max_stack: u16,
}

impl Cut {
    /// Whether it is a part of as many operations.
    fn lies_in(&self, count: usize) -> bool
        ensures { IsTrue result ↔ IsCut count (span_of self.now) }
    {
        self.first <= self.end && self.end <= count
    }

    /// The chunk from the address of its first operation up to the address of its end.
    fn place(&self, offsets: &[u32]) -> Chunk
        requires some { 0 < length offsets.now }
        requires inside { IsCut (length offsets.now - 1) (span_of self.now) }
        ensures { result ≡ span_moved (slice_index offsets.now) (span_of self.now) }
    {
        Chunk::new(offsets[self.first], offsets[self.end], self.max_stack)
    }
}

/// What a function has besides its chunk. Names are indices of the name pool.
#[derive(Debug, Drop)]
pub struct Head {
    /// The name of the function.
    pub name: u32,
    /// The names of the parameters, in order.
    pub params: Vec<u32>,
    /// Who may call it.
    pub access: FnAccess,
    /// The name of the type of the receiver, if the function is declared for one.
    pub this_type: Option<u32>,
}

/// Why a program can't be built.
#[derive(Clone, Debug, PartialEq, Eq, Drop)]
pub enum BuildError {
    /// The operations, or the targets of the switches, can't be written as code.
    Assemble(AssembleError),
    /// A cut runs backwards, or past the operations.
    BadCut {
        /// Its place among the cuts.
        index: usize,
    },
    /// The program is refused. Addresses are those of the code that the operations make.
    Verify(VerifyError),
    /// An allocation failed.
    OutOfMemory,
}

impl fmt::Display for BuildError {
    ghost use Rattle.std.specs.Prelude.{Some};
    ghost use Rattle.grain.specs.Build.{build_error_text};

    ghost output = { λ error. Some (build_error_text error) };

    fn fmt<W: fmt::Write>(&self, f: &mut fmt::Formatter<W>) -> fmt::Result {
        match self {
            BuildError::Assemble(error) => write!(f, "{error}"),
            BuildError::BadCut { index } => {
                write!(f, "cut {index} runs backwards or past the operations")
            }
            BuildError::Verify(error) => write!(f, "{error}"),
            BuildError::OutOfMemory => write!(f, "out of memory"),
        }
    }
}

impl std::error::Error for BuildError {}

impl From<AssembleError> for BuildError {
    ghost use Rattle.std.specs.Prelude.{◌≡◌};
    ghost use Rattle.grain.specs.Build.{of_assemble};

    ghost from_gives = { λ refusal error. error ≡ of_assemble refusal };

    fn from(refusal: AssembleError) -> BuildError {
        match refusal {
            AssembleError::OutOfMemory => BuildError::OutOfMemory,
            error => BuildError::Assemble(error),
        }
    }
}

impl From<VerifyError> for BuildError {
    ghost use Rattle.std.specs.Prelude.{◌≡◌};
    ghost use Rattle.grain.specs.Build.{of_verify};

    ghost from_gives = { λ refusal error. error ≡ of_verify refusal };

    fn from(refusal: VerifyError) -> BuildError {
        match refusal {
            VerifyError::OutOfMemory => BuildError::OutOfMemory,
            error => BuildError::Verify(error),
        }
    }
}

impl From<AllocError> for BuildError {
    ghost use Rattle.std.specs.Prelude.{◌≡◌};
    ghost use Rattle.grain.specs.declared.builder.BuildError.{BuildError};

    ghost from_gives = { λ _ error. error ≡ BuildError.OutOfMemory };

    fn from(_: AllocError) -> BuildError {
        BuildError::OutOfMemory
    }
}

/// Tests whether each cut is a part of this many operations.
fn check_cuts(cuts: &[Cut], count: usize) -> Result<(), BuildError>
    ensures ok { OnOk result (All (IsCut count) (map span_of cuts.now)) }
    ensures err { IfErr result (λ e. (place : ℕ)
        × (e ≡ BuildError.BadCut place) × IsFirstBadCut count (map span_of cuts.now) place) }
{
    for (index, cut) in cuts.iter().enumerate() {
        if !cut.lies_in(count) {
            return Err(BuildError::BadCut { index });
        }
    }
    Ok(())
}

/// The functions with these heads, whose chunks are these cuts at their addresses.
fn place_functions(
    alloc: Global,
    offsets: &[u32],
    cuts: &[Cut],
    heads: Vec<Head>,
) -> Result<Vec<Function>, AllocError>
    requires count { length cuts.now ≡ length heads.items }
    requires some { 0 < length offsets.now }
    requires inside { All (IsCut (length offsets.now - 1)) (map span_of cuts.now) }
    ensures heads { IfOk result (λ functions. map head_of functions.items ≡ heads.items) }
    ensures chunks { IfOk result (λ functions. map (λ f. f.chunk) functions.items
        ≡ map (span_moved (slice_index offsets.now)) (map span_of cuts.now)) }
{
    let mut functions = Vec::with_capacity(alloc, heads.len())?;
    for (head, cut) in heads.into_iter().zip(cuts) {
        functions.push(Function {
            name: head.name,
            params: head.params,
            access: head.access,
            this_type: head.this_type,
            chunk: cut.place(offsets),
        })?;
    }
    Ok(functions)
}

/// The program of these operations, whose cuts lie in the list, and where each operation begins in its code.
fn lay_cuts(
    alloc: Global,
    caps: Caps,
    ops: &[Op],
    cuts: &[Cut],
    heads: Vec<Head>,
    mut parts: Parts,
) -> Result<(Program, Vec<u32>), BuildError>
    requires count { length cuts.now ≡ length heads.items + 1 }
    requires inside { AreCuts (draft caps ops.now cuts.now heads.items parts) }
    ensures ok { IfOk result
        (λ laid. IsLaid (draft caps ops.now cuts.now heads.items parts) laid.0) }
    ensures offsets { IfOk result (λ laid. IsAssembly ops.now laid.0.code laid.1.items) }
    ensures lays { OnOk result (CanLay (draft caps ops.now cuts.now heads.items parts)) }
    ensures accepts { CanLay (draft caps ops.now cuts.now heads.items parts)
        → IfErr result (λ e. e ≡ BuildError.OutOfMemory) }
    ensures flaws { IfErr result (λ e. (e ≡ BuildError.OutOfMemory)
        ⊎ BuildFlaw (draft caps ops.now cuts.now heads.items parts) e) }
    ensures memory { IfErr result (λ e. e ≡ BuildError.OutOfMemory → CanAssemble ops.now) }
{
    let (code, offsets) = assemble(alloc, ops)?;
    resolve_switch_targets(&mut parts.switches, &offsets)?;
    let functions = place_functions(alloc, &offsets, &cuts[1..], heads)?;
    let main = cuts[0].place(&offsets);
    let program = Program::new(alloc, caps, code, main, functions, parts);
    Ok((program, offsets))
}

/// Assembles a program from operations whose targets are indices, as [`build`] does, and doesn't verify it. The result also
/// has the offset at which each operation begins in the code, and the end of the last one.
///
/// # Errors
/// As [`build`], except `Verify`.
pub fn lay(
    alloc: Global,
    caps: Caps,
    ops: &[Op],
    cuts: &[Cut],
    heads: Vec<Head>,
    parts: Parts,
) -> Result<(Program, Vec<u32>), BuildError>
    // The first cut has no head.
    requires { length cuts.now ≡ length heads.items + 1 }

    // What is laid is what was handed over, and where its operations are.
    ensures ok { IfOk result
        (λ laid. IsLaid (draft caps ops.now cuts.now heads.items parts) laid.0) }
    ensures offsets { IfOk result (λ laid. IsAssembly ops.now laid.0.code laid.1.items) }

    // What can be laid is, unless memory runs out, and each other refusal is a flaw.
    ensures lays { OnOk result (CanLay (draft caps ops.now cuts.now heads.items parts)) }
    ensures accepts { CanLay (draft caps ops.now cuts.now heads.items parts)
        → IfErr result (λ e. e ≡ BuildError.OutOfMemory) }
    ensures flaws { IfErr result (λ e. (e ≡ BuildError.OutOfMemory)
        ⊎ BuildFlaw (draft caps ops.now cuts.now heads.items parts) e) }

    // Memory is needed only if the cuts lie in the list and the operations can be assembled.
    ensures memory { IfErr result (λ e. e ≡ BuildError.OutOfMemory
        → AreCuts (draft caps ops.now cuts.now heads.items parts) × CanAssemble ops.now) }
{
    check_cuts(cuts, ops.len())?;
    lay_cuts(alloc, caps, ops, cuts, heads, parts)
}

/// Builds a program from operations whose targets are indices, and verifies it.
///
/// The first cut is the top level, and each other is the body of the function whose head has its index. Targets of
/// jumps and of the switches of the parts are indices of operations, or the number of operations for their end. In the program
/// targets are addresses. All that decides, and the depths, are said of the operations by index alone.
///
/// It costs one assembly and one verification, and goes over the cuts, the heads and the switches a few times.
///
/// # Errors
/// Tested in this order: `BadCut` with the first cut that runs backwards or past the operations; `Assemble` as
/// [`assemble`] and then [`resolve_switch_targets`]; `Verify` as [`Program::verify`] of the program that the operations
/// make. `OutOfMemory` if an allocation was refused in any of them, which comes only if the cuts lie in the list and the
/// operations can be assembled.
pub fn build(
    alloc: Global,
    caps: Caps,
    ops: &[Op],
    cuts: &[Cut],
    heads: Vec<Head>,
    parts: Parts,
) -> Result<Verified, BuildError>
    // The first cut has no head.
    requires { length cuts.now ≡ length heads.items + 1 }

    // What is built is what was handed over, and passes by index.
    ensures accepted { OnOk result (CanBuild (draft caps ops.now cuts.now heads.items parts)) }
    ensures laid { IfOk result
        (λ built. IsLaid (draft caps ops.now cuts.now heads.items parts) built.program) }
    ensures deepest { IfOk result (λ built.
        AreDeepestByIndex (draft caps ops.now cuts.now heads.items parts) built.depths) }
    ensures verified { IfOk result IsVerified }

    // What passes by index is built unless memory runs out, and each other refusal is a flaw.
    ensures accepts { CanBuild (draft caps ops.now cuts.now heads.items parts)
        → IfErr result (λ e. e ≡ BuildError.OutOfMemory) }
    ensures flaws { IfErr result (λ e. (e ≡ BuildError.OutOfMemory)
        ⊎ BuildFlaw (draft caps ops.now cuts.now heads.items parts) e) }

    // Memory is needed only if the cuts lie in the list and the operations can be assembled.
    ensures memory { IfErr result (λ e. e ≡ BuildError.OutOfMemory
        → AreCuts (draft caps ops.now cuts.now heads.items parts) × CanAssemble ops.now) }
{
    let (program, _) = lay(alloc, caps, ops, cuts, heads, parts)?;
    match program.into_verified() {
        Ok(verified) => Ok(verified),
        Err(rejected) => Err(BuildError::from(rejected.refusal.error)),
    }
}
