//! Program files that are written again: with chunks that declare their depths, and without positions.
ghost use Rattle.std.specs.Prelude.{◌≡◌, ◌≢◌, ◌+◌, ◌≤◌, ◌↔◌, IfErr, IfOk, IsOk, IsTrue};
ghost use Rattle.grain.specs.Program.{Program, input_of, places_of};
ghost use Rattle.grain.specs.Sidecars.{IsSidecar, IsStripped};
ghost use Rattle.grain_bytecode.specs.Positions.{IsRead};
ghost use Rattle.grain_file.specs.Loading.{IsFileOf};
ghost use Rattle.grain_file.specs.declared.file.ReadError.{ReadError};
ghost use Rattle.grain_rules.specs.Accepted.{IsAccepted};
ghost use Rattle.grain_flat_file.specs.Changed.{AddressesFit, AreStrippedFiles, HasFile, IsItsFile, IsPositionCause, IsRestorable, IsStripCause, IsTightFile, IsTightenCause, program_work};

use crate::functions::chunk_rows;
use grain::{Program, Sidecar};
use grain_bytecode::StripError;
use grain_file::{Limits, ReadError, WriteError, read, write, write_sidecar};
use grain_flat::is_within;
use grain_rules::VerifyError;
use grain_verify::{Meter, Refusal};
use std::alloc::{AllocError, Global};

/// Why a file isn't written with chunks that declare their depths.
#[derive(Clone, Copy, Debug, PartialEq, Eq)]
pub enum TightenStop {
    /// The bytes are no file within the limits, or the allocator refused.
    Read(ReadError),
    /// The chunks span more of the code than the limit allows.
    TooMuchWork,
    /// The program is refused.
    Refused(Refusal),
}

impl From<AllocError> for TightenStop {
    ghost use Rattle.std.specs.Prelude.{◌≡◌};
    ghost use Rattle.grain_file.specs.declared.file.ReadError.{ReadError};
    ghost use Rattle.grain_flat_file.specs.declared.changed.TightenStop.{TightenStop};

    ghost from_gives = { λ _ e. e ≡ TightenStop.Read ReadError.OutOfMemory };

    fn from(_: AllocError) -> TightenStop {
        TightenStop::Read(ReadError::OutOfMemory)
    }
}

/// What stops for a refusal. A lack of memory is the same wherever it comes.
fn stop_of(refusal: Refusal) -> TightenStop
    ensures memory { refusal.error ≡ VerifyError.OutOfMemory
        → result ≡ TightenStop.Read ReadError.OutOfMemory }
    ensures refused { refusal.error ≢ VerifyError.OutOfMemory
        → result ≡ TightenStop.Refused refusal }
{
    match refusal.error {
        VerifyError::OutOfMemory => TightenStop::Read(ReadError::OutOfMemory),
        _ => TightenStop::Refused(refusal),
    }
}

/// The file of a program that has one.
fn file_of(alloc: Global, program: &Program) -> Result<Vec<u8>, AllocError>
    requires { HasFile program.now }
    ensures { IfOk result (λ file. IsItsFile program.now file.items) }
{
    match write(alloc, program) {
        Ok(file) => Ok(file),
        Err(WriteError::OutOfMemory) => Err(AllocError),
        Err(WriteError::Unkept(_)) => unreachable!(),
    }
}

/// Whether the chunks of a program span no more bytes of its code than this, each counted for itself.
fn spans_within(alloc: Global, limit: u64, program: &Program) -> Result<bool, AllocError>
    ensures { IfOk result (λ within. IsTrue within ↔ (program_work program.now ≤ limit)) }
{
    let chunks = chunk_rows(alloc, program)?;
    Ok(is_within(limit, program.code(), &chunks))
}

/// The file of the same program, whose chunks declare their depths. It costs one [`read`], one
/// [`Program::tighten_located`], whose visits the meter counts, and one [`write`].
///
/// # Errors
/// Tested in this order: `Read` as [`read`], and wherever an allocation failed; `TooMuchWork` if the chunks span more bytes of
/// the code than the limit, each counted for itself; `Refused` as [`Program::tighten_located`].
pub fn tighten(
    alloc: Global,
    bytes: &[u8],
    limits: &Limits,
    limit: u64,
    meter: &mut Meter,
) -> Result<Vec<u8>, TightenStop>
    // What is written is the file of the program that was read, tightened, within the same limits.
    ensures file { IfOk result (λ file.
        IsTightFile limits.now bytes.now file.items meter.old meter.new) }
    // Of whatever accepted program within the limits the bytes are a file, that is written, memory apart.
    ensures only { (p : Program) → IsFileOf limits.now bytes.now p → IsAccepted (input_of p)
        → program_work p ≤ limit → IfErr result (λ e. e ≡ TightenStop.Read ReadError.OutOfMemory) }
    // Which test failed, and of what.
    ensures causes { IfErr result
        (IsTightenCause limits.now bytes.now limit meter.old meter.new) }
    // No more is visited than the limit.
    ensures visited { meter.new ≤ meter.old + limit }
{
    let mut program = match read(alloc, bytes, limits) {
        Ok(program) => program,
        Err(error) => return Err(TightenStop::Read(error)),
    };
    if !spans_within(alloc, limit, &program)? {
        return Err(TightenStop::TooMuchWork);
    }
    match program.tighten_located(meter) {
        Ok(()) => {}
        Err(refusal) => return Err(stop_of(refusal)),
    }
    Ok(file_of(alloc, &program)?)
}

/// The files of a program and of its positions, apart.
#[derive(Drop)]
pub struct Stripped {
    /// The file of the program, without positions.
    pub program: Vec<u8>,
    /// The sidecar file with the positions.
    pub sidecar: Vec<u8>,
}

/// Why a file isn't written without its positions.
#[derive(Clone, Copy, Debug, PartialEq, Eq)]
pub enum StripStop {
    /// The bytes are no file within the limits, or the allocator refused.
    Read(ReadError),
    /// A position that has a line is above 4294967295.
    TooLong,
    /// The positions couldn't be given back ([`Program::is_restored_by`]).
    NotRestorable,
}

impl From<AllocError> for StripStop {
    ghost use Rattle.std.specs.Prelude.{◌≡◌};
    ghost use Rattle.grain_file.specs.declared.file.ReadError.{ReadError};
    ghost use Rattle.grain_flat_file.specs.declared.changed.StripStop.{StripStop};

    ghost from_gives = { λ _ e. e ≡ StripStop.Read ReadError.OutOfMemory };

    fn from(_: AllocError) -> StripStop {
        StripStop::Read(ReadError::OutOfMemory)
    }
}

/// The positions of a program, apart from it, if they can be given back to it.
fn restorable_positions(program: &Program) -> Result<Sidecar, StripStop>
    ensures sidecar { IfOk result (IsSidecar program.now) }
    ensures restores { IfOk result (λ s. IsRead
        s.positions.items program.now.code (places_of program.now)) }
    ensures only { AddressesFit program.now → IsRestorable program.now
        → IfErr result (λ e. e ≡ StripStop.Read ReadError.OutOfMemory) }
    ensures fits { IsOk result → AddressesFit program.now }
    ensures causes { IfErr result (IsPositionCause program.now) }
{
    let positions = match program.sidecar() {
        Ok(positions) => positions,
        Err(StripError::AddressTooWide { .. }) => return Err(StripStop::TooLong),
        Err(StripError::OutOfMemory) => return Err(StripStop::Read(ReadError::OutOfMemory)),
    };
    if program.is_restored_by(&positions)? {
        Ok(positions)
    } else {
        Err(StripStop::NotRestorable)
    }
}

/// The file of a program without its positions.
fn bare_file(alloc: Global, mut program: Program) -> Result<Vec<u8>, AllocError>
    requires file { (bare : Program) → IsStripped program bare → HasFile bare }
    requires fits { AddressesFit program }
    ensures { IfOk result (λ file. (bare : Program) × IsStripped program bare × IsItsFile bare file.items) }
{
    match program.strip_positions() {
        Ok(_) => file_of(alloc, &program),
        Err(StripError::AddressTooWide { .. }) => unreachable!(),
        Err(StripError::OutOfMemory) => Err(AllocError),
    }
}

/// Takes the positions of a file into a file of their own. It costs one [`read`], two [`Program::sidecar`], one
/// [`Program::is_restored_by`], one [`write`] and one [`write_sidecar`].
///
/// # Errors
/// Tested in this order:
///
/// - `Read`: as [`read`]. It is also the error if the allocator refused.
/// - `TooLong`: an address above 4294967295 has a position.
/// - `NotRestorable`: attaching the sidecar to the file without positions wouldn't give the file back.
pub fn strip(alloc: Global, bytes: &[u8], limits: &Limits) -> Result<Stripped, StripStop>
    // What is written is the file of the program that was read, without positions, and these, which can be given back.
    ensures files { IfOk result (AreStrippedFiles limits.now bytes.now) }
    // Of whatever the bytes are a file within the limits, that is written, memory and addresses apart.
    ensures only { (p : Program) → IsFileOf limits.now bytes.now p → AddressesFit p
        → IsRestorable p → IfErr result (λ e. e ≡ StripStop.Read ReadError.OutOfMemory) }
    // Which test failed, and of what.
    ensures causes { IfErr result (IsStripCause limits.now bytes.now) }
{
    let program = match read(alloc, bytes, limits) {
        Ok(program) => program,
        Err(error) => return Err(StripStop::Read(error)),
    };
    let positions = match restorable_positions(&program) {
        Ok(positions) => positions,
        Err(stop) => return Err(stop),
    };
    Ok(Stripped {
        program: bare_file(alloc, program)?,
        sidecar: write_sidecar(alloc, &positions)?,
    })
}
