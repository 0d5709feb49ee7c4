//! Sidecar files: the positions of a program, apart from it.
ghost use Rattle.std.specs.Prelude.{◌≡◌, ◌++◌, [], List, IfOk, IfErr, MatchResult, Ok, OnOk, length};
ghost use Rattle.grain_file.specs.Causes.{IsCauseIn, IsFaultIn};
ghost use Rattle.grain_format.specs.Formats.{whole};
ghost use Rattle.grain_format.specs.Reading.{Gives};
ghost use Rattle.grain_file.specs.Outline.{IsSidecarOutline};
ghost use Rattle.grain_file.specs.SidecarFile.{IsSidecarFile, IsSidecarFileWithin, SidecarParts, kind_format, sidecar_format, sidecar_parts, tables_format};

use crate::draft::Draft;
use crate::file::{Limits, ReadError, join};
use crate::items::{Item, Marks, Placed, Unmarked};
use grain::Sidecar;
use grain_format::{Cursor, FieldFault, FileField, Part, Stop};
use std::alloc::{AllocError, Global};

/// The sidecar that the bytes are a file of (docs/FORMAT.md, "Sidecar files"). Nothing says that its tables are whole, or of
/// which program they are: [`Program::attach_positions`](grain::Program::attach_positions) finds that.
///
/// It goes over the bytes once, and takes memory for the tables. Of the limits only the size counts.
///
/// # Errors
/// As [`read`](crate::read).
pub fn read_sidecar(alloc: Global, bytes: &[u8], limits: &Limits) -> Result<Sidecar, ReadError>
    // What is read is what the bytes are a file of.
    ensures found { IfOk result (λ s. IsSidecarFileWithin limits.now bytes.now (sidecar_parts s)) }
    // Of whatever the bytes are a file within the limits, that is read, unless memory runs out.
    ensures only { (k : SidecarParts) → IsSidecarFileWithin limits.now bytes.now k
        → MatchResult result (λ s. sidecar_parts s ≡ k) (λ e. e ≡ ReadError.OutOfMemory) }
    // Which fault it is, and where.
    ensures exact { IfErr result (IsCauseIn (whole sidecar_format) limits.now bytes.now) }
{
    if bytes.len() > limits.size {
        return Err(ReadError::TooLarge {
            size: bytes.len(),
            limit: limits.size,
        });
    }
    read_all(alloc, bytes)
}

fn read_all(alloc: Global, bytes: &[u8]) -> Result<Sidecar, ReadError>
    ensures { MatchResult result (λ s. whole sidecar_format bytes.now ≡ Ok (sidecar_parts s, []))
        (IsFaultIn (whole sidecar_format) bytes.now) }
{
    let mut cursor = Cursor::new(alloc, bytes);
    match read_file(&mut cursor) {
        Ok(sidecar) => Ok(sidecar),
        Err(Stop::OutOfMemory) => Err(ReadError::OutOfMemory),
        Err(Stop::FieldFault(fault)) => {
            let at = bytes.len().saturating_sub(cursor.left.len());
            let part = cursor.part;
            Err(ReadError::Malformed { at, part, fault })
        }
    }
}

/// Reads a whole file, to the end of the bytes.
fn read_file(cursor: &mut Cursor<'_>) -> Result<Sidecar, Stop>
    ensures gives { Gives sidecar_parts result cursor.new.left.now
        (whole sidecar_format cursor.old.left.now) }
    ensures all { OnOk result (cursor.new.left.now ≡ []) }
{
    let sidecar = read_headed(cursor)?;
    if cursor.left.is_empty() {
        Ok(sidecar)
    } else {
        cursor.part = Part::Rest;
        Err(Stop::FieldFault(FieldFault::Trailing))
    }
}

/// Reads what a file begins with, and what follows.
#[tactic(auto, unfolding(crate::specs::SidecarFile::sidecar_format, grain_format::specs::Texts::expected_at))]
fn read_headed(cursor: &mut Cursor<'_>) -> Result<Sidecar, Stop>
    ensures { Gives sidecar_parts result cursor.new.left.now
        (sidecar_format.reading cursor.old.left.now) }
{
    cursor.expect(0x00, FieldFault::Magic)?;
    cursor.expect(0x67, FieldFault::Magic)?;
    cursor.expect(0x72, FieldFault::Magic)?;
    cursor.expect(0x6e, FieldFault::Magic)?;
    let sidecar = read_kind(cursor)?;
    Ok(sidecar)
}

/// Reads the version, the kind and the tables.
#[tactic(auto, unfolding(crate::specs::SidecarFile::kind_format, grain_format::specs::Texts::expected_at))]
fn read_kind(cursor: &mut Cursor<'_>) -> Result<Sidecar, Stop>
    ensures { Gives sidecar_parts result cursor.new.left.now
        (kind_format.reading cursor.old.left.now) }
{
    cursor.expect(2, FieldFault::Version)?;
    cursor.expect(1, FieldFault::Kind)?;
    let sidecar = read_tables(cursor)?;
    Ok(sidecar)
}

/// Reads the number of the program and the tables.
#[tactic(auto, unfolding(crate::specs::SidecarFile::tables_format))]
fn read_tables(cursor: &mut Cursor<'_>) -> Result<Sidecar, Stop>
    ensures { Gives sidecar_parts result cursor.new.left.now
        (tables_format.reading cursor.old.left.now) }
{
    cursor.part = Part::Id;
    let low = u64::read(cursor)?;
    let high = u64::read(cursor)?;
    let debug_id = join(low, high);
    cursor.part = Part::AddressTable;
    let positions = cursor.bytes()?;
    let positions = Vec::from_slice(cursor.alloc, positions)?;
    cursor.part = Part::ChainStream;
    let chains = cursor.bytes()?;
    let chains = Vec::from_slice(cursor.alloc, chains)?;
    Ok(Sidecar {
        debug_id,
        positions,
        chains,
    })
}

/// The file of a sidecar (docs/FORMAT.md, "Sidecar files").
///
/// # Errors
/// An allocation failed.
pub fn write_sidecar(alloc: Global, sidecar: &Sidecar) -> Result<Vec<u8>, AllocError>
    ensures { IfOk result (λ v. IsSidecarFile v.items (sidecar_parts sidecar.now)) }
{
    let mut draft = Draft::new(alloc, Unmarked);
    put_sidecar(&mut draft, sidecar)?;
    Ok(draft.bytes)
}

/// The parts of the file of a sidecar, in their order.
///
/// # Errors
/// An allocation failed.
pub fn outline_sidecar(alloc: Global, sidecar: &Sidecar) -> Result<Vec<Item>, AllocError>
    ensures { IfOk result (λ v. IsSidecarOutline v.items sidecar.now) }
{
    let mut draft = Draft::new(alloc, Placed::new(alloc));
    put_sidecar(&mut draft, sidecar)?;
    Ok(draft.marks.items)
}

/// Appends the whole file of a sidecar.
#[tactic(auto, unfolding(crate::specs::SidecarFile::sidecar_format, crate::specs::SidecarFile::kind_format, crate::specs::SidecarFile::tables_format))]
fn put_sidecar<M: Marks>(draft: &mut Draft<M>, sidecar: &Sidecar) -> Result<(), AllocError>
    requires { M.Reach draft.old.marks (length draft.old.bytes.items) }
    ensures marked { OnOk result (M.Reach draft.new.marks (length draft.new.bytes.items)) }
    ensures spelled { OnOk result (draft.new.bytes.items
        ≡ draft.old.bytes.items ++ sidecar_format.spelling (sidecar_parts sidecar.now)) }
    ensures fits { OnOk result (sidecar_format.Fits (sidecar_parts sidecar.now)) }
{
    draft.header(b"\x00grn\x02\x01")?;
    draft.id(sidecar.debug_id)?;
    draft.blob(&sidecar.positions, Part::AddressTable)?;
    draft.blob(&sidecar.chains, Part::ChainStream)?;
    Ok(())
}
