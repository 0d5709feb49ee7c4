//! The case that the words of a line spell, in each of its forms.

ghost use Rattle.std.specs.Prelude.{◌≡◌, IfOk, IsSomeAnd, OnErr};
ghost use Rattle.std.specs.Option.{option_map};
ghost use Rattle.grain_lines.specs.LineCase.{TakesMemory, asked, code_by, site_by, verify_by, as_asked};
ghost use Rattle.grain_lines.specs.Words.{words};

use crate::fields::{are_chunks, caps_of, chunks_of, hex_of, u32_of};
use crate::words::next_word;
use grain_base::Caps;
use grain_code::Chunk;
use std::alloc::{AllocError, Global};

/// What a case means, one variant for each form (docs/FORMAT.md, "Lines, cases and verdicts").
#[derive(Drop)]
pub enum LineCase {
    /// How many instructions this code is.
    Code {
        code: Vec<u8>,
    },
    /// Which site this address table records for this address.
    Site {
        table: Vec<u8>,
        address: u32,
    },
    /// Whether this code with these chunks is accepted if these capabilities are there.
    Verify {
        caps: Caps,
        code: Vec<u8>,
        chunks: Vec<Chunk>,
    },
}

/// The case of a line whose first word is `code`, by what follows that word.
fn code_case(alloc: Global, fields: &[u8]) -> Result<Option<LineCase>, AllocError>
    ensures ok { IfOk result (λ found. option_map as_asked found ≡ code_by (words fields.now)) }
    ensures memory { OnErr result (IsSomeAnd (code_by (words fields.now)) TakesMemory) }
{
    let Some((hex, rest)) = next_word(fields) else {
        return Ok(None);
    };
    if next_word(rest).is_some() {
        return Ok(None);
    }
    Ok(hex_of(alloc, hex)?.map(|code| LineCase::Code { code }))
}

/// The case of a line whose first word is `site`, by what follows that word.
fn site_case(alloc: Global, fields: &[u8]) -> Result<Option<LineCase>, AllocError>
    ensures ok { IfOk result (λ found. option_map as_asked found ≡ site_by (words fields.now)) }
    ensures memory { OnErr result (IsSomeAnd (site_by (words fields.now)) TakesMemory) }
{
    let Some((hex, fields)) = next_word(fields) else {
        return Ok(None);
    };
    let Some((address, after)) = next_word(fields) else {
        return Ok(None);
    };
    if next_word(after).is_some() {
        return Ok(None);
    }
    let Some(address) = u32_of(address) else {
        return Ok(None);
    };
    Ok(hex_of(alloc, hex)?.map(|table| LineCase::Site { table, address }))
}

/// The case of a line whose first word is `verify`, by what follows that word.
fn verify_case(alloc: Global, fields: &[u8]) -> Result<Option<LineCase>, AllocError>
    ensures ok { IfOk result (λ found. option_map as_asked found ≡ verify_by (words fields.now)) }
    ensures memory { OnErr result (IsSomeAnd (verify_by (words fields.now)) TakesMemory) }
{
    let Some((caps, fields)) = next_word(fields) else {
        return Ok(None);
    };
    let Some((hex, fields)) = next_word(fields) else {
        return Ok(None);
    };
    let Some(caps) = caps_of(caps) else {
        return Ok(None);
    };
    match hex_of(alloc, hex) {
        Ok(Some(code)) => {
            let chunks = chunks_of(alloc, fields)?;
            Ok(chunks.map(|chunks| LineCase::Verify { caps, code, chunks }))
        }
        Ok(None) => Ok(None),
        Err(AllocError) if are_chunks(fields) => Err(AllocError),
        Err(AllocError) => Ok(None),
    }
}

/// The case that the line spells, or nothing if it has no form of a case.
///
/// # Errors
/// [`AllocError`] if the line has a form with bytes or chunks, and memory for them was refused.
#[tactic(auto, unfolding(crate::specs::LineCase::asked))]
pub fn case_of(alloc: Global, line: &[u8]) -> Result<Option<LineCase>, AllocError>
    ensures ok { IfOk result (λ found. option_map as_asked found ≡ asked line.now) }
    ensures memory { OnErr result (IsSomeAnd (asked line.now) TakesMemory) }
{
    let Some((name, fields)) = next_word(line) else {
        return Ok(None);
    };
    if name == b"code".as_slice() {
        return code_case(alloc, fields);
    }
    if name == b"site".as_slice() {
        return site_case(alloc, fields);
    }
    if name == b"verify".as_slice() {
        return verify_case(alloc, fields);
    }
    Ok(None)
}
