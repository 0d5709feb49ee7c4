//! What the words of a case spell: bytes, numbers, capabilities and chunks (docs/FORMAT.md, "Lines,
//! cases and verdicts").

ghost use Rattle.std.specs.Prelude.{◌≡◌, ◌<◌, [], ◌∷◌, length, IfNone, IfOk, IfSome, OnErr, is_ok};
ghost use Rattle.std.specs.Prelude.{is_some};
ghost use Rattle.std.specs.Char.{is_ascii_hexdigit};
ghost use Rattle.std.specs.List.{list_all, slice_split};
ghost use Rattle.std.specs.Option.{option_map};
ghost use Rattle.grain_base.specs.CapBits.{set_of};
ghost use Rattle.hex.specs.Hex.{decode_of};
ghost use Rattle.grain_lines.specs.Fields.{caps_spelled, chunk_of, chunks_spelled, hex_of, is_colon, u16_of};
ghost use Rattle.grain_lines.specs.Fields.{u32_of, SpellChunks, SpellsBytes};
ghost use Rattle.grain_lines.specs.Words.{words};

use crate::words::{next_word, split_at_byte};
use grain_base::{Caps, Flags};
use grain_code::Chunk;
use hex::FromHexError;
use std::alloc::{AllocError, Global};
use std::str;

/// Whether each byte is a hexadecimal digit of either case.
pub fn are_hex_digits(word: &[u8]) -> bool
    ensures { result ≡ list_all is_ascii_hexdigit word.now }
{
    word.iter().all(|byte| byte.is_ascii_hexdigit())
}

/// Whether the word is hexadecimal digits in pairs. It takes no memory.
fn is_hex(word: &[u8]) -> bool
    ensures { result ≡ is_ok (decode_of word.now) }
{
    word.len() % 2 == 0 && are_hex_digits(word)
}

/// The bytes that a word of hexadecimal digits in pairs spells, or no bytes for `-`; nothing if
/// the word is neither.
///
/// # Errors
/// [`AllocError`] if the word spells some bytes and memory for them was refused.
pub fn hex_of(alloc: Global, word: &[u8]) -> Result<Option<Vec<u8>>, AllocError>
    ensures ok { IfOk result (λ found. option_map (λ bytes. bytes.items) found ≡ hex_of word.now) }
    ensures memory { OnErr result (SpellsBytes word.now) }
{
    if word.is_empty() || word == b"-".as_slice() {
        return Ok(Some(Vec::new(alloc)));
    }
    match hex::decode(alloc, word) {
        Ok(bytes) => Ok(Some(bytes)),
        Err(FromHexError::OutOfMemory) if is_hex(word) => Err(AllocError),
        Err(_) => Ok(None),
    }
}

/// The number that a word of decimal digits alone spells, if it fits 32 bits.
pub fn u32_of(word: &[u8]) -> Option<u32>
    ensures { result ≡ u32_of word.now }
{
    // std takes a sign here, and the form of a line doesn't.
    if word.starts_with(b"+") {
        return None;
    }
    let Ok(text) = str::from_utf8(word) else {
        return None;
    };
    text.parse().ok()
}

/// The number that a word of decimal digits alone spells, if it fits 16 bits.
fn u16_of(word: &[u8]) -> Option<u16>
    ensures { result ≡ u16_of word.now }
{
    u16::try_from(u32_of(word)?).ok()
}

/// The capabilities that four hexadecimal digits spell, if each bit is a capability.
pub fn caps_of(word: &[u8]) -> Option<Caps>
    ensures { option_map set_of result ≡ caps_spelled word.now }
{
    let mut bits = [0; 2];
    let Ok(()) = hex::decode_to_slice(word, &mut bits) else {
        return None;
    };
    Caps::from_bits(u16::from_be_bytes(bits))
}

/// The three parts that exactly two colons cut a word into.
fn three_parts(word: &[u8]) -> Option<(&[u8], &[u8], &[u8])>
    ensures some { IfSome result (λ parts. slice_split is_colon word.now
        ≡ parts.0.now ∷ parts.1.now ∷ parts.2.now ∷ []) }
    ensures none { IfNone result (chunk_of word.now ≡ None) }
{
    let (entry, rest) = split_at_byte(word, b':')?;
    let (end, declared) = split_at_byte(rest, b':')?;
    match split_at_byte(declared, b':') {
        Some(_) => None,
        None => Some((entry, end, declared)),
    }
}

/// The chunk that an entry, an end and a declared stack spell, with colons between them.
pub fn chunk_of(word: &[u8]) -> Option<Chunk>
    ensures { result ≡ chunk_of word.now }
{
    let (entry, end, declared) = three_parts(word)?;
    Some(Chunk::new(u32_of(entry)?, u32_of(end)?, u16_of(declared)?))
}

/// Whether each of these words spells a chunk. It takes no memory.
pub fn are_chunks(fields: &[u8]) -> bool
    ensures { result ≡ is_some (chunks_spelled (words fields.now)) }
{
    let mut rest = fields;
    'testing: while let Some((word, more)) = next_word(rest) {
        if chunk_of(word).is_none() {
            return false;
        }
        rest = more;
    }
    true
}

/// The chunks that these words spell, as far as there is memory.
fn read_chunks(alloc: Global, fields: &[u8]) -> Result<Option<Vec<Chunk>>, AllocError>
    ensures ok { IfOk result (λ found. option_map (λ chunks. chunks.items) found
        ≡ chunks_spelled (words fields.now)) }
    ensures memory { OnErr result (0 < length (words fields.now)) }
{
    let mut chunks = Vec::new(alloc);
    let mut rest = fields;
    'reading: while let Some((word, more)) = next_word(rest) {
        let Some(chunk) = chunk_of(word) else {
            return Ok(None);
        };
        chunks.push(chunk)?;
        rest = more;
    }
    Ok(Some(chunks))
}

/// The chunks that these words spell; nothing if one of them spells none.
///
/// # Errors
/// [`AllocError`] if the words spell some chunks and memory for them was refused.
pub fn chunks_of(alloc: Global, fields: &[u8]) -> Result<Option<Vec<Chunk>>, AllocError>
    ensures ok { IfOk result (λ found. option_map (λ chunks. chunks.items) found
        ≡ chunks_spelled (words fields.now)) }
    ensures memory { OnErr result (SpellChunks (words fields.now)) }
{
    match read_chunks(alloc, fields) {
        Ok(found) => Ok(found),
        Err(AllocError) if are_chunks(fields) => Err(AllocError),
        Err(AllocError) => Ok(None),
    }
}
