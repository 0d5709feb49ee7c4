//! The stream of the positions of chains, which is stored next to code.
//!
//! A stream is a count of slots and then, for each slot, a line and a column, each a varint that fits a `u32`. Line 0
//! says that a slot has no site. The slots are those of all chains of a program, chain by chain (docs/FORMAT.md,
//! "Chain stream").
//!
//! [`resolve`] is called while a failure is reported, so that it never refuses: it returns what is recorded before the
//! first damage. [`check`] says whether a stream is sound, and [`decode`] reads all of it.

ghost use Rattle.std.specs.Prelude.{◌≡◌, ◌<◌, ◌≤◌, ◌+◌, ◌^◌, ◌↔◌, ◌⊎◌, ℕ, List, [], ◌∷◌, ◌++◌, length, drop, map, Some, Err, IsOk, IfOk, IfErr, IfSome, IfNone, IsOkUnless, OnOk, Option};
ghost use Rattle.std.specs.List.{flat_map};
ghost use Rattle.grain_base.specs.declared.pos.Site.{Site};
ghost use Rattle.grain_base.specs.Varint.{BeginsNumbers, U32Flaw, AreShortest};
ghost use Rattle.grain_bytecode.specs.declared.sites.StreamError.{StreamError};
ghost use Rattle.grain_bytecode.specs.declared.sites.StreamError.TheVariants.{OutOfMemory};
ghost use Rattle.grain_pools.specs.Chain.{positions};
ghost use Rattle.grain_bytecode.specs.ChainStream.{Stream, Records, StreamFlaw, AppendsAll, site_of, all_positions, numbers_of, recorded, as_stream_error};

use grain_base::pos::Site;
use grain_base::{Position, varint};
use grain_pools::Chain;
use std::alloc::{AllocError, AllocFailed, Global};
use std::fmt;

/// What is wrong with a stream.
#[derive(Clone, Copy, Debug, PartialEq, Eq)]
pub enum StreamError {
    /// The bytes end within a number, or where another is due.
    Truncated,
    /// A number is above 4294967295.
    Overflow,
    /// Bytes follow the last slot.
    TrailingBytes {
        /// How many they are.
        count: usize,
    },
    /// An allocation failed.
    OutOfMemory,
}

impl From<varint::Error> for StreamError {
    ghost from_gives = { λ error result. result ≡ as_stream_error error };

    fn from(error: varint::Error) -> StreamError {
        match error {
            varint::Error::Truncated => StreamError::Truncated,
            varint::Error::Overflow => StreamError::Overflow,
        }
    }
}

impl From<AllocError> for StreamError {
    ghost from_gives = { λ _ result. result ≡ OutOfMemory };

    fn from(_error: AllocError) -> StreamError {
        StreamError::OutOfMemory
    }
}

impl<T: Drop> From<AllocFailed<T>> for StreamError {
    ghost from_gives = { λ _ result. result ≡ OutOfMemory };

    fn from(_error: AllocFailed<T>) -> StreamError {
        StreamError::OutOfMemory
    }
}

impl fmt::Display for StreamError {
    ghost use Rattle.grain_bytecode.specs.ChainStream.{stream_error_text};

    ghost output = { λ error. Some (stream_error_text error) };

    fn fmt<W: fmt::Write>(&self, f: &mut fmt::Formatter<W>) -> fmt::Result {
        match self {
            StreamError::Truncated => write!(f, "chain position stream ends mid-slot"),
            StreamError::Overflow => {
                write!(f, "chain position stream holds a number too wide to read")
            }
            StreamError::TrailingBytes { count } => {
                write!(
                    f,
                    "chain position stream has {count} bytes past its last slot"
                )
            }
            StreamError::OutOfMemory => write!(f, "out of memory"),
        }
    }
}

impl std::error::Error for StreamError {}

/// Reads the next slot of a stream, whose count has been read, from an address on, and moves that past it: its site, or `None`
/// if its line is 0.
///
/// # Errors
/// Those of [`varint::u32`], of the line or the column.
pub fn next_slot(stream: &[u8], at: &mut usize) -> Result<Option<Site>, varint::Error>
    ensures ok { IfOk result (λ site. (line column : ℕ)
        × BeginsNumbers (drop at.old stream.now) (line ∷ column ∷ []) (drop at.new stream.now)
        × (site ≡ site_of line column)) }
    ensures inside { OnOk result (at.new ≤ length stream.now) }
    ensures err { IfErr result (λ error. (numbers left : List ℕ)
        × BeginsNumbers (drop at.old stream.now) numbers left × (length numbers < 2)
        × U32Flaw left error) }
{
    let line = varint::u32(stream, at)?;
    let column = varint::u32(stream, at)?;
    Ok(if line == 0 {
        None
    } else {
        Some(Site { line, column })
    })
}

/// The site that a stream records for a slot, if it does.
///
/// `None` past the counted slots, for line 0, and where the stream breaks at or before the slot. It reads the stream up to
/// the slot, and takes no memory.
#[must_use]
pub fn resolve(stream: &[u8], slot: u32) -> Option<Site>
    ensures { (site : Site) → (result ≡ Some site) ↔ Records stream.now slot site }
{
    let mut at = 0;
    let Ok(count) = varint::u32(stream, &mut at) else {
        return None;
    };
    if slot >= count {
        return None;
    }
    'slots: for _turn in 0..slot {
        let Ok(_site) = next_slot(stream, &mut at) else {
            return None;
        };
    }
    match next_slot(stream, &mut at) {
        Ok(site) => site,
        Err(_) => None,
    }
}

/// Whether the bytes are a stream. It reads them once, and takes no memory.
///
/// # Errors
///
/// The first thing that is wrong, in the order in which a stream is read.
pub fn check(stream: &[u8]) -> Result<(), StreamError>
    ensures ok { IsOk result ↔ ((slots : List (Option Site)) × Stream stream.now slots) }
    ensures err { (error : StreamError) → (result ≡ Err error) ↔ StreamFlaw stream.now error }
{
    let mut at = 0;
    let count = varint::u32(stream, &mut at)?;
    'slots: for _turn in 0..count {
        next_slot(stream, &mut at)?;
    }
    match stream.len() - at {
        0 => Ok(()),
        count => Err(StreamError::TrailingBytes { count }),
    }
}

/// The sites of a stream, slot by slot. It reads the stream twice, and takes memory for the sites.
///
/// # Errors
///
/// As [`check`], and `OutOfMemory` if an allocation failed, which is made only if the bytes are a stream.
/// Nothing is reserved for more slots than bytes are left.
pub fn decode(alloc: Global, stream: &[u8]) -> Result<Vec<Option<Site>>, StreamError>
    ensures ok { IfOk result (λ sites. Stream stream.now sites.items) }
    ensures whole { ((slots : List (Option Site)) × Stream stream.now slots)
        → IsOkUnless result OutOfMemory }
    ensures err { IfErr result (λ error.
        (error ≡ OutOfMemory) × ((slots : List (Option Site)) × Stream stream.now slots)
        ⊎ StreamFlaw stream.now error) }
{
    check(stream)?;
    let mut at = 0;
    let count = varint::u32(stream, &mut at)?;
    let mut sites = Vec::with_capacity(alloc, reserve(count, stream.len() - at))?;
    'slots: for _turn in 0..count {
        sites.push(next_slot(stream, &mut at)?)?;
    }
    Ok(sites)
}

/// For how many slots room is made before they are read, if this many are counted and this many bytes are left.
fn reserve(count: u32, left: usize) -> usize
    ensures counted { result ≤ count }
    ensures there { result ≤ left }
{
    left.min(count as usize)
}

/// Adds the number of a chain's positions to a count; `None` if a `u64` doesn't hold the sum.
fn count_more(before: u64, chain: &Chain) -> Option<u64>
    ensures some { IfSome result (λ count. count ≡ before + length (positions chain.now)) }
    ensures none { IfNone result (2 ^ 64 ≤ before + length (positions chain.now)) }
{
    let mut count = before;
    for _position in chain.positions() {
        count = count.checked_add(1)?;
    }
    Some(count)
}

/// Counts the positions of chains; `None` if a `u64` doesn't hold their number.
fn count_all(chains: &[Chain]) -> Option<u64>
    ensures some { IfSome result (λ count. count ≡ length (all_positions chains.now)) }
    ensures none { IfNone result (2 ^ 64 ≤ length (all_positions chains.now)) }
{
    let mut count = 0;
    for chain in chains {
        count = count_more(count, chain)?;
    }
    Some(count)
}

/// Writes a slot: the line and the column of its position, 0 if it has none.
fn put_slot(stream: &mut Vec<u8>, position: Position) -> Result<(), AllocError>
    ensures ok { OnOk result (AppendsAll stream.old.items stream.new.items (numbers_of position)) }
{
    let line = position.line().unwrap_or(0);
    let column = position.position().unwrap_or(0);
    varint::put_u64(stream, line as u64)?;
    varint::put_u64(stream, column as u64)?;
    Ok(())
}

/// Writes the slots of a chain.
fn put_slots(stream: &mut Vec<u8>, chain: &Chain) -> Result<(), AllocError>
    ensures ok { OnOk result (AppendsAll stream.old.items stream.new.items
        (flat_map numbers_of (positions chain.now))) }
{
    for position in chain.positions() {
        put_slot(stream, position)?;
    }
    Ok(())
}

/// Writes the stream of the positions of chains, chain by chain, in the shortest spellings.
///
/// What is written of 2 to the power 32 positions and more is no stream, since its count doesn't fit. It goes over the
/// chains and their steps twice, and takes memory for what it writes.
///
/// # Errors
///
/// `AllocError` if there is no memory for the stream, as there is none if a `u64` doesn't hold the number of the
/// positions.
pub fn encode(alloc: Global, chains: &[Chain]) -> Result<Vec<u8>, AllocError>
    ensures written { let list = all_positions chains.now in
        IfOk result (λ stream. AreShortest stream.items (length list ∷ flat_map numbers_of list)) }
    ensures stream { let list = all_positions chains.now in
        length list < 2 ^ 32 → IfOk result (λ stream. Stream stream.items (map recorded list)) }
{
    let count = count_all(chains).ok_or(AllocError)?;
    let mut stream = Vec::new(alloc);
    varint::put_u64(&mut stream, count)?;
    for chain in chains {
        put_slots(&mut stream, chain)?;
    }
    Ok(stream)
}
