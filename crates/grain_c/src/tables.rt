//! Address tables, and streams of the positions of chains.
ghost use Rattle.std.specs.Prelude.{◌≡◌, ◌≢◌, ◌↔◌, List, Option, Some, None, cond, length, map};
ghost use Rattle.std.specs.Bool.{OnFalse, OnTrue};
ghost use Rattle.grain_base.specs.AddressTable.{Entry, FirstFlaw, LongestFront, Table, site_at};
ghost use Rattle.grain_bytecode.specs.ChainStream.{Records, Stream, StreamFlaw};
ghost use Rattle.grain_base.specs.declared.pos.Error.{Error as TableError};
ghost use Rattle.grain_base.specs.declared.pos.Site.{Site};
ghost use Rattle.grain_bytecode.specs.declared.sites.StreamError.{StreamError};
ghost use Rattle.grain_c.specs.TableFlaws.{stream_flaw, table_flaw};
ghost use Rattle.grain_flat.specs.Listing.{entry_row, filled, place_row};

use crate::table_flaws::{OUT_OF_ORDER, OVERFLOW, SOUND, TRAILING_BYTES, TRUNCATED};
use grain_base::pos;
use grain_base::pos::Error as TableError;
use grain_bytecode::sites;
use grain_bytecode::sites::StreamError;
use grain_flat::{CEntry, CPlace, list_entries, list_sites};

/// A flaw of an address table, and the address or the count that it names, or 0.
fn table_flaw(error: TableError) -> (u32, u64)
    ensures { result ≡ table_flaw error }
{
    match error {
        TableError::Truncated => (TRUNCATED, 0),
        TableError::Overflow => (OVERFLOW, 0),
        TableError::OutOfOrder { at } => (OUT_OF_ORDER, u64::from(at)),
        TableError::TrailingBytes { count } => (TRAILING_BYTES, count as u64),
    }
}

/// A flaw of a stream, and the count that it names, or 0.
fn stream_flaw(error: StreamError) -> (u32, u64)
    ensures { result ≡ stream_flaw error }
{
    match error {
        StreamError::Truncated => (TRUNCATED, 0),
        StreamError::Overflow => (OVERFLOW, 0),
        StreamError::TrailingBytes { count } => (TRAILING_BYTES, count as u64),
        StreamError::OutOfMemory => (SOUND, 0),
    }
}

/// The place of an address in an address table: of the first entry there, before the first damage. False if there is none,
/// and then nothing is written.
#[unsafe(no_mangle)]
pub extern "C" fn grain_proved_site(table: &[u8], address: u32, place: &mut CPlace) -> bool
    ensures site { (front : List Entry) × LongestFront table.now front × (site_at front address
        ≡ cond result (Some (record { line = place.new.line; column = place.new.column })) None) }
    ensures kept { OnFalse result (place.new ≡ place.old) }
{
    match pos::resolve(table, address) {
        Some(site) => {
            *place = CPlace {
                line: site.line,
                column: site.column,
            };
            true
        }
        None => false,
    }
}

/// Whether bytes are an address table: 0, or the number of what is wrong first, and with it the address or the count that
/// this names.
#[unsafe(no_mangle)]
pub extern "C" fn grain_proved_check_table(table: &[u8], named: &mut u64) -> u32
    ensures sound { (result ≡ SOUND) ↔ ((list : List Entry) × Table table.now list) }
    ensures flaw { result ≢ SOUND → (e : TableError) × FirstFlaw table.now e
        × ((result, named.new) ≡ table_flaw e) }
    ensures kept { result ≡ SOUND → named.new ≡ named.old }
{
    match pos::check(table) {
        Ok(()) => SOUND,
        Err(error) => {
            let (flaw, count) = table_flaw(error);
            *named = count;
            flaw
        }
    }
}

/// The place that a stream records for a slot. False if it records none, and then nothing is written.
#[unsafe(no_mangle)]
pub extern "C" fn grain_proved_stream_site(stream: &[u8], slot: u32, place: &mut CPlace) -> bool
    ensures found { OnTrue result (Records stream.now slot
        (record { line = place.new.line; column = place.new.column })) }
    ensures none { OnFalse result ((site : Site) → Records stream.now slot site → ⊥) }
    ensures kept { OnFalse result (place.new ≡ place.old) }
{
    match sites::resolve(stream, slot) {
        Some(site) => {
            *place = CPlace {
                line: site.line,
                column: site.column,
            };
            true
        }
        None => false,
    }
}

/// Whether bytes are a stream: 0, or the number of what is wrong first, and with it the count that this names.
#[unsafe(no_mangle)]
pub extern "C" fn grain_proved_check_stream(stream: &[u8], named: &mut u64) -> u32
    ensures sound { (result ≡ SOUND) ↔ ((slots : List (Option Site)) × Stream stream.now slots) }
    ensures flaw { result ≢ SOUND → (e : StreamError) × StreamFlaw stream.now e
        × ((result, named.new) ≡ stream_flaw e) }
    ensures kept { result ≡ SOUND → named.new ≡ named.old }
{
    match sites::check(stream) {
        Ok(()) => SOUND,
        Err(error) => {
            let (flaw, count) = stream_flaw(error);
            *named = count;
            flaw
        }
    }
}

/// Writes the entries of an address table in order, those before the first damage, in front of the list, as many as it has
/// places for; and answers how many there are.
#[unsafe(no_mangle)]
pub extern "C" fn grain_proved_table_entries(table: &[u8], entries: &mut [CEntry]) -> usize
    ensures { (front : List Entry) × LongestFront table.now front × (result ≡ length front)
        × (entries.new ≡ filled (map entry_row front) entries.old) }
{
    list_entries(table, entries)
}

/// Writes the places of a stream, slot by slot, in front of the list, as many as it has places for, and how many slots there
/// are. Line 0 says that a slot has no place. False if the bytes are no stream, and then nothing is written.
#[unsafe(no_mangle)]
pub extern "C" fn grain_proved_stream_sites(
    stream: &[u8],
    sites: &mut [CPlace],
    count: &mut usize,
) -> bool
    ensures sites { OnTrue result ((slots : List (Option Site)) × Stream stream.now slots
        × (count.new ≡ length slots) × (sites.new ≡ filled (map place_row slots) sites.old)) }
    ensures no_stream { OnFalse result ((slots : List (Option Site)) → Stream stream.now slots → ⊥) }
    ensures kept { OnFalse result ((sites.new ≡ sites.old) × (count.new ≡ count.old)) }
{
    let Some(slots) = list_sites(stream, sites) else {
        return false;
    };
    *count = slots;
    true
}
