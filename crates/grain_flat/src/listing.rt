//! The entries of address tables and the sites of streams, written into room of the caller's.
//!
//! No call takes memory. Each returns how many items there are, so that a caller can make room and call again.
ghost use Rattle.std.specs.Prelude.{◌≡◌, List, Option, IfNone, IfSome, cond, length, map, nat_lt, slice_set};
ghost use Rattle.grain_base.specs.AddressTable.{Entry, LongestFront};
ghost use Rattle.grain_base.specs.declared.pos.Site.{Site};
ghost use Rattle.grain_bytecode.specs.ChainStream.{Stream};
ghost use Rattle.grain_flat.specs.Listing.{entry_row, filled, place_row};

use crate::records::{CEntry, CPlace};
use grain_base::pos::{self, Site};
use grain_base::varint;
use grain_bytecode::sites;

/// Writes items in front of the room, as many as it has places for.
pub fn fill<T: Copy>(room: &mut [T], items: &[T])
    ensures { room.new ≡ filled items.now room.old }
{
    let count = items.len().min(room.len());
    room[..count].copy_from_slice(&items[..count]);
}

/// Writes an item at its place, if the room has it.
fn put_at<T: Copy>(room: &mut [T], place: usize, item: T)
    ensures { room.new ≡ cond (nat_lt place (length room.old)) (slice_set room.old place item) room.old }
{
    if place < room.len() {
        room[place] = item;
    }
}

/// Writes the entries of an address table, those in front of the first damage, in front of the room, as many as it has
/// places for; and answers how many there are.
pub fn list_entries(table: &[u8], room: &mut [CEntry]) -> usize
    ensures { (front : List Entry) × LongestFront table.now front × (result ≡ length front)
        × (room.new ≡ filled (map entry_row front) room.old) }
{
    let mut count = 0;
    for (address, site) in pos::entries(table) {
        let row = CEntry {
            address,
            line: site.line,
            column: site.column,
        };
        put_at(room, count, row);
        count += 1;
    }
    count
}

/// The record of a slot's site.
fn place_of(site: Option<Site>) -> CPlace
    ensures { result ≡ place_row site }
{
    match site {
        Some(Site { line, column }) => CPlace { line, column },
        None => CPlace { line: 0, column: 0 },
    }
}

/// Writes the sites of a stream, slot by slot, in front of the room, as many as it has places for; and answers how many slots
/// there are, or `None` if the bytes are no stream. It reads the stream twice.
pub fn list_sites(stream: &[u8], room: &mut [CPlace]) -> Option<usize>
    ensures some { IfSome result (λ count. (slots : List (Option Site)) × Stream stream.now slots
        × (count ≡ length slots) × (room.new ≡ filled (map place_row slots) room.old)) }
    ensures none { IfNone result ((slots : List (Option Site)) → Stream stream.now slots → ⊥) }
    ensures kept { IfNone result (room.new ≡ room.old) }
{
    if sites::check(stream).is_err() {
        return None;
    }
    let mut at = 0;
    let Ok(count) = varint::u32(stream, &mut at) else {
        return None;
    };
    'slots: for turn in 0..count {
        let Ok(site) = sites::next_slot(stream, &mut at) else {
            return None;
        };
        put_at(room, turn as usize, place_of(site));
    }
    Some(count as usize)
}
