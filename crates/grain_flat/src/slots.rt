//! How many slots for local variables the chunks of a flat form use.
ghost use Rattle.std.specs.Prelude.{◌≡◌, None, get_or, length, map};
ghost use Rattle.std.specs.List.{AllZip};
ghost use Rattle.grain_needs.specs.Slots.{AreSlots};
ghost use Rattle.grain_flat.specs.Slots.{WritesSlots, row_slot};

use crate::records::{CChain, CChunk, CProgram};
use crate::shapes::LOCAL;
use crate::verdicts::chunk_of;
use grain_needs::{ChainSlots, chunk_slots};

/// Rows of chains, as far as slots go.
#[derive(Drop)]
struct RootRows<'a> {
    rows: &'a [CChain],
}

impl ChainSlots for RootRows<'_> {
    ghost slots = { λ chains. map row_slot chains.rows.now };

    fn slot_at(&self, chain: u32) -> Option<u16> {
        slot_in(self.rows, chain)
    }
}

fn slot_of(row: &CChain) -> Option<u16>
    ensures { result ≡ row_slot row.now }
{
    if row.root == LOCAL {
        Some(row.slot)
    } else {
        None
    }
}

/// The slot at which the chain of an index begins.
fn slot_in(rows: &[CChain], chain: u32) -> Option<u16>
    ensures { result ≡ get_or (map row_slot rows.now) chain None }
{
    match rows.get(chain as usize) {
        Some(row) => slot_of(row),
        None => None,
    }
}

/// Writes the number of slots of each chunk.
fn write_each(code: &[u8], chunks: &[CChunk], chains: &RootRows<'_>, slots: &mut [u32])
    requires { length slots.old ≡ length chunks.now }
    ensures { AllZip (AreSlots (map row_slot chains.now.rows.now) code.now) chunks.now slots.new }
{
    for (index, count) in slots.iter_mut().enumerate() {
        *count = chunk_slots(code, &chunk_of(&chunks[index]), chains);
    }
}

/// Writes the number of slots of each chunk, as many as there is room for, and leaves the rest of the room.
pub fn write_slots(program: &CProgram<'_>, slots: &mut [u32])
    ensures { WritesSlots program.now slots.old slots.new }
{
    let chains = RootRows {
        rows: program.pools.chains,
    };
    let count = program.chunks.len().min(slots.len());
    write_each(
        program.code,
        &program.chunks[..count],
        &chains,
        &mut slots[..count],
    );
}
