//! How many slots for local variables a chunk uses.
//!
//! Verification tests no slot. With this number a host allocates once for a call, and then needs no test either.
ghost use Rattle.std.specs.Prelude.{◌≡◌, ◌≤◌, ◌+◌, ℕ, List, None, Option, Some, get_or, max};
ghost use Rattle.grain_needs.specs.Slots.{AreSlots, named_slot, receiver_slot, root_slot, root_slots};

use grain_code::{Chunk, Op, Receiver};
use grain_pools::{Chain, Root};
use grain_rules::Pools;

/// The chains of a program, as far as slots go.
pub trait ChainSlots {
    /// The slot of the variable at which each chain begins.
    ghost slots: { Self → List (Option ℕ) };

    /// The slot of the variable at which the chain of an index begins, if it is there and begins at one.
    fn slot_at(&self, chain: u32) -> Option<u16>
        ensures { result ≡ get_or (slots self.now) chain None };
}

impl ChainSlots for Pools<'_> {
    ghost slots = { λ pools. root_slots pools.chains.now };

    fn slot_at(&self, chain: u32) -> Option<u16> {
        slot_in(self.chains, chain)
    }
}

/// The slot at which the chain of an index begins.
fn slot_in(chains: &[Chain], chain: u32) -> Option<u16>
    ensures { result ≡ get_or (root_slots chains.now) chain None }
{
    match chains.get(chain as usize) {
        Some(chain) => slot_of_root(&chain.root),
        None => None,
    }
}

fn slot_of_root(root: &Root) -> Option<u16>
    ensures { result ≡ root_slot root.now }
{
    match root {
        Root::Local { slot, .. } => Some(*slot),
        Root::Named { .. } | Root::This { .. } | Root::Temporary => None,
    }
}

fn receiver_slot(receiver: Receiver) -> Option<u16>
    ensures { result ≡ receiver_slot receiver }
{
    match receiver {
        Receiver::Local(slot) => Some(slot),
        Receiver::Named(_) | Receiver::This => None,
    }
}

/// The slot that an instruction names, in its fields or by its chain.
fn named_slot<C: ChainSlots>(op: &Op, chains: &C) -> Option<u16>
    ensures { result ≡ named_slot (C.slots chains.now) op.now }
{
    match *op {
        Op::LoadLocal(slot)
        | Op::StoreLocal { slot, .. }
        | Op::AssignLocal { slot, .. }
        | Op::StoreShared(slot)
        | Op::Share(slot)
        | Op::LoadShared(slot)
        | Op::ExportLocal { slot, .. } => Some(slot),
        Op::IterNext { counter_slot, .. } => counter_slot,
        Op::CallRef { receiver, .. } => receiver_slot(receiver),
        Op::CallFnPtr {
            receiver: Some(receiver),
            ..
        } => receiver_slot(receiver),
        Op::Chain(chain) => chains.slot_at(chain),
        _ => None,
    }
}

/// One more than the greatest slot, of one more instruction, which names this one.
fn slots_with(slots: u32, named: Option<u16>) -> u32
    requires { slots ≤ 65536 }
    ensures none { named ≡ None → result ≡ slots }
    ensures some { (slot : ℕ) → named ≡ Some slot → result ≡ max slots (slot + 1) }
    ensures small { result ≤ 65536 }
{
    match named {
        Some(slot) if u32::from(slot) >= slots => u32::from(slot) + 1,
        _ => slots,
    }
}

/// The number of slots that the instructions of a chunk name: one more than the greatest of these slots, or 0 if they name none.
///
/// For a chunk of an accepted program, a host allocates this many slots when it calls the chunk, and its parameters if these are more.
/// No kept run then names a slot outside them ([`runs_stay_within_slots`](crate::laws::runs_stay_within_slots)), so the host tests
/// none. It reads the chunk's part of the code once, and takes no memory.
#[must_use]
pub fn chunk_slots<C: ChainSlots>(code: &[u8], chunk: &Chunk, chains: &C) -> u32
    ensures { AreSlots (C.slots chains.now) code.now chunk.now result }
{
    let mut slots = 0;
    for (_, op) in chunk.ops(code) {
        slots = slots_with(slots, named_slot(&op, chains));
    }
    slots
}
