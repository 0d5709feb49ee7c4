//! The states with which a chunk's walk has visited things that are numbered.
ghost use Rattle.std.specs.Prelude.{◌≡◌, ◌<◌, OnOk, None, Some, get_or, length, replicate, slice_set};

use crate::state::State;
use std::alloc::{AllocError, Global};
use std::marker::Model;

/// A state, and the number of the chunk that was walked when it was set.
#[derive(Clone, Copy)]
pub(crate) struct Entry {
    chunk: u32,
    state: State,
}

impl Entry {
    /// An entry of no chunk.
    const NONE: Entry = Entry {
        chunk: u32::MAX,
        state: State::NOTHING,
    };
}

/// For each of some things the state with which it was visited in the chunk that is walked, if it was.
///
/// An entry is valid if it has the number of the chunk that is walked, so that nothing need be cleared for the next
/// chunk. Chunks are numbered downwards, below the number of entries of none. Contracts see a list of states that may be
/// missing.
#[derive(Drop)]
pub(crate) struct States {
    chunk: u32,
    entries: Vec<Entry>,
}

impl Model for States {
    ghost use Rattle.std.specs.Prelude.{List, Option};
    ghost use Rattle.grain_verify.specs.States.{AreKept, states_of};
    ghost use Rattle.grain_verify.specs.declared.state.State.{State};

    ghost Value = { List (Option State) };

    ghost view = { λ s. states_of s.chunk s.entries.items };

    ghost invariant = { λ s. AreKept s.chunk s.entries.items };
}

impl States {
    /// Room for no states. It takes no memory.
    #[inline(always)]
    pub(crate) fn new(alloc: Global) -> States {
        States {
            chunk: u32::MAX - 1,
            entries: Vec::new(alloc),
        }
    }

    /// Makes room for the states of this many things. Which of them were visited is known once a chunk begins.
    ///
    /// # Errors
    /// [`AllocError`] if the memory was refused: 16 bytes for each of them.
    pub(crate) fn make_room(&mut self, count: usize) -> Result<(), AllocError>
        ensures { OnOk result (length self.new ≡ count) }
    {
        self.entries.resize(count, Entry::NONE)
    }

    /// Begins the next chunk, in which nothing was visited. Once the numbers of chunks are used up, the entries are
    /// cleared.
    pub(crate) fn begin_chunk(&mut self)
        ensures { self.new ≡ replicate (length self.old) None }
    {
        if self.chunk == 0 {
            self.entries.fill(Entry::NONE);
            self.chunk = u32::MAX;
        }
        self.chunk -= 1;
    }

    /// The state with which the thing of this number was visited.
    #[inline(always)]
    pub(crate) fn get(&self, number: usize) -> Option<State>
        requires { number < length self.now }
        ensures { result ≡ get_or self.now number None }
    {
        let entry = self.entries[number];
        if entry.chunk == self.chunk {
            Some(entry.state)
        } else {
            None
        }
    }

    /// Sets the state with which the thing of this number is visited.
    #[inline(always)]
    pub(crate) fn set(&mut self, number: usize, state: State)
        requires { number < length self.old }
        ensures { self.new ≡ slice_set self.old number (Some state) }
    {
        self.entries[number] = Entry {
            chunk: self.chunk,
            state,
        };
    }
}
