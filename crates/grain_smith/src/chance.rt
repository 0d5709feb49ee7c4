//! Random numbers, which the seed alone decides.

use rand_core::{Rng, SeedableRng};
use rand_xoshiro::Xoshiro256PlusPlus;

/// A source of random numbers. The same seed gives the same numbers on each machine. A call takes constant time.
#[derive(Drop)]
pub struct Chance {
    rng: Xoshiro256PlusPlus,
}

impl Chance {
    /// The numbers of a seed.
    pub fn new(seed: u64) -> Chance {
        Chance {
            rng: Xoshiro256PlusPlus::seed_from_u64(seed),
        }
    }

    /// Any number of 64 bits.
    pub fn word(&mut self) -> u64 {
        self.rng.next_u64()
    }

    /// A number below the limit, or 0 if that is 0.
    pub fn below(&mut self, limit: u32) -> u32 {
        if limit == 0 {
            return 0;
        }
        // The high bits are the best of this generator. What a remainder favours doesn't matter here.
        let word = self.word() >> 32;
        u32::try_from(word % u64::from(limit)).unwrap_or(0)
    }

    /// A number below the limit, or 0 if that is 0.
    pub fn small(&mut self, limit: u16) -> u16 {
        u16::try_from(self.below(u32::from(limit))).unwrap_or(0)
    }

    /// A number below the limit, or 0 if that is 0.
    pub fn byte(&mut self, limit: u8) -> u8 {
        u8::try_from(self.below(u32::from(limit))).unwrap_or(0)
    }

    /// An index into a list of this length, or 0 if it is empty.
    pub fn index(&mut self, len: usize) -> usize {
        let limit = u32::try_from(len).unwrap_or(u32::MAX);
        self.below(limit) as usize
    }

    /// Whether the first of this many equally likely cases comes up.
    pub fn one_in(&mut self, cases: u32) -> bool {
        self.below(cases) == 0
    }

    /// One of the items, or nothing if there is none.
    pub fn pick<T: Copy>(&mut self, items: &[T]) -> Option<T> {
        let index = self.index(items.len());
        items.get(index).copied()
    }
}
