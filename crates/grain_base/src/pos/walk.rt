//! The entries of an address table one by one.

ghost use Rattle.std.specs.Prelude.{drop};
ghost use Rattle.std.specs.Iterator.{at_most};
ghost use Rattle.grain_base.specs.EntriesLeft.{EntriesLeft};
ghost use Rattle.grain_base.specs.AddressTable.{EntrySteps};

use super::{Site, entry};
use std::marker::Model;

/// The entries of an address table that are left, in order. Each takes constant time.
#[derive(Drop)]
pub struct Entries<'a> {
    pub(super) table: &'a [u8],
    pub(super) at: usize,
    pub(super) before: u32,
    pub(super) count: u32,
}

impl<'a> Model for Entries<'a> {
    ghost Value = { EntriesLeft };

    ghost view = { λ s. record { count = s.count; before = s.before; bytes = drop s.at s.table.now } };
}

impl Iterator for Entries<'_> {
    type Item = (u32, Site);

    ghost next_gives = { EntrySteps };

    ghost remaining = { λ s. at_most s.count };

    fn next(&mut self) -> Option<(u32, Site)> {
        if self.count == 0 {
            return None;
        }
        let mut at = self.at;
        let Ok((address, site)) = entry(self.table, &mut at, self.before) else {
            return None;
        };
        self.at = at;
        self.before = address;
        self.count -= 1;
        Some((address, site))
    }
}
