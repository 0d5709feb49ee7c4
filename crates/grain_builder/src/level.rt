//! What surrounds operations.
ghost use Rattle.std.specs.Prelude.{◌≡◌, ◌+◌, ◌≤◌, IfOk, length, map};
ghost use Rattle.grain_rules.specs.Counts.{last_base};
ghost use Rattle.grain_builder.specs.Levels.{level_base};
ghost use Rattle.grain_builder.specs.Unfinished.{fresh, guarded, level_with_handler, level_with_iterator, level_without_handlers, level_without_iterator};

use grain_base::pos::Site;
use rhai_errors::{CompileError, Problem, Thing};
use std::alloc::{AllocError, Global};
use std::marker::Model;

/// How many operands and iterators stood when a handler was armed.
#[derive(Clone, Copy, Debug, PartialEq, Eq)]
pub struct Base {
    /// The operands.
    pub operands: usize,
    /// The iterators.
    pub iterators: usize,
}

/// What the handler that was armed last stands on, or empty stacks if none is armed.
fn last_of(bases: &[Base]) -> Base
    ensures { level_base result ≡ last_base (map level_base bases.now) }
{
    match bases.first() {
        Some(base) => *base,
        None => Base {
            operands: 0,
            iterators: 0,
        },
    }
}

/// What surrounds the operations that are written: how many operands and iterators have to stay, how many iterators there are,
/// the bases of the armed handlers, the last first, and where the chunk begins. Contracts see a `Level`.
#[derive(Drop)]
pub struct Level {
    pub(crate) floor: usize,
    pub(crate) least: usize,
    pub(crate) iterators: usize,
    pub(crate) bases: Vec<Base>,
    pub(crate) home: usize,
}

impl Model for Level {
    ghost use Rattle.grain_builder.specs.Unfinished.{Level};

    ghost Value = { Level };

    ghost use Rattle.grain_builder.specs.Levels.{level_of};
    ghost use Rattle.grain_builder.specs.Sound.{IsBased};

    ghost view = { level_of };

    ghost invariant = { λ f. IsBased (level_of f) };
}

impl Level {
    /// What surrounds the first operation of a chunk that begins there.
    pub(crate) fn outermost(alloc: Global, home: usize) -> Level
        ensures { result ≡ fresh home }
    {
        Level {
            floor: 0,
            least: 0,
            iterators: 0,
            bases: Vec::new(alloc),
            home,
        }
    }

    /// Where the chunk begins.
    pub(crate) fn home(&self) -> usize
        ensures { result ≡ self.now.home }
    {
        self.home
    }

    /// The same.
    pub fn clone(&self) -> Result<Level, AllocError>
        ensures { IfOk result (λ f. f ≡ self.now) }
    {
        let bases = self.bases.clone()?;
        Ok(Level {
            floor: self.floor,
            least: self.least,
            iterators: self.iterators,
            bases,
            home: self.home,
        })
    }

    /// With one more iterator. Those that are there stay.
    pub(crate) fn with_iterator(&self, place: Site) -> Result<Level, CompileError>
        ensures { IfOk result (λ f. f ≡ level_with_iterator self.now) }
    {
        let Some(iterators) = self.iterators.checked_add(1) else {
            return Err(CompileError::new(place, Problem::TooMany(Thing::Statement)));
        };
        let bases = self.bases.clone()?;
        Ok(Level {
            floor: self.floor,
            least: self.iterators,
            iterators,
            bases,
            home: self.home,
        })
    }

    /// Without the last iterator.
    pub(crate) fn without_iterator(&self) -> Result<Level, AllocError>
        requires { self.now.least + 1 ≤ self.now.iterators }
        ensures { IfOk result (λ f. f ≡ level_without_iterator self.now) }
    {
        let bases = self.bases.clone()?;
        Ok(Level {
            floor: self.floor,
            least: self.least,
            iterators: self.iterators - 1,
            bases,
            home: self.home,
        })
    }

    /// How many handlers are armed.
    pub(crate) fn handlers(&self) -> usize
        ensures { result ≡ length self.now.bases }
    {
        self.bases.len()
    }

    /// With all of this many operands to stay.
    pub(crate) fn guarded(&self, operands: usize) -> Result<Level, AllocError>
        requires { self.now.floor ≤ operands }
        ensures { IfOk result (λ f. f ≡ guarded operands self.now) }
    {
        let bases = self.bases.clone()?;
        Ok(Level {
            floor: operands,
            least: self.least,
            iterators: self.iterators,
            bases,
            home: self.home,
        })
    }

    /// Without this many handlers, the last first. What the next handler stands on has to stay, and no more.
    pub(crate) fn without_handlers(&self, alloc: Global, count: usize) -> Result<Level, AllocError>
        requires { count ≤ length self.now.bases }
        ensures { IfOk result (λ f. f ≡ level_without_handlers count self.now) }
    {
        let kept = &self.bases[count..];
        let last = last_of(kept);
        let bases = Vec::from_slice(alloc, kept)?;
        Ok(Level {
            floor: last.operands,
            least: last.iterators,
            iterators: self.iterators,
            bases,
            home: self.home,
        })
    }

    /// With one more handler, which stands on this many operands.
    pub(crate) fn with_handler(&self, operands: usize) -> Result<Level, AllocError>
        ensures { IfOk result (λ f. f ≡ level_with_handler operands self.now) }
    {
        let mut bases = self.bases.clone()?;
        let base = Base {
            operands,
            iterators: self.iterators,
        };
        bases.insert(0, base)?;
        Ok(Level {
            floor: operands,
            least: self.iterators,
            iterators: self.iterators,
            bases,
            home: self.home,
        })
    }
}
