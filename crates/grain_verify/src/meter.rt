//! How many instructions walks have looked at.
ghost use Rattle.std.specs.Prelude.{◌≡◌, ◌<◌, ◌^◌, ℕ};
ghost use Rattle.grain_verify.specs.Meter.{HasCounted};

use std::marker::Model;

/// Counts the instructions that the verifier's walks look at, so that a host can bound what scripts cost it.
///
/// A walk visits each instruction that it reaches once, chunk by chunk, and that visit is what counts: reading code before
/// the walk doesn't, nor does comparing where paths meet. A meter at the greatest `u128` stays there.
#[derive(Clone, Copy, Debug, Default, PartialEq, Eq)]
pub struct Meter {
    count: u128,
}

impl Model for Meter {
    ghost Value = { ℕ };

    ghost view = { λ m. m.count };

    ghost inverse = { λ n. record { count = n } };
}

impl Meter {
    /// A meter that has counted nothing.
    #[must_use]
    pub fn new() -> Meter
        ensures { result ≡ 0 }
    {
        Meter { count: 0 }
    }

    /// How many instructions it has counted.
    #[must_use]
    pub fn count(&self) -> u128
        ensures { result ≡ self.now }
    {
        self.count
    }

    /// Counts this many more.
    pub(crate) fn add(&mut self, visits: u32)
        ensures { HasCounted self.old self.new visits }
    {
        self.count = self.count.saturating_add(u128::from(visits));
    }
}
