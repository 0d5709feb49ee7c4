//! What is required of the host.
ghost use Rattle.std.specs.Prelude.{◌≡◌, ◌↔◌, IsTrue};
ghost use Rattle.grain_base.specs.CapBits.{missing};
ghost use Rattle.grain_rules.specs.Capabilities.{Allows};

use grain_base::{Caps, Flags};

/// What is required and isn't there.
#[inline(always)]
pub fn missing(caps: Caps, asked: Caps) -> Caps
    ensures { result.0 ≡ missing caps.0 asked.0 }
{
    asked.difference(caps)
}

/// Whether all that is required is there.
pub fn allows(caps: Caps, asked: Caps) -> bool
    ensures { IsTrue result ↔ Allows caps.0 asked.0 }
{
    missing(caps, asked).is_empty()
}
