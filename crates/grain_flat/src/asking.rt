//! What constants require of the host, by their rows.
//!
//! A constant crosses as what it requires, since its value would need all of `Dynamic` in C.
ghost use Rattle.std.specs.Prelude.{◌≡◌, ◌↔◌, IfNone, IfSome, IsTrue, MatchOption, Some};
ghost use Rattle.std.specs.List.{All};
ghost use Rattle.grain_rules.specs.Capabilities.{Allows};
ghost use Rattle.grain_flat.specs.Flat.{asked_row};
ghost use Rattle.grain_flat.specs.Asking.{IsFirstRefusedRow, RowPasses};

use crate::records::CConstant;
use crate::rows::asked_of;
use grain_base::{Caps, Flags};

/// Whether all that is asked is there.
pub(crate) fn allows(caps: Caps, asked: Caps) -> bool
    ensures { IsTrue result ↔ Allows caps.0 asked.0 }
{
    asked.difference(caps).is_empty()
}

/// What the row asks, if the host lacks some of it.
fn refused_by(caps: Caps, row: &CConstant) -> Option<Caps>
    ensures { MatchOption result (RowPasses caps.0 row.now) (λ asked.
        (row.now ≡ asked_row (Some asked.0)) × (Allows caps.0 asked.0 → ⊥)) }
{
    let Some(Some(bits)) = asked_of(row) else {
        return None;
    };
    let asked = Caps::from_bits_retain(bits);
    if allows(caps, asked) {
        None
    } else {
        Some(asked)
    }
}

/// What the first constant asks whose capabilities aren't all there.
pub(crate) fn first_refused(caps: Caps, rows: &[CConstant]) -> Option<Caps>
    ensures none { IfNone result (All (RowPasses caps.0) rows.now) }
    ensures some { IfSome result (λ asked. IsFirstRefusedRow caps.0 rows.now asked.0) }
{
    for row in rows {
        if let Some(asked) = refused_by(caps, row) {
            return Some(asked);
        }
    }
    None
}
