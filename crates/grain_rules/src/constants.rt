//! What constants require of the host.
ghost use Rattle.std.specs.Prelude.{◌≡◌, Some, MatchOption, OnOk, IfErr, option_map};
ghost use Rattle.std.specs.List.{All};
ghost use Rattle.grain_rules.specs.Accepted.{ConstantPasses};
ghost use Rattle.grain_rules.specs.Capabilities.{Allows};
ghost use Rattle.grain_rules.specs.ConstCaps.{const_caps, items_caps, entries_caps};
ghost use Rattle.grain_rules.specs.Flaw.{ConstantAsks};

use crate::capabilities::allows;
use crate::error::VerifyError;
use grain_base::{Caps, Dynamic, Flags};
use std::collections::BTreeMap;

/// The capabilities that a constant requires, those of its parts among them (docs/FORMAT.md, "Capabilities").
///
/// `None` for a value that can't be said to be a constant: one that is shared or the host's, or has such a part. It looks at
/// each value in it once at most, and takes no memory but the call stack, by the depth.
#[must_use]
#[cycle(caps)]
pub fn constant_caps(value: &Dynamic) -> Option<Caps>
    ensures { option_map (λ c. c.0) result ≡ const_caps value.now }
{
    match value {
        Dynamic::Array(items) => add_items(Caps::ARRAY, items),
        Dynamic::Blob(_) => Some(Caps::BLOB),
        Dynamic::Map(entries) => add_entries(Caps::MAP, entries),
        Dynamic::FnPtr(pointer) => add_items(Caps::FN_PTR, &pointer.curry),
        Dynamic::Shared(_) | Dynamic::Host(_) => None,
        Dynamic::Unit
        | Dynamic::Bool(_)
        | Dynamic::Int(_)
        | Dynamic::Char(_)
        | Dynamic::Str(_)
        | Dynamic::Range(..)
        | Dynamic::RangeInclusive(..)
        | Dynamic::Float(_) => Some(Caps::empty()),
    }
}

#[cycle(caps)]
fn add_items(caps: Caps, items: &[Dynamic]) -> Option<Caps>
    ensures { option_map (λ c. c.0) result ≡ items_caps caps.0 items.now }
{
    let mut all = caps;
    for item in items {
        all = all.union(constant_caps(item)?);
    }
    Some(all)
}

#[cycle(caps)]
fn add_entries(caps: Caps, entries: &BTreeMap<String, Dynamic>) -> Option<Caps>
    ensures { option_map (λ c. c.0) result ≡ entries_caps caps.0 entries.now.entries }
{
    let mut all = caps;
    for (_, value) in entries {
        all = all.union(constant_caps(value)?);
    }
    Some(all)
}

/// Tests that the host has what each constant requires.
///
/// # Errors
/// `MissingCaps` at address 0, with all that the first constant requires whose capabilities aren't all there.
pub fn check_constants(caps: Caps, consts: &[Dynamic]) -> Result<(), VerifyError>
    ensures ok { OnOk result (All (ConstantPasses caps.0) consts.now) }
    ensures err { IfErr result (λ e. (asked : Caps) × (e ≡ VerifyError.MissingCaps caps asked 0)
        × ConstantAsks caps.0 consts.now asked.0) }
{
    for value in consts {
        if let Some(missing) = refused_caps(caps, value) {
            return Err(VerifyError::MissingCaps {
                artifact: caps,
                missing,
                at: 0,
            });
        }
    }
    Ok(())
}

/// The capabilities that the constant requires, if the host lacks some of them.
fn refused_caps(caps: Caps, value: &Dynamic) -> Option<Caps>
    ensures { MatchOption result (ConstantPasses caps.0 value.now) (λ asked.
        (const_caps value.now ≡ Some asked.0) × (Allows caps.0 asked.0 → ⊥)) }
{
    let asked = constant_caps(value)?;
    if allows(caps, asked) {
        None
    } else {
        Some(asked)
    }
}
