//! Names that are qualified by the namespace that they are in.
ghost use Rattle.std.specs.Prelude.{◌≡◌, ◌++◌, IfOk, option_map, string_bytes};
ghost use Rattle.grain_pools.specs.Qualified.{last_cut, separator, split_qualified};

use std::alloc::{AllocError, Global};

const SEPARATOR: &str = "::";

/// The name in the namespace: the namespace, `::` and the name. It takes time and memory by their lengths.
pub fn qualify(alloc: Global, namespace: &str, name: &str) -> Result<String, AllocError>
    ensures { IfOk result (λ s. string_bytes s ≡ namespace.now ++ separator ++ name.now) }
{
    format!(in alloc; "{namespace}{SEPARATOR}{name}")
}

/// The namespace and the name in it, cut at the last `::`.
///
/// `None` if there is no `::`, or nothing before the last one or after it. A `!` at the end is a part of the
/// name. It takes time by the length of the name, and no memory.
#[must_use]
pub fn split_qualified(name: &str) -> Option<(&str, &str)>
    ensures { option_map (λ parts. (parts.0.now, parts.1.now)) result ≡ split_qualified name.now }
{
    let (namespace, name) = last_cut(name)?;
    if namespace.is_empty() || name.is_empty() {
        None
    } else {
        Some((namespace, name))
    }
}

/// What is before the last separator, and what is after it.
fn last_cut(name: &str) -> Option<(&str, &str)>
    ensures { option_map (λ parts. (parts.0.now, parts.1.now)) result ≡ last_cut name.now }
{
    name.rsplit_once(SEPARATOR)
}
