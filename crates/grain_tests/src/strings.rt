use crate::samples::{assert_same, made};
use grain_bytecode::names::{qualify, split_qualified};
use grain_bytecode::{BadTable, Strings};
use std::alloc::Global;

/// Where the names `alpha`, `b`, an empty one and `gamma` begin and end.
const STARTS: &[u32] = &[0, 5, 6, 6, 11];

#[test]
fn names_are_kept(rt: HostRuntime) {
    let names = made(&rt, Strings::new(rt.alloc(), &["alpha", "b", "", "gamma"]));
    assert_same(&rt, names.get(3), Some("gamma"));
    assert_same(&rt, names.starts(), STARTS);
    assert_same(&rt, (names.len(), names.iter().count()), (4, 4));
}

/// The names that bytes hold, cut by those starts.
fn borrowed(alloc: Global, blob: &[u8], starts: &[u32]) -> Result<Strings, BadTable> {
    Strings::borrowed(alloc, blob, starts.to_vec(alloc)?)
}

#[test]
fn names_are_cut(rt: HostRuntime) {
    let names = made(&rt, borrowed(rt.alloc(), b"alphabgamma".as_slice(), STARTS));
    assert_same(&rt, names.get(0), Some("alpha"));
    assert_same(&rt, names.get(2), Some(""));
}

#[test]
fn names_are_qualified(rt: HostRuntime) {
    let name = made(&rt, qualify(rt.alloc(), "a::b", "c"));
    assert_same(&rt, name.as_str(), "a::b::c");
    assert_same(&rt, split_qualified("a::b::c"), Some(("a::b", "c")));
}
