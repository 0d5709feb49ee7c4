//! Texts that make programs, as the command doesn't have it: tests/command and tests/scripts have the rest.

use crate::samples::{assert_same, made};
use grain_parse::parse_accepted;
use rhai_compile::{Options, compile};
use std::alloc::Global;

#[test]
fn accepted_texts_have_depths(rt: HostRuntime) {
    let verified = made(
        &rt,
        parse_accepted(rt.alloc(), "  unit\n  unit\n  pop\n  return\n"),
    );
    assert_same(&rt, verified.depths(), [2].as_slice());
}

/// Whether a script of a variable that it doesn't declare is compiled.
fn is_compiled(alloc: Global, strict_variables: bool) -> bool {
    let options = Options {
        strict_variables,
        debug_id: 7,
    };
    compile(alloc, "x + 1", &options).is_ok()
}

#[test]
fn variables_may_be_of_the_host(rt: HostRuntime) {
    for strict in [false, true] {
        let found = is_compiled(rt.alloc(), strict);
        assert_same(&rt, (strict, found), (strict, !strict));
    }
}
