//! Positions of code and of chains, written and read.

use crate::samples::{assert_same, chain, made};
use grain_base::Position;
use grain_base::pos::Site;
use grain_bytecode::Positions;
use grain_bytecode::sites::{decode, encode};
use std::alloc::{AllocError, Global};
use std::process::Abort;
use std::test::Fail;

/// The table of four places, of which two have a position.
const TABLE: &[u8] = &[2, 1, 1, 5, 2, 3, 0];

/// What is read of the table and code, as it is printed.
fn read(alloc: Global, code: &[u8]) -> Result<String, AllocError> {
    format!(in alloc; "{:?}", Positions::from_table(alloc, TABLE, code))
}

#[test]
fn tables_are_read(rt: HostRuntime) {
    let rows: [(&[u8], &str); 2] = [
        (&[2, 2, 2, 2], "Ok(Dense([none, 1:5, none, 3:0]))"),
        (
            &[2, 2],
            "Err(PastTheEnd { entries: 2, matched: 1, instructions: 2 })",
        ),
    ];
    for (code, wanted) in rows {
        assert_same(&rt, made(&rt, read(rt.alloc(), code)).as_str(), wanted);
    }
}

/// Asserts that the table of the four places is this one.
fn assert_table(rt: &impl Abort, alloc: Global) -> Result<(), Fail> {
    let none = Position::NONE;
    let places = [none, Position::new(1, 5), none, Position::new(3, 0)];
    let positions = Positions::dense(places.to_vec(alloc)?);
    assert_same(rt, positions.to_table(alloc)?.as_slice(), TABLE);
    Ok(())
}

#[test]
fn tables_are_written(rt: HostRuntime) {
    made(&rt, assert_table(&rt, rt.alloc()));
}

/// The positions of `a[i].b`: 1:1, 1:3, its bracket 1:2, and 1:6.
const STREAM: &[u8] = &[4, 1, 1, 1, 3, 1, 2, 1, 6];

/// The stream of the chain.
fn stream(alloc: Global) -> Result<Vec<u8>, AllocError> {
    let chains = [chain(alloc)?];
    encode(alloc, &chains)
}

fn site(line: u32, column: u32) -> Option<Site> {
    Some(Site { line, column })
}

/// More rows, of damaged streams and of bytes that are none, are tests of the package in hosts/rust.
#[test]
fn streams_are_written_and_read(rt: HostRuntime) {
    let written = made(&rt, stream(rt.alloc()));
    assert_same(&rt, written.as_slice(), STREAM);
    let sites = made(&rt, decode(rt.alloc(), STREAM));
    let wanted = [site(1, 1), site(1, 3), site(1, 2), site(1, 6)];
    assert_same(&rt, sites.as_slice(), wanted.as_slice());
}
