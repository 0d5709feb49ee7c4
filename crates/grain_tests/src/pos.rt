use crate::samples::{assert_same, made};
use grain_base::pos::{Site, check, count, encode, entries, is_ascending, resolve};
use std::alloc::{AllocError, Global};

const TABLE: [u8; 13] = [4, 0, 1, 5, 3, 1, 11, 37, 7, 2, 1, 9, 0];

/// What [`TABLE`] records: address, line and column.
const PLACES: [(u32, u32, u32); 4] = [(0, 1, 5), (3, 1, 11), (40, 7, 2), (41, 9, 0)];

fn entry((address, line, column): (u32, u32, u32)) -> (u32, Site) {
    (address, Site { line, column })
}

/// The table of these places, or no bytes where their addresses don't ascend.
fn table_of(alloc: Global, places: &[(u32, Site)]) -> Result<Vec<u8>, AllocError> {
    if !is_ascending(places) {
        return Ok(Vec::new(alloc));
    }
    encode(alloc, places)
}

#[test]
fn writes(rt: HostRuntime) {
    let table = made(&rt, table_of(rt.alloc(), &PLACES.map(entry)));
    assert_same(&rt, table.as_slice(), TABLE.as_slice());
}

/// More rows, of damaged tables and of bytes that are none, are tests of the package in hosts/rust.
#[test]
fn tables_are_read(rt: HostRuntime) {
    assert_same(&rt, (check(&TABLE), count(&TABLE)), (Ok(()), Ok(4)));
    let site = Site { line: 9, column: 0 };
    assert_same(&rt, resolve(&TABLE, 41), Some(site));
}

#[test]
fn entries_are_given(rt: HostRuntime) {
    let found: Vec<(u32, Site)> = made(&rt, entries(&TABLE).collect(rt.alloc()));
    let wanted = PLACES.map(entry);
    assert_same(&rt, found.as_slice(), wanted.as_slice());
}
