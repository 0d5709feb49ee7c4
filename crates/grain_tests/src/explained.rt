//! A loop, explained and checked. More listings are compared by tests/listings.py.
use crate::samples::{assert_same, made};
use grain_base::{Caps, Flags};
use grain_bytecode::Chunk;
use grain_explain::{ExplainError, ExplainedChunk, Row, TypingError, check_typing, explain_chunks};
use grain_rules::NoPools;
use std::alloc::Global;

/// The loop of README that is accepted.
const LOOP: [u8; 15] = [2, 29, 30, 13, 0, 0, 0, 11, 12, 2, 0, 0, 0, 2, 19];

/// A row without handlers.
macro_rules! row {
    ($at:expr, $operands:expr, $iterators:expr) => {
        Row {
            at: $at,
            operands: $operands,
            iterators: $iterators,
            bases: 0,
        }
    };
}

/// Its rows.
const ROWS: &[Row] = &[
    row!(0, 0, 0),
    row!(1, 1, 0),
    row!(2, 0, 1),
    row!(7, 1, 1),
    row!(8, 0, 1),
    row!(13, 0, 0),
    row!(14, 1, 0),
];

const ORIGINS: &[Option<u32>] = &[None, Some(0), Some(1), Some(2), Some(7), Some(2), Some(13)];

/// The loop explained as the only chunk, which declares 8.
fn explained(alloc: Global) -> Result<Vec<ExplainedChunk>, ExplainError> {
    let chunks = [Chunk::new(0, 15, 8)];
    explain_chunks(alloc, Caps::empty(), &LOOP, &chunks, &NoPools)
}

/// Whether the first chunk is accepted, with these rows and origins.
fn is_loop(chunks: &[ExplainedChunk]) -> [bool; 3] {
    match chunks.first() {
        Some(first) => [
            first.refusal.is_none(),
            first.rows.as_slice() == ROWS,
            first.origins.as_slice() == ORIGINS,
        ],
        None => [false; 3],
    }
}

#[test]
fn a_loop_has_these_rows(rt: HostRuntime) {
    let chunks = made(&rt, explained(rt.alloc()));
    assert_same(&rt, is_loop(&chunks), [true; 3]);
}

/// What is said of these rows of the loop, which declares so much.
fn checked(declared: u16, rows: &[Row]) -> Result<(), TypingError> {
    let chunk = Chunk::new(0, 15, declared);
    check_typing(Caps::empty(), &LOOP, &chunk, &NoPools, &[], rows)
}

#[test]
fn its_rows_are_checked(rt: HostRuntime) {
    assert_same(&rt, checked(8, ROWS), Ok(()));
    let deep = TypingError::TooDeep { row: 1 };
    assert_same(&rt, checked(0, ROWS), Err(deep));
}
