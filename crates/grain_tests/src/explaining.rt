//! The verdict with each chunk explained.

use crate::samples::{assert_same, made, pools};
use grain::{Caps, Chunk, ExplainError, Explained, Flags, Strings, VerifyError, explain};
use std::alloc::Global;

/// What is explained of the code with these chunks and empty pools.
fn explained(alloc: Global, code: &[u8], chunks: &[Chunk]) -> Result<Explained, ExplainError> {
    let Ok(names) = Strings::new(alloc, &[]) else {
        return Err(ExplainError::OutOfMemory);
    };
    explain(alloc, Caps::all(), &[], code, &[], chunks, &pools(&names))
}

/// Which chunk the verdict refuses, and the flaw that it names.
fn refused(explained: &Explained) -> Option<(Option<usize>, &VerifyError)> {
    match &explained.verdict {
        Ok(_) => None,
        Err(refusal) => Some((refusal.chunk, &refusal.error)),
    }
}

/// The flaw that the explanation of the chunk at this place names.
fn flaw_of_chunk(explained: &Explained, place: usize) -> Option<&VerifyError> {
    let chunk = explained.chunks.get(place)?;
    let refusal = chunk.refusal.as_ref()?;
    Some(&refusal.error)
}

const CODE: [u8; 16] = [
    0x02, 0x13, // a chunk that passes
    0x02, 0x1d, 0x1e, 0x0e, 0, 0, 0, 0x0c, 0x04, 0, 0, 0, 0x02, 0x13, // a loop without its Pop
];

#[test]
fn a_refused_chunk_has_the_flaw_of_the_verdict(rt: HostRuntime) {
    let chunks = [Chunk::new(0, 2, 8), Chunk::new(2, 16, 8)];
    let explained = made(&rt, explained(rt.alloc(), &CODE, &chunks));
    let flaw = VerifyError::DepthConflict {
        at: 4,
        expected: 0,
        found: 1,
    };
    assert_same(&rt, refused(&explained), Some((Some(1), &flaw)));
    assert_same(&rt, flaw_of_chunk(&explained, 1), Some(&flaw));
}
