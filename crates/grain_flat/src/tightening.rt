//! Chunks that declare their depths.
//!
//! They are written into room of the caller's, since a call of C must not change what it was passed when it refuses.
ghost use Rattle.std.specs.Prelude.{◌≡◌, ◌≤◌, ◌++◌, List, drop, length};
ghost use Rattle.grain_code.specs.Span.{Span};
ghost use Rattle.grain_flat.specs.Tightening.{AreDeclaring};

use crate::records::CChunk;

/// Has each chunk declare the depth at its place.
fn declare(chunks: &mut [CChunk], depths: &[u16])
    requires { length depths.now ≡ length chunks.old }
    ensures { AreDeclaring chunks.old chunks.new depths.now }
{
    for (index, chunk) in chunks.iter_mut().enumerate() {
        chunk.max_stack = depths[index];
    }
}

/// Writes the chunks, each declaring its depth, in front of the room, and leaves the rest of it.
pub fn tighten(room: &mut [CChunk], chunks: &[CChunk], depths: &[u16])
    requires all { length depths.now ≡ length chunks.now }
    requires fits { length chunks.now ≤ length room.old }
    ensures { (tight : List Span) × (length tight ≡ length chunks.now)
        × AreDeclaring chunks.now tight depths.now
        × (room.new ≡ tight ++ drop (length tight) room.old) }
{
    let front = &mut room[..chunks.len()];
    front.copy_from_slice(chunks);
    declare(front, depths);
}
