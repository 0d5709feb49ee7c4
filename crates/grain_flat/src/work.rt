//! How much work a verification may take.
//!
//! The limit is tested before the walk. A count during the walk would make a refusal depend on the order of the walk.
ghost use Rattle.std.specs.Prelude.{◌≡◌, ◌≤◌, ◌↔◌, IsTrue};
ghost use Rattle.grain_flat.specs.Work.{spanned, work_of};

use crate::records::CChunk;

/// How many bytes of code of this size the chunk spans.
fn spanned(size: usize, chunk: &CChunk) -> u64
    ensures { result ≡ spanned size chunk.now }
{
    let end = size.min(chunk.end as usize);
    end.saturating_sub(chunk.entry as usize) as u64
}

/// Whether the chunks span no more bytes of the code than this, each counted for itself.
pub fn is_within(limit: u64, code: &[u8], chunks: &[CChunk]) -> bool
    ensures { IsTrue result ↔ (work_of code.now chunks.now ≤ limit) }
{
    let mut left = limit;
    for chunk in chunks {
        let Some(fewer) = left.checked_sub(spanned(code.len(), chunk)) else {
            return false;
        };
        left = fewer;
    }
    true
}
