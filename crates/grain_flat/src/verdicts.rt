//! The verdict on all that has a flat form.
ghost use Rattle.std.specs.Prelude.{◌≡◌, All, OnOk, length};
ghost use Rattle.std.specs.Result.{IsErrOf};
ghost use Rattle.grain_flat.specs.Flat.{IsFlat};
ghost use Rattle.grain_flat.specs.Asking.{RowPasses};
ghost use Rattle.grain_flat.specs.Judging.{AreSome, IsFlatMetered, IsFlatVerdict};
ghost use Rattle.grain_flat.specs.declared.judge.Rejection.{Rejection};

use crate::asking::first_refused;
use crate::judge::{Judge, Rejection};
use crate::records::{CChunk, CPools};
use crate::row_reads::{Rows, Tables};
use crate::scratch::FlatScratch;
use grain_base::{Caps, FnAccess};
use grain_code::{Chunk, Function};
use grain_rules::VerifyError;
use grain_verify::{Meter, Refusal};
use std::alloc::{AllocError, Global};
use std::mem;

/// A chunk as it is verified.
pub(crate) fn chunk_of(chunk: &CChunk) -> Chunk
    ensures { result ≡ chunk.now }
{
    Chunk::new(chunk.entry, chunk.end, chunk.max_stack)
}

/// Lists the chunks as they are verified.
fn list_chunks(made: &mut Vec<Chunk>, chunks: &[CChunk]) -> Result<(), AllocError>
    ensures { OnOk result (made.new.items ≡ chunks.now) }
{
    made.clear();
    made.try_reserve_exact(chunks.len())?;
    for chunk in chunks {
        made.push(chunk_of(chunk))?;
    }
    Ok(())
}

/// A function, which stands for any number of them: all that is asked is whether there are some.
fn some_function(alloc: Global) -> Function {
    Function {
        name: 0,
        params: Vec::new(alloc),
        access: FnAccess::Public,
        this_type: None,
        chunk: Chunk::new(0, 0, 0),
    }
}

/// None if the count is 0, otherwise some.
fn as_many(count: usize, some: &[Function]) -> &[Function]
    requires { length some.now ≡ 1 }
    ensures { AreSome count result.now }
{
    if count == 0 { &some[..0] } else { some }
}

/// The verdict on all with the flat form, once its constants have passed. It is compiled apart, so that a call that refuses a
/// constant doesn't set up what the walk needs.
#[inline(never)]
fn verdict_with(
    alloc: Global,
    walks: &mut grain_verify::Scratch,
    tables: &mut Tables,
    caps: Caps,
    code: &[u8],
    chunks: &[Chunk],
    pools: &CPools<'_>,
    meter: &mut Meter,
) -> Result<Vec<u16>, Rejection>
    requires flat { IsFlat pools.now }
    requires constants { All (RowPasses caps.0) pools.now.constants.now }
    ensures verdict { IsFlatVerdict caps.0 code.now chunks.now pools.now result }
    ensures metered { IsFlatMetered
        caps.0 code.now chunks.now pools.now meter.old meter.new result }
{
    let functions = [some_function(alloc)];
    let mut room = mem::replace(tables, Tables::new(alloc));
    room.fill(pools)?;
    let rows = Rows::new(pools, room);
    let judged = Judge {
        alloc,
        caps,
        code,
        functions: as_many(pools.functions, &functions),
        rows: &rows,
    }
    .verdict(walks, chunks, meter);
    *tables = rows.into_tables();
    judged
}

/// The verdict on all programs whose pools have this flat form, the first constant first of which not all that it asks is
/// there. The meter rises as it does in [`grain_verify::verify_metered`]. The result is right whatever the scratch was used for
/// before.
///
/// # Errors
///
/// [`Rejection::Refused`] with a flaw of all of them and the index of its chunk, [`Rejection::OutOfMemory`] if a growth was
/// refused.
pub fn verdict(
    alloc: Global,
    scratch: &mut FlatScratch,
    caps: Caps,
    code: &[u8],
    chunks: &[CChunk],
    pools: &CPools<'_>,
    meter: &mut Meter,
) -> Result<Vec<u16>, Rejection>
    requires { IsFlat pools.now }
    ensures verdict { IsFlatVerdict caps.0 code.now chunks.now pools.now result }
    ensures metered { IsFlatMetered
        caps.0 code.now chunks.now pools.now meter.old meter.new result }
    ensures memory { IsErrOf result Rejection.OutOfMemory
        → All (RowPasses caps.0) pools.now.constants.now }
{
    if let Some(missing) = first_refused(caps, pools.constants) {
        return Err(Rejection::Refused(Refusal {
            chunk: None,
            error: VerifyError::MissingCaps {
                artifact: caps,
                missing,
                at: 0,
            },
        }));
    }
    let FlatScratch {
        walks,
        tables,
        chunks: listed,
    } = scratch;
    // Of one chunk no list is made.
    if let [chunk] = chunks {
        let chunks = [chunk_of(chunk)];
        return verdict_with(alloc, walks, tables, caps, code, &chunks, pools, meter);
    }
    list_chunks(listed, chunks)?;
    verdict_with(alloc, walks, tables, caps, code, listed, pools, meter)
}
