//! Operations to code.
//!
//! Three passes over the operations: the first tests whether they can be assembled, before anything is allocated; the
//! second finds where each is written, so that a jump can be written before its target is; and the third writes.

ghost use Rattle.std.specs.Prelude.{◌≡◌, ◌+◌, ◌-◌, ◌^◌, ◌<◌, ◌≤◌, ◌⊎◌, ◌++◌, ◌∷◌, [], ℕ, List, Some, slice_get, IfOk, IfErr, OnOk, IsOkUnless, MatchResult, length, map, slice_index};
ghost use Rattle.std.specs.List.{flat_map, AllByRecursion};
ghost use Rattle.grain_code.specs.InstructionTable.{form, bytes_of, spelling, FieldFits};
ghost use Rattle.grain_code.specs.Fields.{moved};
ghost use Rattle.grain_code.specs.Split.{AreInstructions, Split, StandsAt};
ghost use Rattle.grain_code.specs.Assembly.{assembled, offsets_from, IsAssembly, CanAssemble, HasShortCode, IsWritable, AreWritable, EachWritable};
ghost use Rattle.grain_bytecode.specs.AssemblyFlaws.{Accuses, AccusesFirst, IsAssemblyFlaw, named_receiver, tested};
ghost use Rattle.grain_code.specs.declared.op.Op.{Op};
ghost use Rattle.grain_code.specs.declared.field.Field.TheVariants.{Index};
ghost use Rattle.grain_bytecode.specs.declared.assemble_error.AssembleError.TheVariants.{ChunkTooLarge, OutOfMemory};

use crate::assemble_error::AssembleError;
use grain_code::{Field, Op, Pool, layout, tag, width_of};
use std::alloc::{AllocError, Global};

/// Tests an index into a pool, which two bytes have to hold.
fn check_index(pool: Pool, index: u32) -> Result<(), AssembleError>
    ensures { MatchResult result (λ _. index ≤ 65535)
        (λ error. (index ≤ 65535 → ⊥) × ((at : ℕ) → Accuses at (Index pool index) error)) }
{
    if index > u32::from(u16::MAX) {
        return Err(AssembleError::PoolTooLarge {
            what: pool.name(),
            entries: index as usize,
        });
    }
    Ok(())
}

/// Tests a field of the operation at an index, of this many in all.
fn check_field(count: usize, at: usize, field: Field) -> Result<(), AssembleError>
    ensures { MatchResult result (λ _. IsWritable count field)
        (λ error. (IsWritable count field → ⊥) × Accuses at field error) }
{
    match field {
        Field::Index(pool, index) => check_index(pool, index),
        Field::Slot(_) | Field::Count(_) => Ok(()),
        Field::Target(target) if target as usize > count => {
            Err(AssembleError::JumpOutOfRange { at, target })
        }
        Field::Target(_) => Ok(()),
    }
}

/// Tests fields in their order.
fn check_fields(count: usize, at: usize, fields: &[Field]) -> Result<(), AssembleError>
    ensures { MatchResult result
        (λ _. AreWritable count fields.now) (AccusesFirst count at fields.now) }
{
    for field in fields {
        check_field(count, at, *field)?;
    }
    Ok(())
}

/// Tests the name through which a call reaches its receiver, of an operation that has such a tag.
fn check_receiver(count: usize, at: usize, tag: u8, fields: &[Field]) -> Result<(), AssembleError>
    ensures { MatchResult result (λ _. AreWritable count (named_receiver tag fields.now))
        (AccusesFirst count at (named_receiver tag fields.now)) }
{
    if tag != tag::CALL_NAMED_REF {
        return Ok(());
    }
    match fields {
        [_, _, receiver @ ..] => check_fields(count, at, receiver),
        _ => Ok(()),
    }
}

/// Tests the operation at an index, of this many in all.
fn check_op(count: usize, at: usize, op: &Op) -> Result<(), AssembleError>
    ensures { MatchResult result
        (λ _. AreWritable count (form op.now).1) (AccusesFirst count at (tested op.now)) }
{
    let (tag, fields) = layout(op);
    check_receiver(count, at, tag, fields.as_slice())?;
    check_fields(count, at, fields.as_slice())
}

/// Tests whether the code would be short enough.
fn check_length(ops: &[Op]) -> Result<(), AssembleError>
    ensures { MatchResult result (λ _. HasShortCode ops.now)
        (λ error. (HasShortCode ops.now → ⊥) × (error ≡ ChunkTooLarge (2 ^ 64 - 1))) }
{
    let mut bytes = 0u32;
    for op in ops {
        let Some(more) = bytes.checked_add(width_of(op)) else {
            return Err(AssembleError::ChunkTooLarge { bytes: usize::MAX });
        };
        bytes = more;
    }
    Ok(())
}

/// Tests whether operations can be assembled. It allocates nothing.
fn check(ops: &[Op]) -> Result<(), AssembleError>
    ensures { MatchResult result (λ _. CanAssemble ops.now) (IsAssemblyFlaw ops.now) }
{
    check_length(ops)?;
    for (at, op) in ops.iter().enumerate() {
        check_op(ops.len(), at, op)?;
    }
    Ok(())
}

/// Writes a field.
fn put_field(code: &mut Vec<u8>, offsets: &[u32], field: Field) -> Result<(), AllocError>
    requires some { 0 < length offsets.now }
    requires writable { IsWritable (length offsets.now - 1) field }
    ensures ok { OnOk result (code.new.items
        ≡ code.old.items ++ bytes_of (moved (slice_index offsets.now) field)) }
    ensures fits { OnOk result (FieldFits (moved (slice_index offsets.now) field)) }
{
    match field {
        Field::Index(_, index) => code.extend_from_slice(&(index as u16).to_le_bytes()),
        Field::Slot(number) => code.extend_from_slice(&number.to_le_bytes()),
        Field::Count(count) => Ok(code.push(count)?),
        Field::Target(target) => code.extend_from_slice(&offsets[target as usize].to_le_bytes()),
    }
}

/// Writes a tag and its fields.
fn put_fields(
    code: &mut Vec<u8>,
    offsets: &[u32],
    tag: u8,
    fields: &[Field],
) -> Result<(), AllocError>
    requires some { 0 < length offsets.now }
    requires writable { AreWritable (length offsets.now - 1) fields.now }
    ensures ok { OnOk result (code.new.items
        ≡ code.old.items
        ++ (tag ∷ flat_map bytes_of (map (moved (slice_index offsets.now)) fields.now))) }
    ensures fits { OnOk result
        (AllByRecursion FieldFits (map (moved (slice_index offsets.now)) fields.now)) }
{
    code.push(tag)?;
    for field in fields {
        put_field(code, offsets, *field)?;
    }
    Ok(())
}

/// Writes an operation.
fn put(code: &mut Vec<u8>, offsets: &[u32], op: &Op) -> Result<(), AllocError>
    requires some { 0 < length offsets.now }
    requires writable { AreWritable (length offsets.now - 1) (form op.now).1 }
    ensures ok { OnOk result (code.new.items
        ≡ code.old.items ++ spelling (assembled offsets.now op.now)) }
    ensures fits { OnOk result
        (AllByRecursion FieldFits (form (assembled offsets.now op.now)).1) }
{
    let (tag, fields) = layout(op);
    put_fields(code, offsets, tag, fields.as_slice())
}

/// Where each operation is written, and after these where the last one ends.
fn offsets_of(alloc: Global, ops: &[Op]) -> Result<Vec<u32>, AllocError>
    requires { HasShortCode ops.now }
    ensures { IfOk result (λ offsets. offsets.items ≡ offsets_from 0 ops.now) }
{
    let mut offsets = Vec::with_capacity(alloc, ops.len() + 1)?;
    let mut at = 0u32;
    for op in ops {
        offsets.push(at)?;
        at += width_of(op);
    }
    offsets.push(at)?;
    Ok(offsets)
}

/// Writes operations of which each one's offset is known, and the end.
fn code_of(alloc: Global, ops: &[Op], offsets: &[u32]) -> Result<Vec<u8>, AllocError>
    requires placed { length offsets.now ≡ length ops.now + 1 }
    requires writable { EachWritable (length ops.now) ops.now }
    ensures { IfOk result
        (λ code. AreInstructions code.items (map (assembled offsets.now) ops.now)) }
{
    let mut code = Vec::with_capacity(alloc, offsets[ops.len()] as usize)?;
    for op in ops {
        put(&mut code, offsets, op)?;
    }
    Ok(code)
}

/// Writes operations as code. A jump target is the index of an operation, or the number of operations for the end.
///
/// Answers the code, and where each operation is written, with one offset more, where the code ends. What is decoded
/// at an offset is the canonical form of its operation, with the target mapped by the offsets.
///
/// It goes over the operations a few times, and takes memory for the code and the offsets.
///
/// # Errors
///
/// Tested in this order: [`AssembleError::ChunkTooLarge`] if the widths' sum passes `u32`; then operation by
/// operation, field by field, of a call through a name that name first, [`AssembleError::PoolTooLarge`] for an index
/// into a pool above 65535 and [`AssembleError::JumpOutOfRange`] for a target above the number of operations.
///
/// [`AssembleError::OutOfMemory`] if the operations can be assembled, and an allocation failed.
pub fn assemble(alloc: Global, ops: &[Op]) -> Result<(Vec<u8>, Vec<u32>), AssembleError>
    // The offsets but the last are the starts of the code, and the last is its length.
    ensures assembly { IfOk result (λ made. IsAssembly ops.now made.0.items made.1.items) }
    ensures split { IfOk result (λ made. (starts : List ℕ) × Split made.0.items starts
        × (made.1.items ≡ starts ++ length made.0.items ∷ [])) }
    ensures each { IfOk result (λ made. (i : ℕ) (op : Op) → slice_get ops.now i ≡ Some op
        → StandsAt made.0.items (slice_index made.1.items i) (assembled made.1.items op)) }

    // It succeeds exactly where the operations can be assembled, and else names the first flaw.
    ensures only { OnOk result (CanAssemble ops.now) }
    ensures always { CanAssemble ops.now → IsOkUnless result OutOfMemory }
    ensures flaw { IfErr result (λ error. (error ≡ OutOfMemory) × CanAssemble ops.now
        ⊎ IsAssemblyFlaw ops.now error) }
{
    check(ops)?;
    let offsets = offsets_of(alloc, ops)?;
    let code = code_of(alloc, ops, &offsets)?;
    Ok((code, offsets))
}
