//! Instructions.
ghost use Rattle.std.specs.Prelude.{◌≡◌, ◌<◌, IfOk, OnOk, sum_by, ℕ};
ghost use Rattle.std.specs.Bool.{OnFalse, OnTrue};
ghost use Rattle.grain_parse.specs.Addresses.{ReadsLabel};
ghost use Rattle.grain_lexer.specs.Numbers.{ReadsIndex};
ghost use Rattle.grain_parse.specs.Widths.{Appends, operand_width};

use crate::labels::Labels;
use crate::pools::Pools;
use grain_lexer::{LineCursor, LineProblem, LineStop};
use grain_print::{Operand, form_named};

/// Reads an index without a literal in place.
fn read_index(cursor: &mut LineCursor<'_>) -> Result<u32, LineStop>
    ensures { IfOk result (λ index. ReadsIndex cursor.old.left.now index cursor.new.left.now) }
{
    match cursor.index()? {
        Some(index) => Ok(index),
        None => Err(LineStop::Fault(LineProblem::Missing)),
    }
}

/// Reads the index that an operand is.
fn read_pool_index(
    pools: &mut Pools,
    cursor: &mut LineCursor<'_>,
    operand: Operand,
) -> Result<u32, LineStop> {
    match operand {
        Operand::Constant => pools.read_constant(cursor),
        Operand::Name => pools.read_name(cursor),
        Operand::Operator => pools.read_operator(cursor),
        Operand::OpAssignment => pools.read_assign_op(cursor),
        Operand::Fragment
        | Operand::Chain
        | Operand::Switch
        | Operand::SyntaxSite
        | Operand::Slot
        | Operand::Count
        | Operand::Target => read_index(cursor),
    }
}

/// Reads an index of 16 bits.
fn read_short_index(
    pools: &mut Pools,
    cursor: &mut LineCursor<'_>,
    operand: Operand,
) -> Result<u16, LineStop> {
    cursor.blanks();
    let start = cursor.left;
    let index = read_pool_index(pools, cursor, operand)?;
    match u16::try_from(index) {
        Ok(index) => Ok(index),
        Err(_) => {
            cursor.left = start;
            Err(LineStop::Fault(LineProblem::TooWide))
        }
    }
}

/// Reads an operand, and appends its bytes.
fn read_operand(
    pools: &mut Pools,
    labels: &Labels,
    code: &mut Vec<u8>,
    cursor: &mut LineCursor<'_>,
    operand: Operand,
) -> Result<(), LineStop>
    ensures { OnOk result (Appends (operand_width operand) code.old.items code.new.items) }
{
    match operand {
        Operand::Count => code.push(cursor.number_8()?)?,
        Operand::Target => {
            let target = labels.read_address(cursor)?;
            code.extend_from_slice(target.to_le_bytes().as_slice())?;
        }
        Operand::Slot => {
            let slot = cursor.number_16()?;
            code.extend_from_slice(slot.to_le_bytes().as_slice())?;
        }
        _ => {
            let index = read_short_index(pools, cursor, operand)?;
            code.extend_from_slice(index.to_le_bytes().as_slice())?;
        }
    }
    Ok(())
}

/// Reads the operands of an instruction, and appends their bytes: as many as a label behind them counts.
fn read_operands(
    pools: &mut Pools,
    labels: &Labels,
    code: &mut Vec<u8>,
    cursor: &mut LineCursor<'_>,
    operands: &[Operand],
) -> Result<(), LineStop>
    ensures { OnOk result
        (Appends (sum_by operand_width operands.now) code.old.items code.new.items) }
{
    for operand in operands {
        read_operand(pools, labels, code, cursor, *operand)?;
    }
    Ok(())
}

/// Reads an instruction, and appends its bytes.
pub(crate) fn read_instruction(
    pools: &mut Pools,
    labels: &Labels,
    code: &mut Vec<u8>,
    cursor: &mut LineCursor<'_>,
) -> Result<(), LineStop>
    ensures { OnOk result
        ((count : ℕ) × (0 < count) × Appends count code.old.items code.new.items) }
{
    let start = cursor.left;
    let word = cursor.word()?;
    if word == "byte" {
        let byte = cursor.number_8()?;
        code.push(byte)?;
        return Ok(());
    }
    let Some((tag, form)) = form_named(word) else {
        cursor.left = start;
        return Err(LineStop::Fault(LineProblem::Mnemonic));
    };
    code.push(tag)?;
    read_operands(pools, labels, code, cursor, form.operands)
}

/// Goes past a label, if the line is one.
pub(crate) fn eat_label(cursor: &mut LineCursor<'_>) -> bool
    ensures eaten { OnTrue result (ReadsLabel cursor.old.left.now cursor.new.left.now) }
    ensures left { OnFalse result (cursor.new.left.now ≡ cursor.old.left.now) }
{
    let start = cursor.left;
    let is_label = cursor.word().is_ok() && cursor.eat(b':');
    if !is_label {
        cursor.left = start;
    }
    is_label
}
