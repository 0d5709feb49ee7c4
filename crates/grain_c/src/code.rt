//! Code, instruction by instruction.
ghost use Rattle.std.specs.Prelude.{◌≡◌, ◌+◌, Ok, Err, sum_by};
ghost use Rattle.std.specs.Bool.{OnFalse, OnTrue};
ghost use Rattle.grain_code.specs.InstructionTable.{form};
ghost use Rattle.grain_rules.specs.Rows.{is_quiet};
ghost use Rattle.grain_code.specs.Split.{IsCount, NoneStandsAt, StandsAt};
ghost use Rattle.grain_code.specs.declared.op.Op.{Op};
ghost use Rattle.grain_flat.specs.Instruction.{field_size, instruction_row};

use crate::status::INTERFACE;
use grain_code::{count_instructions, decode};
use grain_flat::kinds::{COUNT, NOTHING, TARGET};
use grain_flat::{CField, CInstruction, fields_of};
use grain_verify::is_quiet;

/// Counts the instructions of the code. False: it isn't whole instructions, and `damage` is the address of the first thing that is
/// none.
#[unsafe(no_mangle)]
pub extern "C" fn grain_proved_count_instructions(
    code: &[u8],
    count: &mut usize,
    damage: &mut usize,
) -> bool
    ensures counted { OnTrue result (IsCount code.now (Ok count.new) × (damage.new ≡ damage.old)) }
    ensures damaged { OnFalse result (IsCount code.now (Err damage.new)
        × (count.new ≡ count.old)) }
{
    match count_instructions(code) {
        Ok(instructions) => {
            *count = instructions;
            true
        }
        Err(at) => {
            *damage = at;
            false
        }
    }
}

/// Whether instructions that begin with this byte are quiet: there a machine must never fault, or only with at least what stood
/// when the last handler was armed. Nothing is said of a byte with which none begins.
#[unsafe(no_mangle)]
pub extern "C" fn grain_proved_is_quiet(tag: u8) -> bool
    ensures { (op : Op) → (form op).0 ≡ tag → result ≡ is_quiet op }
{
    is_quiet(tag)
}

/// The number of the interface of this library.
#[unsafe(no_mangle)]
pub extern "C" fn grain_proved_interface() -> u32
    ensures { result ≡ INTERFACE }
{
    INTERFACE
}

/// How many bytes a field takes; an empty one takes none.
fn field_size(field: CField) -> u8
    ensures { result ≡ field_size field }
{
    match field.kind {
        NOTHING => 0,
        COUNT => 1,
        TARGET => 4,
        _ => 2,
    }
}

/// The width of an instruction with these fields: a byte for its tag, and those of its fields.
fn width_of(fields: &[CField; 3]) -> u8
    ensures { result ≡ sum_by field_size fields.now + 1 }
{
    1 + field_size(fields[0]) + field_size(fields[1]) + field_size(fields[2])
}

/// The instruction at an address. False if none stands there, and then nothing is written.
#[unsafe(no_mangle)]
pub extern "C" fn grain_proved_instruction(
    code: &[u8],
    at: usize,
    instruction: &mut CInstruction,
) -> bool
    ensures found { OnTrue result ((op : Op) × StandsAt code.now at op
        × (instruction.new ≡ instruction_row op)) }
    ensures none { OnFalse result (NoneStandsAt code.now at × (instruction.new ≡ instruction.old)) }
{
    let Some(op) = decode(code, at) else {
        return false;
    };
    let fields = fields_of(&op);
    *instruction = CInstruction {
        tag: code[at],
        width: width_of(&fields),
        fields,
    };
    true
}
