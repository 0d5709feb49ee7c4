//! The fields of operations, as they cross to C.
//!
//! A host that disassembles needs no layout of its own for each instruction, since each field says what it is.
ghost use Rattle.std.specs.Prelude.{◌≡◌, ◌+◌, sum_by};
ghost use Rattle.grain_code.specs.InstructionTable.{form, width_of};
ghost use Rattle.grain_flat.specs.Instruction.{field_row, field_rows, field_size, pool_kind};

use crate::kinds::{
    CHAIN, CONSTANT, COUNT, FRAGMENT, NAME, NOTHING, OP_ASSIGNMENT, OPERATOR, SLOT, SWITCH,
    SYNTAX_SITE, TARGET,
};
use crate::records::CField;
use grain_code::{Field, Fields, Op, Pool};

const NO_FIELD: CField = CField {
    kind: NOTHING,
    value: 0,
};

fn kind_of(pool: Pool) -> u32
    ensures { result ≡ pool_kind pool }
{
    match pool {
        Pool::Constants => CONSTANT,
        Pool::Names => NAME,
        Pool::Operators => OPERATOR,
        Pool::OpAssignments => OP_ASSIGNMENT,
        Pool::Fragments => FRAGMENT,
        Pool::Chains => CHAIN,
        Pool::Switches => SWITCH,
        Pool::SyntaxSites => SYNTAX_SITE,
    }
}

fn row_of(field: Field) -> CField
    ensures { result ≡ field_row field }
{
    match field {
        Field::Index(pool, value) => CField {
            kind: kind_of(pool),
            value,
        },
        Field::Slot(value) => CField {
            kind: SLOT,
            value: u32::from(value),
        },
        Field::Count(value) => CField {
            kind: COUNT,
            value: u32::from(value),
        },
        Field::Target(value) => CField {
            kind: TARGET,
            value,
        },
    }
}

/// The fields of an operation in the order in which they are written, and then empty ones.
pub fn fields_of(op: &Op) -> [CField; 3]
    ensures fields { result ≡ field_rows (form op.now).1 }
    ensures width { sum_by field_size result + 1 ≡ width_of op.now }
{
    match op.fields() {
        Fields::None => [NO_FIELD, NO_FIELD, NO_FIELD],
        Fields::One(fields) => [row_of(fields[0]), NO_FIELD, NO_FIELD],
        Fields::Two(fields) => [row_of(fields[0]), row_of(fields[1]), NO_FIELD],
        Fields::Three(fields) => [row_of(fields[0]), row_of(fields[1]), row_of(fields[2])],
    }
}
