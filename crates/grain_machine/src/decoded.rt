//! Code that is decoded before it runs.
ghost use Rattle.std.specs.Prelude.{◌≡◌, IfOk, length};
ghost use Rattle.grain_rules.specs.Rows.{takes};
ghost use Rattle.grain.specs.Program.{setting_of};
ghost use Rattle.grain_machine.specs.Decoded.{AreDecoded, IsEntryAt};

use grain::Program;
use grain_code::{Op, decode, width_of};
use grain_rules::Effect;
use std::alloc::{AllocError, Global};

/// An operation with all that a run needs to know of it.
#[derive(Clone, Copy)]
pub(crate) struct Decoded {
    /// The operation.
    pub(crate) op: Op,
    /// How many operands it takes.
    pub(crate) takes: u32,
    /// The address behind it.
    pub(crate) next: usize,
}

/// What stands at each address of the code, one for each byte.
///
/// An address inside an instruction has what its bytes happen to spell; no run gets there. So no second table leads from
/// addresses to instructions, and the whole takes 40 bytes for each byte of the code.
pub(crate) fn decode_each(alloc: Global, program: &Program) -> Result<Vec<Decoded>, AllocError>
    ensures { IfOk result (λ all. AreDecoded program.now (length program.now.code) all.items) }
{
    let len = program.code().len();
    let mut all = Vec::with_capacity(alloc, len)?;
    for at in 0..len {
        all.push(decoded_at(program, at))?;
    }
    Ok(all)
}

/// What stands at an address of the code. If nothing does it is any operation.
fn decoded_at(program: &Program, at: usize) -> Decoded
    ensures { IsEntryAt program.now at result }
{
    match decode(program.code(), at) {
        Some(op) => Decoded {
            op,
            takes: taken_by(program, &op),
            next: at + width_of(&op) as usize,
        },
        None => Decoded {
            op: Op::Return,
            takes: 0,
            next: at,
        },
    }
}

/// How many operands an operation takes.
fn taken_by(program: &Program, op: &Op) -> u32
    ensures { result ≡ takes (setting_of program.now) op.now }
{
    Effect::of(op, &program.pools()).takes
}
