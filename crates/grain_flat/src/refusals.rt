//! Refusals as they cross to C.
ghost use Rattle.std.specs.Prelude.{◌≡◌};
ghost use Rattle.grain_flat.specs.Answers.{chunk_number, refusal_record, word_kind};

use crate::flaws::{
    BAD_INDEX, CHUNK_OUT_OF_RANGE, DEPTH_CONFLICT, FALLS_OFF_THE_END, HANDLER_UNDERFLOW,
    ITERATOR_UNDERFLOW, JUMP_INTO_AN_INSTRUCTION, JUMP_OUT_OF_RANGE, MISSING_CAPS,
    SINKS_BELOW_HANDLER, STACK_EXCEEDS_DECLARED, TRAILING_BYTES, UNDECODABLE, UNDERFLOW,
    WHOLE_PROGRAM,
};
use crate::kinds::{
    CHAIN, CONSTANT, FRAGMENT, NAME, NOTHING, OP_ASSIGNMENT, OPERAND, OPERATOR, SWITCH, SYNTAX_SITE,
};
use crate::records::CRefusal;
use grain_base::Flags;
use grain_rules::VerifyError;

/// The place of a chunk as a number, or that there is none.
fn chunk_number(place: Option<usize>) -> u64
    ensures { result ≡ chunk_number place }
{
    match place {
        Some(place) => place as u64,
        None => WHOLE_PROGRAM,
    }
}

/// What a refusal calls an index, as a number.
fn word_kind(what: &str) -> u32
    ensures { result ≡ word_kind what.now }
{
    match what {
        "constant" => CONSTANT,
        "name" => NAME,
        "operator" => OPERATOR,
        "op-assignment" => OP_ASSIGNMENT,
        "fragment" => FRAGMENT,
        "chain" => CHAIN,
        "switch" => SWITCH,
        "custom syntax site" => SYNTAX_SITE,
        "operand" => OPERAND,
        _ => NOTHING,
    }
}

/// A refusal as a record.
pub fn refusal_record(place: Option<usize>, error: &VerifyError) -> CRefusal
    ensures { result ≡ refusal_record place error.now }
{
    let chunk = chunk_number(place);
    let refusal = |flaw: u32, at: u64, first: u64, second: u64| CRefusal {
        flaw,
        chunk,
        at,
        first,
        second,
    };
    match *error {
        VerifyError::MissingCaps {
            artifact,
            missing,
            at,
        } => refusal(
            MISSING_CAPS,
            at as u64,
            u64::from(missing.bits()),
            u64::from(artifact.bits()),
        ),
        VerifyError::Undecodable { at } => refusal(UNDECODABLE, at as u64, 0, 0),
        VerifyError::TrailingBytes { at, len } => {
            refusal(TRAILING_BYTES, at as u64, len as u64, 0)
        }
        VerifyError::ChunkOutOfRange { entry, end, len } => refusal(
            CHUNK_OUT_OF_RANGE,
            u64::from(entry),
            u64::from(end),
            len as u64,
        ),
        VerifyError::JumpOutOfRange { at, target } => {
            refusal(JUMP_OUT_OF_RANGE, at as u64, u64::from(target), 0)
        }
        VerifyError::JumpIntoAnInstruction { at, target } => {
            refusal(JUMP_INTO_AN_INSTRUCTION, at as u64, u64::from(target), 0)
        }
        VerifyError::DepthConflict {
            at,
            expected,
            found,
        } => refusal(DEPTH_CONFLICT, at as u64, expected as u64, found as u64),
        VerifyError::Underflow { at, need, have } => {
            refusal(UNDERFLOW, at as u64, need as u64, have as u64)
        }
        VerifyError::FallsOffTheEnd => refusal(FALLS_OFF_THE_END, 0, 0, 0),
        VerifyError::StackExceedsDeclared { needed, declared } => {
            refusal(
                STACK_EXCEEDS_DECLARED,
                0,
                needed as u64,
                u64::from(declared),
            )
        }
        VerifyError::IteratorUnderflow { at } => refusal(ITERATOR_UNDERFLOW, at as u64, 0, 0),
        VerifyError::HandlerUnderflow { at } => refusal(HANDLER_UNDERFLOW, at as u64, 0, 0),
        VerifyError::SinksBelowHandler { at, need, have } => refusal(
            SINKS_BELOW_HANDLER,
            at as u64,
            need as u64,
            have as u64,
        ),
        VerifyError::BadIndex { at, what, index } => refusal(
            BAD_INDEX,
            at as u64,
            u64::from(index),
            u64::from(word_kind(what)),
        ),
        VerifyError::OutOfMemory => refusal(NOTHING, 0, 0, 0),
    }
}
