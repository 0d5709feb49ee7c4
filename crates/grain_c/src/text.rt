//! Refusals and instructions as texts, without memory.
ghost use Rattle.std.specs.Prelude.{◌≡◌, ◌≢◌, ◌<◌, ◌≤◌, ◌↔◌, IfNone, IfSome, ℕ, List, length};
ghost use Rattle.grain_code.specs.Split.{NoneStandsAt, StandsAt};
ghost use Rattle.grain_rules.specs.Texts.{verify_error_text};
ghost use Rattle.grain_rules.specs.declared.error.VerifyError.{VerifyError};
ghost use Rattle.grain_code.specs.declared.op.Op.{Op};
ghost use Rattle.grain_c.specs.Written.{IsPrinted};
ghost use Rattle.grain_flat.specs.Answers.{TellsRefusal, word_kind};
ghost use Rattle.grain_flat.specs.Lacks.{IsRefusalText};
ghost use Rattle.grain_flat.specs.InstructionTexts.{instruction_text};
ghost use Rattle.grain_flat.specs.declared.kinds.TheConstants.{NOTHING};

use grain_base::{Caps, Flags};
use grain_code::decode;
use grain_flat::flaws::{
    BAD_INDEX, CHUNK_OUT_OF_RANGE, DEPTH_CONFLICT, FALLS_OFF_THE_END, HANDLER_UNDERFLOW,
    ITERATOR_UNDERFLOW, JUMP_INTO_AN_INSTRUCTION, JUMP_OUT_OF_RANGE, MISSING_CAPS,
    SINKS_BELOW_HANDLER, STACK_EXCEEDS_DECLARED, TRAILING_BYTES, UNDECODABLE, UNDERFLOW,
};
use grain_flat::kinds::{
    CHAIN, CONSTANT, FRAGMENT, NAME, OP_ASSIGNMENT, OPERAND, OPERATOR, SWITCH, SYNTAX_SITE,
};
use grain_flat::{CRefusal, Line, instruction_text, lack_of, lack_text, refusal_text};
use grain_rules::VerifyError;

/// What a refusal calls an index of this kind, if it is one that a refusal names.
fn word_of(kind: u32) -> Option<&'static str>
    ensures some { IfSome result (λ what. (word_kind what.now ≡ kind) × (kind ≢ NOTHING)) }
    ensures none { IfNone result ((what : List ℕ) → word_kind what ≢ NOTHING
        → word_kind what ≢ kind) }
{
    match kind {
        CONSTANT => Some("constant"),
        NAME => Some("name"),
        OPERATOR => Some("operator"),
        OP_ASSIGNMENT => Some("op-assignment"),
        FRAGMENT => Some("fragment"),
        CHAIN => Some("chain"),
        SWITCH => Some("switch"),
        SYNTAX_SITE => Some("custom syntax site"),
        OPERAND => Some("operand"),
        _ => None,
    }
}

/// The refusal that a record encodes, if it encodes one.
fn error_of(refusal: &CRefusal) -> Option<VerifyError>
    ensures some { IfSome result (TellsRefusal refusal.now) }
    ensures none { IfNone result ((e : VerifyError) → TellsRefusal refusal.now e → ⊥) }
{
    let at = refusal.at as usize;
    match (refusal.flaw, refusal.at, refusal.first, refusal.second) {
        (MISSING_CAPS, _, missing, artifact) => Some(VerifyError::MissingCaps {
            artifact: Caps::from_bits_retain(u16::try_from(artifact).ok()?),
            missing: Caps::from_bits_retain(u16::try_from(missing).ok()?),
            at,
        }),
        (UNDECODABLE, _, 0, 0) => Some(VerifyError::Undecodable { at }),
        (TRAILING_BYTES, _, len, 0) => Some(VerifyError::TrailingBytes {
            at,
            len: len as usize,
        }),
        (CHUNK_OUT_OF_RANGE, entry, end, len) => Some(VerifyError::ChunkOutOfRange {
            entry: u32::try_from(entry).ok()?,
            end: u32::try_from(end).ok()?,
            len: len as usize,
        }),
        (JUMP_OUT_OF_RANGE, _, target, 0) => Some(VerifyError::JumpOutOfRange {
            at,
            target: u32::try_from(target).ok()?,
        }),
        (JUMP_INTO_AN_INSTRUCTION, _, target, 0) => Some(VerifyError::JumpIntoAnInstruction {
            at,
            target: u32::try_from(target).ok()?,
        }),
        (DEPTH_CONFLICT, _, expected, found) => Some(VerifyError::DepthConflict {
            at,
            expected: expected as usize,
            found: found as usize,
        }),
        (UNDERFLOW, _, need, have) => Some(VerifyError::Underflow {
            at,
            need: need as usize,
            have: have as usize,
        }),
        (FALLS_OFF_THE_END, 0, 0, 0) => Some(VerifyError::FallsOffTheEnd),
        (STACK_EXCEEDS_DECLARED, 0, needed, declared) => Some(VerifyError::StackExceedsDeclared {
            needed: needed as usize,
            declared: u16::try_from(declared).ok()?,
        }),
        (ITERATOR_UNDERFLOW, _, 0, 0) => Some(VerifyError::IteratorUnderflow { at }),
        (HANDLER_UNDERFLOW, _, 0, 0) => Some(VerifyError::HandlerUnderflow { at }),
        (SINKS_BELOW_HANDLER, _, need, have) => Some(VerifyError::SinksBelowHandler {
            at,
            need: need as usize,
            have: have as usize,
        }),
        (BAD_INDEX, _, index, kind) => Some(VerifyError::BadIndex {
            at,
            what: word_of(u32::try_from(kind).ok()?)?,
            index: u32::try_from(index).ok()?,
        }),
        _ => None,
    }
}

/// Writes a text as far as there is room for it and for the 0 that ends it, and answers how long it is.
pub(crate) fn print(room: &mut [u8], text: &[u8]) -> usize
    ensures printed { IsPrinted text.now room.old room.new }
    ensures size { result ≡ length text.now }
{
    if let Some(most) = room.len().checked_sub(1) {
        let count = text.len().min(most);
        room[..count].copy_from_slice(&text[..count]);
        room[count] = 0;
    }
    text.len()
}

/// The text of the refusal that a record encodes, if it encodes one.
fn encoded_text(refusal: &CRefusal) -> Option<Line>
    ensures some { IfSome result (λ line. (e : VerifyError) × TellsRefusal refusal.now e
        × (line.items ≡ verify_error_text e)) }
    ensures none { IfNone result ((e : VerifyError) → TellsRefusal refusal.now e → ⊥) }
    ensures long { IfSome result (λ line. 0 < length line.items) }
{
    match error_of(refusal) {
        Some(error) => Some(refusal_text(&error)),
        None => None,
    }
}

/// The text of a record, if it is a refusal.
fn line_of(refusal: &CRefusal) -> Option<Line>
    ensures some { IfSome result (λ line. IsRefusalText refusal.now line.items) }
    ensures none { IfNone result ((line : List ℕ) → IsRefusalText refusal.now line → ⊥) }
    ensures long { IfSome result (λ line. 0 < length line.items) }
{
    match lack_of(refusal) {
        Some(missing) => Some(lack_text(missing)),
        None => encoded_text(refusal),
    }
}

/// Writes a refusal in ASCII as the line program prints it, as much as there is room for, and returns its length. If the host lacks
/// declared capabilities, the text is `declared-caps missing=` and four hexadecimal digits.
///
/// 0: the record is no refusal, and nothing is written. No text is longer than 128 bytes. It allocates nothing.
#[unsafe(no_mangle)]
pub extern "C" fn grain_proved_refusal_text(refusal: &CRefusal, text: &mut [u8]) -> usize
    ensures text { result ≢ 0 → (line : List ℕ) × IsRefusalText refusal.now line
        × (result ≡ length line) × IsPrinted line text.old text.new }
    ensures no_refusal { (result ≡ 0) ↔ ((line : List ℕ) → IsRefusalText refusal.now line → ⊥) }
    ensures kept { result ≡ 0 → text.new ≡ text.old }
    ensures short { result ≤ 128 }
{
    match line_of(refusal) {
        Some(line) => print(text, line.as_slice()),
        None => 0,
    }
}

/// Writes the instruction at an address, in ASCII: its name and its fields in order, such as `CALL 3 2`; as far as there is room
/// for it, and answers how long it is. 0: no instruction stands there, and nothing is written. No text is longer than 128 bytes.
/// It takes no memory.
#[unsafe(no_mangle)]
pub extern "C" fn grain_proved_instruction_text(code: &[u8], at: usize, text: &mut [u8]) -> usize
    ensures text { result ≢ 0 → (op : Op) × StandsAt code.now at op
        × (result ≡ length (instruction_text op)) × IsPrinted (instruction_text op) text.old text.new }
    ensures no_instruction { (result ≡ 0) ↔ NoneStandsAt code.now at }
    ensures kept { result ≡ 0 → text.new ≡ text.old }
    ensures short { result ≤ 128 }
{
    let Some(op) = decode(code, at) else {
        return 0;
    };
    print(text, instruction_text(&op).as_slice())
}
