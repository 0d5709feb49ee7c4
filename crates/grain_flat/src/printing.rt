//! The texts of instructions and of refusals.
ghost use Rattle.std.specs.Prelude.{◌≡◌, ◌<◌, ◌≤◌, ◌+◌, ◌++◌, length};
ghost use Rattle.grain_rules.specs.Texts.{named, verify_error_text};
ghost use Rattle.grain_flat.specs.Answers.{HasRefusalRecord};
ghost use Rattle.grain_flat.specs.InstructionTexts.{field_text, instruction_text, mnemonic};

use crate::fields::fields_of;
use crate::kinds::NOTHING;
use crate::line::{Line, hex_digits, put, put_named};
use crate::mnemonics::mnemonic;
use crate::records::CField;
use arrayvec::ArrayVec;
use grain_base::Flags;
use grain_code::Op;
use grain_rules::VerifyError;

/// Adds a space and a field's number, if there is a field.
fn put_field(line: &mut Line, field: CField)
    requires { length line.old.items + 21 ≤ 128 }
    ensures items { line.new.items ≡ line.old.items ++ field_text field }
    ensures long { length line.new.items ≤ length line.old.items + 21 }
{
    if field.kind != NOTHING {
        put_named(line, " ", u64::from(field.value));
    }
}

/// The text of an instruction: what it is called, and its fields in order.
pub fn instruction_text(op: &Op) -> Line
    ensures text { result.items ≡ instruction_text op.now }
    ensures some { 0 < length (mnemonic op.now) }
{
    let mut line = ArrayVec::new();
    put(&mut line, mnemonic(op).as_bytes());
    let [first, second, third] = fields_of(op);
    put_field(&mut line, first);
    put_field(&mut line, second);
    put_field(&mut line, third);
    line
}

/// A number behind its name.
fn one(name: &str, number: u64) -> Line
    requires { length name.now ≤ 40 }
    ensures items { result.items ≡ named name.now number }
    ensures long { length result.items ≤ length name.now + 20 }
{
    let mut line = ArrayVec::new();
    put_named(&mut line, name, number);
    line
}

/// Two numbers, each behind its name.
fn two(first: &str, number: u64, second: &str, other: u64) -> Line
    requires { length first.now + length second.now ≤ 40 }
    ensures items { result.items ≡ named first.now number ++ named second.now other }
    ensures long { length result.items ≤ length first.now + length second.now + 40 }
{
    let mut line = one(first, number);
    put_named(&mut line, second, other);
    line
}

/// Three numbers, each behind its name.
fn three(first: &str, number: u64, second: &str, other: u64, third: &str, last: u64) -> Line
    requires { length first.now + length second.now + length third.now ≤ 40 }
    ensures items { result.items
        ≡ named first.now number ++ (named second.now other ++ named third.now last) }
{
    let mut line = two(first, number, second, other);
    put_named(&mut line, third, last);
    line
}

/// The text of a refusal, as [`VerifyError`] prints.
pub fn refusal_text(error: &VerifyError) -> Line
    requires { HasRefusalRecord error.now }
    ensures { result.items ≡ verify_error_text error.now }
{
    match *error {
        VerifyError::MissingCaps { missing, at, .. } => {
            let mut line = one("missing-caps at=", at as u64);
            put(&mut line, b" missing=".as_slice());
            put(&mut line, hex_digits(missing.bits()).as_slice());
            line
        }
        VerifyError::Undecodable { at } => one("undecodable at=", at as u64),
        VerifyError::TrailingBytes { at, len } => {
            two("trailing-bytes at=", at as u64, " len=", len as u64)
        }
        VerifyError::ChunkOutOfRange { entry, end, len } => three(
            "chunk-out-of-range entry=",
            u64::from(entry),
            " end=",
            u64::from(end),
            " len=",
            len as u64,
        ),
        VerifyError::JumpOutOfRange { at, target } => two(
            "jump-out-of-range at=",
            at as u64,
            " target=",
            u64::from(target),
        ),
        VerifyError::JumpIntoAnInstruction { at, target } => two(
            "jump-into-an-instruction at=",
            at as u64,
            " target=",
            u64::from(target),
        ),
        VerifyError::DepthConflict {
            at,
            expected,
            found,
        } => three(
            "depth-conflict at=",
            at as u64,
            " expected=",
            expected as u64,
            " found=",
            found as u64,
        ),
        VerifyError::Underflow { at, need, have } => three(
            "underflow at=",
            at as u64,
            " need=",
            need as u64,
            " have=",
            have as u64,
        ),
        VerifyError::FallsOffTheEnd => {
            let mut line = ArrayVec::new();
            put(&mut line, b"falls-off-the-end".as_slice());
            line
        }
        VerifyError::StackExceedsDeclared { needed, declared } => two(
            "stack-exceeds-declared needed=",
            needed as u64,
            " declared=",
            u64::from(declared),
        ),
        VerifyError::IteratorUnderflow { at } => one("iterator-underflow at=", at as u64),
        VerifyError::HandlerUnderflow { at } => one("handler-underflow at=", at as u64),
        VerifyError::SinksBelowHandler { at, need, have } => three(
            "sinks-below-handler at=",
            at as u64,
            " need=",
            need as u64,
            " have=",
            have as u64,
        ),
        VerifyError::BadIndex { at, what, index } => {
            let mut line = two("bad-index at=", at as u64, " index=", u64::from(index));
            put(&mut line, b" what=".as_slice());
            put(&mut line, what.as_bytes());
            line
        }
        VerifyError::OutOfMemory => unreachable!(),
    }
}
