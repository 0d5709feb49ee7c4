//! Texts and characters.
ghost use Rattle.std.specs.Prelude.{◌≡◌, ◌∷◌, IfOk, IfSome, MatchOption, string_bytes};
ghost use Rattle.std.specs.Char.{encode_utf8};
ghost use Rattle.grain_lexer.specs.Blanks.{unblanked};
ghost use Rattle.grain_lexer.specs.Literals.{IsEscape, IsLiteral, IsOfDigits, IsUnit, ReadsName, ReadsQuoted, WritesByte};

use crate::cursor::LineCursor;
use crate::problem::{LineProblem, LineStop};

/// The byte that two hexadecimal digits are, if it is ASCII.
fn escaped_byte(high: u8, low: u8) -> Option<u8>
    ensures { IfSome result (IsOfDigits high low) }
{
    let high = char::from(high).to_digit(16)?;
    let low = char::from(low).to_digit(16)?;
    let byte = u8::try_from(high.saturating_mul(16).saturating_add(low)).ok()?;
    if byte.is_ascii() { Some(byte) } else { None }
}

/// The byte that the first two bytes write as hexadecimal digits, and the bytes after them.
fn digits_in(text: &[u8]) -> Option<(u8, &[u8])>
    ensures { IfSome result (λ found. WritesByte text.now found.0 found.1.now) }
{
    match text {
        [high, low, rest @ ..] => Some((escaped_byte(*high, *low)?, rest)),
        _ => None,
    }
}

/// The byte that an escape after its backslash encodes, and the bytes after it.
fn escape_in(text: &[u8]) -> Option<(u8, &[u8])>
    ensures { IfSome result (λ found. IsEscape text.now found.0 found.1.now) }
{
    match text {
        [b'n', rest @ ..] => Some((b'\n', rest)),
        [b'r', rest @ ..] => Some((b'\r', rest)),
        [b't', rest @ ..] => Some((b'\t', rest)),
        [b'x', rest @ ..] => {
            let (byte, rest) = digits_in(rest)?;
            Some((byte, rest))
        }
        [b'"', rest @ ..] => Some((b'"', rest)),
        [b'\'', rest @ ..] => Some((b'\'', rest)),
        [b'\\', rest @ ..] => Some((b'\\', rest)),
        _ => None,
    }
}

/// Reads what follows a backslash.
fn read_escape(cursor: &mut LineCursor<'_>) -> Result<u8, LineStop>
    ensures { IfOk result (λ byte. IsEscape cursor.old.left.now byte cursor.new.left.now) }
{
    match escape_in(cursor.left) {
        Some((byte, rest)) => {
            cursor.left = rest;
            Ok(byte)
        }
        None => Err(LineStop::Fault(LineProblem::Escape)),
    }
}

/// Reads a byte of a literal, or nothing where the quote comes that ends it.
fn read_unit(cursor: &mut LineCursor<'_>, quote: u8) -> Result<Option<u8>, LineStop>
    ensures { IfOk result (λ unit. MatchOption unit
        (cursor.old.left.now ≡ quote ∷ cursor.new.left.now)
        (λ byte. IsUnit quote cursor.old.left.now byte cursor.new.left.now)) }
{
    match cursor.left {
        [b'\\', rest @ ..] => {
            cursor.left = rest;
            let byte = read_escape(cursor)?;
            Ok(Some(byte))
        }
        [byte, rest @ ..] => {
            cursor.left = rest;
            Ok(if *byte == quote { None } else { Some(*byte) })
        }
        [] => Err(LineStop::Fault(LineProblem::NoEnd)),
    }
}

/// Reads the bytes of a literal up to the quote that ends it.
fn read_bytes(cursor: &mut LineCursor<'_>, quote: u8) -> Result<Vec<u8>, LineStop>
    ensures { IfOk result (λ bytes.
        IsLiteral quote cursor.old.left.now bytes.items cursor.new.left.now) }
{
    let mut bytes = Vec::new(cursor.alloc);
    for _turn in 0..cursor.left.len() {
        let Some(byte) = read_unit(cursor, quote)? else {
            return Ok(bytes);
        };
        bytes.push(byte)?;
    }
    Err(LineStop::Fault(LineProblem::NoEnd))
}

/// Reads a literal between two quotes.
fn read_quoted(cursor: &mut LineCursor<'_>, quote: u8) -> Result<String, LineStop>
    ensures { IfOk result (λ text.
        ReadsQuoted quote cursor.old.left.now (string_bytes text) cursor.new.left.now) }
{
    cursor.expect(quote)?;
    let bytes = read_bytes(cursor, quote)?;
    match String::from_utf8(bytes) {
        Ok(text) => Ok(text),
        Err(_) => Err(LineStop::Fault(LineProblem::NotText)),
    }
}

/// Reads a text in quotes.
pub fn read_text(cursor: &mut LineCursor<'_>) -> Result<String, LineStop>
    ensures { IfOk result (λ text.
        ReadsQuoted 34 cursor.old.left.now (string_bytes text) cursor.new.left.now) }
{
    read_quoted(cursor, b'"')
}

/// The only character of a text.
fn only_char(text: &str) -> Option<char>
    ensures { IfSome result (λ c. text.now ≡ encode_utf8 c) }
{
    let mut chars = text.chars();
    let only = chars.next()?;
    match chars.next() {
        None => Some(only),
        Some(_) => None,
    }
}

/// Reads a character in quotes.
pub fn read_char(cursor: &mut LineCursor<'_>) -> Result<char, LineStop>
    ensures { IfOk result (λ c.
        ReadsQuoted 39 cursor.old.left.now (encode_utf8 c) cursor.new.left.now) }
{
    let text = read_quoted(cursor, b'\'')?;
    match only_char(&text) {
        Some(c) => Ok(c),
        None => Err(LineStop::Fault(LineProblem::NotCharacter)),
    }
}

/// Whether a text is next.
pub fn is_text(cursor: &mut LineCursor<'_>) -> bool
    ensures { cursor.new.left.now ≡ unblanked cursor.old.left.now }
{
    cursor.blanks();
    matches!(cursor.left, [b'"', ..])
}

/// Reads a text in quotes, or a word.
pub fn read_text_or_word(cursor: &mut LineCursor<'_>) -> Result<String, LineStop>
    ensures { IfOk result (λ text.
        ReadsName cursor.old.left.now (string_bytes text) cursor.new.left.now) }
{
    if is_text(cursor) {
        return read_text(cursor);
    }
    let word = cursor.word()?;
    let text = String::from_str(cursor.alloc, word)?;
    Ok(text)
}
