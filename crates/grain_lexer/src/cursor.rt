//! A cursor over a line. What reads a thing moves it past that; if something is wrong, it stays at what is wrong.
ghost use Rattle.std.specs.Prelude.{◌≡◌, ◌<◌, ◌≤◌, ◌∷◌, ◌++◌, IfOk, IfSome, MatchOption, MatchResult, false, length, position, true};
ghost use Rattle.std.specs.Bool.{OnFalse, OnTrue};
ghost use Rattle.std.specs.Str.Parse.{ParsesUnsigned, error_kind};
ghost use Rattle.grain_lexer.specs.Blanks.{HasRead, ReadsText, is_mark, is_over, unblanked};
ghost use Rattle.grain_lexer.specs.Numbers.{IsOutOfRange, ReadsIndex, ReadsInteger, ReadsNumeral, digits_of, radix_of};
ghost use Rattle.grain_lexer.specs.Positions.{ReadsPosition, ReadsPositionOrNone};
ghost use Rattle.grain_lexer.specs.declared.problem.LineProblem.{LineProblem};
ghost use Rattle.grain_lexer.specs.declared.problem.LineProblem.TheVariants as problems;
ghost use Rattle.grain_lexer.specs.declared.problem.LineStop.{LineStop};

use crate::problem::{LineProblem, LineStop};
use grain_base::{Float, Position};
use std::alloc::Global;
use std::num::{IntErrorKind, ParseIntError};
use std::str;

/// What is left of a line.
#[derive(Drop)]
pub struct LineCursor<'a> {
    /// What takes the memory for what is read.
    pub alloc: Global,
    /// The bytes that weren't read yet.
    pub left: &'a [u8],
}

fn is_word_byte(byte: u8) -> bool {
    byte.is_ascii_alphanumeric() || byte == b'_' || byte == b'$'
}

/// The first bytes up to one that ends them, and the others.
fn split_word(bytes: &[u8]) -> (&[u8], &[u8])
    ensures { bytes.now ≡ result.0.now ++ result.1.now }
{
    let len = bytes.iter().position(|byte| !is_word_byte(*byte));
    split_front(bytes, len)
}

fn split_number(bytes: &[u8]) -> (&[u8], &[u8])
    ensures { bytes.now ≡ result.0.now ++ result.1.now }
{
    let len = bytes
        .iter()
        .position(|byte| !is_word_byte(*byte) && *byte != b'-');
    split_front(bytes, len)
}

/// The first bytes up to one that is in no number, float or range, and the others.
fn split_float(bytes: &[u8]) -> (&[u8], &[u8])
    ensures { bytes.now ≡ result.0.now ++ result.1.now }
{
    let len = bytes.iter().position(|byte| !matches!(
        *byte,
        b'0'..=b'9' | b'.' | b'e' | b'-' | b'+'
    ));
    split_front(bytes, len)
}

/// Whether these digits have a fraction or an exponent, and aren't a range of integers.
fn is_float(digits: &str) -> bool {
    (digits.contains('.') || digits.contains('e')) && !digits.contains("..")
}

fn split_spelling(bytes: &[u8]) -> (&[u8], &[u8])
    ensures { bytes.now ≡ result.0.now ++ result.1.now }
{
    let len = bytes
        .iter()
        .position(|byte| matches!(*byte, b' ' | b'\t' | b';'));
    split_front(bytes, len)
}

fn split_front(bytes: &[u8], len: Option<usize>) -> (&[u8], &[u8])
    ensures { bytes.now ≡ result.0.now ++ result.1.now }
{
    match bytes.split_at_checked(len.unwrap_or(bytes.len())) {
        Some(parts) => parts,
        None => (bytes, &[]),
    }
}

/// Where the first byte is that is no blank.
fn first_mark(bytes: &[u8]) -> Option<usize>
    ensures place { result ≡ position is_mark bytes.now }
    ensures within { IfSome result (λ at. at < length bytes.now) }
{
    bytes.iter().position(|byte| !matches!(*byte, b' ' | b'\t'))
}

/// The text of these bytes.
fn text_of(bytes: &[u8]) -> Result<&str, LineStop>
    ensures { IfOk result (λ text. text.now ≡ bytes.now) }
{
    match str::from_utf8(bytes) {
        Ok(text) => Ok(text),
        Err(_) => Err(LineStop::Fault(LineProblem::NotText)),
    }
}

/// The number that these digits are, decimal or after 0x hexadecimal.
fn number_of(digits: &str) -> Result<u64, LineStop>
    ensures { ParsesUnsigned 64 (radix_of digits.now) (digits_of digits.now) result }
{
    let number = match digits.strip_prefix("0x") {
        Some(digits) => u64::from_str_radix(digits, 16),
        None => digits.parse::<u64>(),
    };
    match number {
        Ok(number) => Ok(number),
        Err(error) => Err(LineStop::Fault(no_number(error, LineProblem::NotNumber))),
    }
}

/// The problem of digits that can't be read: the number is out of range, or else the digits are wrong.
pub fn no_number(error: ParseIntError, otherwise: LineProblem) -> LineProblem
    ensures wide { IsOutOfRange (error_kind error) → result ≡ problems.TooWide }
    ensures wrong { (IsOutOfRange (error_kind error) → ⊥) → result ≡ otherwise }
{
    match error.kind() {
        IntErrorKind::PosOverflow | IntErrorKind::NegOverflow => LineProblem::TooWide,
        _ => otherwise,
    }
}

impl<'a> LineCursor<'a> {
    /// Goes past spaces and tabs.
    pub fn blanks(&mut self)
        ensures { self.new.left.now ≡ unblanked self.old.left.now }
    {
        match first_mark(self.left) {
            Some(at) => self.left = &self.left[at..],
            None => self.left = &[],
        }
    }

    /// Whether nothing but a comment is left.
    pub fn is_done(&mut self) -> bool
        ensures done { result ≡ is_over (unblanked self.old.left.now) }
        ensures left { self.new.left.now ≡ unblanked self.old.left.now }
    {
        self.blanks();
        matches!(self.left, [] | [b';', ..])
    }

    /// Reads the end of the line.
    pub fn end(&mut self) -> Result<(), LineStop>
        ensures over { MatchResult result
            (λ _. is_over (unblanked self.old.left.now) ≡ true)
            (λ e. (is_over (unblanked self.old.left.now) ≡ false)
            × (e ≡ LineStop.Fault LineProblem.Trailing)) }
        ensures left { self.new.left.now ≡ unblanked self.old.left.now }
    {
        if self.is_done() {
            Ok(())
        } else {
            Err(LineStop::Fault(LineProblem::Trailing))
        }
    }

    /// Goes past a byte, if it is next.
    pub fn eat(&mut self, byte: u8) -> bool
        ensures eaten { OnTrue result (unblanked self.old.left.now ≡ byte ∷ self.new.left.now) }
        ensures left { OnFalse result (self.new.left.now ≡ unblanked self.old.left.now) }
    {
        self.blanks();
        match self.left {
            [first, rest @ ..] if *first == byte => {
                self.left = rest;
                true
            }
            _ => false,
        }
    }

    /// Reads a byte that has to be next.
    pub fn expect(&mut self, byte: u8) -> Result<(), LineStop>
        ensures { MatchResult result
            (λ _. unblanked self.old.left.now ≡ byte ∷ self.new.left.now)
            (λ _. self.new.left.now ≡ unblanked self.old.left.now) }
    {
        if self.eat(byte) {
            Ok(())
        } else {
            Err(LineStop::Fault(LineProblem::Mark))
        }
    }

    /// Reads a word: letters, digits, `_` and `$`.
    pub fn word(&mut self) -> Result<&'a str, LineStop>
        ensures { IfOk result (λ word. ReadsText self.old.left.now word.now self.new.left.now) }
    {
        self.blanks();
        let (word, rest) = split_word(self.left);
        if word.is_empty() {
            return Err(LineStop::Fault(LineProblem::Missing));
        }
        let word = text_of(word)?;
        self.left = rest;
        Ok(word)
    }

    /// Goes past a word, if it is next.
    pub fn eat_word(&mut self, wanted: &str) -> bool
        ensures eaten { OnTrue result
            (ReadsText self.old.left.now wanted.now self.new.left.now) }
        ensures left { OnFalse result (self.new.left.now ≡ self.old.left.now) }
    {
        let start = self.left;
        match self.word() {
            Ok(word) if word == wanted => true,
            _ => {
                self.left = start;
                false
            }
        }
    }

    /// Reads what ends at a blank or a comment.
    pub fn spelling(&mut self) -> Result<&'a str, LineStop>
        ensures { IfOk result (λ spelling.
            ReadsText self.old.left.now spelling.now self.new.left.now) }
    {
        self.blanks();
        let (spelling, rest) = split_spelling(self.left);
        let spelling = text_of(spelling)?;
        self.left = rest;
        Ok(spelling)
    }

    /// Reads a number.
    pub fn number(&mut self) -> Result<u64, LineStop>
        ensures { IfOk result (λ number.
            ReadsNumeral self.old.left.now number self.new.left.now) }
    {
        self.blanks();
        let start = self.left;
        let word = self.word()?;
        let number = number_of(word);
        if number.is_err() {
            self.left = start;
        }
        number
    }

    /// Reads a number up to a limit.
    pub fn number_up_to(&mut self, limit: u64) -> Result<u64, LineStop>
        ensures limit { IfOk result (λ number. number ≤ limit) }
        ensures reads { IfOk result (λ number.
            ReadsNumeral self.old.left.now number self.new.left.now) }
    {
        self.blanks();
        let start = self.left;
        let number = self.number()?;
        if number > limit {
            self.left = start;
            return Err(LineStop::Fault(LineProblem::TooWide));
        }
        Ok(number)
    }

    /// Reads a number of 32 bits.
    pub fn number_32(&mut self) -> Result<u32, LineStop>
        ensures { IfOk result (λ number.
            ReadsNumeral self.old.left.now number self.new.left.now) }
    {
        let number = self.number_up_to(u64::from(u32::MAX))?;
        u32::try_from(number).map_err(|_| LineStop::Fault(LineProblem::TooWide))
    }

    /// Reads a number of 16 bits.
    pub fn number_16(&mut self) -> Result<u16, LineStop>
        ensures { IfOk result (λ number.
            ReadsNumeral self.old.left.now number self.new.left.now) }
    {
        let number = self.number_up_to(u64::from(u16::MAX))?;
        u16::try_from(number).map_err(|_| LineStop::Fault(LineProblem::TooWide))
    }

    /// Reads a number of 8 bits.
    pub fn number_8(&mut self) -> Result<u8, LineStop>
        ensures { IfOk result (λ number.
            ReadsNumeral self.old.left.now number self.new.left.now) }
    {
        let number = self.number_up_to(u64::from(u8::MAX))?;
        u8::try_from(number).map_err(|_| LineStop::Fault(LineProblem::TooWide))
    }

    /// Reads an integer, with a sign or without.
    pub fn integer(&mut self) -> Result<i64, LineStop>
        ensures { IfOk result (λ number.
            ReadsInteger self.old.left.now number self.new.left.now) }
    {
        self.blanks();
        let (digits, rest) = split_number(self.left);
        let digits = text_of(digits)?;
        match digits.parse::<i64>() {
            Ok(integer) => {
                self.left = rest;
                Ok(integer)
            }
            Err(error) => Err(LineStop::Fault(no_number(error, LineProblem::NotDecimal))),
        }
    }

    /// Reads a float by its decimal digits, if digits with a fraction or an exponent are next.
    pub fn float(&mut self) -> Result<Option<Float>, LineStop>
        ensures { IfOk result (λ found. MatchOption found
            (self.new.left.now ≡ unblanked self.old.left.now)
            (λ _. HasRead self.old.left.now self.new.left.now)) }
    {
        self.blanks();
        let (digits, rest) = split_float(self.left);
        let digits = text_of(digits)?;
        if !is_float(digits) {
            return Ok(None);
        }
        match digits.parse::<f64>() {
            Ok(number) => {
                self.left = rest;
                Ok(Some(Float::of(number)))
            }
            Err(_) => Err(LineStop::Fault(LineProblem::NotDecimal)),
        }
    }

    /// Reads `#` and an index, if these are next.
    pub fn index(&mut self) -> Result<Option<u32>, LineStop>
        ensures { IfOk result (λ found. MatchOption found
            (self.new.left.now ≡ unblanked self.old.left.now)
            (λ index. ReadsIndex self.old.left.now index self.new.left.now)) }
    {
        self.blanks();
        match self.left {
            [b'#', b'0'..=b'9', ..] => {
                let _mark = self.eat(b'#');
                let index = self.number_32()?;
                Ok(Some(index))
            }
            _ => Ok(None),
        }
    }

    /// Reads a position, if one is next.
    pub fn position(&mut self) -> Result<Option<Position>, LineStop>
        ensures { IfOk result (λ found. MatchOption found
            (self.new.left.now ≡ unblanked self.old.left.now)
            (λ position. ReadsPosition self.old.left.now position self.new.left.now)) }
    {
        if !self.eat(b'@') {
            return Ok(None);
        }
        if self.eat_word("none") {
            return Ok(Some(Position::NONE));
        }
        let start = self.left;
        let line = self.number_16()?;
        if line == 0 {
            self.left = start;
            return Err(LineStop::Fault(LineProblem::NoLine));
        }
        self.expect(b':')?;
        let column = self.number_16()?;
        Ok(Some(Position::new(line, column)))
    }

    /// Reads a position, which is none if none is next.
    pub fn position_or_none(&mut self) -> Result<Position, LineStop>
        ensures { IfOk result (λ position.
            ReadsPositionOrNone self.old.left.now position self.new.left.now) }
    {
        let position = self.position()?;
        Ok(position.unwrap_or(Position::NONE))
    }
}
