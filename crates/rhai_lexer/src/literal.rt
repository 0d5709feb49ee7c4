//! Literals: numbers, characters, and strings of all kinds.

use crate::lexeme::Kind;
use crate::scan::{Scan, begins_name, continues_name};
use grain_base::Float;
use grain_base::pos::Site;
use rhai_errors::{CompileError, Problem, Thing};
use std::alloc::{AllocError, Global};

impl<'s> Scan<'s> {
    /// A number: an integer to the base 10, 16, 8 or 2, or a floating point number to the base 10. To the other bases than
    /// 10 an integer may have all 64 bits.
    pub(crate) fn number(&mut self, alloc: Global, place: Site) -> Result<Kind, CompileError> {
        let radix = match (self.peek(0), self.peek(1)) {
            (Some('0'), Some('x' | 'X')) => 16,
            (Some('0'), Some('o' | 'O')) => 8,
            (Some('0'), Some('b' | 'B')) => 2,
            _ => return self.decimal(alloc, place),
        };
        self.skip(2);
        let value = self.digits(place, radix)?;
        self.check_end_of_number(place)?;
        Ok(Kind::Int(value.cast_signed()))
    }

    fn digits(&mut self, place: Site, radix: u32) -> Result<u64, CompileError> {
        let mut value: u64 = 0;
        let mut count: usize = 0;
        for _turn in 0..self.len() {
            let Some(c) = self.peek(0) else {
                break;
            };
            if let Some(digit) = digit_of(c, radix) {
                count = count.saturating_add(1);
                value = match with_digit(value, radix, digit) {
                    Some(value) => value,
                    None => return Err(CompileError::new(place, Problem::NumberTooLarge)),
                };
            } else if c != '_' {
                break;
            }
            self.skip(1);
        }
        if count == 0 {
            return Err(CompileError::new(place, Problem::BadNumber));
        }
        Ok(value)
    }

    /// A number to the base 10. It is an integer unless it has a fraction or an exponent: an integer that is too large is
    /// refused, since as a floating point number it would lose digits unseen.
    fn decimal(&mut self, alloc: Global, place: Site) -> Result<Kind, CompileError> {
        let mut text = String::new(alloc);
        self.take_digits(&mut text)?;
        let has_fraction = self.take_fraction(&mut text)?;
        let has_exponent = self.take_exponent(&mut text)?;
        self.check_end_of_number(place)?;
        if has_fraction || has_exponent {
            float(place, text.as_str())
        } else {
            integer(place, text.as_str())
        }
    }

    /// Takes decimal digits. It skips `_` between them.
    fn take_digits(&mut self, text: &mut String) -> Result<(), AllocError> {
        for _turn in 0..self.len() {
            match self.peek(0) {
                Some(c) if c.is_ascii_digit() => text.push(c)?,
                Some('_') => {}
                _ => break,
            }
            self.skip(1);
        }
        Ok(())
    }

    /// Takes a point and the digits after it, if they come next. A point after a number is part of it, unless a member's
    /// name or another point may follow, or the text ends.
    fn take_fraction(&mut self, text: &mut String) -> Result<bool, AllocError> {
        match (self.peek(0), self.peek(1)) {
            (Some('.'), Some(c)) if c != '.' && !begins_name(c) => {}
            _ => return Ok(false),
        }
        self.skip(1);
        text.push('.')?;
        self.take_digits(text)?;
        Ok(true)
    }

    /// Takes an exponent, if it comes next: `e`, a sign or none, and digits.
    fn take_exponent(&mut self, text: &mut String) -> Result<bool, AllocError> {
        match (self.peek(0), self.peek(1)) {
            (Some('e'), Some(c)) if c.is_ascii_digit() => self.skip(1),
            (Some('e'), Some(sign)) if sign == '+' || sign == '-' => self.skip(1),
            _ => return Ok(false),
        }
        text.push('e')?;
        if let Some(sign) = self.peek(0)
            && (sign == '+' || sign == '-')
        {
            text.push(sign)?;
            self.skip(1);
        }
        self.take_digits(text)?;
        Ok(true)
    }

    /// A number isn't followed by a part of a name.
    fn check_end_of_number(&self, place: Site) -> Result<(), CompileError> {
        match self.peek(0) {
            Some(c) if continues_name(c) => Err(CompileError::new(place, Problem::BadNumber)),
            _ => Ok(()),
        }
    }

    /// A character in single quotes.
    pub(crate) fn character(&mut self, place: Site) -> Result<char, CompileError> {
        self.skip(1);
        let c = match self.peek(0) {
            Some('\\') => {
                self.skip(1);
                self.escape()?
            }
            Some('\'') | Some('\n') | None => {
                return Err(CompileError::new(place, self.wrong_character()));
            }
            Some(c) => {
                self.skip(1);
                c
            }
        };
        if self.peek(0) == Some('\'') {
            self.skip(1);
            Ok(c)
        } else {
            Err(CompileError::new(place, self.wrong_character()))
        }
    }

    /// What is wrong with a character literal, which may be meant as a string.
    fn wrong_character(&self) -> Problem {
        for ahead in 0..self.len() {
            match self.peek(ahead) {
                Some('\'') => return Problem::NotOneCharacter,
                Some('\n') | None => break,
                Some(_) => {}
            }
        }
        Problem::Unfinished(Thing::Character)
    }

    /// A string in double quotes, which ends on its line except after a backslash.
    pub(crate) fn string(&mut self, alloc: Global, place: Site) -> Result<String, CompileError> {
        self.skip(1);
        let mut text = String::new(alloc);
        for _turn in 0..self.len() {
            match self.step() {
                Some('"') if self.peek(0) == Some('"') => {
                    self.skip(1);
                    text.push('"')?;
                }
                Some('"') => return Ok(text),
                Some('\\') if self.peek(0) == Some('\n') => self.continue_line(place.column),
                Some('\\') => text.push(self.escape()?)?,
                Some('\n') | None => break,
                Some(c) => text.push(c)?,
            }
        }
        Err(CompileError::new(place, Problem::Unfinished(Thing::Text)))
    }

    /// Takes the end of a line, and the blanks of the next one up to the column of the opening quote.
    fn continue_line(&mut self, column: u32) {
        self.skip(1);
        for _turn in 0..self.len() {
            match self.peek(0) {
                Some(c) if is_blank(c) && self.place.column <= column => self.skip(1),
                _ => return,
            }
        }
    }

    /// How many `#` come before the quote of a raw string, if one begins here.
    pub(crate) fn hashes(&self) -> Option<usize> {
        for count in 0..self.len() {
            match self.peek(count) {
                Some('#') => {}
                Some('"') if count > 0 => return Some(count),
                _ => return None,
            }
        }
        None
    }

    /// A raw string that begins with this many `#` and a quote, and ends with a quote and as many.
    pub(crate) fn raw_string(
        &mut self,
        alloc: Global,
        place: Site,
        hashes: usize,
    ) -> Result<String, CompileError> {
        self.skip(hashes);
        self.skip(1);
        let mut text = String::new(alloc);
        for _turn in 0..self.len() {
            match self.step() {
                Some('"') if self.has_hashes(hashes) => {
                    self.skip(hashes);
                    return Ok(text);
                }
                Some(c) => text.push(c)?,
                None => break,
            }
        }
        Err(CompileError::new(place, Problem::Unfinished(Thing::Text)))
    }

    fn has_hashes(&self, count: usize) -> bool {
        for ahead in 0..count {
            if self.peek(ahead) != Some('#') {
                return false;
            }
        }
        true
    }

    /// A piece of a string in back ticks, and whether the string ends with it. Otherwise an interpolation begins.
    pub(crate) fn piece(
        &mut self,
        alloc: Global,
        place: Site,
    ) -> Result<(String, bool), CompileError> {
        let mut text = String::new(alloc);
        for _turn in 0..=self.len() {
            match (self.peek(0), self.peek(1)) {
                (Some('`'), Some('`')) => {
                    text.push('`')?;
                    self.skip(2);
                }
                (Some('`'), _) => {
                    self.skip(1);
                    return Ok((text, true));
                }
                (Some('$'), Some('{')) => {
                    self.skip(2);
                    return Ok((text, false));
                }
                (Some(c), _) => {
                    text.push(c)?;
                    self.skip(1);
                }
                (None, _) => break,
            }
        }
        Err(CompileError::new(place, Problem::Unfinished(Thing::Text)))
    }

    /// The character that an escape sequence is written for, after its backslash.
    fn escape(&mut self) -> Result<char, CompileError> {
        let place = self.place;
        match self.step() {
            Some('n') => Ok('\n'),
            Some('r') => Ok('\r'),
            Some('t') => Ok('\t'),
            Some('x') => self.escaped_code(place, 2),
            Some('u') => self.escaped_code(place, 4),
            Some('U') => self.escaped_code(place, 8),
            Some('\\') => Ok('\\'),
            Some('"') => Ok('"'),
            Some('\'') => Ok('\''),
            Some('`') => Ok('`'),
            _ => Err(CompileError::new(place, Problem::BadEscape)),
        }
    }

    /// The character whose code has this many hexadecimal digits.
    fn escaped_code(&mut self, place: Site, count: usize) -> Result<char, CompileError> {
        let mut code: u64 = 0;
        for _turn in 0..count {
            let digit = match self.step() {
                Some(c) => digit_of(c, 16),
                None => None,
            };
            code = match digit {
                Some(digit) => with_digit(code, 16, digit).unwrap_or(u64::MAX),
                None => return Err(CompileError::new(place, Problem::BadEscape)),
            };
        }
        let c = match u32::try_from(code) {
            Ok(code) => char::from_u32(code),
            Err(_) => None,
        };
        match c {
            Some(c) => Ok(c),
            None => Err(CompileError::new(place, Problem::BadEscape)),
        }
    }
}

/// The integer with these decimal digits.
fn integer(place: Site, digits: &str) -> Result<Kind, CompileError> {
    match digits.parse::<i64>() {
        Ok(value) => Ok(Kind::Int(value)),
        Err(_) => Err(CompileError::new(place, Problem::NumberTooLarge)),
    }
}

/// The floating-point number nearest to the text. It is infinite if the number is too large.
fn float(place: Site, text: &str) -> Result<Kind, CompileError> {
    match text.parse::<f64>() {
        Ok(value) => Ok(Kind::Float(Float::of(value))),
        Err(_) => Err(CompileError::new(place, Problem::BadNumber)),
    }
}

/// Whether it is whitespace and no end of a line.
fn is_blank(c: char) -> bool {
    c.is_whitespace() && c != '\n'
}

/// The digit that a character is to the base.
fn digit_of(c: char, radix: u32) -> Option<u32> {
    let digit = match c {
        '0'..='9' => c as u32 - '0' as u32,
        'a'..='z' => c as u32 - 'a' as u32 + 10,
        'A'..='Z' => c as u32 - 'A' as u32 + 10,
        _ => return None,
    };
    if digit < radix { Some(digit) } else { None }
}

/// A number with one more digit, if it fits.
fn with_digit(value: u64, radix: u32, digit: u32) -> Option<u64> {
    value
        .checked_mul(u64::from(radix))?
        .checked_add(u64::from(digit))
}
