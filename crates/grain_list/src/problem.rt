//! What is wrong with a bad case.

use grain_lines::{are_hex_digits, caps_of, chunk_of, next_word, u32_of};
use std::fmt;

/// What is wrong with a bad case. Words are counted from 1.
#[derive(Clone, Copy)]
pub enum Problem {
    /// There is no word.
    NoWord,
    /// The first word is none of `code`, `site` and `verify`.
    UnknownForm,
    /// This word is missing.
    Missing(Field),
    /// This word isn't what the form has here.
    Unreadable(u32, Field),
    /// There is a word more than the form has.
    TooMany(u32),
}

/// What a word of a case spells.
#[derive(Clone, Copy)]
pub enum Field {
    /// Bytes.
    Hex,
    /// An address.
    Address,
    /// Capabilities.
    Caps,
    /// A chunk.
    Chunk,
}

impl Field {
    /// What it is called.
    pub fn name(self) -> &'static str {
        match self {
            Field::Hex => "HEX",
            Field::Address => "ADDRESS",
            Field::Caps => "CAPS",
            Field::Chunk => "CHUNK",
        }
    }

    /// What such a word must be.
    pub fn rule(self) -> &'static str {
        match self {
            Field::Hex => "hexadecimal digits in pairs, or - for no bytes",
            Field::Address => "decimal digits only, at most 4294967295",
            Field::Caps => "four hexadecimal digits, at most 7fff",
            Field::Chunk => {
                "ENTRY:END:DECLARED in decimal digits only, the first two at most 4294967295, the last at most 65535"
            }
        }
    }

    /// Whether the word spells it.
    fn is_spelled(self, word: &[u8]) -> bool {
        match self {
            Field::Hex => word == b"-".as_slice() || (word.len() % 2 == 0 && are_hex_digits(word)),
            Field::Address => u32_of(word).is_some(),
            Field::Caps => caps_of(word).is_some(),
            Field::Chunk => chunk_of(word).is_some(),
        }
    }
}

/// The first problem among the words of fixed fields, or the rest after them.
fn check_fields<'a>(first: u32, fields: &[Field], words: &'a [u8]) -> Result<&'a [u8], Problem> {
    let mut rest = words;
    let mut number = first;
    for field in fields {
        let Some((word, more)) = next_word(rest) else {
            return Err(Problem::Missing(*field));
        };
        if !field.is_spelled(word) {
            return Err(Problem::Unreadable(number, *field));
        }
        rest = more;
        number = number.saturating_add(1);
    }
    Ok(rest)
}

/// The number of the first of these words that spells no chunk, counted from a number.
fn first_no_chunk(first: u32, words: &[u8]) -> u32 {
    let mut rest = words;
    let mut number = first;
    'seeking: while let Some((word, more)) = next_word(rest) {
        if chunk_of(word).is_none() {
            break;
        }
        rest = more;
        number = number.saturating_add(1);
    }
    number
}

/// What is wrong with the words of these fields, after which there may be no word.
fn problem_in(fields: &[Field], beyond: u32, words: &[u8]) -> Problem {
    match check_fields(2, fields, words) {
        Err(problem) => problem,
        Ok(_) => Problem::TooMany(beyond),
    }
}

impl Problem {
    /// What is wrong with a bad case: the first of its words that doesn't fit.
    pub fn of(line: &[u8]) -> Problem {
        let Some((name, words)) = next_word(line) else {
            return Problem::NoWord;
        };
        if name == b"code".as_slice() {
            return problem_in(&[Field::Hex], 3, words);
        }
        if name == b"site".as_slice() {
            return problem_in(&[Field::Hex, Field::Address], 4, words);
        }
        if name == b"verify".as_slice() {
            return match check_fields(2, &[Field::Caps, Field::Hex], words) {
                Err(problem) => problem,
                Ok(chunks) => Problem::Unreadable(first_no_chunk(4, chunks), Field::Chunk),
            };
        }
        Problem::UnknownForm
    }
}

impl fmt::Display for Problem {
    fn fmt<W: fmt::Write>(&self, f: &mut fmt::Formatter<W>) -> fmt::Result {
        match self {
            Problem::NoWord => f.write_str("The line has no word."),
            Problem::UnknownForm => f.write_str("The first word must be code, site or verify."),
            Problem::TooMany(number) => write!(f, "Word {number} is one too many."),
            Problem::Missing(field) => {
                let name = field.name();
                let rule = field.rule();
                write!(f, "{name} is missing: {rule}.")
            }
            Problem::Unreadable(number, field) => {
                let name = field.name();
                let rule = field.rule();
                write!(f, "Word {number} is not a valid {name}: {rule}.")
            }
        }
    }
}
