//! The operators of the language as source text has them.
ghost use Rattle.std.specs.Prelude.{◌≡◌, ◌<◌, ◌++◌, IfSome, codes, map, option_map};
ghost use Rattle.std.proofs.Common.{inr};
ghost use Rattle.grain_base.specs.Operators.{assignment_of, base_operator_of, first_with, operators, row_at, row_of, text_of};
ghost use Rattle.grain_base.specs.Tokens.{token_parts};

use crate::token::Token;

/// The text of each operator of the language, in the order of their numbers, and for an op-assignment the number of the operator
/// that it applies.
static OPERATORS: [(&str, Option<u8>); 39] = [
    ("+", None),
    ("+", None),
    ("-", None),
    ("-", None),
    ("*", None),
    ("/", None),
    ("%", None),
    ("**", None),
    ("<<", None),
    (">>", None),
    ("&", None),
    ("|", None),
    ("^", None),
    ("&&", None),
    ("||", None),
    ("!", None),
    ("??", None),
    ("==", None),
    ("!=", None),
    ("<", None),
    ("<=", None),
    (">", None),
    (">=", None),
    ("in", None),
    ("!in", None),
    ("..", None),
    ("..=", None),
    ("=", None),
    ("+=", Some(0)),
    ("-=", Some(2)),
    ("*=", Some(4)),
    ("/=", Some(5)),
    ("%=", Some(6)),
    ("**=", Some(7)),
    ("<<=", Some(8)),
    (">>=", Some(9)),
    ("&=", Some(10)),
    ("|=", Some(11)),
    ("^=", Some(12)),
];

/// The table.
#[tactic(auto, unfolding(crate::specs::Operators::operators))]
fn table() -> &'static [(&'static str, Option<u8>)]
    ensures { map row_of result.now ≡ operators }
{
    &OPERATORS
}

/// The row of a number.
fn row(number: u8) -> &'static (&'static str, Option<u8>)
    requires { number < 39 }
    ensures { row_of result.now ≡ row_at number }
{
    &table()[usize::from(number)]
}

/// The number of the first operator with this text.
fn number_with_text(text: &str) -> Option<usize>
    ensures { result ≡ first_with text.now }
{
    table().iter().position(|row| row.0 == text)
}

/// The number of the op-assignment that applies the operator with a number.
fn number_of_assignment(number: u8) -> Option<usize>
    ensures { result ≡ assignment_of (inr number) }
{
    table().iter().position(|row| row.1 == Some(number))
}

/// The operator of a number, if there is one.
fn numbered(number: Option<usize>) -> Option<Token>
    requires { IfSome number (λ n. n < 39) }
    ensures { option_map token_parts result ≡ option_map inr number }
{
    match u8::try_from(number?) {
        Ok(number) => Token::of_number(number),
        Err(_) => None,
    }
}

impl Token {
    /// The text of the operator. That of `+` and `-` is the same with one operand as with two.
    #[must_use]
    pub fn syntax(&self) -> &str
        ensures { result.now ≡ text_of (token_parts self.now) }
    {
        match self.number() {
            Ok(number) => row(number).0,
            Err(text) => text.as_str(),
        }
    }

    /// The operator of the language with this text: of `+` and `-` the one with two operands.
    #[must_use]
    pub fn of_syntax(text: &str) -> Option<Token>
        ensures { option_map token_parts result ≡ option_map inr (first_with text.now) }
    {
        numbered(number_with_text(text))
    }

    /// The operator that an op-assignment applies, as `+` for `+=`. `None` if it is no op-assignment of the language.
    #[must_use]
    pub fn base_operator(&self) -> Option<Token>
        ensures base { option_map token_parts result
            ≡ option_map inr (base_operator_of (token_parts self.now)) }
        ensures text { IfSome result (λ base. text_of (token_parts self.now)
            ≡ text_of (token_parts base) ++ codes "=") }
    {
        match self.number() {
            Ok(number) => Token::of_number(row(number).1?),
            Err(_) => None,
        }
    }

    /// The op-assignment that applies the operator, as `+=` for `+`, if there is one.
    #[must_use]
    pub fn op_assignment(&self) -> Option<Token>
        ensures { option_map token_parts result
            ≡ option_map inr (assignment_of (token_parts self.now)) }
    {
        match self.number() {
            Ok(number) => numbered(number_of_assignment(number)),
            Err(_) => None,
        }
    }
}
