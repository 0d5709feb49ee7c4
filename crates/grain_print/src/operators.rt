//! Operators and op-assignments.
ghost use Rattle.std.specs.Prelude.{◌≡◌, IfSome, Some, option_map};
ghost use Rattle.grain_base.specs.Tokens.{token_parts};
ghost use Rattle.grain_base.specs.declared.token.Token.{Token};
ghost use Rattle.grain_print.specs.Spellings.{spelling_of};

use crate::quote::write_text;
use grain_base::Token;
use grain_pools::AssignOp;
use std::alloc::AllocError;

/// The number of `+` before its only operand, and how it is written: its text is that of `+` between two.
const UNARY_PLUS: u8 = 1;

const UNARY_PLUS_SPELLING: &str = "unary+";

/// The number of `-` before its only operand, and how it is written.
const UNARY_MINUS: u8 = 3;

const UNARY_MINUS_SPELLING: &str = "unary-";

/// The spelling of an operator of the language.
#[must_use]
pub fn spelling(token: &Token) -> Option<&str>
    ensures { option_map (λ spelling. spelling.now) result ≡ spelling_of token.now }
{
    match token.number() {
        Ok(UNARY_PLUS) => Some(UNARY_PLUS_SPELLING),
        Ok(UNARY_MINUS) => Some(UNARY_MINUS_SPELLING),
        Ok(_) => Some(token.syntax()),
        Err(_) => None,
    }
}

/// The operator of the language with this spelling.
#[must_use]
pub fn token_spelled(spelling: &str) -> Option<Token>
    ensures found { IfSome result (λ token. spelling_of token ≡ Some spelling.now) }
    ensures only { (token : Token) → spelling_of token ≡ Some spelling.now
        → option_map token_parts result ≡ Some (token_parts token) }
{
    match spelling {
        UNARY_PLUS_SPELLING => Token::of_number(UNARY_PLUS),
        UNARY_MINUS_SPELLING => Token::of_number(UNARY_MINUS),
        _ => Token::of_syntax(spelling),
    }
}

/// Appends an operator: its spelling, or in quotes the text of one that the host has added.
pub fn write_token(out: &mut String, token: &Token) -> Result<(), AllocError> {
    match spelling(token) {
        Some(spelling) => out.push_str(spelling),
        None => write_text(out, token.syntax()),
    }
}

/// Appends an op-assignment: the operator and its name, the operator that it applies and the name of that.
pub fn write_assign_op(out: &mut String, assign_op: &AssignOp) -> Result<(), AllocError> {
    write_token(out, &assign_op.op_assign)?;
    let name = assign_op.op_assign_name;
    write!(out, " #{name} ")?;
    write_token(out, &assign_op.op)?;
    let name = assign_op.op_name;
    write!(out, " #{name}")
}
