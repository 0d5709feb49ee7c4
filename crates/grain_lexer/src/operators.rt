//! Operators.
ghost use Rattle.std.specs.Prelude.{◌≡◌, IfOk};
ghost use Rattle.std.specs.Bool.{OnTrue};
ghost use Rattle.grain_base.specs.Tokens.{token_parts};
ghost use Rattle.grain_lexer.specs.Operators.{ReadsOperator};

use crate::cursor::LineCursor;
use crate::literals::{is_text, read_text};
use crate::problem::{LineProblem, LineStop};
use grain_base::Token;
use grain_print::token_spelled;

/// Whether two operators are the same, by their numbers or their texts.
pub fn is_same(one: &Token, other: &Token) -> bool
    ensures { OnTrue result (token_parts one.now ≡ token_parts other.now) }
{
    one.number() == other.number()
}

/// Reads an operator: its spelling, or in quotes the text of one that the host has added.
pub fn read_token(cursor: &mut LineCursor<'_>) -> Result<Token, LineStop>
    ensures { IfOk result (λ token. ReadsOperator cursor.old.left.now token cursor.new.left.now) }
{
    if is_text(cursor) {
        return Ok(Token::Custom(read_text(cursor)?));
    }
    let start = cursor.left;
    let spelling = cursor.spelling()?;
    match token_spelled(spelling) {
        Some(token) => Ok(token),
        None => {
            cursor.left = start;
            Err(LineStop::Fault(LineProblem::NotOperator))
        }
    }
}
