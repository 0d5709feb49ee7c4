//! The tokens of operators.

use grain_base::Token;
use rhai_lexer::Operator;

/// The token of an operator, which has its name and its op-assignment.
pub fn token(operator: Operator) -> Token {
    match operator {
        Operator::Plus => Token::Plus,
        Operator::Minus => Token::Minus,
        Operator::Multiply => Token::Multiply,
        Operator::Divide => Token::Divide,
        Operator::Modulo => Token::Modulo,
        Operator::Power => Token::PowerOf,
        Operator::LeftShift => Token::LeftShift,
        Operator::RightShift => Token::RightShift,
        Operator::Ampersand => Token::Ampersand,
        Operator::Pipe => Token::Pipe,
        Operator::Caret => Token::XOr,
        Operator::And => Token::And,
        Operator::Or => Token::Or,
        Operator::Coalesce => Token::DoubleQuestion,
        Operator::Equal => Token::EqualsTo,
        Operator::NotEqual => Token::NotEqualsTo,
        Operator::Less => Token::LessThan,
        Operator::LessEqual => Token::LessThanEqualsTo,
        Operator::Greater => Token::GreaterThan,
        Operator::GreaterEqual => Token::GreaterThanEqualsTo,
        Operator::In => Token::In,
        Operator::NotIn => Token::NotIn,
        Operator::Range => Token::ExclusiveRange,
        Operator::RangeInclusive => Token::InclusiveRange,
        Operator::Bang => Token::Bang,
    }
}
