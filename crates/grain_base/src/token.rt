//! Operators.
ghost use Rattle.std.specs.Prelude.{◌≡◌, ◌<◌, ◌≤◌, string_bytes, IfSome, IfNone, MatchResult};
ghost use Rattle.std.proofs.Common.{inl, inr};
ghost use Rattle.grain_base.specs.Tokens.{token_parts};

/// An operator of the language, or by its text one that the host has added.
#[derive(Debug, PartialEq, Eq, Drop)]
pub enum Token {
    /// `+`
    Plus,
    /// `+` before its only operand
    UnaryPlus,
    /// `-`
    Minus,
    /// `-` before its only operand
    UnaryMinus,
    /// `*`
    Multiply,
    /// `/`
    Divide,
    /// `%`
    Modulo,
    /// `**`
    PowerOf,
    /// `<<`
    LeftShift,
    /// `>>`
    RightShift,
    /// `&`
    Ampersand,
    /// `|`
    Pipe,
    /// `^`
    XOr,
    /// `&&`
    And,
    /// `||`
    Or,
    /// `!`
    Bang,
    /// `??`
    DoubleQuestion,
    /// `==`
    EqualsTo,
    /// `!=`
    NotEqualsTo,
    /// `<`
    LessThan,
    /// `<=`
    LessThanEqualsTo,
    /// `>`
    GreaterThan,
    /// `>=`
    GreaterThanEqualsTo,
    /// `in`
    In,
    /// `!in`
    NotIn,
    /// `..`
    ExclusiveRange,
    /// `..=`
    InclusiveRange,
    /// `=`
    Equals,
    /// `+=`
    PlusAssign,
    /// `-=`
    MinusAssign,
    /// `*=`
    MultiplyAssign,
    /// `/=`
    DivideAssign,
    /// `%=`
    ModuloAssign,
    /// `**=`
    PowerOfAssign,
    /// `<<=`
    LeftShiftAssign,
    /// `>>=`
    RightShiftAssign,
    /// `&=`
    AndAssign,
    /// `|=`
    OrAssign,
    /// `^=`
    XOrAssign,
    /// An operator that the host has added.
    Custom(String),
}

impl Token {
    /// The operator of a number, `None` past the last one. The operators of the language are numbered in the order of the
    /// variants, from 0; one that the host has added has no number.
    #[must_use]
    pub fn of_number(number: u8) -> Option<Token>
        ensures found { IfSome result (λ token. token_parts token ≡ inr number) }
        ensures none { IfNone result (39 ≤ number) }
    {
        let token = match number {
            0 => Token::Plus,
            1 => Token::UnaryPlus,
            2 => Token::Minus,
            3 => Token::UnaryMinus,
            4 => Token::Multiply,
            5 => Token::Divide,
            6 => Token::Modulo,
            7 => Token::PowerOf,
            8 => Token::LeftShift,
            9 => Token::RightShift,
            10 => Token::Ampersand,
            11 => Token::Pipe,
            12 => Token::XOr,
            13 => Token::And,
            14 => Token::Or,
            15 => Token::Bang,
            16 => Token::DoubleQuestion,
            17 => Token::EqualsTo,
            18 => Token::NotEqualsTo,
            19 => Token::LessThan,
            20 => Token::LessThanEqualsTo,
            21 => Token::GreaterThan,
            22 => Token::GreaterThanEqualsTo,
            23 => Token::In,
            24 => Token::NotIn,
            25 => Token::ExclusiveRange,
            26 => Token::InclusiveRange,
            27 => Token::Equals,
            28 => Token::PlusAssign,
            29 => Token::MinusAssign,
            30 => Token::MultiplyAssign,
            31 => Token::DivideAssign,
            32 => Token::ModuloAssign,
            33 => Token::PowerOfAssign,
            34 => Token::LeftShiftAssign,
            35 => Token::RightShiftAssign,
            36 => Token::AndAssign,
            37 => Token::OrAssign,
            38 => Token::XOrAssign,
            _ => return None,
        };
        Some(token)
    }

    /// The number of the operator, or the text of one that the host has added.
    ///
    /// # Errors
    /// The text of an operator that the host has added.
    pub fn number(&self) -> Result<u8, &String>
        ensures { MatchResult result
            (λ number. (token_parts self.now ≡ inr number) × (number < 39))
            (λ text. token_parts self.now ≡ inl (string_bytes text.now)) }
    {
        match self {
            Token::Plus => Ok(0),
            Token::UnaryPlus => Ok(1),
            Token::Minus => Ok(2),
            Token::UnaryMinus => Ok(3),
            Token::Multiply => Ok(4),
            Token::Divide => Ok(5),
            Token::Modulo => Ok(6),
            Token::PowerOf => Ok(7),
            Token::LeftShift => Ok(8),
            Token::RightShift => Ok(9),
            Token::Ampersand => Ok(10),
            Token::Pipe => Ok(11),
            Token::XOr => Ok(12),
            Token::And => Ok(13),
            Token::Or => Ok(14),
            Token::Bang => Ok(15),
            Token::DoubleQuestion => Ok(16),
            Token::EqualsTo => Ok(17),
            Token::NotEqualsTo => Ok(18),
            Token::LessThan => Ok(19),
            Token::LessThanEqualsTo => Ok(20),
            Token::GreaterThan => Ok(21),
            Token::GreaterThanEqualsTo => Ok(22),
            Token::In => Ok(23),
            Token::NotIn => Ok(24),
            Token::ExclusiveRange => Ok(25),
            Token::InclusiveRange => Ok(26),
            Token::Equals => Ok(27),
            Token::PlusAssign => Ok(28),
            Token::MinusAssign => Ok(29),
            Token::MultiplyAssign => Ok(30),
            Token::DivideAssign => Ok(31),
            Token::ModuloAssign => Ok(32),
            Token::PowerOfAssign => Ok(33),
            Token::LeftShiftAssign => Ok(34),
            Token::RightShiftAssign => Ok(35),
            Token::AndAssign => Ok(36),
            Token::OrAssign => Ok(37),
            Token::XOrAssign => Ok(38),
            Token::Custom(text) => Err(text),
        }
    }
}
