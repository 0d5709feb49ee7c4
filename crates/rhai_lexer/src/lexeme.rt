//! Lexemes: the words, signs and literals of a source text.

use grain_base::Float;
use grain_base::pos::Site;
use rhai_errors::Reserved;

/// An operator between two operands, or before one.
#[derive(Clone, Copy, Debug, PartialEq, Eq)]
pub enum Operator {
    /// `+`
    Plus,
    /// `-`
    Minus,
    /// `*`
    Multiply,
    /// `/`
    Divide,
    /// `%`
    Modulo,
    /// `**`
    Power,
    /// `<<`
    LeftShift,
    /// `>>`
    RightShift,
    /// `&`
    Ampersand,
    /// `|`
    Pipe,
    /// `^`
    Caret,
    /// `&&`
    And,
    /// `||`
    Or,
    /// `??`
    Coalesce,
    /// `==`
    Equal,
    /// `!=`
    NotEqual,
    /// `<`
    Less,
    /// `<=`
    LessEqual,
    /// `>`
    Greater,
    /// `>=`
    GreaterEqual,
    /// `in`
    In,
    /// `!in`
    NotIn,
    /// `..`
    Range,
    /// `..=`
    RangeInclusive,
    /// `!`
    Bang,
}

/// A keyword, or a sign that is no operator.
#[derive(Clone, Copy, Debug, PartialEq, Eq)]
pub enum Mark {
    /// `let`
    Let,
    /// `const`
    Const,
    /// `fn`
    Fn,
    /// `private`
    Private,
    /// `if`
    If,
    /// `else`
    Else,
    /// `while`
    While,
    /// `loop`
    Loop,
    /// `do`
    Do,
    /// `until`
    Until,
    /// `for`
    For,
    /// `switch`
    Switch,
    /// `return`
    Return,
    /// `break`
    Break,
    /// `continue`
    Continue,
    /// `throw`
    Throw,
    /// `try`
    Try,
    /// `catch`
    Catch,
    /// `true`
    True,
    /// `false`
    False,
    /// `this`
    This,
    /// `import`
    Import,
    /// `export`
    Export,
    /// A word or a sign that is reserved and has no meaning.
    Reserved(Reserved),
    /// `_`
    Underscore,
    /// `(`
    LeftParen,
    /// `)`
    RightParen,
    /// `[`
    LeftBracket,
    /// `]`
    RightBracket,
    /// `{`
    LeftBrace,
    /// `}`
    RightBrace,
    /// `#{`
    MapBrace,
    /// `,`
    Comma,
    /// `;`
    Semicolon,
    /// `:`
    Colon,
    /// `::`
    DoubleColon,
    /// `=>`
    Arrow,
    /// `.`
    Dot,
    /// `?.`
    QuestionDot,
    /// `?[`
    QuestionBracket,
    /// The end of the text.
    End,
}

/// What a lexeme is.
#[derive(Clone, Copy)]
pub enum Kind {
    /// An integer.
    Int(i64),
    /// A floating point number.
    Float(Float),
    /// A character.
    Char(char),
    /// A text, by its index.
    Text(u32),
    /// A name, by its index.
    Name(u32),
    /// The first piece of a text, after which statements are interpolated.
    FirstPiece(u32),
    /// A piece of a text between statements.
    NextPiece(u32),
    /// The last piece of a text with interpolations.
    LastPiece(u32),
    /// A keyword or a sign.
    Mark(Mark),
    /// An operator.
    Operator(Operator),
    /// An assignment, through the operator if there is one.
    Assign(Option<Operator>),
}

/// A lexeme and where it begins.
#[derive(Clone, Copy)]
pub struct Lexeme {
    /// What it is.
    pub kind: Kind,
    /// Where it begins.
    pub place: Site,
}

/// The keywords.
const WORDS: [(&str, Kind); 51] = [
    ("let", Kind::Mark(Mark::Let)),
    ("const", Kind::Mark(Mark::Const)),
    ("fn", Kind::Mark(Mark::Fn)),
    ("private", Kind::Mark(Mark::Private)),
    ("if", Kind::Mark(Mark::If)),
    ("else", Kind::Mark(Mark::Else)),
    ("while", Kind::Mark(Mark::While)),
    ("loop", Kind::Mark(Mark::Loop)),
    ("do", Kind::Mark(Mark::Do)),
    ("until", Kind::Mark(Mark::Until)),
    ("for", Kind::Mark(Mark::For)),
    ("in", Kind::Operator(Operator::In)),
    ("switch", Kind::Mark(Mark::Switch)),
    ("return", Kind::Mark(Mark::Return)),
    ("break", Kind::Mark(Mark::Break)),
    ("continue", Kind::Mark(Mark::Continue)),
    ("throw", Kind::Mark(Mark::Throw)),
    ("try", Kind::Mark(Mark::Try)),
    ("catch", Kind::Mark(Mark::Catch)),
    ("true", Kind::Mark(Mark::True)),
    ("false", Kind::Mark(Mark::False)),
    ("this", Kind::Mark(Mark::This)),
    ("import", Kind::Mark(Mark::Import)),
    ("export", Kind::Mark(Mark::Export)),
    ("_", Kind::Mark(Mark::Underscore)),
    ("var", Kind::Mark(Mark::Reserved(Reserved::Var))),
    ("static", Kind::Mark(Mark::Reserved(Reserved::Static))),
    ("shared", Kind::Mark(Mark::Reserved(Reserved::Shared))),
    ("is", Kind::Mark(Mark::Reserved(Reserved::Is))),
    ("goto", Kind::Mark(Mark::Reserved(Reserved::Goto))),
    ("match", Kind::Mark(Mark::Reserved(Reserved::Match))),
    ("case", Kind::Mark(Mark::Reserved(Reserved::Case))),
    ("public", Kind::Mark(Mark::Reserved(Reserved::Public))),
    ("protected", Kind::Mark(Mark::Reserved(Reserved::Protected))),
    ("new", Kind::Mark(Mark::Reserved(Reserved::New))),
    ("use", Kind::Mark(Mark::Reserved(Reserved::Use))),
    ("with", Kind::Mark(Mark::Reserved(Reserved::With))),
    ("module", Kind::Mark(Mark::Reserved(Reserved::Module))),
    ("package", Kind::Mark(Mark::Reserved(Reserved::Package))),
    ("super", Kind::Mark(Mark::Reserved(Reserved::Super))),
    ("thread", Kind::Mark(Mark::Reserved(Reserved::Thread))),
    ("spawn", Kind::Mark(Mark::Reserved(Reserved::Spawn))),
    ("go", Kind::Mark(Mark::Reserved(Reserved::Go))),
    ("await", Kind::Mark(Mark::Reserved(Reserved::Await))),
    ("async", Kind::Mark(Mark::Reserved(Reserved::Async))),
    ("sync", Kind::Mark(Mark::Reserved(Reserved::Sync))),
    ("yield", Kind::Mark(Mark::Reserved(Reserved::Yield))),
    ("default", Kind::Mark(Mark::Reserved(Reserved::Default))),
    ("void", Kind::Mark(Mark::Reserved(Reserved::Void))),
    ("null", Kind::Mark(Mark::Reserved(Reserved::Null))),
    ("nil", Kind::Mark(Mark::Reserved(Reserved::Nil))),
];

/// The keyword of this spelling, if it is one.
pub(crate) fn keyword(name: &str) -> Option<Kind> {
    for (word, kind) in &WORDS {
        if *word == name {
            return Some(*kind);
        }
    }
    None
}

/// The signs by their first character and the rest, those before others with which they begin.
pub(crate) const SIGNS: [(char, &str, Kind); 55] = [
    ('=', "==", Kind::Mark(Mark::Reserved(Reserved::Identical))),
    (
        '!',
        "==",
        Kind::Mark(Mark::Reserved(Reserved::NotIdentical)),
    ),
    ('.', ".=", Kind::Operator(Operator::RangeInclusive)),
    ('*', "*=", Kind::Assign(Some(Operator::Power))),
    ('<', "<=", Kind::Assign(Some(Operator::LeftShift))),
    ('>', ">=", Kind::Assign(Some(Operator::RightShift))),
    ('+', "+", Kind::Mark(Mark::Reserved(Reserved::Increment))),
    ('-', "-", Kind::Mark(Mark::Reserved(Reserved::Decrement))),
    (':', "=", Kind::Mark(Mark::Reserved(Reserved::ColonEquals))),
    ('=', ">", Kind::Mark(Mark::Arrow)),
    ('=', "=", Kind::Operator(Operator::Equal)),
    ('!', "=", Kind::Operator(Operator::NotEqual)),
    ('<', "=", Kind::Operator(Operator::LessEqual)),
    ('>', "=", Kind::Operator(Operator::GreaterEqual)),
    ('&', "&", Kind::Operator(Operator::And)),
    ('|', "|", Kind::Operator(Operator::Or)),
    ('?', "?", Kind::Operator(Operator::Coalesce)),
    ('?', ".", Kind::Mark(Mark::QuestionDot)),
    ('?', "[", Kind::Mark(Mark::QuestionBracket)),
    ('*', "*", Kind::Operator(Operator::Power)),
    ('<', "<", Kind::Operator(Operator::LeftShift)),
    ('>', ">", Kind::Operator(Operator::RightShift)),
    ('.', ".", Kind::Operator(Operator::Range)),
    ('+', "=", Kind::Assign(Some(Operator::Plus))),
    ('-', "=", Kind::Assign(Some(Operator::Minus))),
    ('*', "=", Kind::Assign(Some(Operator::Multiply))),
    ('/', "=", Kind::Assign(Some(Operator::Divide))),
    ('%', "=", Kind::Assign(Some(Operator::Modulo))),
    ('&', "=", Kind::Assign(Some(Operator::Ampersand))),
    ('|', "=", Kind::Assign(Some(Operator::Pipe))),
    ('^', "=", Kind::Assign(Some(Operator::Caret))),
    (':', ":", Kind::Mark(Mark::DoubleColon)),
    ('#', "{", Kind::Mark(Mark::MapBrace)),
    ('(', "", Kind::Mark(Mark::LeftParen)),
    (')', "", Kind::Mark(Mark::RightParen)),
    ('[', "", Kind::Mark(Mark::LeftBracket)),
    (']', "", Kind::Mark(Mark::RightBracket)),
    ('{', "", Kind::Mark(Mark::LeftBrace)),
    ('}', "", Kind::Mark(Mark::RightBrace)),
    (',', "", Kind::Mark(Mark::Comma)),
    (';', "", Kind::Mark(Mark::Semicolon)),
    (':', "", Kind::Mark(Mark::Colon)),
    ('.', "", Kind::Mark(Mark::Dot)),
    ('+', "", Kind::Operator(Operator::Plus)),
    ('-', "", Kind::Operator(Operator::Minus)),
    ('*', "", Kind::Operator(Operator::Multiply)),
    ('/', "", Kind::Operator(Operator::Divide)),
    ('%', "", Kind::Operator(Operator::Modulo)),
    ('&', "", Kind::Operator(Operator::Ampersand)),
    ('|', "", Kind::Operator(Operator::Pipe)),
    ('^', "", Kind::Operator(Operator::Caret)),
    ('<', "", Kind::Operator(Operator::Less)),
    ('>', "", Kind::Operator(Operator::Greater)),
    ('=', "", Kind::Assign(None)),
    ('!', "", Kind::Operator(Operator::Bang)),
];

impl Operator {
    /// The precedence of the operator between two operands, as in Rhai. It is 0 for an operator that has one operand.
    #[must_use]
    pub fn binds(self) -> u8 {
        match self {
            Operator::Or | Operator::Caret | Operator::Pipe => 30,
            Operator::And | Operator::Ampersand => 60,
            Operator::Equal | Operator::NotEqual => 90,
            Operator::In | Operator::NotIn => 110,
            Operator::Less | Operator::LessEqual | Operator::Greater | Operator::GreaterEqual =>
                130,
            Operator::Coalesce => 135,
            Operator::Range | Operator::RangeInclusive => 140,
            Operator::Plus | Operator::Minus => 150,
            Operator::Multiply | Operator::Divide | Operator::Modulo => 180,
            Operator::Power => 190,
            Operator::LeftShift | Operator::RightShift => 210,
            Operator::Bang => 0,
        }
    }

    /// The least precedence of an operator to its right that is done before it.
    pub fn binds_right(self) -> u8 {
        match self {
            Operator::Power => 190,
            operator => operator.binds().saturating_add(1),
        }
    }
}
