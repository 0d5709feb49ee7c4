//! What is wrong with a source text, and where.
ghost use Rattle.std.specs.Prelude.{◌≡◌};

use grain_base::pos::Site;
use std::alloc::{AllocError, AllocFailed};
use std::fmt;
use thiserror::Error;

/// A word or a sign that is reserved, and has no meaning.
#[derive(Clone, Copy, Debug, PartialEq, Eq, Drop)]
pub enum Reserved {
    /// `async`
    Async,
    /// `await`
    Await,
    /// `case`
    Case,
    /// `:=`
    ColonEquals,
    /// `--`
    Decrement,
    /// `default`
    Default,
    /// `go`
    Go,
    /// `goto`
    Goto,
    /// `===`
    Identical,
    /// `++`
    Increment,
    /// `is`
    Is,
    /// `match`
    Match,
    /// `module`
    Module,
    /// `new`
    New,
    /// `nil`
    Nil,
    /// `!==`
    NotIdentical,
    /// `null`
    Null,
    /// `package`
    Package,
    /// `protected`
    Protected,
    /// `public`
    Public,
    /// `shared`
    Shared,
    /// `spawn`
    Spawn,
    /// `static`
    Static,
    /// `super`
    Super,
    /// `sync`
    Sync,
    /// `thread`
    Thread,
    /// `use`
    Use,
    /// `var`
    Var,
    /// `void`
    Void,
    /// `with`
    With,
    /// `yield`
    Yield,
}

impl Reserved {
    fn text(self) -> &'static str {
        match self {
            Reserved::Async => "async",
            Reserved::Await => "await",
            Reserved::Case => "case",
            Reserved::ColonEquals => ":=",
            Reserved::Decrement => "--",
            Reserved::Default => "default",
            Reserved::Go => "go",
            Reserved::Goto => "goto",
            Reserved::Identical => "===",
            Reserved::Increment => "++",
            Reserved::Is => "is",
            Reserved::Match => "match",
            Reserved::Module => "module",
            Reserved::New => "new",
            Reserved::Nil => "nil",
            Reserved::NotIdentical => "!==",
            Reserved::Null => "null",
            Reserved::Package => "package",
            Reserved::Protected => "protected",
            Reserved::Public => "public",
            Reserved::Shared => "shared",
            Reserved::Spawn => "spawn",
            Reserved::Static => "static",
            Reserved::Super => "super",
            Reserved::Sync => "sync",
            Reserved::Thread => "thread",
            Reserved::Use => "use",
            Reserved::Var => "var",
            Reserved::Void => "void",
            Reserved::With => "with",
            Reserved::Yield => "yield",
        }
    }

    /// What has the meaning that other languages give it.
    fn instead(self) -> Option<&'static str> {
        match self {
            Reserved::ColonEquals => Some("="),
            Reserved::Decrement => Some("-= 1"),
            Reserved::Default => Some("_"),
            Reserved::Identical => Some("=="),
            Reserved::Increment => Some("+= 1"),
            Reserved::Match => Some("switch"),
            Reserved::NotIdentical => Some("!="),
            Reserved::Null | Reserved::Nil | Reserved::Void => Some("()"),
            Reserved::Use => Some("import"),
            Reserved::Var => Some("let"),
            _ => None,
        }
    }
}

impl fmt::Display for Reserved {
    fn fmt<W: fmt::Write>(&self, f: &mut fmt::Formatter<W>) -> fmt::Result {
        let text = self.text();
        match self.instead() {
            Some(instead) => {
                write!(
                    f,
                    "`{text}` is reserved and has no meaning: write `{instead}`"
                )
            }
            None => write!(f, "`{text}` is reserved and has no meaning"),
        }
    }
}

/// What a problem is about. It is an enum and not a text, since an error type that a recursive parser returns through a
/// function parameter can name no lifetime.
#[derive(Clone, Copy, Debug, PartialEq, Eq, Drop)]
pub enum Thing {
    /// The name that `import` gives a module.
    Alias,
    /// The arguments of a call.
    Arguments,
    /// `=>`
    Arrow,
    /// A case of a switch.
    Case,
    /// The value of a case.
    CaseLiteral,
    /// `catch`
    Catch,
    /// Chains of the pool.
    Chains,
    /// A character literal.
    Character,
    /// `:`
    Colon,
    /// `,`
    Comma,
    /// What follows an arm of a switch.
    CommaOrBrace,
    /// Arms of a switch that have a condition.
    ConditionalArms,
    /// Constants of the pool.
    Constants,
    /// The end of the text.
    EndOfText,
    /// `eval`
    Eval,
    /// `export`
    Export,
    /// An expression.
    Expression,
    /// `fn`
    Fn,
    /// A function.
    Function,
    /// The name of a function.
    FunctionName,
    /// `import`
    Import,
    /// `in`
    In,
    /// A range of integers.
    IntegerRange,
    /// Items of an array or a map that is written out.
    Items,
    /// Jumps.
    Jumps,
    /// `{`
    LeftBrace,
    /// `(`
    LeftParen,
    /// The name after a point.
    MemberName,
    /// The name of a module, as a string.
    ModuleText,
    /// Modules.
    Modules,
    /// A name.
    Name,
    /// Names of the pool.
    Names,
    /// Operations.
    Operations,
    /// Operators of the pool.
    Operators,
    /// A parameter.
    Parameter,
    /// The name of a parameter.
    ParameterName,
    /// `|`
    Pipe,
    /// A property of a map that is written out.
    Property,
    /// The name of a property of a map.
    PropertyName,
    /// `}`
    RightBrace,
    /// `]`
    RightBracket,
    /// `)`
    RightParen,
    /// A call that shares its caller's scope, `f!()`.
    ScopeCall,
    /// `;`
    Semicolon,
    /// A statement.
    Statement,
    /// Switches of the pool.
    Switches,
    /// A string literal.
    Text,
    /// A variable.
    Variable,
    /// The name of a variable.
    VariableName,
    /// Local variables.
    Variables,
    /// `while` or `until`
    WhileOrUntil,
}

impl Thing {
    fn text(self) -> &'static str {
        match self {
            Thing::Alias => "name of a module",
            Thing::Arguments => "arguments",
            Thing::Arrow => "`=>`",
            Thing::Case => "case",
            Thing::CaseLiteral => "a literal, a range of integers, or `_`",
            Thing::Catch => "`catch`",
            Thing::Chains => "chains",
            Thing::Character => "character",
            Thing::Colon => "`:`",
            Thing::Comma => "`,`",
            Thing::CommaOrBrace => "`,` or `}`",
            Thing::ConditionalArms => "arms with a condition in this switch",
            Thing::Constants => "constants",
            Thing::EndOfText => "the end of the text",
            Thing::Eval => "`eval`",
            Thing::Export => "`export`",
            Thing::Expression => "an expression",
            Thing::Fn => "`fn`",
            Thing::Function => "function",
            Thing::FunctionName => "the name of a function",
            Thing::Import => "`import`",
            Thing::In => "`in`",
            Thing::IntegerRange => "a range of integers",
            Thing::Items => "items",
            Thing::Jumps => "jumps",
            Thing::LeftBrace => "`{`",
            Thing::LeftParen => "`(`",
            Thing::MemberName => "the name of a property or a method",
            Thing::ModuleText => "the name of a module in double quotes",
            Thing::Modules => "modules",
            Thing::Name => "a name",
            Thing::Names => "names",
            Thing::Operations => "operations",
            Thing::Operators => "operators",
            Thing::Parameter => "parameter",
            Thing::ParameterName => "the name of a parameter",
            Thing::Pipe => "`|`",
            Thing::Property => "property",
            Thing::PropertyName => "the name of a property",
            Thing::RightBrace => "`}`",
            Thing::RightBracket => "`]`",
            Thing::RightParen => "`)`",
            Thing::ScopeCall => "a call with `!`",
            Thing::Semicolon => "`;`",
            Thing::Statement => "a statement (functions are declared outside of blocks)",
            Thing::Switches => "switches",
            Thing::Text => "string",
            Thing::Variable => "variable",
            Thing::VariableName => "the name of a variable",
            Thing::Variables => "variables",
            Thing::WhileOrUntil => "`while` or `until`",
        }
    }
}

impl fmt::Display for Thing {
    fn fmt<W: fmt::Write>(&self, f: &mut fmt::Formatter<W>) -> fmt::Result {
        f.write_str(self.text())
    }
}

/// What is wrong.
#[derive(Clone, Copy, Debug, PartialEq, Eq, Drop, Error)]
pub enum Problem {
    /// No lexeme begins with this character.
    #[error("nothing begins with {0:?}")]
    StrangeCharacter(char),
    /// The text ends inside a comment.
    #[error("this comment has no end")]
    UnfinishedComment,
    /// The text, or the line, ends inside a literal of that kind.
    #[error("this {0} has no end")]
    Unfinished(Thing),
    /// A backslash and this character are no escape.
    #[error("this is no escape sequence")]
    BadEscape,
    /// What begins as a number is none.
    #[error("this is no number")]
    BadNumber,
    /// The number doesn't fit 64 bits.
    #[error("this number doesn't fit 64 bits")]
    NumberTooLarge,
    /// A literal in single quotes isn't one character.
    #[error("single quotes are for one character: a string has double quotes")]
    NotOneCharacter,
    /// The word or the sign is reserved.
    #[error("{0}")]
    Reserved(Reserved),
    /// The name is that of a function of the language, and can't be declared.
    #[error("this name is reserved for a function of the language")]
    ReservedName,
    /// Something else is expected here.
    #[error("{0} is expected here")]
    Expected(Thing),
    /// The bracket that was opened at the place isn't closed here.
    #[error("{0} is expected here, since {1} opens a bracket")]
    Unclosed(Thing, Site),
    /// A condition is followed by `=`.
    #[error("`=` assigns, which is no condition: `==` compares")]
    AssignedCondition,
    /// This can't be assigned to.
    #[error("this can't be assigned to")]
    NotAssignable,
    /// A constant is assigned to.
    #[error("a constant can't be assigned to")]
    ConstantAssigned,
    /// No variable has this name. The place is where a variable with a similar name is declared, or none.
    #[error("no variable has this name")]
    UnknownVariable(Site),
    /// `break` or `continue` is outside of a loop.
    #[error("this is outside of a loop")]
    OutsideLoop,
    /// The same name or case is declared twice.
    #[error("this {0} is repeated")]
    Repeated(Thing),
    /// The case `_` of a switch has a condition.
    #[error("the case `_` can't have a condition")]
    DefaultCondition,
    /// The case `_` of a switch comes before others.
    #[error("the case `_` must be the last one")]
    DefaultNotLast,
    /// `try` is where a value is needed.
    #[error("`try` is a statement, and has no value")]
    TryAsValue,
    /// Expressions nest too deep.
    #[error("expressions nest too deep here")]
    TooDeep,
    /// No `import` of the text gives a module this name.
    #[error("no `import` gives a module this name")]
    UnknownModule,
    /// Where modules are sought there is none of this name.
    #[error("there is no module of this name")]
    NoSuchModule,
    /// A module imports itself, maybe by others.
    #[error("this module imports itself, directly or through others")]
    CyclicImport,
    /// The module has no such function that others may call.
    #[error("the module has no public function with this name and number of parameters")]
    NoSuchFunction,
    /// The module exports no such constant.
    #[error("the module exports no constant of this name")]
    NotExported,
    /// No constant that functions see has this name.
    #[error("`global::` has only constants of the top level, of literals and operators on these")]
    UnknownGlobal,
    /// A module has a statement that isn't a declaration.
    #[error("a module has only functions, constants and imports")]
    ModuleStatement,
    /// A variable or constant of a module is computed when the script runs.
    #[error("a module's constant is made of literals and operators on these")]
    ComputedExport,
    /// This is in a block or a function.
    #[error("{0} is only allowed outside of blocks and functions")]
    NotAtTop(Thing),
    /// There are more of these than code can number.
    #[error("there are too many {0}")]
    TooMany(Thing),
    /// This isn't compiled.
    #[error("{0} can't be compiled")]
    Unsupported(Thing),
    /// The allocator refused.
    #[error("out of memory")]
    OutOfMemory,
}

/// Why a source text isn't compiled.
#[derive(Clone, Copy, Debug, PartialEq, Eq, Drop)]
pub struct CompileError {
    /// Where it was noticed, or no place if the problem is with no part of the text.
    pub place: Site,
    /// What is wrong.
    pub problem: Problem,
}

impl CompileError {
    /// The problem at the place.
    #[must_use]
    pub fn new(place: Site, problem: Problem) -> CompileError
        ensures place { result.place ≡ place }
        ensures problem { result.problem ≡ problem }
    {
        CompileError { place, problem }
    }
}

impl fmt::Display for CompileError {
    fn fmt<W: fmt::Write>(&self, f: &mut fmt::Formatter<W>) -> fmt::Result {
        let place = self.place;
        let problem = self.problem;
        if place.is_some() {
            write!(f, "{place}: {problem}")
        } else {
            write!(f, "{problem}")
        }
    }
}

impl std::error::Error for CompileError {}

impl From<AllocError> for CompileError {
    fn from(_: AllocError) -> CompileError {
        CompileError::new(Site::NONE, Problem::OutOfMemory)
    }
}

impl<T: Drop> From<AllocFailed<T>> for CompileError {
    fn from(_: AllocFailed<T>) -> CompileError {
        CompileError::new(Site::NONE, Problem::OutOfMemory)
    }
}
