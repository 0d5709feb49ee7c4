//! The syntax tree of a source text. Names and texts are indices.

use grain_base::Float;
use grain_base::pos::Site;
use rhai_lexer::{Names, Operator};
use std::alloc::Global;
use std::collections::{HashMap, HashSet};

/// A name, and where it is written.
#[derive(Clone, Copy, Debug, PartialEq, Eq, Drop)]
pub struct Binding {
    /// The name.
    pub name: u32,
    /// Where it is written.
    pub place: Site,
}

/// An expression or a statement, and where it begins.
#[derive(Drop)]
#[cycle(syntax)]
pub struct Expr {
    /// Where it begins. Of an assignment it is the place of its operator.
    pub place: Site,
    /// What it is.
    pub form: Form,
}

/// What an expression is. A statement is an expression whose value is unit.
#[derive(Drop)]
#[cycle(syntax)]
pub enum Form {
    /// A literal.
    Literal(Literal),
    /// A variable.
    Name(u32),
    /// `namespace::name`
    Qualified(u32, u32),
    /// `this`
    This,
    /// A string of pieces.
    Interpolated(Vec<Expr>),
    /// An array.
    Array(Vec<Expr>),
    /// An object map.
    Map(Vec<Entry>),
    /// An operator before its operand.
    Prefixed(Operator, Box<Expr>),
    /// Operators between operands, which are done from left to right.
    Operations(Box<Expr>, Vec<Operation>),
    /// A call of a function by its name.
    Call(u32, Vec<Expr>),
    /// A value and steps from it.
    Access(Box<Expr>, Vec<Access>),
    /// A function without a name, by its index.
    Closure(usize),
    /// Statements, of which the last has the value.
    Block(Vec<Expr>),
    /// Conditions with their blocks, and the block if none of them holds.
    If(Vec<Branch>, Vec<Expr>),
    /// A subject and the arms.
    Switch(Box<Expr>, Vec<Arm>),
    /// A condition and a block.
    While(Box<Expr>, Vec<Expr>),
    /// A block that is repeated until it is left.
    Loop(Vec<Expr>),
    /// A block, the condition after it, and the truth value for which the loop goes on.
    Do(Vec<Expr>, Box<Expr>, bool),
    /// The variable, the counter, the value whose items are visited, and the block.
    For(Binding, Option<Binding>, Box<Expr>, Vec<Expr>),
    /// The name, whether it is a constant, and the value.
    Let(Binding, bool, Option<Box<Expr>>),
    /// What is assigned to, the operator of an op-assignment, and the value.
    Assign(Box<Expr>, Option<Operator>, Box<Expr>),
    /// `return`
    Return(Option<Box<Expr>>),
    /// `throw`. Without a value it raises the fault again that the block around it catches.
    Throw(Option<Box<Expr>>),
    /// `break`
    Break(Option<Box<Expr>>),
    /// `continue`
    Continue,
    /// The block that is tried, the name of the fault, and the block that catches it.
    Try(Vec<Expr>, Catch, Vec<Expr>),
}

/// What a `catch` does with the fault.
#[derive(Clone, Copy, Debug, Drop)]
pub struct Catch {
    /// The variable that has its value.
    pub name: Option<Binding>,
    /// Whether the block raises it again.
    pub rethrows: bool,
}

/// A value that is written out.
#[derive(Clone, Copy, PartialEq, Eq, Hash)]
pub enum Literal {
    /// `()`
    Unit,
    /// `true` or `false`
    Bool(bool),
    /// An integer.
    Int(i64),
    /// A floating point number. `0.0` and `-0.0` are different literals.
    Float(Float),
    /// A character.
    Char(char),
    /// A string.
    Text(u32),
}

/// A property of an object map that is written out.
#[derive(Drop)]
#[cycle(syntax)]
pub struct Entry {
    /// The name, as a text.
    pub name: u32,
    /// The value.
    pub value: Expr,
}

/// An operator and the operand to its right.
#[derive(Drop)]
#[cycle(syntax)]
pub struct Operation {
    /// The operator.
    pub operator: Operator,
    /// Where the operator is.
    pub place: Site,
    /// The operand to its right.
    pub right: Expr,
}

/// A step from a value.
#[derive(Drop)]
#[cycle(syntax)]
pub struct Access {
    /// Where its bracket or its name is.
    pub place: Site,
    /// Whether the steps end early if the value is unit.
    pub is_optional: bool,
    /// What is reached.
    pub part: Part,
}

/// The part of a value that a step reaches.
#[derive(Drop)]
#[cycle(syntax)]
pub enum Part {
    /// An item, by its index.
    Index(Expr),
    /// A property.
    Property(u32),
    /// The result of a method.
    Method(u32, Vec<Expr>),
}

/// A condition and the block if it holds.
#[derive(Drop)]
#[cycle(syntax)]
pub struct Branch {
    /// The condition.
    pub condition: Expr,
    /// The block.
    pub body: Vec<Expr>,
}

/// Cases of a switch, and what is done in these.
#[derive(Drop)]
#[cycle(syntax)]
pub struct Arm {
    /// Where its first case is.
    pub place: Site,
    /// The cases.
    pub cases: Vec<Case>,
    /// The condition, without which the arm isn't taken.
    pub condition: Option<Expr>,
    /// What is done.
    pub body: Expr,
}

/// A case of a switch.
#[derive(Clone, Copy)]
pub enum Case {
    /// `_`: all that no other case has.
    Any,
    /// One value.
    Value(Literal),
    /// Integers from the first to the second, and whether that is one of them.
    Range(i64, i64, bool),
}

/// A function, or what a closure calls.
#[derive(Drop)]
pub struct Function {
    /// Where it begins.
    pub place: Site,
    /// Its name.
    pub name: u32,
    /// Its parameters.
    pub params: Vec<Binding>,
    /// The name of the type of `this`, if it is declared for one.
    pub this_type: Option<u32>,
    /// Whether only this script may call it.
    pub is_private: bool,
    /// Whether it is a closure.
    pub is_closure: bool,
    /// Its statements.
    pub body: Vec<Expr>,
    /// The names that a closure's body uses.
    pub uses: Vec<u32>,
}

/// A module that a text imports.
#[derive(Clone, Copy, Drop)]
pub struct Import {
    /// Where its name is.
    pub place: Site,
    /// Its name, as a text.
    pub module: u32,
}

/// A call of a function of a module.
#[derive(Clone, Copy, Drop)]
pub struct ModuleCall {
    /// Where it is.
    pub place: Site,
    /// The name of the function in the program.
    pub name: u32,
    /// How many arguments there are.
    pub argc: usize,
}

/// A constant that is read by a name with `::`.
#[derive(Clone, Copy, Drop)]
pub enum Constant {
    /// A literal.
    Literal(Literal),
    /// What the function of this name returns, which has no parameters.
    Computed(u32),
}

/// What the texts of a program have for each other. Names are those that things have in the program: what a module has begins
/// with the name of the module and `::`.
#[derive(Drop)]
pub struct Interface {
    /// The modules that are imported, in the order of the texts.
    pub imports: Vec<Import>,
    /// The constants that are read by names with `::`, except for literals of the main text.
    pub constants: HashMap<u32, Constant>,
    /// The functions that modules have for others, by names and numbers of parameters.
    pub functions: HashSet<(u32, usize)>,
    /// The calls of functions of modules.
    pub calls: Vec<ModuleCall>,
}

/// A whole source text, maybe with modules.
#[derive(Drop)]
pub struct Syntax {
    /// The names.
    pub names: Names,
    /// The texts of string literals.
    pub texts: Names,
    /// The functions. Of two that nest, the inner one comes first.
    pub functions: Vec<Function>,
    /// The statements of the main text outside of functions.
    pub body: Vec<Expr>,
    /// What the texts have for each other.
    pub interface: Interface,
}

impl Interface {
    pub(crate) fn new(alloc: Global) -> Interface {
        Interface {
            imports: Vec::new(alloc),
            constants: HashMap::new(alloc),
            functions: HashSet::new(alloc),
            calls: Vec::new(alloc),
        }
    }
}
