//! The syntax of Rhai: from a source text to the tree of its statements and functions.
//!
//! [`parse`] reads a text. Statements are expressions, as in Rhai, where a block, a choice and a loop have values. The depth of
//! nesting is bounded by [`MAX_DEPTH`], so that no text uses more than a fixed amount of the call stack.
#![tactic(auto)]

mod ast;
mod cursor;
mod grammar;
mod linking;
mod links;
mod operand;
mod outermost;
mod recovery;
mod statement;

pub use ast::{
    Access, Arm, Binding, Branch, Case, Catch, Constant, Entry, Expr, Form, Function, Import,
    Interface, Literal, ModuleCall, Operation, Part, Syntax,
};
pub use grammar::{MAX_DEPTH, flaws, parse, parse_more};
pub use recovery::MAX_FLAWS;
