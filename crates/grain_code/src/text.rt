//! The texts of operations and functions (docs/FORMAT.md, "Texts").

mod function;
mod op;
