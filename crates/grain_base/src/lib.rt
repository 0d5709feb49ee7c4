//! The base of Rhai Grain bytecode: numbers of variable length, the address table, values, capabilities that a program requires
//! of its host, source positions and operator tokens.
#![tactic(auto)]

mod access;
mod caps;
mod float;
pub mod laws;
mod operators;
pub mod pos;
mod position;
mod token;
mod value;
pub mod varint;

pub use access::FnAccess;
pub use bitflags::Flags;
pub use caps::Caps;
pub use float::{Float, write_number};
pub use position::Position;
pub use token::Token;
pub use value::{Dynamic, FnPtr, HostValue};
