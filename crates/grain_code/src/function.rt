//! Functions of a program.

use crate::chunk::Chunk;
use grain_base::FnAccess;

/// A function of a program. Names are indices of the name pool.
#[derive(Debug, Drop)]
pub struct Function {
    /// The name of the function.
    pub name: u32,
    /// The names of the parameters, in order.
    pub params: Vec<u32>,
    /// Who may call it.
    pub access: FnAccess,
    /// The name of the type of the receiver, if the function is declared for one.
    pub this_type: Option<u32>,
    /// Its body.
    pub chunk: Chunk,
}
