//! Op-assignments.

use grain_base::Token;

/// An op-assignment, as `+=`, with the operator that it applies if it has no function of its own. Names are
/// indices of the name pool.
#[derive(Debug, PartialEq, Eq, Drop)]
pub struct AssignOp {
    /// The operator of the op-assignment, as `+=`.
    pub op_assign: Token,
    /// The name of that operator.
    pub op_assign_name: u32,
    /// The operator that it applies, as `+`.
    pub op: Token,
    /// The name of that operator.
    pub op_name: u32,
}
