//! Operators and op-assignments.

use crate::chance::Chance;
use grain::{AssignOp, Token};
use std::alloc::{AllocError, Global};

/// The operators of the language that are no op-assignments, and one of a host.
fn all_tokens(alloc: Global) -> Result<Vec<Token>, AllocError> {
    let mut all: Vec<Token> = (0..u8::MAX)
        .map_while(|number| Token::of_number(number))
        .filter(|token| token.base_operator().is_none())
        .collect(alloc)?;
    all.push(Token::Custom(String::from_str(alloc, "<=>")?))?;
    Ok(all)
}

/// Op-assignments, each with the operator that it applies.
fn all_assignments(alloc: Global) -> Result<Vec<(Token, Token)>, AllocError> {
    (0..u8::MAX)
        .map_while(|number| Token::of_number(number))
        .filter_map(|op_assign| {
            let op = op_assign.base_operator()?;
            Some((op_assign, op))
        })
        .collect(alloc)
}

/// Some operators, in order, at least one.
pub fn tokens(alloc: Global, chance: &mut Chance) -> Result<Vec<Token>, AllocError> {
    let all = all_tokens(alloc)?;
    let first = chance.index(all.len());
    let count = chance.index(all.len()).saturating_add(1);
    all.into_iter().skip(first).take(count).collect(alloc)
}

/// Some op-assignments, at least one, with names that are below this number.
pub fn assignments(
    alloc: Global,
    chance: &mut Chance,
    names: u32,
) -> Result<Vec<AssignOp>, AllocError> {
    let all = all_assignments(alloc)?;
    let first = chance.index(all.len());
    let mut made = Vec::new(alloc);
    for (op_assign, op) in all.into_iter().skip(first) {
        made.push(AssignOp {
            op_assign,
            op_assign_name: chance.below(names),
            op,
            op_name: chance.below(names),
        })?;
    }
    Ok(made)
}
