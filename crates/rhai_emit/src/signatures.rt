//! Functions apart from their bodies, and constants that all functions see.
ghost use Rattle.std.specs.Prelude.{◌≡◌, IfOk};
ghost use Rattle.rhai_emit.specs.Bodies.{bodies_places};
ghost use Rattle.rhai_emit.specs.Places.{functions_places};

use crate::declared::Declared;
use crate::emitter::Signature;
use grain_base::pos::Site;
use rhai_errors::CompileError;
use rhai_syntax::{Constant, Expr, Form, Function, Literal};
use std::alloc::Global;
use std::collections::{HashMap, HashSet};

/// The statements of a function, and where it begins.
#[derive(Drop)]
pub struct Body {
    /// Where it begins.
    pub place: Site,
    /// Its statements.
    pub statements: Vec<Expr>,
}

/// The signatures of functions, by their indices and by their names.
#[derive(Drop)]
pub struct Signatures {
    pub(crate) list: Vec<Signature>,
    pub(crate) declared: Declared,
}

/// The signatures of functions, apart from their bodies.
///
/// # Errors
/// Two functions have the same name, the same number of parameters and the same type of `this`; or the allocator refused.
pub fn split_functions(
    alloc: Global,
    functions: Vec<Function>,
) -> Result<(Signatures, Vec<Body>), CompileError>
    ensures { IfOk result (λ split. bodies_places split.1.items ≡ functions_places functions.items) }
{
    let mut list = Vec::new(alloc);
    let mut declared = Declared::new(alloc);
    let mut bodies = Vec::new(alloc);
    for function in functions {
        declared.add(&function)?;
        list.push(Signature {
            place: function.place,
            name: function.name,
            params: function.params,
            this_type: function.this_type,
            is_private: function.is_private,
            is_closure: function.is_closure,
            uses: function.uses,
            captured: Vec::new(alloc),
        })?;
        bodies.push(Body {
            place: function.place,
            statements: function.body,
        })?;
    }
    Ok((Signatures { list, declared }, bodies))
}

/// The constants that are read by names with `::`: the given ones, and those of the top level that are declared once and whose
/// values are literals.
pub fn global_constants(
    alloc: Global,
    body: &[Expr],
    given: HashMap<u32, Constant>,
) -> Result<HashMap<u32, Constant>, CompileError> {
    let mut constants = given;
    let mut seen = HashSet::new(alloc);
    for statement in body {
        let Form::Let(binding, is_const, value) = &statement.form else {
            continue;
        };
        if !seen.insert(binding.name)? {
            let _ = constants.remove(&binding.name);
        } else if *is_const && let Some(literal) = literal_of(value) {
            let _ = constants.insert(binding.name, Constant::Literal(literal))?;
        }
    }
    Ok(constants)
}

/// The literal that a declaration has as its value.
fn literal_of(value: &Option<Box<Expr>>) -> Option<Literal> {
    let Some(value) = value else {
        return None;
    };
    match &value.form {
        Form::Literal(literal) => Some(*literal),
        _ => None,
    }
}
