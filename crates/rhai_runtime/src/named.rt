//! Functions and names of a program that the embedding program gives by their texts.
ghost use Rattle.std.specs.Prelude.{◌≡◌, IfSome, None, position, true};
ghost use Rattle.grain.specs.Lookups.{is_named, is_text};
ghost use Rattle.rhai_runtime.specs.Named.{IsFunctionNamed, LacksName};

use grain::Program;
use grain_code::Function;

/// Whether the function at an index has this name and number of parameters, and is declared for no receiver.
pub(crate) fn is_function_named(program: &Program, index: usize, name: &str, params: usize) -> bool
    ensures { result ≡ true → IsFunctionNamed program.now name.now params index }
{
    match program.functions().get(index) {
        Some(function) => is_named(program, function, name, params),
        None => false,
    }
}

/// The index of the first function that has this name and number of parameters, and is declared for no receiver. It takes time by
/// the number of functions.
pub(crate) fn first_function(program: &Program, name: &str, params: usize) -> Option<usize>
    ensures { result ≡ position (is_named program.now.names name.now params) program.now.functions }
{
    program
        .functions()
        .iter()
        .position(|function| is_named(program, function, name, params))
}

/// Whether the function has this name and number of parameters, and is declared for no receiver.
fn is_named(program: &Program, function: &Function, name: &str, params: usize) -> bool
    ensures { result ≡ is_named program.now.names name.now params function.now }
{
    function.params.len() == params
        && function.this_type.is_none()
        && is_text(program, function.name, name)
}

/// Whether the name at the index is this text.
pub(crate) fn is_text(program: &Program, index: u32, name: &str) -> bool
    ensures { result ≡ is_text program.now.names name.now index }
{
    program.names().get(index) == Some(name)
}

/// The first index that finds this name. It takes time by the number of names.
pub(crate) fn first_name(program: &Program, name: &str) -> Option<u32>
    ensures found { IfSome result (λ index. is_text program.now.names name.now index ≡ true) }
    ensures none { result ≡ None → LacksName program.now name.now }
{
    for index in 0..=u32::MAX {
        let other = program.names().get(index)?;
        if other == name {
            return Some(index);
        }
    }
    None
}
