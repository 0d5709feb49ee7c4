//! What a program finds by an index, in constant time, or by a name.
ghost use Rattle.std.specs.Prelude.{◌≡◌, List, Option, Some, None, false, find, option_map, MatchOption};
ghost use Rattle.std.specs.Option.{ForSome, option_copied};
ghost use Rattle.grain.specs.Lookups.{is_named, is_text, is_typed, is_untyped};

use crate::program::Program;
use grain_base::{Dynamic, Token};
use grain_code::Function;
use grain_pools::{AssignOp, Chain, Lookups, Strings, Switch};

impl Lookups for Program {
    ghost use Rattle.grain.specs.Lookups.{pools_of};

    ghost pools = { pools_of };

    fn name(&self, index: u32) -> Option<&str> {
        self.parts.names.get(index)
    }

    fn constant(&self, index: u32) -> Option<&Dynamic> {
        self.parts.consts.get(index as usize)
    }

    fn token(&self, index: u32) -> Option<&Token> {
        self.parts.tokens.get(index as usize)
    }

    fn assign_op(&self, index: u32) -> Option<&AssignOp> {
        self.parts.assign_ops.get(index as usize)
    }

    fn chain(&self, index: u32) -> Option<&Chain> {
        self.parts.chains.get(index as usize)
    }

    fn switch(&self, index: u32) -> Option<&Switch> {
        self.parts.switches.get(index as usize)
    }
}

impl Program {
    /// The first function of this name and as many parameters that is declared for no receiver. The name is an index.
    ///
    /// It takes time by the number of functions, and no memory.
    pub fn function(&self, name: u32, argc: usize) -> Option<&Function>
        ensures { option_copied result ≡ find (is_untyped name argc) self.now.functions }
    {
        self.functions
            .iter()
            .find(|function| is_untyped(function, name, argc))
    }

    /// The first function of this name and as many parameters that is declared for a receiver of that type; if there is
    /// none, the first that is declared for no receiver. The name is an index, the type a text.
    ///
    /// It takes time by the number of functions and, for those of this name and as many parameters, by the length of the
    /// text, with which names as long as it are compared; and no memory.
    pub fn method(&self, name: u32, argc: usize, typed: &str) -> Option<&Function>
        ensures { MatchOption
            (find (is_typed self.now.names name argc typed.now) self.now.functions)
            (option_copied result ≡ find (is_untyped name argc) self.now.functions)
            (λ method. option_copied result ≡ Some method) }
    {
        let mut receiver = Sought::new(&self.parts.names, typed);
        let mut untyped = None;
        for function in &self.functions {
            if is_typed(&mut receiver, function, name, argc) {
                return Some(function);
            }
            if untyped.is_none() && is_untyped(function, name, argc) {
                untyped = Some(function);
            }
        }
        untyped
    }

    /// The first function of this name and as many parameters that is declared for no receiver. The name is a text.
    ///
    /// It takes time by the number of functions and, for those of as many parameters and no receiver, by the length of the
    /// text, with which names as long as it are compared; and no memory.
    pub fn function_named(&self, name: &str, argc: usize) -> Option<&Function>
        ensures { option_copied result
            ≡ find (is_named self.now.names name.now argc) self.now.functions }
    {
        let mut sought = Sought::new(&self.parts.names, name);
        for function in &self.functions {
            if is_named(&mut sought, function, argc) {
                return Some(function);
            }
        }
        None
    }

    /// The index of the name of the function that [`Program::function_named`] finds, in as much time. Where a name stands
    /// twice among the names, it is the index that this function has.
    pub fn function_name_index(&self, name: &str, argc: usize) -> Option<u32>
        ensures { result ≡ option_map (λ f. f.name)
            (find (is_named self.now.names name.now argc) self.now.functions) }
    {
        let function = self.function_named(name, argc)?;
        Some(function.name)
    }
}

/// A text that is sought among names. A name that was found to be another isn't compared again at once.
#[derive(Drop)]
struct Sought<'a> {
    names: &'a Strings,
    text: &'a str,
    /// The index of the name that was compared last.
    other: Option<u32>,
    ghost apart: { ForSome other (λ index. is_text names.now text.now index ≡ false) },
}

impl<'a> Sought<'a> {
    fn new(names: &'a Strings, text: &'a str) -> Sought<'a>
        ensures names { result.names.now ≡ names.now }
        ensures text { result.text.now ≡ text.now }
    {
        Sought {
            names,
            text,
            other: None,
        }
    }

    /// Whether the name at the index is the text.
    fn is_at(&mut self, index: u32) -> bool
        ensures here { result ≡ is_text self.old.names.now self.old.text.now index }
        ensures names { self.new.names.now ≡ self.old.names.now }
        ensures text { self.new.text.now ≡ self.old.text.now }
    {
        if self.other == Some(index) {
            return false;
        }
        let is_text = self.names.get(index) == Some(self.text);
        if !is_text {
            self.other = Some(index);
        }
        is_text
    }
}

/// Whether the function has this name and as many parameters, and is declared for no receiver.
fn is_untyped(function: &Function, name: u32, argc: usize) -> bool
    ensures { result ≡ is_untyped name argc function.now }
{
    function.name == name && function.params.len() == argc && function.this_type.is_none()
}

/// Whether the function has this name and as many parameters, and is declared for a receiver of the type that is sought.
fn is_typed(receiver: &mut Sought<'_>, function: &Function, name: u32, argc: usize) -> bool
    ensures typed { result
        ≡ is_typed receiver.old.names.now name argc receiver.old.text.now function.now }
    ensures names { receiver.new.names.now ≡ receiver.old.names.now }
    ensures text { receiver.new.text.now ≡ receiver.old.text.now }
{
    let Some(this_type) = function.this_type else {
        return false;
    };
    function.name == name && function.params.len() == argc && receiver.is_at(this_type)
}

/// Whether the function has the name that is sought and as many parameters, and is declared for no receiver.
fn is_named(name: &mut Sought<'_>, function: &Function, argc: usize) -> bool
    ensures named { result ≡ is_named name.old.names.now name.old.text.now argc function.now }
    ensures names { name.new.names.now ≡ name.old.names.now }
    ensures text { name.new.text.now ≡ name.old.text.now }
{
    is_untyped(function, function.name, argc) && name.is_at(function.name)
}
