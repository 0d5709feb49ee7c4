//! Calls, function pointers and closures.
ghost use Rattle.std.specs.Prelude.{◌≡◌, ◌+◌, ◌-◌, ◌≤◌, OnOk};
ghost use Rattle.rhai_emit.specs.Rules.{IsWritten, AddsPlaces};
ghost use Rattle.rhai_emit.specs.Places.{here};

use crate::emitter::Emitter;
use crate::scope::Local;
use crate::writing::argc_of;
use grain_base::pos::Site;
use grain_code::{Op, Receiver};
use rhai_errors::CompileError;
use rhai_syntax::{Expr, Form, Literal};
use std::collections::HashSet;

/// What a call of a name is.
#[derive(Clone, Copy, PartialEq, Eq)]
pub enum CallTarget {
    /// A function pointer to a name is made.
    Pointer,
    /// A function pointer is called.
    Called,
    /// Arguments are bound to a function pointer.
    Curried,
    /// Whether a variable is shared.
    Shared,
    /// A text is evaluated.
    Evaluated,
    /// Whether a local variable is declared, which is so.
    Defined,
    /// Any other function.
    Function,
}

/// What a call of this name is.
pub fn callee_of(name: &str) -> CallTarget {
    match name {
        "Fn" => CallTarget::Pointer,
        "call" => CallTarget::Called,
        "curry" => CallTarget::Curried,
        "is_shared" => CallTarget::Shared,
        "eval" => CallTarget::Evaluated,
        _ => CallTarget::Function,
    }
}

impl Emitter {
    /// Whether the script has a function of that name with this many parameters, for any receiver.
    pub fn has_function(&self, name: u32, argc: usize) -> bool {
        self.declared.has(name, argc)
    }

    /// Whether the script has one that is declared for no receiver, as a call by name finds it.
    pub fn has_plain_function(&self, name: u32, argc: usize) -> bool {
        self.declared.has_plain(name, argc)
    }

    /// The slot of an expression that is a local variable.
    pub fn slot_of(&self, from: &Expr) -> Option<u16> {
        match &from.form {
            Form::Name(name) => match self.scope.find(*name) {
                Some(found) => Some(found.slot),
                None => None,
            },
            _ => None,
        }
    }

    /// Whether a name is that of a function of the script, and of no local variable. Its value is a pointer to the function.
    pub(crate) fn is_pointer(&self, name: u32) -> bool {
        self.declared.has_name(name) && self.scope.find(name).is_none()
    }

    /// Whether an expression is a local constant, or a function by its name. What changes it is given a copy.
    pub fn is_constant(&self, from: &Expr) -> bool {
        match &from.form {
            Form::Name(name) => match self.scope.find(*name) {
                Some(found) => found.is_const,
                None => self.declared.has_name(*name),
            },
            _ => false,
        }
    }

    /// What a call of the name with these arguments is. `is_def_var` is a function of the host, except for the name of a local
    /// variable, of which the host knows nothing.
    pub fn target_of(&self, name: u32, arguments: &[Expr]) -> CallTarget {
        let name = self.pools.names.get(name);
        match arguments {
            [argument] if name == "is_def_var" && self.is_defined(argument) => CallTarget::Defined,
            _ => callee_of(name),
        }
    }

    /// Whether an expression is a text that names a local variable.
    fn is_defined(&self, from: &Expr) -> bool {
        let Form::Literal(Literal::Text(text)) = &from.form else {
            return false;
        };
        match self.pools.names.find(self.pools.texts.get(*text)) {
            Some(name) => self.scope.find(name).is_some(),
            None => false,
        }
    }

    /// The slot of an expression that is a local variable and no constant, so that a call may change it.
    pub fn changeable_slot_of(&self, from: &Expr) -> Option<u16> {
        if self.is_constant(from) {
            return None;
        }
        self.slot_of(from)
    }

    /// Whether a method is one of function pointers.
    pub fn is_of_pointers(&self, name: u32) -> bool {
        match callee_of(self.pools.names.get(name)) {
            CallTarget::Called | CallTarget::Curried => true,
            _ => false,
        }
    }

    /// Whether a method calls a function pointer.
    pub fn is_called(&self, name: u32) -> bool {
        callee_of(self.pools.names.get(name)) == CallTarget::Called
    }

    /// Calls a function on a local variable, which is the first of this many arguments.
    pub fn call_on(
        &mut self,
        place: Site,
        name: u32,
        slot: u16,
        argc: u8,
    ) -> Result<(), CompileError>
        requires { self.old.code.level.floor + (argc - 1) ≤ self.old.code.operands }
        ensures written { OnOk result (IsWritten self.old self.new (self.old.code.operands - (argc - 1) + 1)) }
        ensures placed { OnOk result (AddsPlaces self.old self.new (here place)) }
    {
        let call = Op::CallRef {
            name,
            argc,
            receiver: Receiver::Local(slot),
            capture_parent_scope: false,
        };
        self.put(place, call, usize::from(argc.saturating_sub(1)), 1)
    }

    /// The variable on which a method calls a function pointer, so that the function may change it: a local one that is no
    /// constant, or `this`.
    pub fn receiver_of(&self, from: &Expr) -> Option<Receiver> {
        match &from.form {
            Form::This => Some(Receiver::This),
            _ => self
                .changeable_slot_of(from)
                .map(|slot| Receiver::Local(slot)),
        }
    }

    /// Calls the function pointer below this many arguments. As a method it calls the pointer that is the first of them on the
    /// value below, unless that is a function pointer itself.
    pub fn call_pointer(
        &mut self,
        place: Site,
        argc: u8,
        is_method: bool,
    ) -> Result<(), CompileError>
        requires { self.old.code.level.floor + argc + 1 ≤ self.old.code.operands }
        ensures written { OnOk result (IsWritten self.old self.new (self.old.code.operands - argc)) }
        ensures placed { OnOk result (AddsPlaces self.old self.new (here place)) }
    {
        let call = Op::CallFnPtr {
            argc,
            is_method,
            capture_parent_scope: false,
            receiver: None,
        };
        self.put(place, call, usize::from(argc) + 1, 1)
    }

    /// Calls the function pointer below this many arguments on a variable. If the variable has a function pointer itself,
    /// that one is called, with the value below the arguments as the first of them.
    pub fn call_pointer_on(
        &mut self,
        place: Site,
        receiver: Receiver,
        argc: u8,
    ) -> Result<(), CompileError>
        requires { self.old.code.level.floor + argc + 1 ≤ self.old.code.operands }
        ensures written { OnOk result (IsWritten self.old self.new (self.old.code.operands - argc)) }
        ensures placed { OnOk result (AddsPlaces self.old self.new (here place)) }
    {
        let call = Op::CallFnPtr {
            argc,
            is_method: true,
            capture_parent_scope: false,
            receiver: Some(receiver),
        };
        self.put(place, call, usize::from(argc) + 1, 1)
    }

    /// Binds this many arguments to the function pointer below them.
    pub fn curry(&mut self, place: Site, argc: u8) -> Result<(), CompileError>
        requires { self.old.code.level.floor + argc + 1 ≤ self.old.code.operands }
        ensures written { OnOk result (IsWritten self.old self.new (self.old.code.operands - argc)) }
        ensures placed { OnOk result (AddsPlaces self.old self.new (here place)) }
    {
        self.put(place, Op::Curry(argc), usize::from(argc) + 1, 1)
    }

    /// A pointer to a closure. Each variable that it captures becomes a shared value, which is bound to the pointer.
    pub fn closure(&mut self, place: Site, index: usize) -> Result<(), CompileError>
        requires { self.old.code.level.floor ≤ self.old.code.operands }
        ensures written { OnOk result (IsWritten self.old self.new (self.old.code.operands + 1)) }
        ensures placed { OnOk result (AddsPlaces self.old self.new (here place)) }
    {
        let Some(signature) = self.signatures.get(index) else {
            return self.put(place, Op::Unit, 0, 1);
        };
        let name = signature.name;
        let (captured, slots) = self.captured(index)?;
        self.put(place, Op::MakeClosure(name), 0, 1)?;
        self.bind_captured(place, &slots)?;
        if let Some(signature) = self.signatures.get_mut(index) {
            signature.captured = captured;
        }
        Ok(())
    }

    /// Shares the variables in these slots, and binds them to the pointer on top.
    fn bind_captured(&mut self, place: Site, slots: &[u16]) -> Result<(), CompileError>
        requires { self.old.code.level.floor + 1 ≤ self.old.code.operands }
        ensures written { OnOk result (IsWritten self.old self.new self.old.code.operands) }
        ensures placed { OnOk result (AddsPlaces self.old self.new (here place)) }
    {
        let argc = argc_of(place, slots.len())?;
        if argc == 0 {
            return Ok(());
        }
        for slot in slots {
            self.put(place, Op::Share(*slot), 0, 0)?;
            self.put(place, Op::LoadShared(*slot), 0, 1)?;
        }
        self.curry(place, argc)
    }

    /// The variables around a closure that it uses and that are none of its parameters, and their slots.
    fn captured(&self, index: usize) -> Result<(Vec<Local>, Vec<u16>), CompileError> {
        let mut captured = Vec::new(self.alloc);
        let mut slots = Vec::new(self.alloc);
        let Some(signature) = self.signatures.get(index) else {
            return Ok((captured, slots));
        };
        let mut params = HashSet::new(self.alloc);
        for param in &signature.params {
            let _is_new = params.insert(param.name)?;
        }
        for name in &signature.uses {
            if !params.contains(name)
                && let Some(local) = self.local(*name)
                && let Some(found) = self.scope.find(*name)
            {
                captured.push(local)?;
                slots.push(found.slot)?;
            }
        }
        Ok((captured, slots))
    }

    /// The local variable that was declared last with this name.
    fn local(&self, name: u32) -> Option<Local> {
        let found = self.scope.find(name)?;
        self.scope.locals.get(usize::from(found.slot)).copied()
    }
}
