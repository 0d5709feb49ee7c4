//! The variables of a run, by their slots and names.

use crate::cause::{Cause, Reason};
use crate::frames::{Call, Lent, This, Variable};
use crate::path::swapped;
use crate::shares::Shares;
use crate::value::Value;
use std::alloc::{AllocError, Global};

/// The variables of a run. Each function sees its own local ones, and all named ones.
#[derive(Drop)]
pub struct Variables {
    alloc: Global,
    locals: Vec<Value>,
    /// Where the local variables of the function that runs begin.
    base: usize,
    /// By the index of the name.
    named: Vec<Option<Value>>,
    /// What slots share: a slot holds what refers to it.
    shared: Shares,
    calls: Vec<Call>,
    /// The values of `this` of the calls that have one. Few have, so that calls stay small.
    receivers: Vec<This>,
}

impl Variables {
    /// No variables, of a script that has called nothing yet.
    #[must_use]
    pub fn new(alloc: Global) -> Variables {
        Variables {
            alloc,
            locals: Vec::new(alloc),
            base: 0,
            named: Vec::new(alloc),
            shared: Shares::new(alloc),
            calls: Vec::new(alloc),
            receivers: Vec::new(alloc),
        }
    }

    /// A run begins: it has no local variables, and has called nothing. Named variables, and what closures share, are kept.
    pub fn begin_run(&mut self) {
        self.locals.clear();
        self.base = 0;
        self.calls.clear();
        self.receivers.clear();
    }

    #[inline(always)]
    fn place(&self, slot: u16) -> usize {
        self.base.saturating_add(slot as usize)
    }

    /// What a slot holds, a share itself if it is one.
    #[inline(always)]
    #[must_use]
    pub fn slot(&self, slot: u16) -> Option<&Value> {
        self.locals.get(self.place(slot))
    }

    /// The value of the local variable in a slot, if there is one.
    #[inline(always)]
    #[must_use]
    pub fn value(&self, slot: u16) -> Option<&Value> {
        match self.locals.get(self.place(slot))? {
            Value::Shared(index) => self.shared.get(**index),
            value => Some(value),
        }
    }

    /// The place of the value of the local variable in a slot, if there is one.
    #[inline(always)]
    pub fn value_mut(&mut self, slot: u16) -> Option<&mut Value> {
        let place = self.place(slot);
        match self.shared_at(place) {
            Some(index) => self.shared.get_mut(index),
            None => self.locals.get_mut(place),
        }
    }

    /// What a slot holds, a share itself if it is one.
    ///
    /// # Errors
    /// [`Reason::NoVariable`] if the slot holds nothing. No compiled script reads such a slot.
    pub fn raw(&self, slot: u16) -> Result<&Value, Cause> {
        match self.locals.get(self.place(slot)) {
            Some(value) => Ok(value),
            None => Err(self.no_slot(slot)),
        }
    }

    /// The value of the local variable in a slot.
    ///
    /// # Errors
    /// As [`raw`](Variables::raw).
    pub fn local(&self, slot: u16) -> Result<&Value, Cause> {
        match self.value(slot) {
            Some(value) => Ok(value),
            None => Err(self.no_slot(slot)),
        }
    }

    /// The place of the value of the local variable in a slot.
    ///
    /// # Errors
    /// As [`raw`](Variables::raw).
    pub fn local_mut(&mut self, slot: u16) -> Result<&mut Value, Cause> {
        let alloc = self.alloc;
        match self.value_mut(slot) {
            Some(value) => Ok(value),
            None => Err(no_slot(alloc, slot)),
        }
    }

    /// What the local variable at a place shares, if it does.
    #[inline(always)]
    fn shared_at(&self, place: usize) -> Option<usize> {
        match self.locals.get(place) {
            Some(Value::Shared(index)) => Some(**index),
            _ => None,
        }
    }

    fn no_slot(&self, slot: u16) -> Cause {
        no_slot(self.alloc, slot)
    }

    /// Assigns to the local variable in a slot.
    ///
    /// # Errors
    /// As [`raw`](Variables::raw).
    pub fn set_local(&mut self, slot: u16, value: Value) -> Result<(), Cause> {
        let place = self.local_mut(slot)?;
        *place = value;
        Ok(())
    }

    /// The item at a place of the array in a slot, if it is plain.
    #[inline(always)]
    #[must_use]
    pub fn plain_item(&self, slot: u16, place: usize) -> Option<Value> {
        match self.value(slot)? {
            Value::Array(list) => list.items().get(place)?.plain(),
            _ => None,
        }
    }

    /// Declares a local variable, whose slot is the next one, if that needs no memory.
    #[inline(always)]
    pub fn declare_reserved(&mut self, value: Value) -> bool {
        if self.locals.len() < self.locals.capacity() {
            self.locals.push_reserved(value);
            true
        } else {
            false
        }
    }

    /// Declares a local variable, whose slot is the next one.
    ///
    /// # Errors
    /// Out of memory.
    pub fn declare(&mut self, value: Value) -> Result<(), Cause> {
        self.locals.push(value)?;
        Ok(())
    }

    /// Keeps this number of local variables of the function that runs, and drops the later ones.
    #[inline(always)]
    pub fn unwind_to(&mut self, depth: u16) {
        let place = self.place(depth);
        if place < self.locals.len() {
            self.drop_from(place);
        }
    }

    /// Drops the local variables from a place on.
    #[inline(never)]
    fn drop_from(&mut self, place: usize) {
        self.locals.truncate(place);
    }

    /// Makes a slot one that closures may share.
    ///
    /// # Errors
    /// As [`raw`](Variables::raw), or out of memory: then the variable is lost.
    pub fn share(&mut self, slot: u16) -> Result<(), Cause> {
        let place = self.place(slot);
        match self.locals.get_mut(place) {
            Some(Value::Shared(_)) => Ok(()),
            Some(local) => {
                let value = local.take();
                *local = Value::Shared(self.shared.add(value)?);
                Ok(())
            }
            None => Err(no_slot(self.alloc, slot)),
        }
    }

    /// Makes the variable of a name one that closures may share.
    ///
    /// # Errors
    /// [`Reason::NoVariable`], without the name, if there is none; or out of memory: then the variable is lost.
    pub fn share_named(&mut self, name: u32) -> Result<(), Cause> {
        match self.named.get_mut(name as usize) {
            Some(Some(Value::Shared(_))) => Ok(()),
            Some(Some(variable)) => {
                let value = variable.take();
                *variable = Value::Shared(self.shared.add(value)?);
                Ok(())
            }
            _ => {
                let no_name = String::new(self.alloc);
                Err(Cause::Detailed(Reason::NoVariable, no_name))
            }
        }
    }

    /// The value of a named variable, a share itself if it is one.
    #[must_use]
    pub fn raw_named(&self, name: u32) -> Option<&Value> {
        match self.named.get(name as usize) {
            Some(Some(value)) => Some(value),
            _ => None,
        }
    }

    /// The value of a named variable.
    #[must_use]
    pub fn named(&self, name: u32) -> Option<&Value> {
        match self.raw_named(name)? {
            Value::Shared(index) => self.shared.get(**index),
            value => Some(value),
        }
    }

    /// The place of the value of a named variable.
    pub fn named_mut(&mut self, name: u32) -> Option<&mut Value> {
        match self.shared_named(name) {
            Some(index) => self.shared.get_mut(index),
            None => match self.named.get_mut(name as usize) {
                Some(Some(value)) => Some(value),
                _ => None,
            },
        }
    }

    /// What the variable of a name shares, if it does.
    fn shared_named(&self, name: u32) -> Option<usize> {
        match self.raw_named(name) {
            Some(Value::Shared(index)) => Some(**index),
            _ => None,
        }
    }

    /// Gives the variable of a name its value, and declares it if it isn't there.
    ///
    /// # Errors
    /// Out of memory; the variable is as it was.
    pub fn set_named(&mut self, name: u32, value: Value) -> Result<(), AllocError> {
        if let Some(variable) = self.named_mut(name) {
            *variable = value;
            return Ok(());
        }
        let len = self.named.len();
        for _ in len..(name as usize).saturating_add(1) {
            self.named.push(None)?;
        }
        if let Some(place) = self.named.get_mut(name as usize) {
            *place = Some(value);
        }
        Ok(())
    }

    /// The value of `this` in the function that runs, if it has one.
    #[must_use]
    pub fn this(&self) -> Option<&Value> {
        if !self.calls.last()?.has_this {
            return None;
        }
        match self.receivers.last() {
            Some(this) => Some(&this.value),
            None => None,
        }
    }

    /// The place of the value of `this` in the function that runs, if it has one.
    pub fn this_mut(&mut self) -> Option<&mut Value> {
        if !self.calls.last()?.has_this {
            return None;
        }
        match self.receivers.last_mut() {
            Some(this) => Some(&mut this.value),
            None => None,
        }
    }

    /// A function begins, whose first local variables are these arguments. It was called by the operation at an address.
    ///
    /// # Errors
    /// Out of memory; no function has begun, and the arguments are where they were.
    pub fn begin(&mut self, arguments: &mut [Value], at: usize) -> Result<(), Cause> {
        self.calls.reserve(1)?;
        self.locals.reserve(arguments.len())?;
        let base = self.locals.len();
        for argument in arguments {
            self.locals.push(argument.take())?;
        }
        self.enter(base, at, false)
    }

    /// As [`begin`](Variables::begin), of a function whose first arguments are bound, or that is called on a value.
    ///
    /// # Errors
    /// Out of memory.
    pub fn begin_bound(
        &mut self,
        bound: &[Value],
        arguments: &mut [Value],
        this: Option<This>,
        at: usize,
    ) -> Result<(), Cause> {
        let base = self.push_locals(bound, arguments)?;
        match this {
            None => self.enter(base, at, false),
            Some(this) => {
                self.receivers.push(this)?;
                self.enter(base, at, true)
            }
        }
    }

    /// Makes room for a call and its `this`, pushes its first local variables, and gives the slot of the first.
    fn push_locals(&mut self, bound: &[Value], arguments: &mut [Value]) -> Result<usize, Cause> {
        self.calls.reserve(1)?;
        self.receivers.reserve(1)?;
        self.locals
            .reserve(bound.len().saturating_add(arguments.len()))?;
        let base = self.locals.len();
        for value in bound {
            self.locals.push(value.clone()?)?;
        }
        for argument in arguments {
            self.locals.push(argument.take())?;
        }
        Ok(base)
    }

    fn enter(&mut self, base: usize, at: usize, has_this: bool) -> Result<(), Cause> {
        self.calls.push(Call {
            base: self.base,
            at,
            has_this,
        })?;
        self.base = base;
        Ok(())
    }

    /// The last function ends that began, and its local variables with it. Its `this` stays, for
    /// [`take_this`](Variables::take_this).
    pub fn end(&mut self) -> Option<Call> {
        let call = self.calls.pop()?;
        self.locals.truncate(self.base);
        self.base = call.base;
        Some(call)
    }

    /// The value of `this` of the function that has just ended on one.
    pub fn take_this(&mut self) -> Option<This> {
        self.receivers.pop()
    }

    /// Puts a value back where it was taken from, if it was.
    ///
    /// # Errors
    /// The variable is no longer there, or has no such part: then the value is lost.
    pub fn give_back(&mut self, value: Value, lent: Option<Lent>) -> Result<(), Cause> {
        let Some(Lent { variable, path }) = lent else {
            return Ok(());
        };
        let place = match variable {
            Variable::Local(slot) => self.local_mut(slot)?,
            Variable::Named(name) => match self.named_mut(name) {
                Some(place) => place,
                None => return Err(Cause::Unsupported),
            },
            Variable::This => match self.this_mut() {
                Some(place) => place,
                None => return Err(Cause::NoThis),
            },
        };
        let _ = swapped(place, path.as_slice(), value)?;
        Ok(())
    }
}

/// The cause if a slot holds no variable. No compiled script meets it.
fn no_slot(alloc: Global, slot: u16) -> Cause {
    match format!(in alloc; "slot {slot}") {
        Ok(text) => Cause::Detailed(Reason::NoVariable, text),
        Err(_) => Cause::OutOfMemory,
    }
}
