//! The stacks of a run, and its address.
ghost use Rattle.std.specs.Prelude.{◌≡◌, ◌+◌, ◌-◌, ◌<◌, ◌≤◌, [], ◌∷◌, ◌++◌, IfOk, OnOk, OnErr, Some};
ghost use Rattle.std.specs.Prelude.{MatchOption, None, false, length, vec_capacity};
ghost use Rattle.std.specs.Bool.{OnFalse, OnTrue};
ghost use Rattle.grain_rules.specs.Counts.{without_last};
ghost use Rattle.grain_rules.specs.Machine.{innermost};
ghost use Rattle.grain_rules.specs.Rows.{gives};
ghost use Rattle.grain.specs.Program.{setting_of};
ghost use Rattle.grain_machine.specs.Asked.{IsAsked, IsRequested};
ghost use Rattle.grain_machine.specs.Reply.{IsGivenHere};
ghost use Rattle.grain_machine.specs.State.{Advances, Replaces, frame_at, frame_with_handlers};
ghost use Rattle.grain_machine.specs.State.{frame_with_iterators, frame_with_operands};
ghost use Rattle.grain_machine.specs.Values.{Lands, below, rotated, top};

use crate::host::{Host, Reply, Request};
use std::alloc::{AllocError, Global};
use std::marker::Model;
use std::mem;

/// A handler that is armed.
#[derive(Clone, Copy)]
pub(crate) struct Armed {
    target: u32,
    /// How many operands stood when it was armed.
    operands: usize,
    /// How many iterators stood when it was armed.
    iterators: usize,
    /// Whether it has caught.
    spent: bool,
    /// The index of the name that the fault is bound to, if it is.
    name: Option<u32>,
}

/// Where the value of an operation comes from.
#[derive(Clone, Copy)]
pub(crate) enum Given {
    /// It has replaced the operands.
    Value,
    /// The function of the program at this index returns it.
    Call(usize),
    /// The host gives it later.
    Wait,
}

/// Where a run stands.
///
/// Contracts see a `FrameState`: the machine with its operands and iterators, and the room.
#[derive(Drop)]
pub(crate) struct Frame<V, I> {
    at: usize,
    /// How many operands there is room for.
    room: usize,
    operands: Vec<V>,
    iterators: Vec<I>,
    handlers: Vec<Armed>,
}

impl<V, I> Model for Frame<V, I> {
    ghost use Rattle.std.specs.Prelude.{◌≤◌, vec_capacity};
    ghost use Rattle.grain_machine.specs.State.{FrameState, innermost_first};

    ghost Value = { FrameState V I };

    ghost view = { λ f. record {
      machine = record {
        address = f.at;
        operands = f.operands.items;
        iterators = f.iterators.items;
        handlers = innermost_first f.handlers.items;
      };
      room = f.room;
    } };

    ghost invariant = { λ f. f.room ≤ vec_capacity f.operands };
}

impl<V: Drop, I: Drop> Frame<V, I> {
    /// A run begins at the entry, with room for this number of operands, in the memory of a frame that ended if there is one.
    pub(crate) fn new(
        alloc: Global,
        entry: u32,
        room: u16,
        spare: Option<Vec<V>>,
    ) -> Result<Frame<V, I>, AllocError>
        ensures machine { IfOk result (λ frame. frame.machine
            ≡ record { address = entry; operands = []; iterators = []; handlers = [] }) }
        ensures room { IfOk result (λ frame. frame.room ≡ room) }
    {
        Ok(Frame {
            at: entry as usize,
            room: room as usize,
            operands: with_room(alloc, room as usize, spare)?,
            iterators: Vec::new(alloc),
            handlers: Vec::new(alloc),
        })
    }

    /// The memory of its operands.
    pub(crate) fn into_operands(self) -> Vec<V> {
        self.operands
    }

    /// Where it stands.
    #[inline(always)]
    pub(crate) fn at(&self) -> usize
        ensures { result ≡ self.now.machine.address }
    {
        self.at
    }

    /// Goes there.
    #[inline(always)]
    pub(crate) fn go(&mut self, at: usize)
        ensures { self.new ≡ frame_at at self.old }
    {
        self.at = at;
    }

    /// Pushes an operand.
    #[inline(always)]
    pub(crate) fn push(&mut self, value: V)
        requires { length self.old.machine.operands < self.old.room }
        ensures { self.new ≡ frame_with_operands
            (self.old.machine.operands ++ value ∷ []) self.old }
    {
        self.operands.push_reserved(value);
    }

    /// Pops an operand.
    #[inline(always)]
    pub(crate) fn pop(&mut self) -> V
        requires { 0 < length self.old.machine.operands }
        ensures value { top self.old.machine.operands ≡ Some result }
        ensures rest { self.new ≡ frame_with_operands
            (below 1 self.old.machine.operands) self.old }
    {
        self.operands.swap_remove(self.operands.len() - 1)
    }

    /// Pops an operand, and asks the host whether it holds.
    #[inline(always)]
    pub(crate) fn condition<H: Host<Value = V>>(
        &mut self,
        host: &mut H,
        request: &Request<'_>,
    ) -> Result<bool, H::Fault>
        requires there { 0 < length self.old.machine.operands }
        requires met { IsRequested request.now.program.now request.now.chunk request.now.at
            request.now.op.now }
        ensures { self.new ≡ frame_with_operands
            (below 1 self.old.machine.operands) self.old }
    {
        let condition = self.pop();
        host.is_true(request, &condition)
    }

    /// Drops an operand.
    #[inline(always)]
    pub(crate) fn drop_top<H: Host<Value = V>>(&mut self, host: &H)
        requires { 0 < length self.old.machine.operands }
        ensures { self.new ≡ frame_with_operands
            (below 1 self.old.machine.operands) self.old }
    {
        if host.needs_drop(self.top()) {
            self.drop_apart();
        } else {
            mem::forget(self.pop());
        }
    }

    /// Drops an operand, in a function of its own: most need no drop.
    #[inline(never)]
    fn drop_apart(&mut self)
        requires { 0 < length self.old.machine.operands }
        ensures { self.new ≡ frame_with_operands
            (below 1 self.old.machine.operands) self.old }
    {
        let _ = self.pop();
    }

    /// Has the host do an operation that takes the topmost operands and gives a value, if it does it at once. `false` if it
    /// doesn't.
    #[inline(always)]
    pub(crate) fn quick_give<H: Host<Value = V>>(
        &mut self,
        host: &mut H,
        request: &Request<'_>,
        takes: usize,
    ) -> bool
        requires there { takes ≤ length self.old.machine.operands }
        requires room { length self.old.machine.operands - takes < self.old.room }
        requires asked { IsAsked request.now.program.now request.now.chunk request.now.at
            request.now.op.now takes }
        requires gives { gives (setting_of request.now.program.now) request.now.op.now ≡ 1 }
        ensures given { OnTrue result (Replaces takes 1 self.old self.new) }
        ensures stays { OnFalse result (self.new ≡ self.old) }
    {
        let base = self.operands.len() - takes;
        match host.quick_give(request, &self.operands[base..]) {
            Some(value) => {
                self.replace_few(host, takes, value);
                true
            }
            None => false,
        }
    }

    /// Puts a value in the place of the topmost operands. It is quick if these are two at most.
    #[inline(always)]
    pub(crate) fn replace_few<H: Host<Value = V>>(&mut self, host: &H, takes: usize, value: V)
        requires there { takes ≤ length self.old.machine.operands }
        requires room { length self.old.machine.operands - takes < self.old.room }
        ensures { self.new ≡ frame_with_operands
            (below takes self.old.machine.operands ++ value ∷ []) self.old }
    {
        match takes {
            0 => self.push(value),
            1 => {
                self.drop_top(host);
                self.push(value);
            }
            2 => {
                self.drop_top(host);
                self.drop_top(host);
                self.push(value);
            }
            _ => self.replace_apart(takes, value),
        }
    }

    /// As [`Frame::replace`], in a function of its own.
    #[inline(never)]
    fn replace_apart(&mut self, takes: usize, value: V)
        requires there { takes ≤ length self.old.machine.operands }
        requires room { length self.old.machine.operands - takes < self.old.room }
        ensures { self.new ≡ frame_with_operands
            (below takes self.old.machine.operands ++ value ∷ []) self.old }
    {
        self.replace(takes, value);
    }

    /// Has the host do an operation that takes one operand or none and gives no value, if it does it at once. `false` if it
    /// doesn't.
    #[inline(always)]
    pub(crate) fn quick_take<H: Host<Value = V>>(
        &mut self,
        host: &mut H,
        request: &Request<'_>,
        takes: usize,
    ) -> bool
        requires few { takes ≤ 1 }
        requires there { takes ≤ length self.old.machine.operands }
        requires asked { IsAsked request.now.program.now request.now.chunk request.now.at
            request.now.op.now takes }
        requires gives { gives (setting_of request.now.program.now) request.now.op.now ≡ 0 }
        ensures taken { OnTrue result (Replaces takes 0 self.old self.new) }
        ensures stays { OnFalse result (self.new ≡ self.old) }
    {
        let base = self.operands.len() - takes;
        if !host.quick_take(request, &self.operands[base..]) {
            return false;
        }
        if takes == 1 {
            self.drop_top(host);
        }
        true
    }

    /// Pops an operand, if the host says at once whether it holds.
    #[inline(always)]
    pub(crate) fn quick_condition<H: Host<Value = V>>(&mut self, host: &mut H) -> Option<bool>
        requires { 0 < length self.old.machine.operands }
        ensures { MatchOption result (self.new ≡ self.old)
            (λ _. self.new ≡ frame_with_operands
            (below 1 self.old.machine.operands) self.old) }
    {
        match host.quick_truth(self.top()) {
            Some(holds) => {
                self.drop_top(host);
                Some(holds)
            }
            None => None,
        }
    }

    /// The top of the operand stack.
    #[inline(always)]
    pub(crate) fn top(&self) -> &V
        requires { 0 < length self.now.machine.operands }
        ensures { top self.now.machine.operands ≡ Some result.now }
    {
        &self.operands[self.operands.len() - 1]
    }

    /// The top of the operand stack, if there is one.
    pub(crate) fn result(&mut self) -> Option<V>
        ensures { result ≡ top self.old.machine.operands }
    {
        self.operands.pop()
    }

    /// Moves the top of the operand stack below the next `depth` ones.
    #[inline(always)]
    pub(crate) fn rotate(&mut self, depth: usize)
        requires { depth < length self.old.machine.operands }
        ensures { self.new ≡ frame_with_operands
            (rotated depth self.old.machine.operands) self.old }
    {
        let base = self.operands.len() - 1 - depth;
        self.operands[base..].rotate_right(1);
    }

    /// Has the host do an operation that takes the topmost operands and gives a value, and says where that comes from.
    #[inline(always)]
    pub(crate) fn give<H: Host<Value = V>>(
        &mut self,
        host: &mut H,
        request: &Request<'_>,
        takes: usize,
    ) -> Result<Given, H::Fault>
        requires there { takes ≤ length self.old.machine.operands }
        requires room { length self.old.machine.operands - takes < self.old.room }
        requires asked { IsAsked request.now.program.now request.now.chunk request.now.at
            request.now.op.now takes }
        requires gives { gives (setting_of request.now.program.now) request.now.op.now ≡ 1 }
        ensures ok { IfOk result
            (IsGivenHere request.now.program.now takes self.old self.new) }
        ensures err { OnErr result (Replaces takes takes self.old self.new) }
    {
        let base = self.operands.len() - takes;
        match host.give(request, &mut self.operands[base..])? {
            Reply::Value(value) => {
                self.replace(takes, value);
                Ok(Given::Value)
            }
            Reply::Call { function } => Ok(Given::Call(function)),
            Reply::Wait => Ok(Given::Wait),
        }
    }

    /// Puts a value in the place of the topmost operands.
    #[inline(always)]
    pub(crate) fn replace(&mut self, takes: usize, value: V)
        requires there { takes ≤ length self.old.machine.operands }
        requires room { length self.old.machine.operands - takes < self.old.room }
        ensures { self.new ≡ frame_with_operands
            (below takes self.old.machine.operands ++ value ∷ []) self.old }
    {
        self.operands.truncate(self.operands.len() - takes);
        self.operands.push_reserved(value);
    }

    /// Has the host do an operation that sees the topmost operands, takes some of them and gives no value.
    #[inline(always)]
    pub(crate) fn take<H: Host<Value = V>>(
        &mut self,
        host: &mut H,
        request: &Request<'_>,
        needs: usize,
        takes: usize,
    ) -> Result<(), H::Fault>
        requires there { needs ≤ length self.old.machine.operands }
        requires within { takes ≤ needs }
        requires asked { IsAsked request.now.program.now request.now.chunk request.now.at
            request.now.op.now needs }
        requires gives { gives (setting_of request.now.program.now) request.now.op.now ≡ 0 }
        ensures ok { OnOk result (Replaces needs (needs - takes) self.old self.new) }
        ensures err { OnErr result (Replaces needs needs self.old self.new) }
    {
        let len = self.operands.len();
        host.take(request, &mut self.operands[len - needs..])?;
        self.operands.truncate(len - takes);
        Ok(())
    }

    /// Begins an iterator.
    pub(crate) fn begin(&mut self, iterator: I) -> Result<(), AllocError>
        ensures { OnOk result (self.new ≡ frame_with_iterators
            (self.old.machine.iterators ++ iterator ∷ []) self.old) }
    {
        self.iterators.push(iterator)?;
        Ok(())
    }

    /// The next item of the innermost iterator.
    #[inline(always)]
    pub(crate) fn advance<H: Host<Value = V, Iterator = I>>(
        &mut self,
        host: &mut H,
        request: &Request<'_>,
        counter: Option<u16>,
    ) -> Result<Option<V>, H::Fault>
        requires there { 0 < length self.old.machine.iterators }
        requires met { IsRequested request.now.program.now request.now.chunk request.now.at
            request.now.op.now }
        ensures { Advances self.old self.new }
    {
        let last = self.iterators.len() - 1;
        host.advance(request, &mut self.iterators[last], counter)
    }

    /// The next item of the innermost iterator, if the host has it at once.
    #[inline(always)]
    pub(crate) fn quick_advance<H: Host<Value = V, Iterator = I>>(
        &mut self,
        host: &mut H,
        counter: Option<u16>,
    ) -> Option<V>
        requires { 0 < length self.old.machine.iterators }
        ensures { MatchOption result (self.new ≡ self.old)
            (λ _. Advances self.old self.new) }
    {
        let last = self.iterators.len() - 1;
        match host.quick_next(&self.iterators[last], counter) {
            Some(item) => {
                host.went_on(&mut self.iterators[last]);
                Some(item)
            }
            None => None,
        }
    }

    /// Ends the innermost iterator.
    pub(crate) fn end(&mut self)
        requires { 0 < length self.old.machine.iterators }
        ensures { self.new ≡ frame_with_iterators
            (below 1 self.old.machine.iterators) self.old }
    {
        let _ = self.iterators.pop();
    }

    /// Arms a handler.
    pub(crate) fn arm(&mut self, target: u32, name: Option<u32>) -> Result<(), AllocError>
        ensures { OnOk result (self.new ≡ frame_with_handlers (record {
          target = target;
          operands = length self.old.machine.operands;
          iterators = length self.old.machine.iterators;
          spent = false;
        } ∷ self.old.machine.handlers) self.old) }
    {
        self.handlers.push(Armed {
            target,
            operands: self.operands.len(),
            iterators: self.iterators.len(),
            spent: false,
            name,
        })?;
        Ok(())
    }

    /// Disarms the innermost handler.
    pub(crate) fn disarm(&mut self)
        requires { 0 < length self.old.machine.handlers }
        ensures { self.new ≡ frame_with_handlers
            (without_last self.old.machine.handlers) self.old }
    {
        let _ = self.handlers.pop();
    }

    /// Goes where the innermost handler catches that isn't spent, and answers the name that it binds the fault to.
    pub(crate) fn catch(&mut self) -> Option<Option<u32>>
        ensures caught { MatchOption result (innermost self.old.machine.handlers ≡ None)
            (λ _. Lands self.old.machine self.new.machine) }
        ensures room { self.new.room ≡ self.old.room }
    {
        while let Some(handler) = self.handlers.pop() {
            if !handler.spent {
                self.at = handler.target as usize;
                self.operands.truncate(handler.operands);
                self.iterators.truncate(handler.iterators);
                self.handlers.push_reserved(Armed {
                    spent: true,
                    ..handler
                });
                return Some(handler.name);
            }
        }
        None
    }
}

/// An empty list with room for this number of values, in the memory of one that is no longer used if there is one.
fn with_room<V: Drop>(
    alloc: Global,
    room: usize,
    spare: Option<Vec<V>>,
) -> Result<Vec<V>, AllocError>
    ensures empty { IfOk result (λ values. values.items ≡ []) }
    ensures room { IfOk result (λ values. room ≤ vec_capacity values) }
{
    match spare {
        Some(mut values) => {
            if !values.is_empty() {
                values.clear();
            }
            values.reserve(room)?;
            Ok(values)
        }
        None => Ok(Vec::with_capacity(alloc, room)?),
    }
}
