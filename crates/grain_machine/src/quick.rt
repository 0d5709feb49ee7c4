//! Frequent operations, if the host does them at once. They keep nothing ready for a fault, so that they take few instructions.
ghost use Rattle.std.specs.Prelude.{◌≡◌, ◌≤◌};
ghost use Rattle.std.specs.Bool.{OnFalse, OnTrue};
ghost use Rattle.grain_code.specs.declared.op.Op.{Op};
ghost use Rattle.grain.specs.Program.{setting_of};
ghost use Rattle.grain_machine.specs.Asked.{IsForHost};
ghost use Rattle.grain_machine.specs.State.{MakesMove, IsAt, IsUnderWay, state_of};

use crate::frame::Frame;
use crate::host::Host;
use crate::prepared::Runnable;
use grain_code::Op;

impl<'a> Runnable<'a> {
    /// Does the operation that stands where the run is, if it is a frequent one and the host does it at once. `false` if not.
    #[inline(always)]
    pub(crate) fn quick_step<H: Host>(
        &self,
        frame: &mut Frame<H::Value, H::Iterator>,
        host: &mut H,
    ) -> bool
        requires { IsUnderWay self.now (state_of frame.old) }
        ensures moves { OnTrue result (MakesMove self.now frame.old frame.new) }
        ensures stays { OnFalse result (frame.new ≡ frame.old) }
    {
        let here = self.read(frame);
        let next = here.next;
        match here.op {
            Op::Const(_) | Op::LoadLocal(_) => self.quick_give(frame, host, &here.op, next, 0),
            Op::Call { .. } | Op::Chain(_) => {
                self.quick_give(frame, host, &here.op, next, here.takes as usize)
            }
            Op::AssignLocal { .. }
            | Op::StoreLocal { .. }
            | Op::StoreShared(_)
            | Op::DeclareLocal { .. } => self.quick_take(frame, host, &here.op, next, 1),
            Op::Tick | Op::Checkpoint | Op::Statement { .. } => {
                self.quick_take(frame, host, &here.op, next, 0)
            }
            Op::Unit => {
                let value = host.unit();
                self.unit(frame, next, value);
                true
            }
            Op::Bool(value) => {
                let truth = host.boolean(value);
                self.truth(frame, next, value, truth);
                true
            }
            Op::Pop => {
                self.quick_pop(frame, host, next);
                true
            }
            Op::UnwindTo(depth) => {
                host.unwind_to(depth);
                self.unwind(frame, next, depth);
                true
            }
            Op::Jump(target) => {
                self.jump(frame, next, target);
                true
            }
            Op::JumpIfTrue { target } => self.quick_jump_if_true(frame, host, next, target),
            Op::JumpIfFalse { target } => self.quick_jump_if_false(frame, host, next, target),
            Op::SkipIfNotUnit { target } => {
                self.skip(frame, host, next, target);
                true
            }
            Op::IterNext { exit, counter_slot } => {
                self.quick_advance(frame, host, next, exit, counter_slot)
            }
            _ => false,
        }
    }

    #[inline(always)]
    fn quick_give<H: Host>(
        &self,
        frame: &mut Frame<H::Value, H::Iterator>,
        host: &mut H,
        op: &Op,
        next: usize,
        takes: usize,
    ) -> bool
        requires at { IsAt self.now (state_of frame.old) op.now next }
        requires plain { IsForHost (setting_of self.now.program) op.now takes takes 1 }
        ensures moves { OnTrue result (MakesMove self.now frame.old frame.new) }
        ensures stays { OnFalse result (frame.new ≡ frame.old) }
    {
        let request = self.request(frame, op);
        if frame.quick_give(host, &request, takes) {
            frame.go(next);
            true
        } else {
            false
        }
    }

    #[inline(always)]
    fn quick_take<H: Host>(
        &self,
        frame: &mut Frame<H::Value, H::Iterator>,
        host: &mut H,
        op: &Op,
        next: usize,
        takes: usize,
    ) -> bool
        requires few { takes ≤ 1 }
        requires at { IsAt self.now (state_of frame.old) op.now next }
        requires plain { IsForHost (setting_of self.now.program) op.now takes takes 0 }
        ensures moves { OnTrue result (MakesMove self.now frame.old frame.new) }
        ensures stays { OnFalse result (frame.new ≡ frame.old) }
    {
        let request = self.request(frame, op);
        if frame.quick_take(host, &request, takes) {
            frame.go(next);
            true
        } else {
            false
        }
    }

    #[inline(always)]
    fn quick_pop<H: Host>(&self, frame: &mut Frame<H::Value, H::Iterator>, host: &H, next: usize)
        requires { IsAt self.now (state_of frame.old) Op.Pop next }
        ensures { MakesMove self.now frame.old frame.new }
    {
        frame.drop_top(host);
        frame.go(next);
    }

    #[inline(always)]
    fn quick_jump_if_true<H: Host>(
        &self,
        frame: &mut Frame<H::Value, H::Iterator>,
        host: &mut H,
        next: usize,
        target: u32,
    ) -> bool
        requires { IsAt self.now (state_of frame.old) (Op.JumpIfTrue target) next }
        ensures moves { OnTrue result (MakesMove self.now frame.old frame.new) }
        ensures stays { OnFalse result (frame.new ≡ frame.old) }
    {
        match frame.quick_condition(host) {
            Some(true) => {
                frame.go(target as usize);
                true
            }
            Some(false) => {
                frame.go(next);
                true
            }
            None => false,
        }
    }

    #[inline(always)]
    fn quick_jump_if_false<H: Host>(
        &self,
        frame: &mut Frame<H::Value, H::Iterator>,
        host: &mut H,
        next: usize,
        target: u32,
    ) -> bool
        requires { IsAt self.now (state_of frame.old) (Op.JumpIfFalse target) next }
        ensures moves { OnTrue result (MakesMove self.now frame.old frame.new) }
        ensures stays { OnFalse result (frame.new ≡ frame.old) }
    {
        match frame.quick_condition(host) {
            Some(false) => {
                frame.go(target as usize);
                true
            }
            Some(true) => {
                frame.go(next);
                true
            }
            None => false,
        }
    }

    #[inline(always)]
    fn quick_advance<H: Host>(
        &self,
        frame: &mut Frame<H::Value, H::Iterator>,
        host: &mut H,
        next: usize,
        exit: u32,
        counter: Option<u16>,
    ) -> bool
        requires { IsAt self.now (state_of frame.old) (Op.IterNext exit counter) next }
        ensures moves { OnTrue result (MakesMove self.now frame.old frame.new) }
        ensures stays { OnFalse result (frame.new ≡ frame.old) }
    {
        match frame.quick_advance(host, counter) {
            Some(item) => {
                frame.push(item);
                frame.go(next);
                true
            }
            None => false,
        }
    }
}
