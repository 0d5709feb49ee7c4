//! How pieces of code end. Each path to the same place has the same state there.

use crate::error::SmithError;
use crate::frames::{Arms, DEPTH, Frame, Loop};
use crate::opening::ARMS;
use crate::writer::Writer;
use grain::Op;

/// After this many calls of [`Writer::close`] no piece of code is open: an arm is ended for each arm of a switch, and each other
/// piece in two parts at most.
pub const MOST_CLOSINGS: usize = DEPTH * (ARMS as usize + 2);

impl Writer {
    /// Ends the innermost piece of code, or begins its next part.
    pub fn close(&mut self) -> Result<(), SmithError> {
        let Some(frame) = self.frames.pop() else {
            return Ok(());
        };
        match frame {
            Frame::Skipped { end, operands } => self.join(end, operands),
            Frame::First {
                otherwise,
                operands,
            } => self.end_first(otherwise, operands),
            Frame::Turns(around) => self.end_turns(around),
            Frame::Held => self.put(Op::IterDrop),
            Frame::Guarded { catch } => self.end_guarded(catch),
            Frame::Caught {
                end,
                operands,
                is_armed,
            } => self.end_caught(end, operands, is_armed),
            Frame::Arm(arms) => self.end_arm(arms),
        }
    }

    /// Goes on at the label with this number of operands, which is here.
    fn join(&mut self, end: u32, operands: u32) -> Result<(), SmithError> {
        self.level(operands)?;
        self.bind(end);
        Ok(())
    }

    /// Jumps to a label, which isn't here.
    fn jump(&mut self, target: u32) -> Result<(), SmithError> {
        self.put(Op::Jump(target))?;
        self.unreached()
    }

    fn end_first(&mut self, otherwise: u32, operands: u32) -> Result<(), SmithError> {
        self.room(0)?;
        let end = self.label()?;
        let joined = self.operands;
        self.jump(end)?;
        self.bind(otherwise);
        self.operands = operands;
        self.open(Frame::Skipped {
            end,
            operands: joined,
        })
    }

    fn end_turns(&mut self, around: Loop) -> Result<(), SmithError> {
        if !around.walks && self.chance.one_in(2) {
            let with_condition = around.operands.saturating_add(1);
            self.level(with_condition)?;
            self.branch(around.head)?;
        } else {
            self.level(around.operands)?;
            self.jump(around.head)?;
        }
        self.bind(around.exit);
        self.iterators = around.iterators;
        Ok(())
    }

    /// The catch of a handler begins with what was on the stacks when it was armed.
    fn end_guarded(&mut self, catch: u32) -> Result<(), SmithError> {
        let base = self.floor();
        let armed = self.bases.last().copied();
        self.put(Op::PopHandler)?;
        self.room(0)?;
        let end = self.label()?;
        let joined = self.operands;
        self.jump(end)?;
        self.bind(catch);
        self.operands = base.operands;
        self.iterators = base.iterators;
        if let Some(base) = armed {
            self.bases.push(base)?;
        }
        let is_armed = self.chance.one_in(2);
        if !is_armed {
            self.put(Op::PopHandler)?;
        }
        self.open(Frame::Caught {
            end,
            operands: joined,
            is_armed,
        })
    }

    fn end_caught(&mut self, end: u32, operands: u32, is_armed: bool) -> Result<(), SmithError> {
        if is_armed {
            self.put(Op::PopHandler)?;
        }
        self.join(end, operands)
    }

    fn end_arm(&mut self, arms: Arms) -> Result<(), SmithError> {
        self.room(0)?;
        let ends = arms.ends.unwrap_or(self.operands);
        if arms.left == 0 {
            return self.join(arms.end, ends);
        }
        self.level(ends)?;
        self.jump(arms.end)?;
        self.bind(arms.next);
        self.operands = arms.begins;
        self.open(Frame::Arm(Arms {
            next: arms.next.saturating_add(1),
            left: arms.left.saturating_sub(1),
            end: arms.end,
            begins: arms.begins,
            ends: Some(ends),
        }))
    }
}
