//! Paths that lead away: the end of a run, and out of a loop or to its next turn. After them the state is as if they didn't.

use crate::error::SmithError;
use crate::frames::{Frame, Loop};
use crate::writer::Writer;
use grain::Op;

impl Writer {
    /// Ends the run, and writes what no path leads to.
    pub fn end_run(&mut self) -> Result<(), SmithError> {
        self.put_end()?;
        self.unreached()
    }

    /// Ends the run by a return, or by a fault.
    pub fn put_end(&mut self) -> Result<(), SmithError> {
        if self.chance.one_in(3) {
            self.room(1)?;
            self.ops.push(Op::Throw)?;
        } else {
            self.ops.push(Op::Return)?;
        }
        Ok(())
    }

    /// The innermost loop that is open.
    fn innermost(&self) -> Option<Loop> {
        let mut found = None;
        for frame in &self.frames {
            if let Frame::Turns(around) = frame {
                found = Some(*around);
            }
        }
        found
    }

    /// Leaves the innermost loop or goes to its next turn, and writes what no path leads to.
    pub fn leave(&mut self) -> Result<(), SmithError> {
        let Some(around) = self.innermost() else {
            return self.end_run();
        };
        let operands = self.operands;
        let iterators = self.iterators;
        let bases = self.bases.to_vec(self.alloc)?;
        if self.chance.one_in(2) {
            self.cut(around, around.iterators)?;
            self.put(Op::Jump(around.exit))?;
        } else {
            let held = around.iterators.saturating_add(u32::from(around.walks));
            self.cut(around, held)?;
            self.put(Op::Jump(around.head))?;
        }
        self.operands = operands;
        self.iterators = iterators;
        self.bases = bases;
        self.unreached()
    }

    /// Has as many handlers, iterators and operands as a loop has, with this number of iterators.
    fn cut(&mut self, around: Loop, iterators: u32) -> Result<(), SmithError> {
        for _turn in around.handlers..self.bases.len() {
            self.put(Op::PopHandler)?;
        }
        for _turn in iterators..self.iterators {
            self.put(Op::IterDrop)?;
        }
        self.level(around.operands)
    }
}
