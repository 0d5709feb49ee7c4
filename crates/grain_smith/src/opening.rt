//! How pieces of code begin.

use crate::error::SmithError;
use crate::frames::{Arms, Frame, Loop};
use crate::switches::Table;
use crate::writer::Writer;
use grain::{Op, Pool, SwitchRange};

/// How many arms a switch has at most.
pub const ARMS: u32 = 4;

/// How many switches a program has at most.
const SWITCHES: usize = 1000;

/// A piece of code that can be begun.
#[derive(Clone, Copy)]
enum Opening {
    Skipped,
    SkippedIfValue,
    First,
    Turns,
    Walked,
    Held,
    Guarded,
    Switched,
}

static OPENINGS: [Opening; 8] = [
    Opening::Skipped,
    Opening::SkippedIfValue,
    Opening::First,
    Opening::Turns,
    Opening::Walked,
    Opening::Held,
    Opening::Guarded,
    Opening::Switched,
];

impl Writer {
    /// Begins a piece of code.
    pub fn begin(&mut self) -> Result<(), SmithError> {
        match self.chance.pick(&OPENINGS).unwrap_or(Opening::First) {
            Opening::Skipped => self.begin_skipped(),
            Opening::SkippedIfValue => self.begin_skipped_if_value(),
            Opening::First => self.begin_first(),
            Opening::Turns => self.begin_turns(),
            Opening::Walked => self.begin_walked(),
            Opening::Held => self.begin_held(),
            Opening::Guarded => self.begin_guarded(),
            Opening::Switched if self.supply.switches.len() < SWITCHES => self.begin_switch(),
            Opening::Switched => self.plain(),
        }
    }

    /// A jump where a condition that is on top holds, or where it doesn't.
    pub fn branch(&mut self, target: u32) -> Result<(), SmithError> {
        self.room(1)?;
        let op = if self.chance.one_in(2) {
            Op::JumpIfTrue { target }
        } else {
            Op::JumpIfFalse { target }
        };
        self.put(op)
    }

    fn begin_skipped(&mut self) -> Result<(), SmithError> {
        let end = self.label()?;
        self.branch(end)?;
        let operands = self.operands;
        self.open(Frame::Skipped { end, operands })
    }

    fn begin_skipped_if_value(&mut self) -> Result<(), SmithError> {
        let end = self.label()?;
        self.room(1)?;
        self.put(Op::SkipIfNotUnit { target: end })?;
        let operands = self.operands;
        self.open(Frame::Skipped { end, operands })
    }

    fn begin_first(&mut self) -> Result<(), SmithError> {
        let otherwise = self.label()?;
        self.branch(otherwise)?;
        let operands = self.operands;
        self.open(Frame::First {
            otherwise,
            operands,
        })
    }

    /// The loop that begins here.
    fn turns(&mut self, walks: bool) -> Result<Loop, SmithError> {
        let head = self.label()?;
        let exit = self.label()?;
        Ok(Loop {
            head,
            exit,
            operands: self.operands,
            iterators: self.iterators,
            handlers: self.bases.len(),
            walks,
        })
    }

    fn begin_turns(&mut self) -> Result<(), SmithError> {
        self.room(0)?;
        let around = self.turns(false)?;
        self.bind(around.head);
        if self.chance.one_in(2) {
            self.put(Op::Tick)?;
        }
        self.open(Frame::Turns(around))
    }

    fn begin_walked(&mut self) -> Result<(), SmithError> {
        self.room(1)?;
        let mut around = self.turns(true)?;
        self.put(Op::IterInit)?;
        around.operands = self.operands;
        self.bind(around.head);
        let slot = self.chance.small(6);
        let counter_slot = self.chance.one_in(2).then_some(slot);
        self.put(Op::IterNext {
            exit: around.exit,
            counter_slot,
        })?;
        self.open(Frame::Turns(around))
    }

    fn begin_held(&mut self) -> Result<(), SmithError> {
        self.room(1)?;
        self.put(Op::IterInit)?;
        self.open(Frame::Held)
    }

    fn begin_guarded(&mut self) -> Result<(), SmithError> {
        self.room(0)?;
        let catch = self.label()?;
        let name = self.chance.below(self.supply.size(Pool::Names));
        let catch_var = self.chance.one_in(2).then_some(name);
        self.put(Op::PushHandler {
            target: catch,
            catch_var,
        })?;
        self.open(Frame::Guarded { catch })
    }

    /// The table of a switch whose arms begin at this number of labels from this one on.
    fn table(&mut self, first: u32, count: u32) -> Result<Table, SmithError> {
        let mut cases = Vec::new(self.alloc);
        for index in 0..self.supply.size(Pool::Constants) {
            if self.chance.one_in(3) {
                let arm = self.chance.below(count);
                cases.push((index, first.saturating_add(arm)))?;
            }
        }
        let mut ranges = Vec::new(self.alloc);
        for _turn in 0..self.chance.below(3) {
            let arm = self.chance.below(count);
            ranges.push(SwitchRange {
                from: i64::from(self.chance.below(50)),
                to: i64::from(self.chance.below(100)),
                inclusive: self.chance.one_in(2),
                target: first.saturating_add(arm),
            })?;
        }
        let arm = self.chance.below(count);
        Ok(Table {
            cases,
            ranges,
            default: first.saturating_add(arm),
        })
    }

    fn begin_switch(&mut self) -> Result<(), SmithError> {
        self.room(1)?;
        let end = self.label()?;
        let count = self.chance.below(ARMS).saturating_add(1);
        let first = self.label()?;
        for _turn in 1..count {
            let _arm = self.label()?;
        }
        let table = self.table(first, count)?;
        let index = self.supply.size(Pool::Switches);
        self.supply.switches.push(table)?;
        self.put(Op::Switch(index))?;
        self.unreached()?;
        self.bind(first);
        let begins = self.operands;
        self.open(Frame::Arm(Arms {
            next: first.saturating_add(1),
            left: count.saturating_sub(1),
            end,
            begins,
            ends: None,
        }))
    }
}
