//! Pieces of code that are open, each with what is due at its end.

/// How many pieces of code are open at once, at most.
pub const DEPTH: usize = 8;

/// What was on the stacks when a handler was armed.
#[derive(Clone, Copy, Drop)]
pub struct Base {
    /// How many operands there were.
    pub operands: u32,
    /// How many iterators there were.
    pub iterators: u32,
}

/// A loop that is open.
#[derive(Clone, Copy, Drop)]
pub struct Loop {
    /// Where a turn begins.
    pub head: u32,
    /// Where the loop ends.
    pub exit: u32,
    /// How many operands there are at both.
    pub operands: u32,
    /// How many iterators there are around it.
    pub iterators: u32,
    /// How many handlers are armed around it.
    pub handlers: usize,
    /// Whether it has an iterator.
    pub walks: bool,
}

/// The arms of a switch, one of which is open.
#[derive(Clone, Copy, Drop)]
pub struct Arms {
    /// Where the next arm begins. The labels of the arms follow one another.
    pub next: u32,
    /// How many arms are left after the open one.
    pub left: u32,
    /// Where the switch ends.
    pub end: u32,
    /// How many operands there are where an arm begins.
    pub begins: u32,
    /// How many operands there are at the end, if an arm has ended.
    pub ends: Option<u32>,
}

/// A piece of code that is open.
#[derive(Clone, Copy, Drop)]
pub enum Frame {
    /// Code that may be skipped up to its end, if there is this number of operands.
    Skipped {
        /// Its end.
        end: u32,
        /// How many operands there are at its end.
        operands: u32,
    },
    /// Code with an alternative.
    First {
        /// Where the alternative begins.
        otherwise: u32,
        /// How many operands there are where it begins.
        operands: u32,
    },
    /// A loop.
    Turns(Loop),
    /// Code over an iterator that is dropped at its end.
    Held,
    /// Code under a handler, which catches there.
    Guarded {
        /// Where the handler catches.
        catch: u32,
    },
    /// A catch, at whose end the handler is disarmed if it still has to be.
    Caught {
        /// Where the code under the handler goes on.
        end: u32,
        /// How many operands there are at that end.
        operands: u32,
        /// Whether the handler is still armed.
        is_armed: bool,
    },
    /// The arms of a switch.
    Arm(Arms),
}
