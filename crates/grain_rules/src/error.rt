//! Why a program is refused.
ghost use Rattle.std.specs.Prelude.{◌≡◌, Some};
ghost use Rattle.grain_rules.specs.declared.error.VerifyError.TheVariants.{OutOfMemory};

use grain_base::{Caps, Flags};
use std::alloc::{AllocError, AllocFailed};
use std::fmt;

/// Why a program is refused (docs/FORMAT.md, "Verification").
///
/// `at` is the address of an instruction. It prints as the verdict lines of the program `grain_check` have it.
#[derive(Clone, Copy, Debug, PartialEq, Eq)]
pub enum VerifyError {
    /// The host lacks capabilities that a constant, the functions or a reached instruction require. Let through, the script would
    /// do what the host has taken out, or what was never built into it.
    MissingCaps {
        /// The capabilities that were handed in.
        artifact: Caps,
        /// Of an instruction, those that aren't there; of a constant, all that it requires; of functions, `FUNCTION`.
        missing: Caps,
        /// 0 for a constant and for functions.
        at: usize,
    },
    /// No instruction is at the address. A machine that got there would take data for a tag, or read the fields of an
    /// instruction past the end of the code.
    Undecodable {
        /// The address after the longest front of the code that splits.
        at: usize,
    },
    /// Code goes on after its last instruction. This is never returned: such code is `Undecodable`.
    TrailingBytes {
        /// The address where the code goes on.
        at: usize,
        /// How many bytes the code has.
        len: usize,
    },
    /// The chunk runs backwards or past the code. What a machine fetched there wouldn't be the program's.
    ChunkOutOfRange {
        /// The address where the chunk begins.
        entry: u32,
        /// The address where it ends.
        end: u32,
        /// How many bytes the code has.
        len: usize,
    },
    /// A target lies outside the chunk. The run would go on in the body of another function, with the locals of this one and
    /// past the room that was made for its operands.
    JumpOutOfRange {
        /// The instruction that names it.
        at: usize,
        /// The address that is named.
        target: u32,
    },
    /// A target lies inside an instruction, or a chunk begins or ends in one. Its fields would be run as instructions that
    /// nobody has looked at.
    JumpIntoAnInstruction {
        /// The instruction that names the target; of a chunk, its entry.
        at: usize,
        /// The address that is named; of a chunk, its entry or its end.
        target: u32,
    },
    /// Two paths meet with unlike counts of operands or iterators, or with unlike bases of armed handlers. What is popped
    /// after that place would on one of them be another's, and a loop that leaves an operand each round would want a stack
    /// without end.
    DepthConflict {
        /// The address where they meet.
        at: usize,
        /// How many operands the path that came there first has there. That it is the first's, and not the other's, is
        /// proved of the walk alone and promised by no public contract.
        expected: usize,
        /// How many operands the other path has there.
        found: usize,
    },
    /// Operands are lacking. The instruction would take what a caller has on the stack, or what lies below it.
    Underflow {
        /// The instruction that needs them.
        at: usize,
        /// How many operands it needs.
        need: usize,
        /// How many operands there are.
        have: usize,
    },
    /// A path runs past the end of its chunk, or the chunk is empty. The run would go on in whatever follows it.
    FallsOffTheEnd,
    /// A chunk needs more operands than it declares, and so more than a host makes room for.
    StackExceedsDeclared {
        /// The greatest operand count that is reached in the chunk.
        needed: usize,
        /// The operand count that the chunk declares.
        declared: u16,
    },
    /// No iterator is there. The instruction would advance or end a loop of the caller's.
    IteratorUnderflow {
        /// The instruction that needs one.
        at: usize,
    },
    /// No handler is armed. The instruction would disarm one of the caller's, which then wouldn't catch what it has to.
    HandlerUnderflow {
        /// The instruction that needs one.
        at: usize,
    },
    /// An instruction that isn't quiet doesn't leave what was on the stacks when the last handler was armed: its operands, or
    /// where there are enough of these, its iterators (docs/FORMAT.md, "Verification"). Were it to fault, the handler would go on
    /// with fewer than its code takes.
    SinksBelowHandler {
        /// The instruction.
        at: usize,
        /// How many stood when the handler was armed.
        need: usize,
        /// How many there are, without the operands that the instruction takes, or without its iterator.
        have: usize,
    },
    /// An index is at or above the size of its pool, or a step takes an operand that its chain doesn't take. Looked up
    /// without a test, it would name what lies past the pool, or an operand that isn't the chain's.
    BadIndex {
        /// The instruction that has the index, or names the chain or the switch that has it.
        at: usize,
        /// What the index names, as `constant`, `name` or `operand`.
        what: &'static str,
        /// The index; of a step's operands, that of the last.
        index: u32,
    },
    /// An allocation failed.
    OutOfMemory,
}

impl fmt::Display for VerifyError {
    ghost use Rattle.grain_rules.specs.Texts.{verify_error_text};

    ghost output = { λ error. Some (verify_error_text error) };

    fn fmt<W: fmt::Write>(&self, f: &mut fmt::Formatter<W>) -> fmt::Result {
        match self {
            VerifyError::MissingCaps { missing, at, .. } => {
                write!(f, "missing-caps at={at} missing={:04x}", missing.bits())
            }
            VerifyError::Undecodable { at } => write!(f, "undecodable at={at}"),
            VerifyError::TrailingBytes { at, len } => write!(f, "trailing-bytes at={at} len={len}"),
            VerifyError::ChunkOutOfRange { entry, end, len } => {
                write!(f, "chunk-out-of-range entry={entry} end={end} len={len}")
            }
            VerifyError::JumpOutOfRange { at, target } => {
                write!(f, "jump-out-of-range at={at} target={target}")
            }
            VerifyError::JumpIntoAnInstruction { at, target } => {
                write!(f, "jump-into-an-instruction at={at} target={target}")
            }
            VerifyError::DepthConflict {
                at,
                expected,
                found,
            } => {
                write!(
                    f,
                    "depth-conflict at={at} expected={expected} found={found}"
                )
            }
            VerifyError::Underflow { at, need, have } => {
                write!(f, "underflow at={at} need={need} have={have}")
            }
            VerifyError::FallsOffTheEnd => write!(f, "falls-off-the-end"),
            VerifyError::StackExceedsDeclared { needed, declared } => {
                write!(
                    f,
                    "stack-exceeds-declared needed={needed} declared={declared}"
                )
            }
            VerifyError::IteratorUnderflow { at } => write!(f, "iterator-underflow at={at}"),
            VerifyError::HandlerUnderflow { at } => write!(f, "handler-underflow at={at}"),
            VerifyError::SinksBelowHandler { at, need, have } => {
                write!(f, "sinks-below-handler at={at} need={need} have={have}")
            }
            VerifyError::BadIndex { at, what, index } => {
                write!(f, "bad-index at={at} index={index} what={what}")
            }
            VerifyError::OutOfMemory => write!(f, "out of memory"),
        }
    }
}

impl std::error::Error for VerifyError {}

impl From<AllocError> for VerifyError {
    ghost from_gives = { λ _ e. e ≡ OutOfMemory };

    fn from(_: AllocError) -> VerifyError {
        VerifyError::OutOfMemory
    }
}

impl<T: Drop> From<AllocFailed<T>> for VerifyError {
    ghost from_gives = { λ _ e. e ≡ OutOfMemory };

    fn from(_: AllocFailed<T>) -> VerifyError {
        VerifyError::OutOfMemory
    }
}
