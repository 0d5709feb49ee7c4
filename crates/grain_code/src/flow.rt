//! How operations are left.
ghost use Rattle.std.specs.Prelude.{◌↔◌, IsTrue};
ghost use Rattle.grain_code.specs.Flows.{HasTarget};

/// How an operation is left, and what that does to iterators and handlers (docs/FORMAT.md, "Instructions"). Where it leads is
/// kept apart, so that a flow is one byte: a row of the table of tags stays within eight, and one test finds a flow.
#[derive(Clone, Copy, PartialEq, Eq, Debug)]
pub enum Flow {
    /// It falls through to the next operation.
    Falls,
    /// It ends the run.
    Ends,
    /// It jumps to its target.
    Jumps,
    /// It jumps to its target or falls through.
    Branches,
    /// It jumps to a target of the switch whose index it names.
    Switches,
    /// It begins an iterator and falls through.
    BeginsIterator,
    /// It pushes the next item of an iterator and falls through, or ends the iterator and jumps to its target.
    AdvancesIterator,
    /// It ends an iterator and falls through.
    EndsIterator,
    /// It arms a handler, which catches at its target, and falls through.
    PushesHandler,
    /// It disarms a handler and falls through.
    PopsHandler,
}

impl Flow {
    /// Whether it leads to an address, which is the first field of the operation.
    #[inline(always)]
    #[must_use]
    pub fn has_target(self) -> bool
        ensures { IsTrue result ↔ HasTarget self }
    {
        match self {
            Flow::Jumps | Flow::Branches | Flow::AdvancesIterator | Flow::PushesHandler => true,
            Flow::Falls
            | Flow::Ends
            | Flow::Switches
            | Flow::BeginsIterator
            | Flow::EndsIterator
            | Flow::PopsHandler => false,
        }
    }
}
