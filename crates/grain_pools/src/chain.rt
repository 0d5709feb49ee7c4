//! Chains of accesses, as `a.b[i].c(x)`, and the positions that they carry.
//!
//! A chain is one instruction, so the positions of its parts are in the chain. In order they are that of the root,
//! if it has one, and then step by step: of an index its own and that of the bracket, of any other step its own. Each
//! of them is a slot, counted from 0.
ghost use Rattle.std.specs.Prelude.{◌≡◌, ◌<◌, ◌≤◌, ◌^◌, ◌∷◌, [], ◌↔◌, IsTrue, IfSome, length, map, slice_set, sum_by};
ghost use Rattle.grain_pools.specs.Chain.{SlotsFit, assigns, consumed, last_operand, positions, root_positions, root_shape, roots_on_stack, shape, step_positions, step_shape, step_slot, steps_positions};
ghost use Rattle.grain_pools.specs.ChainPositions.{positions_left};

use bitflags::{Flag, Flags};
use grain_base::Position;

/// How a step behaves. Each call takes constant time.
#[derive(Clone, Copy, Debug, Default, PartialEq, Eq, PartialOrd, Ord, Hash)]
pub struct StepFlags(u8);

impl StepFlags {
    /// The step, and with it the chain, ends early if the value that it is taken on is `()`.
    pub const SKIP_IF_UNIT: StepFlags = StepFlags(1);

    const FLAGS: &'static [Flag<StepFlags>] = &[Flag {
        name: "SKIP_IF_UNIT",
        value: StepFlags::SKIP_IF_UNIT,
    }];
}

impl Flags for StepFlags {
    ghost use Rattle.std.specs.Prelude.{⊤};
    ghost use Rattle.grain_pools.specs.StepBits.{flags_table, step_set_of};

    type Bits = u8;

    ghost exact = { ⊤ };

    ghost table = { flags_table };

    ghost set_of = { step_set_of };

    fn flags<'a>() -> &'a [Flag<StepFlags>] {
        StepFlags::FLAGS
    }

    fn bits(&self) -> u8 {
        self.0
    }

    fn from_bits_retain(bits: u8) -> StepFlags {
        StepFlags(bits)
    }
}

/// One step along a chain. Names are indices of the name pool.
#[derive(Clone, Debug, PartialEq, Eq, Drop)]
pub enum Step {
    /// `[i]`. The index was computed before the chain began and lies among its operands: one that is out of them would be
    /// another expression's.
    Index {
        /// Where the index lies among the operands of the chain.
        operand: u16,
        /// How the step behaves.
        flags: StepFlags,
        /// Where the index itself begins in the source.
        pos: Position,
        /// Where the bracket before the index is.
        bracket: Position,
    },
    /// `.name`, which is read by one function and written by another; both have names of their own in the pool, so that no
    /// name is made while the script runs.
    Property {
        /// The name of the property.
        name: u32,
        /// The name of the function that reads it.
        getter: u32,
        /// The name of the function that writes it.
        setter: u32,
        /// How the step behaves.
        flags: StepFlags,
        /// Where the property's name is in the source.
        pos: Position,
    },
    /// `.name(arguments)`. What it is called on is what the chain has reached, and isn't an operand.
    Method {
        /// The name of the method.
        name: u32,
        /// How many arguments there are, the receiver not counted.
        argc: u8,
        /// Where the first argument lies among the operands of the chain.
        operand: u16,
        /// How the step behaves.
        flags: StepFlags,
        /// Where the call is in the source.
        pos: Position,
    },
}

impl Step {
    /// How many positions the step carries.
    #[must_use]
    pub fn position_slots(&self) -> u32
        ensures { result ≡ length (step_positions self.now) }
    {
        match self {
            Step::Index { .. } => 2,
            Step::Property { .. } | Step::Method { .. } => 1,
        }
    }

    /// The last place at which the step takes an operand, among those of its chain: an index's own, and a method's last
    /// argument's. `None` if it takes none.
    ///
    /// In a program that verifies it is below [`Chain::operands`].
    #[must_use]
    pub fn last_operand(&self) -> Option<u32>
        ensures { result ≡ last_operand self.now }
    {
        match self {
            Step::Index { operand, .. } => Some(u32::from(*operand)),
            Step::Property { .. } => None,
            Step::Method { argc, operand, .. } => {
                let further = argc.checked_sub(1)?;
                Some(u32::from(*operand) + u32::from(further))
            }
        }
    }

    /// Replaces the position of the slot, counted from the step's first.
    fn set_position(&mut self, slot: u32, position: Position)
        requires { slot < length (step_positions self.old) }
        ensures positions { step_positions self.new
            ≡ slice_set (step_positions self.old) slot position }
        ensures rest { step_shape position self.new ≡ step_shape position self.old }
    {
        match self {
            Step::Index { bracket, .. } if slot == 1 => *bracket = position,
            Step::Index { pos, .. } => *pos = position,
            Step::Property { pos, .. } => *pos = position,
            Step::Method { pos, .. } => *pos = position,
        }
    }
}

/// What a chain does at its end.
#[derive(Clone, Debug, PartialEq, Eq, Drop)]
pub enum Tail {
    /// It gives the value that it has reached.
    Read,
    /// It assigns to what it has reached.
    Assign {
        /// The op-assignment to go through, or none for a plain assignment.
        op: Option<u32>,
    },
}

/// Where a chain begins.
#[derive(Clone, Debug, PartialEq, Eq, Drop)]
pub enum Root {
    /// At a local variable.
    Local {
        /// The slot of the variable.
        slot: u16,
        /// The index of its name, for messages.
        name: u32,
    },
    /// At a variable that is looked up by its name.
    Named {
        /// The index of the name.
        name: u32,
        /// Where the name is in the source.
        pos: Position,
    },
    /// At the receiver of the function.
    This {
        /// Where `this` is in the source.
        pos: Position,
    },
    /// At a value that lies on the operand stack above the operands of the steps.
    Temporary,
}

impl Root {
    /// How many positions the root carries. It takes constant time.
    #[must_use]
    pub fn position_slots(&self) -> u32
        ensures { result ≡ length (root_positions self.now) }
    {
        match self {
            Root::Named { .. } | Root::This { .. } => 1,
            Root::Local { .. } | Root::Temporary => 0,
        }
    }

    /// Replaces the position, which the root has to have.
    fn set_position(&mut self, position: Position)
        requires { length (root_positions self.old) ≡ 1 }
        ensures positions { root_positions self.new ≡ position ∷ [] }
        ensures rest { root_shape position self.new ≡ root_shape position self.old }
    {
        match self {
            Root::Named { pos, .. } => *pos = position,
            Root::This { pos } => *pos = position,
            Root::Local { .. } | Root::Temporary => {}
        }
    }
}

/// A whole chain: where it begins, its steps, and what it does at its end.
#[derive(Debug, PartialEq, Eq, Drop)]
pub struct Chain {
    /// Where it begins.
    pub root: Root,
    /// Its steps, in order.
    pub steps: Vec<Step>,
    /// What it does at its end.
    pub tail: Tail,
    /// How many operands the steps take, which isn't all that the chain takes.
    pub operands: u16,
}

impl Chain {
    /// Whether the chain takes a value to assign off the operand stack. It takes constant time.
    #[must_use]
    pub fn assigns(&self) -> bool
        ensures { result ≡ assigns self.now.tail }
    {
        matches!(self.tail, Tail::Assign { .. })
    }

    /// Whether the chain takes its root off the operand stack. It takes constant time.
    #[must_use]
    pub fn roots_on_stack(&self) -> bool
        ensures { result ≡ roots_on_stack self.now.root }
    {
        matches!(self.root, Root::Temporary)
    }

    /// How many values the chain takes off the operand stack: the operands of its steps, its root if that is a
    /// temporary value, and the value that it assigns. So there are 65537 at most. It takes constant time.
    #[must_use]
    pub fn consumes(&self) -> usize
        ensures value { result ≡ consumed self.now }
        ensures small { result ≤ 65537 }
    {
        usize::from(self.operands)
            + usize::from(self.roots_on_stack())
            + usize::from(self.assigns())
    }

    /// Whether the number of the chain's positions fits 32 bits. It takes time by the number of steps.
    #[must_use]
    pub fn slots_fit(&self) -> bool
        ensures { IsTrue result ↔ SlotsFit self.now }
    {
        let mut slots = self.root.position_slots();
        for step in &self.steps {
            let Some(more) = slots.checked_add(step.position_slots()) else {
                return false;
            };
            slots = more;
        }
        true
    }

    /// How many positions the chain carries. It takes time by the number of steps.
    ///
    /// Their number has to fit 32 bits: [`Chain::slots_fit`] says whether it does.
    #[must_use]
    pub fn position_slots(&self) -> u32
        requires { SlotsFit self.now }
        ensures { result ≡ length (positions self.now) }
    {
        self.root.position_slots() + slots_of(&self.steps)
    }

    /// The first slot of the step at the index, or `None` past the steps.
    ///
    /// The number of the chain's positions has to fit 32 bits: [`Chain::slots_fit`] says whether it does. The slot is
    /// below [`Chain::position_slots`], so that [`Chain::set_position`] takes it. It takes time by the number of steps
    /// before that one.
    #[must_use]
    pub fn step_slot(&self, index: usize) -> Option<u32>
        requires { SlotsFit self.now }
        ensures slot { result ≡ step_slot self.now index }
        ensures inside { IfSome result (λ slot. slot < length (positions self.now)) }
    {
        if index < self.steps.len() {
            Some(self.root.position_slots() + slots_of(&self.steps[..index]))
        } else {
            None
        }
    }

    /// The positions that the chain carries, in the order of their slots. To read them all goes over the steps once.
    #[must_use]
    pub fn positions(&self) -> ChainPositions<'_>
        ensures { positions_left result ≡ positions self.now }
    {
        let next = match self.root {
            Root::Named { pos, .. } | Root::This { pos } => Some(pos),
            Root::Local { .. } | Root::Temporary => None,
        };
        ChainPositions {
            next,
            steps: &self.steps,
        }
    }

    /// Replaces the position of one slot, and nothing else.
    ///
    /// The number of the chain's positions has to fit 32 bits, which [`Chain::slots_fit`] says, and the slot has to be
    /// below it, below [`Chain::position_slots`]. It takes time by the number of steps before the slot.
    pub fn set_position(&mut self, slot: u32, pos: Position)
        requires fit { SlotsFit self.old }
        requires inside { slot < length (positions self.old) }
        ensures positions { positions self.new ≡ slice_set (positions self.old) slot pos }
        ensures rest { shape pos self.new ≡ shape pos self.old }
    {
        let in_root = self.root.position_slots();
        if slot < in_root {
            self.root.set_position(pos);
        } else {
            set_step_position(&mut self.steps, slot - in_root, pos);
        }
    }
}

/// The positions of a chain, in the order of their slots. Each takes constant time.
#[derive(Drop)]
pub struct ChainPositions<'a> {
    // The position of the root or of a bracket, which comes before those of the steps.
    next: Option<Position>,
    steps: &'a [Step],
}

impl Iterator for ChainPositions<'_> {
    ghost use Rattle.std.specs.Iterator.{YieldsFirst, item_count};
    ghost use Rattle.grain_pools.specs.ChainPositions.{positions_left};

    type Item = Position;

    ghost next_gives = { YieldsFirst positions_left };

    ghost remaining = { item_count positions_left };

    fn next(&mut self) -> Option<Position> {
        if let Some(position) = self.next.take() {
            return Some(position);
        }
        let (step, rest) = self.steps.split_first()?;
        self.steps = rest;
        match step {
            Step::Index { pos, bracket, .. } => {
                self.next = Some(*bracket);
                Some(*pos)
            }
            Step::Property { pos, .. } | Step::Method { pos, .. } => Some(*pos),
        }
    }
}

/// How many positions the steps carry.
fn slots_of(steps: &[Step]) -> u32
    requires { sum_by (λ s. length (step_positions s)) steps.now < 2 ^ 32 }
    ensures { result ≡ sum_by (λ s. length (step_positions s)) steps.now }
{
    steps.iter().map(Step::position_slots).sum()
}

/// Replaces the position of one slot of the steps.
fn set_step_position(steps: &mut [Step], slot: u32, position: Position)
    requires { slot < length (steps_positions steps.old) }
    ensures positions { steps_positions steps.new
        ≡ slice_set (steps_positions steps.old) slot position }
    ensures rest { map (step_shape position) steps.new ≡ map (step_shape position) steps.old }
{
    let mut left = slot;
    for step in steps.iter_mut() {
        let slots = step.position_slots();
        if left < slots {
            step.set_position(left, position);
            return;
        }
        left -= slots;
    }
}
