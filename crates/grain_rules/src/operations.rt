//! What each operation needs of the stacks and leaves on them, what it requires of the host, and how it is left.
ghost use Rattle.std.specs.Prelude.{◌≡◌, []};
ghost use Rattle.std.specs.Option.{option_to_list};
ghost use Rattle.grain_rules.specs.EffectView.{asked_in, flow_in, operand_numbers};
ghost use Rattle.grain_rules.specs.FlowFields.{falls_for, handlers_for, iterators_for, targets_for};
ghost use Rattle.grain_rules.specs.Rows.{caps_of, flow_of, gives, is_quiet, needs, takes};
ghost use Rattle.grain_rules.specs.Setting.{Setting};

use crate::asks::Asks;
use crate::effect::Effect;
use crate::read::Read;
use grain_base::{Caps, Flags};
use grain_code::{Flow, Op, Receiver};

impl Effect {
    /// What an operation does with these pools; a chain that isn't there takes nothing.
    #[inline(always)]
    #[must_use]
    pub fn of<P: Read>(op: &Op, pools: &P) -> Effect
        ensures operands { (s : Setting) → s.facts ≡ P.facts pools.now
            → operand_numbers result ≡ (needs s op.now, takes s op.now, gives s op.now) }
        ensures asks { (s : Setting) → asked_in s result.asks ≡ caps_of s op.now }
        ensures flow { flow_in result ≡ flow_of op.now }
        ensures quiet { result.quiet ≡ is_quiet op.now }
    {
        match *op {
            Op::Unit | Op::Bool(_) => Effect::taking(0, 1).quietly(),
            Op::Const(_)
            | Op::LoadLocal(_)
            | Op::EvalAst { .. }
            | Op::InterpolateStart
            | Op::LoadShared(_)
            | Op::LoadSharedNamed(_) => Effect::taking(0, 1),
            Op::LoadNamed(name) => Effect::taking(0, 1).asking(Asks::Name(name)),
            Op::MakeClosure(_) => Effect::taking(0, 1).asking(Asks::These(Caps::FN_PTR)),
            Op::LoadThis | Op::LoadThisShared => {
                Effect::taking(0, 1).asking(Asks::These(Caps::THIS))
            }
            Op::CustomSyntax(_) => Effect::taking(0, 1).asking(Asks::These(Caps::CUSTOM_SYNTAX)),
            Op::Pop => Effect::taking(1, 0).quietly(),
            Op::StoreLocal { .. }
            | Op::AssignLocal { .. }
            | Op::DeclareLocal { .. }
            | Op::AssignNamed { .. }
            | Op::StoreShared(_) => Effect::taking(1, 0),
            Op::AssignThis { .. } => Effect::taking(1, 0).asking(Asks::These(Caps::THIS)),
            Op::Import { .. } => Effect::taking(1, 0).asking(Asks::These(Caps::IMPORT)),
            Op::JumpIfTrue { target } | Op::JumpIfFalse { target } => {
                Effect::taking(1, 0).leading(Flow::Branches, target)
            }
            // These look at the top of the operand stack and leave it there.
            Op::SkipIfNotUnit { target } => Effect::keeping(1, 0).leading(Flow::Branches, target),
            Op::Switch(index) => Effect::keeping(1, 0).leading(Flow::Switches, index),
            Op::Throw => Effect::taking(1, 0).flowing(Flow::Ends),
            Op::IterInit => Effect::taking(1, 0).flowing(Flow::BeginsIterator),
            Op::InterpolateEnd | Op::CheckSize { .. } => Effect::taking(1, 1),
            Op::MakeFnPtr => Effect::taking(1, 1).asking(Asks::These(Caps::FN_PTR)),
            Op::IsShared => Effect::taking(1, 1).asking(Asks::These(Caps::SHARING)),
            // The piece is appended to the text that lies below it and stays.
            Op::InterpolateAppend => Effect::keeping(1, 1),
            // The first argument is the variable, which doesn't lie on the operand stack.
            Op::CallRef {
                name,
                argc,
                receiver: Receiver::Local(_),
                ..
            } => Effect::taking(u32::from(argc).saturating_sub(1), 1).asking(Asks::Name(name)),
            Op::CallRef {
                name,
                argc,
                receiver: Receiver::This,
                ..
            } => Effect::taking(u32::from(argc), 1).asking(Asks::NameOnThis(name)),
            Op::Call { name, argc, .. }
            | Op::CallRef {
                name,
                argc,
                receiver: Receiver::Named(_),
                ..
            } => Effect::taking(u32::from(argc), 1).asking(Asks::Name(name)),
            Op::Chain(index) => Effect::taking(pools.chain_takes(index), 1).asking(Asks::Chain(
                index,
            )),
            Op::MakeArray(len) => {
                Effect::taking(u32::from(len), 1).asking(Asks::These(Caps::ARRAY))
            }
            // The keys and values of the entries, and the literal that they go into.
            Op::MakeMap(len) => {
                Effect::taking(2 * u32::from(len) + 1, 1).asking(Asks::These(Caps::MAP))
            }
            Op::Curry(argc) => {
                let caps = Caps::FN_PTR.union(Caps::CURRYING);
                Effect::taking(u32::from(argc) + 1, 1).asking(Asks::These(caps))
            }
            // The arguments, and the pointer below them.
            Op::CallFnPtr { argc, .. } => {
                Effect::taking(u32::from(argc) + 1, 1).asking(Asks::These(Caps::FN_PTR))
            }
            Op::Rotate(depth) => {
                Effect::taking(u32::from(depth) + 1, u32::from(depth) + 1).quietly()
            }
            Op::Share(_) | Op::ShareNamed(_) => {
                Effect::taking(0, 0).asking(Asks::These(Caps::SHARING))
            }
            Op::RequireThis => Effect::taking(0, 0).asking(Asks::These(Caps::THIS)),
            Op::ExportLocal { .. } | Op::ExportNamed { .. } => {
                Effect::taking(0, 0).asking(Asks::These(Caps::EXPORT))
            }
            Op::Jump(target) => Effect::taking(0, 0).leading(Flow::Jumps, target),
            Op::Return => Effect::taking(0, 0).flowing(Flow::Ends).quietly(),
            // The item that it pushes lies on one of its two ways alone.
            Op::IterNext { exit, .. } => {
                Effect::taking(0, 0).leading(Flow::AdvancesIterator, exit)
            }
            Op::IterDrop => Effect::taking(0, 0).flowing(Flow::EndsIterator).quietly(),
            Op::PushHandler { target, .. } => {
                Effect::taking(0, 0).leading(Flow::PushesHandler, target)
            }
            Op::PopHandler => Effect::taking(0, 0).flowing(Flow::PopsHandler).quietly(),
            Op::UnwindTo(_) => Effect::taking(0, 0).quietly(),
            Op::Tick | Op::Checkpoint | Op::Statement { .. } => Effect::taking(0, 0),
        }
    }

    /// The address that it may jump to, a catch among them, if its flow has one.
    #[must_use]
    pub fn target_address(&self) -> Option<u32>
        ensures { option_to_list result ≡ targets_for [] (flow_in self.now) }
    {
        self.flow.has_target().then_some(self.target)
    }

    /// How many iterators there have to be.
    #[inline(always)]
    #[must_use]
    pub fn iterators_needed(&self) -> u32
        ensures { result ≡ iterators_for (flow_in self.now) }
    {
        match self.flow {
            Flow::AdvancesIterator | Flow::EndsIterator => 1,
            Flow::Falls
            | Flow::Ends
            | Flow::Jumps
            | Flow::Branches
            | Flow::Switches
            | Flow::BeginsIterator
            | Flow::PushesHandler
            | Flow::PopsHandler => 0,
        }
    }

    /// How many handlers have to be armed.
    #[must_use]
    pub fn handlers_needed(&self) -> usize
        ensures { result ≡ handlers_for (flow_in self.now) }
    {
        match self.flow {
            Flow::PopsHandler => 1,
            Flow::Falls
            | Flow::Ends
            | Flow::Jumps
            | Flow::Branches
            | Flow::Switches
            | Flow::BeginsIterator
            | Flow::AdvancesIterator
            | Flow::EndsIterator
            | Flow::PushesHandler => 0,
        }
    }

    /// Whether it may go on to the next operation.
    #[must_use]
    pub fn falls(&self) -> bool
        ensures { result ≡ falls_for (flow_in self.now) }
    {
        match self.flow {
            Flow::Ends | Flow::Jumps | Flow::Switches => false,
            Flow::Falls
            | Flow::Branches
            | Flow::BeginsIterator
            | Flow::AdvancesIterator
            | Flow::EndsIterator
            | Flow::PushesHandler
            | Flow::PopsHandler => true,
        }
    }
}
