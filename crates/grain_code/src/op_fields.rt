//! The fields of an operation, labels as its jump target, and how many bytes it takes.
//!
//! The assembler treats every operation alike by its fields, and so has no arm for each.

ghost use Rattle.std.specs.Prelude.{◌≡◌};
ghost use Rattle.grain_code.specs.Fields.{field_list};
ghost use Rattle.grain_code.specs.InstructionTable.{encoding, form, width_of};
ghost use Rattle.grain_code.specs.Labels.{bound, with_labels_bound};

use crate::encoding::layout;
use crate::field::Fields;
use crate::op::Op;
use crate::tag_table::tag_row;

impl Op {
    /// The fields with which it is written after its tag (docs/FORMAT.md, "Instructions").
    #[must_use]
    pub fn fields(&self) -> Fields
        ensures { field_list result ≡ (form self.now).1 }
    {
        let (_tag, fields) = layout(self);
        fields
    }

    /// Replaces a label that is the jump target by the index of the operation to which it is bound. A label past the list
    /// stays.
    #[tactic(auto, using(crate::proofs::BoundLabels::bound_handler, crate::proofs::BoundLabels::bound_exit))]
    pub fn bind_target(&mut self, labels: &[u32])
        ensures { encoding self.new ≡ with_labels_bound labels.now (encoding self.old) }
    {
        match self {
            Op::Jump(target) => *target = bound(*target, labels),
            Op::JumpIfTrue { target } => *target = bound(*target, labels),
            Op::JumpIfFalse { target } => *target = bound(*target, labels),
            Op::SkipIfNotUnit { target } => *target = bound(*target, labels),
            Op::PushHandler { target, .. } => *target = bound(*target, labels),
            Op::IterNext { exit, .. } => *exit = bound(*exit, labels),
            _ => {}
        }
    }
}

/// The index to which a label is bound, or the label itself if it is past the list.
fn bound(label: u32, labels: &[u32]) -> u32
    ensures { result ≡ bound labels.now label }
{
    match labels.get(label as usize) {
        Some(index) => *index,
        None => label,
    }
}

/// How many bytes an operation takes once it is written.
#[must_use]
pub fn width_of(op: &Op) -> u32
    ensures { result ≡ width_of op.now }
{
    let (tag, _fields) = layout(op);
    u32::from(tag_row(tag).width)
}
