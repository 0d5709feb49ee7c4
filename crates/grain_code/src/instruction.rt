//! An instruction where it is in code, as its bytes, since much of what is asked of one needs no decoding.
ghost use Rattle.std.specs.Prelude.{◌≡◌, ℕ, ◌+◌, ◌<◌, ◌≤◌, ◌∷◌, IfSome, IfNone, List, None, Some, length};
ghost use Rattle.grain_code.specs.InstructionTable.{Instr, form, width_of};
ghost use Rattle.grain_code.specs.Split.{StandsAt, NoneStandsAt};
ghost use Rattle.grain_code.specs.declared.field.Field.{Field};
ghost use Rattle.grain_code.specs.declared.field.Field.TheVariants.{Target};
ghost use Rattle.grain_code.specs.declared.op.Op.{Op};

use crate::decoder::op_of;
use crate::op::Op;
use crate::tag_widths::{standing_width, width};

/// The bytes of an instruction: its tag and those of its fields (docs/FORMAT.md, "Instructions").
///
/// It is found by one look at the code, and decoded only if [`Instruction::op`] is called. Each call takes constant time.
#[derive(Clone, Copy, Debug, PartialEq, Eq)]
pub struct Instruction<'a> {
    /// The first byte.
    pub tag: u8,
    /// The bytes after it.
    pub fields: &'a [u8],
}

impl<'a> Instruction<'a> {
    /// The instruction at an address, or `None` if there is none. It allocates nothing.
    #[inline(always)]
    #[must_use]
    pub fn at(code: &'a [u8], at: usize) -> Option<Instruction<'a>>
        ensures found { IfSome result (λ i. (op : Op) × StandsAt code.now at op
            × Instr (i.tag ∷ i.fields.now) op) }
        ensures fits { IfSome result (λ i. at + (length i.fields.now + 1) ≤ length code.now) }
        ensures none { IfNone result (NoneStandsAt code.now at) }
    {
        let width = width(code, at)?;
        Some(Instruction {
            tag: code[at],
            fields: &code[at + 1..at + width],
        })
    }

    /// How many bytes it has.
    #[inline(always)]
    #[must_use]
    pub fn width(&self) -> usize
        ensures { result ≡ length self.now.fields.now + 1 }
    {
        self.fields.len() + 1
    }

    /// The target of a jump, an iterator's exit or a catch, which is the first field of each instruction that has one; the
    /// first four bytes after the tag. `None` if there are fewer.
    #[inline(always)]
    #[must_use]
    pub fn target(&self) -> Option<u32>
        ensures first { (op : Op) (target : ℕ) (others : List Field)
            → Instr (self.now.tag ∷ self.now.fields.now) op
            → (form op).1 ≡ Target target ∷ others → result ≡ Some target }
        ensures short { length self.now.fields.now < 4 → result ≡ None }
    {
        match self.fields {
            [a, b, c, d, ..] => Some(u32::from_le_bytes([*a, *b, *c, *d])),
            _ => None,
        }
    }

    /// What it is, or `None` if these bytes are no instruction. It takes no memory.
    #[inline(always)]
    #[must_use]
    pub fn op(&self) -> Option<Op>
        ensures found { IfSome result (λ op. Instr (self.now.tag ∷ self.now.fields.now) op) }
        ensures none { IfNone result
            ((op : Op) → Instr (self.now.tag ∷ self.now.fields.now) op → ⊥) }
    {
        op_of(self.tag, self.fields)
    }
}

/// The operation at an address where one is known to be, and the address after it.
///
/// It tests neither whether the address is in the code nor whether its byte is a tag nor whether the fields are there, as
/// [`Instruction::at`] does. It takes constant time and no memory.
#[inline(always)]
#[must_use]
pub fn decode_standing(code: &[u8], at: usize) -> (Op, usize)
    requires { (op : Op) × StandsAt code.now at op }
    ensures stands { StandsAt code.now at result.0 }
    ensures behind { result.1 ≡ at + width_of result.0 }
    ensures fits { result.1 ≤ length code.now }
{
    let width = standing_width(code, at);
    let Some(op) = op_of(code[at], &code[at + 1..at + width]) else {
        unreachable!()
    };
    (op, at + width)
}

/// The instruction at an address and its width, or `None` if there is none.
#[inline(always)]
pub(crate) fn read(code: &[u8], at: usize) -> Option<(Op, usize)>
    ensures found { IfSome result (λ found. StandsAt code.now at found.0
        × (found.1 ≡ width_of found.0)) }
    ensures fits { IfSome result (λ found. at + found.1 ≤ length code.now) }
    ensures none { IfNone result (NoneStandsAt code.now at) }
{
    let instruction = Instruction::at(code, at)?;
    let op = instruction.op()?;
    Some((op, instruction.width()))
}
