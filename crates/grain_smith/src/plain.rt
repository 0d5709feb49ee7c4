//! Operations that fall through, made of a tag and fields at random, so that each instruction of the table comes up.

use crate::error::SmithError;
use crate::writer::Writer;
use grain::{Field, Flow, Instruction, Op, tag, tag_row};

/// The fields of the widest instruction, empty.
static NO_FIELDS: [u8; 6] = [0; 6];

/// How many tags are tried until one fits.
const TRIES: usize = 12;

/// More operands than these aren't stacked on purpose.
const HEIGHT: u32 = 24;

impl Writer {
    /// Appends a value of a field as it is written, and says whether there is one.
    fn put_field(&mut self, bytes: &mut Vec<u8>, field: Field) -> Result<bool, SmithError> {
        match field {
            Field::Index(pool, _) => {
                let size = self.supply.size(pool);
                let index = u16::try_from(self.chance.below(size)).unwrap_or(0);
                bytes.extend_from_slice(&index.to_le_bytes())?;
                Ok(size > 0)
            }
            Field::Slot(_) => {
                let most = if self.chance.one_in(12) { u16::MAX } else { 6 };
                let slot = self.chance.small(most);
                bytes.extend_from_slice(&slot.to_le_bytes())?;
                Ok(true)
            }
            Field::Count(_) => {
                bytes.push(self.chance.byte(5))?;
                Ok(true)
            }
            Field::Target(_) => Ok(false),
        }
    }

    /// The operation of a tag with fields at random. Nothing if the tag begins no instruction, one that leads to a target, or
    /// one with an index into an empty pool.
    fn of_tag(&mut self, tag: u8) -> Result<Option<Op>, SmithError> {
        let width = usize::from(tag_row(tag).width);
        let Some(fields) = NO_FIELDS.get(..width.wrapping_sub(1)) else {
            return Ok(None);
        };
        let Some(blank) = Instruction { tag, fields }.op() else {
            return Ok(None);
        };
        let mut bytes = Vec::new(self.alloc);
        for field in blank.fields().as_slice() {
            if !self.put_field(&mut bytes, *field)? {
                return Ok(None);
            }
        }
        let fields = bytes.as_slice();
        Ok(Instruction { tag, fields }.op())
    }

    /// An operation at random that leads to no target.
    fn any(&mut self) -> Result<Option<Op>, SmithError> {
        let tag = self.chance.byte(tag::IMPORT).saturating_add(1);
        self.of_tag(tag)
    }

    /// An operation at random that falls through and passes here.
    fn fitting(&mut self) -> Result<Option<Op>, SmithError> {
        for _turn in 0..TRIES {
            if let Some(op) = self.any()? {
                let effect = self.supply.effect(&op);
                if effect.flow == Flow::Falls && self.allows(&effect) {
                    return Ok(Some(op));
                }
            }
        }
        Ok(None)
    }

    /// Writes an operation that falls through.
    pub fn plain(&mut self) -> Result<(), SmithError> {
        if self.operands > HEIGHT {
            return self.put(Op::Pop);
        }
        if self.chance.one_in(4) {
            let wanted = self.operands.saturating_add(1);
            return self.level(wanted);
        }
        match self.fitting()? {
            Some(op) => self.put(op),
            None => self.put(Op::Unit),
        }
    }

    /// Writes operations that no path leads to, which nothing is required of. The state stays as it is.
    pub fn unreached(&mut self) -> Result<(), SmithError> {
        for _turn in 0..self.chance.below(4) {
            if let Some(op) = self.any()?
                && self.supply.effect(&op).flow != Flow::Switches
            {
                self.ops.push(op)?;
            }
        }
        Ok(())
    }
}
