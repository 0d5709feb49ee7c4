//! Rows and bytes that weren't read yet.
ghost use Rattle.std.specs.Prelude.{◌≡◌, ◌+◌, ◌∷◌, ◌++◌, [], IfErr, IfOk, OnOk, length, pos};
ghost use Rattle.std.specs.Int.{w64, cast_unsigned};
ghost use Rattle.grain_flat_file.specs.Values.{counted_row, value_row};
ghost use Rattle.grain_flat_file.specs.declared.tags.TheConstants as tags;
ghost use Rattle.rhai_flat.specs.Rows.{AreRead, IsRowTaken, settled};
ghost use Rattle.rhai_flat.specs.declared.bad_value.BadValue.{BadValue};

use crate::bad_value::BadValue;
use grain_base::Float;
use grain_flat_file::CValue;
use grain_flat_file::tags::{FLOAT, INTEGER, RANGE, TEXT};
use std::alloc::Global;
use std::str;

/// What is left of rows and of the bytes of their texts.
#[derive(Drop)]
pub(crate) struct Reader<'a> {
    /// What takes the memory for what is read.
    pub(crate) alloc: Global,
    /// The rows that weren't read yet.
    pub(crate) rows: &'a [CValue],
    /// The bytes that weren't read yet.
    pub(crate) texts: &'a [u8],
    /// How many bytes were read.
    pub(crate) from: usize,
}

impl<'a> Reader<'a> {
    /// Reads a row. It has the bits of the one NaN, if those that it has are of any.
    #[tactic(auto, using(crate::proofs::Settled::settled_front, crate::proofs::Settled::settled_stays))]
    pub(crate) fn row(&mut self) -> Result<CValue, BadValue>
        ensures row { IfOk result (λ row. IsRowTaken self.old row self.new) }
        ensures none { IfErr result (λ e. (e ≡ BadValue.TooFewRows) × (self.old.rows.now ≡ [])) }
        ensures bytes { (self.new.texts ≡ self.old.texts) × (self.new.from ≡ self.old.from) }
    {
        match self.rows.split_first() {
            Some((row, rest)) => {
                self.rows = rest;
                Ok(settle(*row))
            }
            None => Err(BadValue::TooFewRows),
        }
    }

    /// Reads the bytes of a row.
    pub(crate) fn bytes(&mut self, row: CValue) -> Result<&'a [u8], BadValue>
        ensures rows { self.new.rows ≡ self.old.rows }
        ensures place { IfOk result (λ _. row.number ≡ pos self.old.from) }
        ensures count { IfOk result (λ read. row.count ≡ length read.now) }
        ensures bytes { IfOk result (λ read.
            self.old.texts.now ≡ read.now ++ self.new.texts.now) }
        ensures from { IfOk result (λ read. self.new.from ≡ self.old.from + length read.now) }
    {
        let Ok(from) = i64::try_from(self.from) else {
            return Err(BadValue::TextPlace);
        };
        if row.number != from {
            return Err(BadValue::TextPlace);
        }
        let Some((bytes, rest)) = self.texts.split_at_checked(row.count as usize) else {
            return Err(BadValue::TextEnd);
        };
        self.texts = rest;
        self.from += bytes.len();
        Ok(bytes)
    }

    /// Reads the text of a row.
    pub(crate) fn text(&mut self, row: CValue) -> Result<&'a str, BadValue>
        ensures rows { self.new.rows ≡ self.old.rows }
        ensures place { IfOk result (λ _. row.number ≡ pos self.old.from) }
        ensures count { IfOk result (λ read. row.count ≡ length read.now) }
        ensures bytes { IfOk result (λ read.
            self.old.texts.now ≡ read.now ++ self.new.texts.now) }
        ensures from { IfOk result (λ read. self.new.from ≡ self.old.from + length read.now) }
    {
        let bytes = self.bytes(row)?;
        match str::from_utf8(bytes) {
            Ok(text) => Ok(text),
            Err(_) => Err(BadValue::NotText),
        }
    }

    /// Reads a row of a text, and that text.
    pub(crate) fn name(&mut self) -> Result<&'a str, BadValue>
        ensures { IfOk result (λ read. AreRead self.old self.new
            (counted_row tags.TEXT (length read.now) ∷ []) read.now) }
    {
        let row = self.row()?;
        if row.tag != TEXT {
            return Err(BadValue::NotName);
        }
        self.text(row)
    }

    /// Reads a row of a range, whose bounds follow.
    pub(crate) fn range(&mut self) -> Result<(), BadValue>
        ensures { OnOk result (AreRead self.old self.new (counted_row tags.RANGE 0 ∷ []) []) }
    {
        let row = self.row()?;
        if row.tag != RANGE {
            return Err(BadValue::NotForeign);
        }
        has_fields(row, 0, 0)
    }

    /// Reads a row of an integer.
    pub(crate) fn integer(&mut self) -> Result<i64, BadValue>
        ensures { IfOk result (λ z. AreRead self.old self.new
            (value_row tags.INTEGER 0 z ∷ []) []) }
    {
        let row = self.row()?;
        if row.tag != INTEGER {
            return Err(BadValue::NotInteger);
        }
        has_fields(row, 0, row.number)?;
        Ok(row.number)
    }
}

/// The row with the bits of the one NaN, if it has those of any.
#[tactic(auto, using(grain_flat_file::proofs::FloatNumbers::number_of_bits), unfolding(crate::specs::Rows::settled))]
fn settle(row: CValue) -> CValue
    ensures { result ≡ settled row }
{
    if row.tag != FLOAT {
        return row;
    }
    let number = Float::of(float(row).number());
    CValue {
        tag: row.tag,
        count: row.count,
        number: number.bits.cast_signed(),
    }
}

/// The floating-point number of a row.
pub(crate) fn float(row: CValue) -> Float
    ensures { result.bits ≡ cast_unsigned w64 row.number }
{
    Float {
        bits: row.number.cast_unsigned(),
    }
}

/// Whether the fields of a row are these.
pub(crate) fn has_fields(row: CValue, count: u32, number: i64) -> Result<(), BadValue>
    ensures { OnOk result ((row.count ≡ count) × (row.number ≡ number)) }
{
    if row.count == count && row.number == number {
        Ok(())
    } else {
        Err(BadValue::UnusedField)
    }
}

/// The character of a row.
pub(crate) fn character(row: CValue) -> Result<char, BadValue>
    ensures { IfOk result (λ c. (row.count ≡ 0) × (row.number ≡ pos c)) }
{
    has_fields(row, 0, row.number)?;
    let Ok(number) = u32::try_from(row.number) else {
        return Err(BadValue::NotCharacter);
    };
    match char::from_u32(number) {
        Some(character) => Ok(character),
        None => Err(BadValue::NotCharacter),
    }
}
