//! Fields.
ghost use Rattle.std.specs.Prelude.{◌≡◌, ◌++◌, ◌^◌, ℕ, ℤ, List, Option, OnOk, map, option_map, string_bytes};
ghost use Rattle.grain_base.specs.Place.{place_of};
ghost use Rattle.grain_format.specs.Reading.{Decides, Gives};
ghost use Rattle.grain_bytecode.specs.Positions.{Place};
ghost use Rattle.grain_format.specs.Chains.{place_format, placed_at};
ghost use Rattle.grain_format.specs.Switches.{integer_format};
ghost use Rattle.grain_format.specs.Formats.{Format, any_number, number_below, text, optional};

use crate::cursor::Cursor;
use crate::error::{FieldFault, Stop, WriteError};
use crate::integer::{put_integer, read_integer};
use crate::number::{put_number, put_string};
use grain_base::Position;

/// A type whose values are fields of a file.
pub trait FileField: Drop {
    /// What of a value is kept.
    ghost View: { Type 0 };

    ghost view: { Self → View };

    /// How a view is encoded, which views have an encoding, and what reading gives.
    ghost format: { Format View };

    /// Reads a value at the cursor, and moves the cursor behind it. Time and memory are linear in the bytes that it reads.
    ///
    /// # Errors
    /// A `FieldFault` if the bytes at the cursor encode no value. `OutOfMemory` if an allocation failed.
    fn read(cursor: &mut Cursor<'_>) -> Result<Self, Stop>
        ensures { Gives view result cursor.new.left.now (format.reading cursor.old.left.now) };

    /// Appends the spelling of the value. Time and memory are linear in the bytes that it appends.
    ///
    /// # Errors
    /// `Unkept` with the first reason for which the value has no spelling. `OutOfMemory` if an allocation failed.
    fn write(&self, out: &mut Vec<u8>) -> Result<(), WriteError>
        ensures spelled { OnOk result
            (out.new.items ≡ out.old.items ++ format.spelling (view self.now)) }
        ensures fits { OnOk result (format.Fits (view self.now)) }
        ensures decides { Decides result (format.refusal (view self.now)) };
}

impl FileField for u32 {
    ghost View = { ℕ };

    ghost view = { λ n. n };

    ghost format = { number_below (2 ^ 32) };

    fn read(cursor: &mut Cursor<'_>) -> Result<u32, Stop> {
        cursor.number_32()
    }

    fn write(&self, out: &mut Vec<u8>) -> Result<(), WriteError> {
        let n = *self;
        put_number(out, u64::from(n))?;
        Ok(())
    }
}

impl FileField for u16 {
    ghost View = { ℕ };

    ghost view = { λ n. n };

    ghost format = { number_below (2 ^ 16) };

    fn read(cursor: &mut Cursor<'_>) -> Result<u16, Stop> {
        cursor.number_16()
    }

    fn write(&self, out: &mut Vec<u8>) -> Result<(), WriteError> {
        let n = *self;
        put_number(out, u64::from(n))?;
        Ok(())
    }
}

impl FileField for u64 {
    ghost View = { ℕ };

    ghost view = { λ n. n };

    ghost format = { any_number };

    fn read(cursor: &mut Cursor<'_>) -> Result<u64, Stop> {
        cursor.number()
    }

    fn write(&self, out: &mut Vec<u8>) -> Result<(), WriteError> {
        let n = *self;
        put_number(out, n)?;
        Ok(())
    }
}

impl FileField for i64 {
    ghost View = { ℤ };

    ghost view = { λ z. z };

    ghost format = { integer_format };

    fn read(cursor: &mut Cursor<'_>) -> Result<i64, Stop> {
        read_integer(cursor)
    }

    fn write(&self, out: &mut Vec<u8>) -> Result<(), WriteError> {
        put_integer(out, *self)?;
        Ok(())
    }
}

impl FileField for Position {
    ghost View = { Place };

    ghost view = { place_of };

    ghost format = { place_format };

    fn read(cursor: &mut Cursor<'_>) -> Result<Position, Stop> {
        match cursor.left {
            [] => Err(Stop::FieldFault(FieldFault::Truncated)),
            [0, rest @ ..] => {
                cursor.left = rest;
                Ok(Position::NONE)
            }
            [1, rest @ ..] => {
                cursor.left = rest;
                let position = read_place(cursor)?;
                Ok(position)
            }
            [_, ..] => Err(Stop::FieldFault(FieldFault::UnknownTag)),
        }
    }

    fn write(&self, out: &mut Vec<u8>) -> Result<(), WriteError> {
        let Some(line) = self.line() else {
            out.push(0)?;
            return Ok(());
        };
        let column = self.position().unwrap_or(0);
        out.push(1)?;
        put_number(out, line as u64)?;
        put_number(out, column as u64)?;
        Ok(())
    }
}

/// Reads a line, which is not 0, and a column.
fn read_place(cursor: &mut Cursor<'_>) -> Result<Position, Stop>
    ensures { Gives place_of result cursor.new.left.now (placed_at cursor.old.left.now) }
{
    let start = cursor.left;
    let line = u16::read(cursor)?;
    let column = u16::read(cursor)?;
    if line == 0 {
        cursor.left = start;
        return Err(Stop::FieldFault(FieldFault::NoLine));
    }
    Ok(Position::new(line, column))
}

impl FileField for String {
    ghost View = { List ℕ };

    ghost view = { λ s. string_bytes s };

    ghost format = { text };

    fn read(cursor: &mut Cursor<'_>) -> Result<String, Stop> {
        let text = cursor.text()?;
        Ok(String::from_str(cursor.alloc, text)?)
    }

    fn write(&self, out: &mut Vec<u8>) -> Result<(), WriteError> {
        put_string(out, self)?;
        Ok(())
    }
}

impl<T: FileField> FileField for Option<T> {
    ghost View = { Option T.View };

    ghost view = { λ o. option_map T.view o };

    ghost format = { optional T.format };

    fn read(cursor: &mut Cursor<'_>) -> Result<Option<T>, Stop> {
        match cursor.left {
            [] => Err(Stop::FieldFault(FieldFault::Truncated)),
            [0, rest @ ..] => {
                cursor.left = rest;
                Ok(None)
            }
            [1, rest @ ..] => {
                cursor.left = rest;
                let value = T::read(cursor)?;
                Ok(Some(value))
            }
            [_, ..] => Err(Stop::FieldFault(FieldFault::UnknownTag)),
        }
    }

    fn write(&self, out: &mut Vec<u8>) -> Result<(), WriteError> {
        match self {
            None => {
                out.push(0)?;
                Ok(())
            }
            Some(value) => {
                out.push(1)?;
                value.write(out)?;
                Ok(())
            }
        }
    }
}
