//! The names of a program as a field.
ghost use Rattle.grain_pools.specs.Names.{texts};
ghost use Rattle.grain_format.specs.Reading.{Gives};
ghost use Rattle.grain_format.specs.Texts.{text_at};
ghost use Rattle.grain_format.specs.Lists.{counted_at};
ghost use Rattle.grain_format.specs.Names.{names_format};

use crate::cursor::Cursor;
use crate::error::{FieldFault, Stop};
use crate::lists::reserve;
use crate::parts::Part;
use grain_pools::{Strings, StringsError};

/// Reads the names. Time and memory are linear in the bytes that it reads. For a count nothing is reserved beyond the number of
/// bytes that are left.
///
/// # Errors
/// A `FieldFault` if the bytes at the cursor are no names: `Truncated`, `TooWide`, `NotShortest`, `NotText`, or `NamesTooLong` if
/// they have more than 4294967295 bytes. `OutOfMemory` if an allocation failed.
pub fn read_names(cursor: &mut Cursor<'_>) -> Result<Strings, Stop>
    ensures { Gives (λ names. names) result cursor.new.left.now
        (names_format.reading cursor.old.left.now) }
{
    let start = cursor.left;
    cursor.part = Part::Names;
    let names = read_texts(cursor)?;
    match Strings::new(cursor.alloc, &names) {
        Ok(strings) => Ok(strings),
        Err(StringsError::OutOfMemory) => Err(Stop::OutOfMemory),
        Err(StringsError::TooLong) => {
            cursor.left = start;
            cursor.part = Part::Names;
            Err(Stop::FieldFault(FieldFault::NamesTooLong))
        }
    }
}

/// Reads how many texts there are, and each, which stays where it lies.
fn read_texts<'a>(cursor: &mut Cursor<'a>) -> Result<Vec<&'a str>, Stop>
    ensures { Gives (λ names. texts names.items) result cursor.new.left.now
        (counted_at text_at cursor.old.left.now) }
{
    let count = cursor.number()?;
    let mut names = Vec::with_capacity(cursor.alloc, reserve(count, cursor.left.len()))?;
    'names: for index in 0..count {
        cursor.part = Part::Name(index as usize);
        let name = cursor.text()?;
        names.push(name)?;
    }
    Ok(names)
}
