//! Lists of fields: how many there are, and each.
ghost use Rattle.std.specs.Prelude.{◌≡◌, ◌≤◌, ◌++◌, ℕ, List, OnOk, map};
ghost use Rattle.grain_format.specs.Reading.{Decides};
ghost use Rattle.grain_format.specs.Lists.{CountedFit, counted_spelling};
ghost use Rattle.grain_format.specs.Refusals.{counted_refusal};
ghost use Rattle.grain_format.specs.Formats.{Format, counted_list};

use crate::cursor::Cursor;
use crate::error::{Stop, WriteError};
use crate::field::FileField;
use crate::number::put_number;

/// For how many items room is made before they are read: never for more than there are bytes left.
pub(crate) fn reserve(count: u64, left: usize) -> usize
    ensures counted { result ≤ count }
    ensures there { result ≤ left }
{
    count.min(left as u64) as usize
}

/// Appends how many items there are, and each.
fn put_all<T: FileField>(out: &mut Vec<u8>, items: &[T]) -> Result<(), WriteError>
    ensures spelled { OnOk result (out.new.items
        ≡ out.old.items ++ counted_spelling T.format.spelling (map T.view items.now)) }
    ensures fits { OnOk result (CountedFit T.format.Fits (map T.view items.now)) }
    ensures decides { Decides result (counted_refusal T.format.refusal (map T.view items.now)) }
{
    put_number(out, items.len() as u64)?;
    for item in items {
        item.write(out)?;
    }
    Ok(())
}

impl<T: FileField> FileField for Vec<T> {
    ghost View = { List T.View };

    ghost view = { λ v. map T.view v.items };

    ghost format = { counted_list T.format };

    fn read(cursor: &mut Cursor<'_>) -> Result<Vec<T>, Stop> {
        let list = cursor.part;
        let count = cursor.number()?;
        let mut items = Vec::with_capacity(cursor.alloc, reserve(count, cursor.left.len()))?;
        'items: for index in 0..count {
            cursor.part = list.item(index as usize);
            let item = T::read(cursor)?;
            items.push(item)?;
        }
        Ok(items)
    }

    fn write(&self, out: &mut Vec<u8>) -> Result<(), WriteError> {
        put_all(out, self.as_slice())?;
        Ok(())
    }
}
