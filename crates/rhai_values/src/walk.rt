//! Walks over the items of values.

use crate::cause::Cause;
use crate::value::{List, Value};
use std::alloc::Global;
use std::rc::Rc;

/// What is iterated over.
#[derive(Drop)]
enum Source {
    /// The items of an array, from a place on.
    Items(Rc<List>, usize),
    /// The values in a list, the next one last.
    Values(Vec<Value>),
    /// Integers, one after another.
    Numbers(Numbers),
}

/// Integers, one after another.
#[derive(Clone, Copy, Drop)]
struct Numbers {
    /// The next one, if there is one.
    next: Option<i64>,
    /// The last one.
    last: i64,
}

impl Numbers {
    /// The next one, if there is one.
    #[inline(always)]
    fn at(&self) -> Option<i64> {
        let number = self.next?;
        (number <= self.last).then_some(number)
    }

    #[inline(always)]
    fn go_past(&mut self) {
        self.next = match self.next {
            Some(number) => number.checked_add(1),
            None => None,
        };
    }
}

/// A walk over the items of a value: of an array, of a range, the characters of a text, or the bytes of a blob.
#[derive(Drop)]
pub struct Walk {
    source: Source,
    /// How many items came.
    count: i64,
}

impl Walk {
    /// Begins to go over a value. What changes in it later isn't seen. Of a text it takes memory by its characters, of a blob by its bytes.
    ///
    /// # Errors
    /// [`Cause::WrongType`] for a value that has no items, or out of memory.
    pub fn over(alloc: Global, value: Value) -> Result<Walk, Cause> {
        let source = match value {
            Value::Array(list) => Source::Items(list, 0),
            Value::Range(range) => match range.last() {
                Some(last) => Source::Numbers(Numbers {
                    next: Some(range.from),
                    last,
                }),
                None => Source::Numbers(Numbers {
                    next: None,
                    last: 0,
                }),
            },
            Value::Text(text) => {
                let mut characters = Value::characters(alloc, text.as_str())?;
                characters.reverse();
                Source::Values(characters)
            }
            Value::Blob(bytes) => {
                let mut bytes = Value::bytes(alloc, bytes.as_slice())?;
                bytes.reverse();
                Source::Values(bytes)
            }
            _ => return Err(Cause::WrongType("a value to iterate over")),
        };
        Ok(Walk { source, count: 0 })
    }

    /// The next item, if it is plain; `None` of another one, and behind the last.
    #[inline(always)]
    #[must_use]
    pub fn plain_item(&self) -> Option<Value> {
        match &self.source {
            Source::Numbers(numbers) => Some(Value::Int(numbers.at()?)),
            Source::Items(list, place) => list.items().get(*place)?.plain(),
            Source::Values(_) => None,
        }
    }

    /// Goes past the item that [`plain_item`](Walk::plain_item) gave.
    #[inline(always)]
    pub fn go_past(&mut self) {
        match &mut self.source {
            Source::Numbers(numbers) => numbers.go_past(),
            Source::Items(_, place) => *place = place.saturating_add(1),
            Source::Values(_) => {}
        }
        self.count = self.count.saturating_add(1);
    }

    /// The next item, with how many came before it.
    ///
    /// # Errors
    /// Out of memory, if a copy of the item needs some: it is the next one again.
    pub fn next_item(&mut self) -> Result<Option<(Value, i64)>, Cause> {
        let item = match &mut self.source {
            Source::Items(list, place) => {
                let Some(item) = list.items().get(*place) else {
                    return Ok(None);
                };
                let item = item.clone()?;
                *place = place.saturating_add(1);
                item
            }
            Source::Values(values) => {
                let Some(item) = values.pop() else {
                    return Ok(None);
                };
                item
            }
            Source::Numbers(numbers) => {
                let Some(number) = numbers.at() else {
                    return Ok(None);
                };
                numbers.go_past();
                Value::Int(number)
            }
        };
        let count = self.count;
        self.count = count.saturating_add(1);
        Ok(Some((item, count)))
    }
}
