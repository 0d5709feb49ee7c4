//! Parts of arrays, texts and integers, by a start and a number, or by a range.
ghost use Rattle.std.specs.Prelude.{◌≤◌};

use rhai_texts::places::{count_of, start_of};
use rhai_values::{Interval, Value};

/// The places from one up to another.
#[derive(Clone, Copy, Drop)]
pub(crate) struct Span {
    /// The first one.
    pub(crate) first: usize,
    /// The first one past them.
    pub(crate) end: usize,
}

impl Span {
    /// A number of places from an index on, in a list of this length. What would lie past its end is left out.
    pub(crate) fn counted(len: usize, start: i64, count: i64) -> Span
        ensures { result.end ≤ len }
    {
        let first = start_of(len, start);
        let end = first.saturating_add(count_of(count)).min(len);
        Span { first, end }
    }

    /// The places that a range, or an index and a number, say. `None` of other arguments.
    pub(crate) fn of(len: usize, arguments: &[Value]) -> Option<Span> {
        let (start, count) = start_and_count(arguments)?;
        Some(Span::counted(len, start, count))
    }

    /// As [`of`](Span::of), and of an index alone the places from there on.
    pub(crate) fn of_or_rest(len: usize, arguments: &[Value]) -> Option<Span> {
        match arguments {
            [Value::Int(start)] => Some(Span::counted(len, *start, i64::MAX)),
            _ => Span::of(len, arguments),
        }
    }
}

/// The index and the number that the arguments say. `None` of other arguments.
pub(crate) fn start_and_count(arguments: &[Value]) -> Option<(i64, i64)> {
    match arguments {
        [Value::Range(range)] => Some(bounds_of(range)),
        [Value::Int(start), Value::Int(count)] => Some((*start, *count)),
        _ => None,
    }
}

/// The first place of a range, and how many there are. Those below 0 are left out, and none counts from the end.
fn bounds_of(range: &Interval) -> (i64, i64) {
    let start = range.from.max(0);
    let count = range.to.max(start).saturating_sub(start);
    if range.inclusive {
        (start, count.saturating_add(1))
    } else {
        (start, count)
    }
}
