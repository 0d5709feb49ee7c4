//! Places of items by indices that may count from the end.
ghost use Rattle.std.specs.Prelude.{◌<◌, IfSome};

/// The place of an index in a list of this length. An index below 0 counts from its end.
#[must_use]
pub fn place_of(len: usize, index: i64) -> Option<usize>
    ensures { IfSome result (λ place. place < len) }
{
    let place = if index < 0 {
        let back = usize::try_from(index.checked_neg()?).ok()?;
        len.checked_sub(back)?
    } else {
        usize::try_from(index).ok()?
    };
    if place < len { Some(place) } else { None }
}
