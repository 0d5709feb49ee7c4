//! Indices and counts of scripts as places and lengths.
ghost use Rattle.std.specs.Prelude.{◌≤◌};

/// Where an index leads in a list of this length: at most behind the last, and at least to the first.
#[must_use]
pub fn start_of(len: usize, index: i64) -> usize
    ensures { result ≤ len }
{
    if index < 0 {
        let back = usize::try_from(index.unsigned_abs()).unwrap_or(usize::MAX);
        len.saturating_sub(back)
    } else {
        usize::try_from(index).unwrap_or(usize::MAX).min(len)
    }
}

/// A count from a script: none below 0.
#[must_use]
pub fn count_of(number: i64) -> usize {
    usize::try_from(number).unwrap_or(0)
}

/// A count for a script.
#[must_use]
pub fn number_of(count: usize) -> i64 {
    i64::try_from(count).unwrap_or(i64::MAX)
}
