//! Names: the bytes of one after another, and where each of them starts.
ghost use Rattle.std.specs.Prelude.{◌≡◌, ◌<◌, ◌^◌, ◌≤◌, ◌⊎◌, ◌↔◌, true, Err, IfOk, IfSome, IfNone, OnOk, None, Some, MatchResult, length, slice_get, option_map, nat_eq};
ghost use Rattle.std.specs.List.{concat, list_all};
ghost use Rattle.std.specs.Str.{IsUtf8, is_utf8};
ghost use Rattle.grain_pools.specs.Names.{first_flaw, names_in, span, span_flaw, starts_of, texts};
ghost use Rattle.grain_pools.specs.NamesLeft.{names_left};

use std::alloc::{AllocError, AllocFailed, Global};
use std::marker::Model;
use std::{fmt, str};

/// Why bytes and starts are no names.
#[derive(Clone, Debug, PartialEq, Eq, Drop)]
pub enum BadTable {
    /// There are no starts, or the first isn't 0.
    NoTerminator,
    /// A name runs backwards, or past the bytes.
    SpanOutOfRange {
        /// Where the name begins.
        from: usize,
        /// Where it ends.
        to: usize,
    },
    /// A name is not UTF-8.
    NotUtf8 {
        /// Where the name begins.
        at: usize,
    },
    /// The last start isn't the number of the bytes.
    TrailingBytes,
    /// There was no memory left.
    OutOfMemory,
}

impl From<AllocError> for BadTable {
    ghost use Rattle.std.specs.Prelude.{◌≡◌};
    ghost use Rattle.grain_pools.specs.declared.strings.BadTable.{BadTable};

    ghost from_gives = { λ _ e. e ≡ BadTable.OutOfMemory };

    fn from(_: AllocError) -> BadTable {
        BadTable::OutOfMemory
    }
}

impl fmt::Display for BadTable {
    ghost use Rattle.std.specs.Prelude.{Some};
    ghost use Rattle.grain_pools.specs.Names.{bad_table_text};

    ghost output = { λ error. Some (bad_table_text error) };

    fn fmt<W: fmt::Write>(&self, f: &mut fmt::Formatter<W>) -> fmt::Result {
        match self {
            BadTable::NoTerminator => write!(f, "starts of names don't begin with 0"),
            BadTable::SpanOutOfRange { from, to } => {
                write!(
                    f,
                    "name from {from} to {to} runs backwards or past the bytes"
                )
            }
            BadTable::NotUtf8 { at } => write!(f, "name at {at} is not UTF-8"),
            BadTable::TrailingBytes => write!(f, "bytes are left behind the last name"),
            BadTable::OutOfMemory => write!(f, "out of memory"),
        }
    }
}

impl std::error::Error for BadTable {}

/// Why texts make no names.
#[derive(Clone, Debug, PartialEq, Eq, Drop)]
pub enum StringsError {
    /// The texts have more than 4294967295 bytes.
    TooLong,
    /// There was no memory left.
    OutOfMemory,
}

impl From<AllocError> for StringsError {
    ghost use Rattle.std.specs.Prelude.{◌≡◌};
    ghost use Rattle.grain_pools.specs.declared.strings.StringsError.{StringsError};

    ghost from_gives = { λ _ e. e ≡ StringsError.OutOfMemory };

    fn from(_: AllocError) -> StringsError {
        StringsError::OutOfMemory
    }
}

impl<T: Drop> From<AllocFailed<T>> for StringsError {
    ghost use Rattle.std.specs.Prelude.{◌≡◌};
    ghost use Rattle.grain_pools.specs.declared.strings.StringsError.{StringsError};

    ghost from_gives = { λ _ e. e ≡ StringsError.OutOfMemory };

    fn from(_: AllocFailed<T>) -> StringsError {
        StringsError::OutOfMemory
    }
}

impl fmt::Display for StringsError {
    ghost use Rattle.std.specs.Prelude.{Some};
    ghost use Rattle.grain_pools.specs.Names.{strings_error_text};

    ghost output = { λ error. Some (strings_error_text error) };

    fn fmt<W: fmt::Write>(&self, f: &mut fmt::Formatter<W>) -> fmt::Result {
        match self {
            StringsError::TooLong => write!(f, "names have more than 4294967295 bytes"),
            StringsError::OutOfMemory => write!(f, "out of memory"),
        }
    }
}

impl std::error::Error for StringsError {}

/// Names: the bytes of one after another, and where each of them starts.
///
/// The starts are one more than the names: the first is 0, and the last is where the last name ends.
/// Contracts see the list of the names. A call on them takes constant time.
#[derive(Debug, Drop)]
pub struct Strings {
    blob: Vec<u8>,
    starts: Vec<u32>,
}

impl Model for Strings {
    ghost use Rattle.std.specs.Prelude.{List, ℕ};
    ghost use Rattle.grain_pools.specs.Names.{names_in, IsTable};

    ghost Value = { List (List ℕ) };

    ghost view = { λ s. names_in s.blob.items s.starts.items };

    ghost invariant = { λ s. IsTable s.blob.items s.starts.items };
}

impl Strings {
    /// These names. It goes over them twice, and takes memory for their bytes and starts.
    ///
    /// # Errors
    ///
    /// [`StringsError::TooLong`] if the names have more bytes than a start of 32 bits can count, which is tested
    /// first, and [`StringsError::OutOfMemory`] if an allocation failed.
    pub fn new(alloc: Global, names: &[&str]) -> Result<Strings, StringsError>
        ensures ok { IfOk result (λ s. s ≡ texts names.now) }
        ensures fits { OnOk result (length (concat (texts names.now)) < 2 ^ 32) }
        ensures too_long { (result ≡ Err StringsError.TooLong)
            ↔ (2 ^ 32 ≤ length (concat (texts names.now))) }
    {
        let Some(len) = total_len(names) else {
            return Err(StringsError::TooLong);
        };
        let mut blob = Vec::with_capacity(alloc, len as usize)?;
        let mut starts = Vec::with_capacity(alloc, names.len() + 1)?;
        starts.push(0)?;
        for name in names {
            blob.extend_from_slice(name.as_bytes())?;
            starts.push(blob.len() as u32)?;
        }
        Ok(Strings { blob, starts })
    }

    /// The names that the starts cut from the bytes, which are copied. It goes over the bytes and the starts once before
    /// they are copied.
    ///
    /// # Errors
    ///
    /// The first flaw. First the starts have to begin with 0 ([`BadTable::NoTerminator`]). Then, name by name, its span
    /// may not run backwards or past the bytes ([`BadTable::SpanOutOfRange`]), and the bytes in it have to be UTF-8
    /// ([`BadTable::NotUtf8`]). At last no byte may be left ([`BadTable::TrailingBytes`]).
    ///
    /// [`BadTable::OutOfMemory`] if there is no flaw, and no memory for the copy.
    pub fn borrowed(alloc: Global, blob: &[u8], starts: Vec<u32>) -> Result<Strings, BadTable>
        ensures names { IfOk result (λ s. s ≡ names_in blob.now starts.items) }
        ensures whole { IfOk result (λ s. (concat s ≡ blob.now) × (starts_of 0 s ≡ starts.items)) }
        ensures flaw { let flaw = first_flaw blob.now starts.items in MatchResult result
            (λ _. flaw ≡ None)
            (λ e. (e ≡ BadTable.OutOfMemory) × (flaw ≡ None) ⊎ (flaw ≡ Some e)) }
    {
        check(blob, &starts)?;
        let blob = blob.to_vec(alloc)?;
        Ok(Strings { blob, starts })
    }

    /// How many names there are.
    #[must_use]
    pub fn len(&self) -> usize
        ensures { result ≡ length self.now }
    {
        self.starts.len() - 1
    }

    /// Whether there is no name.
    #[must_use]
    pub fn is_empty(&self) -> bool
        ensures { result ≡ nat_eq (length self.now) 0 }
    {
        self.len() == 0
    }

    /// The name at the index, or `None` past the names.
    #[must_use]
    pub fn get(&self, index: u32) -> Option<&str>
        ensures { option_map (λ s. s.now) result ≡ slice_get self.now index }
    {
        self.name_at(index as usize)
    }

    /// The names in order.
    #[must_use]
    pub fn iter(&self) -> Names<'_>
        ensures { names_left result ≡ self.now }
    {
        Names {
            strings: self,
            next: 0,
        }
    }

    /// The bytes of all names, one after another.
    #[must_use]
    pub fn blob(&self) -> &[u8]
        ensures value { result.now ≡ concat self.now }
        ensures texts { list_all is_utf8 self.now ≡ true }
    {
        &self.blob
    }

    /// Where each name begins in the bytes, and where the last one ends.
    #[must_use]
    pub fn starts(&self) -> &[u32]
        ensures { result.now ≡ starts_of 0 self.now }
    {
        &self.starts
    }

    fn name_at(&self, at: usize) -> Option<&str>
        ensures name { option_map (λ s. s.now) result ≡ slice_get self.now at }
        ensures small { IfSome result (λ _. at < 2 ^ 63) }
    {
        let from = start_at(&self.starts, at)?;
        let to = start_at(&self.starts, at + 1)?;
        Some(text_in(&self.blob, from, to))
    }
}

/// Names, in order. Each takes constant time.
#[derive(Drop)]
pub struct Names<'a> {
    strings: &'a Strings,
    next: usize,
}

impl<'a> Iterator for Names<'a> {
    ghost use Rattle.std.specs.Iterator.{YieldsFirstRef, item_count};
    ghost use Rattle.grain_pools.specs.NamesLeft.{names_left};

    type Item = &'a str;

    ghost next_gives = { YieldsFirstRef names_left };

    ghost remaining = { item_count names_left };

    #[tactic(auto, using(crate::proofs::ListTails::taken, crate::proofs::ListTails::nothing_left))]
    fn next(&mut self) -> Option<&'a str> {
        let name = self.strings.name_at(self.next)?;
        self.next += 1;
        Some(name)
    }
}

/// How many bytes the names have, if a start of 32 bits can count them.
fn total_len(names: &[&str]) -> Option<u32>
    ensures some { IfSome result (λ len. len ≡ length (concat (texts names.now))) }
    ensures none { IfNone result (2 ^ 32 ≤ length (concat (texts names.now))) }
{
    let mut len = 0u32;
    for name in names {
        let Ok(more) = u32::try_from(name.len()) else {
            return None;
        };
        let Some(longer) = len.checked_add(more) else {
            return None;
        };
        len = longer;
    }
    Some(len)
}

/// Where the name at an index begins, or for the index after the last name where that ends; past these nothing.
#[must_use]
pub fn start_at(starts: &[u32], at: usize) -> Option<usize>
    ensures { result ≡ slice_get starts.now at }
{
    starts.get(at).map(|start| *start as usize)
}

/// The text from one start to the next. That it is UTF-8 was tested before, so it isn't tested again.
#[must_use]
pub fn text_in(blob: &[u8], from: usize, to: usize) -> &str
    requires in_order { from ≤ to }
    requires inside { to ≤ length blob.now }
    requires text { IsUtf8 (span blob.now from to) }
    ensures { result.now ≡ span blob.now from to }
{
    unsafe { str::from_utf8_unchecked(&blob[from..to]) }
}

/// What is wrong with the starts, if they don't cut the whole blob into texts.
fn check(blob: &[u8], starts: &[u32]) -> Result<(), BadTable>
    ensures { MatchResult result (λ _. first_flaw blob.now starts.now ≡ None)
        (λ e. first_flaw blob.now starts.now ≡ Some e) }
{
    let [0, rest @ ..] = starts else {
        return Err(BadTable::NoTerminator);
    };
    let mut from = 0;
    for start in rest {
        let to = *start as usize;
        if let Some(flaw) = span_flaw(blob, from, to) {
            return Err(flaw);
        }
        from = to;
    }
    if from == blob.len() {
        Ok(())
    } else {
        Err(BadTable::TrailingBytes)
    }
}

/// What is wrong with the span, if it isn't a text in the blob.
fn span_flaw(blob: &[u8], from: usize, to: usize) -> Option<BadTable>
    ensures { result ≡ span_flaw blob.now from to }
{
    if to < from || blob.len() < to {
        return Some(BadTable::SpanOutOfRange { from, to });
    }
    if is_text(&blob[from..to]) {
        None
    } else {
        Some(BadTable::NotUtf8 { at: from })
    }
}

fn is_text(bytes: &[u8]) -> bool
    ensures { result ≡ is_utf8 bytes.now }
{
    str::from_utf8(bytes).is_ok()
}
