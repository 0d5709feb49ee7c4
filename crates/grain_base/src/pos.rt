//! The address table: the line and column of a script at which each instruction's address is.
//!
//! An address table is a count and then, for each entry, how far its address is after the one before it, its line and its
//! column, each a varint that fits a `u32`. Addresses strictly ascend. docs/FORMAT.md, "Address table", has the format.
//!
//! Address tables come from strangers. [`check`] says whether bytes are one. [`resolve`] has a result for any bytes: what is whole
//! before the first damage counts, and nothing after it. No call that reads allocates.

ghost use Rattle.std.specs.Prelude.{◌≡◌, ℕ, ◌^◌, ◌<◌, ◌↔◌, List, [], ◌∷◌, length, drop, Ok, Err, IsOk, IsTrue, IfOk, OnErr};
ghost use Rattle.std.specs.Iterator.{Drains};
ghost use Rattle.std.specs.List.Sorted.{IsStrictlyIncreasing};
ghost use Rattle.grain_base.specs.declared.varint.Error.{Error as NumberError};
ghost use Rattle.grain_base.specs.declared.pos.Error.{Error as TableError};
ghost use Rattle.grain_base.specs.Varint.{BeginsNumbers, U32Flaw, AreShortest};
ghost use Rattle.grain_base.specs.AddressTable.{Entry, addresses, IsNext, NoneNext, Table, LongestFront, EntrySteps, FirstFlaw, site_at, entries_with_site, numbers_from, as_table_error};

mod walk;

use crate::varint;
use std::alloc::{AllocError, Global};
use std::fmt;
pub use walk::Entries;

/// Where something is in a script.
#[derive(Clone, Copy, Debug, PartialEq, Eq)]
pub struct Site {
    /// Lines count from 1. In an address table 0 says that the line isn't known.
    pub line: u32,
    /// Characters of the line count from 1. 0 is before the first.
    pub column: u32,
}

impl Site {
    /// No place in a script.
    pub const NONE: Site = Site { line: 0, column: 0 };

    /// The place of the first character.
    pub const START: Site = Site { line: 1, column: 1 };

    /// Whether it is a place in a script.
    #[must_use]
    pub fn is_some(self) -> bool
        ensures { IsTrue result ↔ 0 < self.line }
    {
        self.line > 0
    }
}

/// The line and the column, with a colon between them.
impl fmt::Display for Site {
    fn fmt<W: fmt::Write>(&self, f: &mut fmt::Formatter<W>) -> fmt::Result {
        let line = self.line;
        let column = self.column;
        write!(f, "{line}:{column}")
    }
}

/// What is wrong with bytes that are no address table.
#[derive(Clone, Copy, PartialEq, Eq)]
pub enum Error {
    /// The bytes end where a number is due or isn't finished.
    Truncated,
    /// A number or an address doesn't fit a `u32`.
    Overflow,
    /// Two entries in a row have one address.
    OutOfOrder {
        /// That address.
        at: u32,
    },
    /// All entries are there, and bytes are left.
    TrailingBytes {
        /// How many are left.
        count: usize,
    },
}

impl From<varint::Error> for Error {
    ghost from_gives = { λ error result. result ≡ as_table_error error };

    fn from(error: varint::Error) -> Error {
        match error {
            varint::Error::Truncated => Error::Truncated,
            varint::Error::Overflow => Error::Overflow,
        }
    }
}

impl fmt::Display for Error {
    ghost use Rattle.std.specs.Prelude.{Some};
    ghost use Rattle.grain_base.specs.AddressTable.{table_error_text};

    ghost output = { λ error. Some (table_error_text error) };

    fn fmt<W: fmt::Write>(&self, f: &mut fmt::Formatter<W>) -> fmt::Result {
        match self {
            Error::Truncated => write!(f, "address table ends before its last number"),
            Error::Overflow => {
                write!(
                    f,
                    "address table holds a number or an address too wide to read"
                )
            }
            Error::OutOfOrder { at } => {
                write!(f, "address table has two entries in a row for address {at}")
            }
            Error::TrailingBytes { count } => {
                write!(f, "address table has {count} bytes past its last entry")
            }
        }
    }
}

impl std::error::Error for Error {}

/// The error as it is written in code. By hand: the text of `TableError::Malformed` has it, and derived printing promises nothing.
impl fmt::Debug for Error {
    ghost use Rattle.std.specs.Prelude.{Some};
    ghost use Rattle.grain_base.specs.AddressTable.{debug_text_of};

    ghost debug_output = { λ error. Some (debug_text_of error) };

    fn fmt<W: fmt::Write>(&self, f: &mut fmt::Formatter<W>) -> fmt::Result {
        match self {
            Error::Truncated => write!(f, "Truncated"),
            Error::Overflow => write!(f, "Overflow"),
            Error::OutOfOrder { at } => write!(f, "OutOfOrder {{ at: {at} }}"),
            Error::TrailingBytes { count } => write!(f, "TrailingBytes {{ count: {count} }}"),
        }
    }
}

/// Reads the next entry, whose address is counted from the one before it.
#[inline]
fn entry(table: &[u8], at: &mut usize, before: u32) -> Result<(u32, Site), varint::Error>
    ensures ok { IfOk result
        (λ entry. IsNext before (drop at.old table.now) entry (drop at.new table.now)) }
    ensures err { OnErr result (NoneNext before (drop at.old table.now)) }
{
    let delta = varint::u32(table, at)?;
    let address = before.checked_add(delta).ok_or(varint::Error::Overflow)?;
    let line = varint::u32(table, at)?;
    let column = varint::u32(table, at)?;
    Ok((address, Site { line, column }))
}

/// The entries of an address table in order, each with its address: docs/FORMAT.md, "Address table".
///
/// They are those that are whole before the first damage, and no more than the count says; entries of line 0 and
/// repeated addresses are among them. After the last there is nothing more, however often it is called. If the bytes
/// begin with no count that fits a `u32` there are none.
///
/// To read them all takes time by the length of the address table, and no memory.
#[must_use]
pub fn entries(table: &[u8]) -> Entries<'_>
    ensures from_the_start { (n : ℕ) (after : List ℕ) → BeginsNumbers table.now (n ∷ []) after
        → result ≡ record { count = n; before = 0; bytes = after } }
    ensures gives { (items : List Entry) → Drains EntrySteps result items
        → LongestFront table.now items }
{
    let mut at = 0;
    let Ok(count) = varint::u32(table, &mut at) else {
        return Entries {
            table,
            at,
            before: 0,
            count: 0,
        };
    };
    Entries {
        table,
        at,
        before: 0,
        count,
    }
}

/// Looks up an address: the site of the first entry there.
///
/// `None` if no entry has the address, or if the line of the first that has it is 0. The entries are those that
/// are whole before the first damage, and no more than the count says. An address that is repeated is no damage
/// here.
///
/// It reads the address table up to the entry, and takes no memory.
#[must_use]
pub fn resolve(table: &[u8], address: u32) -> Option<Site>
    ensures { (front : List Entry) × LongestFront table.now front × (result ≡ site_at front address) }
{
    for (here, site) in entries(table) {
        if here == address {
            return if site.line == 0 { None } else { Some(site) };
        }
        // The entries after this one are no lower.
        if here > address {
            return None;
        }
    }
    None
}

/// The number of entries that an address table states, which is its first number. They needn't be there. It takes constant
/// time.
///
/// # Errors
///
/// `Truncated` or `Overflow` if that number can't be read.
pub fn count(table: &[u8]) -> Result<u32, Error>
    ensures ok { (n : ℕ) → (result ≡ Ok n) ↔ ((rest : List ℕ) × BeginsNumbers table.now (n ∷ []) rest) }
    ensures err { (e : TableError) → (result ≡ Err e)
        ↔ ((error : NumberError) × U32Flaw table.now error × (e ≡ as_table_error error)) }
{
    let mut at = 0;
    Ok(varint::u32(table, &mut at)?)
}

/// Tests whether the bytes are an address table. It reads them once, and takes no memory.
///
/// # Errors
///
/// What is wrong first, in the order of the numbers.
pub fn check(table: &[u8]) -> Result<(), Error>
    ensures ok { IsOk result ↔ ((list : List Entry) × Table table.now list) }
    ensures err { (e : TableError) → (result ≡ Err e) ↔ FirstFlaw table.now e }
{
    let mut at = 0;
    let count = varint::u32(table, &mut at)?;
    let mut address = 0u32;
    for entry in 0..count {
        let delta = varint::u32(table, &mut at)?;
        if delta == 0 && entry != 0 {
            return Err(Error::OutOfOrder { at: address });
        }
        address = address.checked_add(delta).ok_or(Error::Overflow)?;
        let _line = varint::u32(table, &mut at)?;
        let _column = varint::u32(table, &mut at)?;
    }
    match table.len() - at {
        0 => Ok(()),
        count => Err(Error::TrailingBytes { count }),
    }
}

/// Whether the addresses of the entries that have a line strictly ascend, as [`encode`] requires. It goes over the entries
/// once, and takes no memory.
#[must_use]
pub fn is_ascending(sites: &[(u32, Site)]) -> bool
    ensures { IsTrue result ↔ IsStrictlyIncreasing (addresses (entries_with_site sites.now)) }
{
    // The least address that the next entry may have.
    let mut least = 0;
    for (address, site) in sites {
        if site.line == 0 {
            continue;
        }
        let address = u64::from(*address);
        if address < least {
            return false;
        }
        least = address + 1;
    }
    true
}

/// How many entries have a line.
fn count_kept(sites: &[(u32, Site)]) -> usize
    ensures { result ≡ length (entries_with_site sites.now) }
{
    sites.iter().filter(|(_, site)| site.line != 0).count()
}

/// Writes the address table of the entries that have a line, in the shortest spellings.
///
/// Their addresses have to ascend strictly: [`is_ascending`] says whether they do. What is written of 2 to the power 32
/// such entries and more is no address table, since its count doesn't fit.
///
/// It goes over the entries twice, and takes memory for what it writes.
///
/// # Errors
///
/// `AllocError` if there is no memory for the address table.
pub fn encode(alloc: Global, sites: &[(u32, Site)]) -> Result<Vec<u8>, AllocError>
    requires { IsStrictlyIncreasing (addresses (entries_with_site sites.now)) }
    ensures written { let list = entries_with_site sites.now in
        IfOk result (λ table. AreShortest table.items (length list ∷ numbers_from 0 list)) }
    ensures table { length (entries_with_site sites.now) < 2 ^ 32
        → IfOk result (λ table. Table table.items (entries_with_site sites.now)) }
{
    let mut table = Vec::new(alloc);
    varint::put_u64(&mut table, count_kept(sites) as u64)?;
    let mut last = 0;
    for (address, site) in sites {
        if site.line == 0 {
            continue;
        }
        varint::put_u64(&mut table, u64::from(*address - last))?;
        varint::put_u64(&mut table, u64::from(site.line))?;
        varint::put_u64(&mut table, u64::from(site.column))?;
        last = *address;
    }
    Ok(table)
}
