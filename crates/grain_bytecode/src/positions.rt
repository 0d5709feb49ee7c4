//! Where in the source text the bytes of code come from.
//!
//! Positions travel apart from code, as an address table (docs/FORMAT.md, "Address table"). It belongs to code if each
//! of its entries is at an address at which reading the code arrives.

ghost use Rattle.std.specs.Prelude.{◌≡◌, ◌↔◌, ℕ, ◌^◌, ◌<◌, ◌≤◌, List, ◌∷◌, length, map, Some, None, is_none, option_to_list, All, Any, Err, IsOk, IfOk, IfErr};
ghost use Rattle.std.specs.Bool.{OnTrue, OnFalse};
ghost use Rattle.grain_base.specs.AddressTable.{Entry, Table, numbers_from};
ghost use Rattle.grain_base.specs.Place.{place_of};
ghost use Rattle.grain_base.specs.Varint.{AreShortest};
ghost use Rattle.grain_bytecode.specs.Positions.{Arrived, IsRead, IsRefusal, IsPlaced, places, dense, place_at, site_place, entries_at_places, code_site, matched, table_places, AreAhead, from_address};
ghost use Rattle.grain_bytecode.specs.declared.positions.StripError.TheVariants as strip_error;
ghost use Rattle.grain_bytecode.specs.declared.positions.TableError.TheVariants as table_error;

use crate::sites::StreamError;
use grain_base::pos::{Entries, Site};
use grain_base::{Position, pos};
use grain_code::width;
use std::alloc::{AllocError, AllocFailed, Global};
use std::fmt;

/// The positions of code.
#[derive(Debug, Drop)]
pub enum Positions {
    /// None is known.
    Stripped,
    /// One for each byte of the code, by its address. A byte that begins no instruction has none.
    Dense(Vec<Position>),
}

/// Why positions can't be written as an address table.
#[derive(Clone, Debug, PartialEq, Eq, Drop)]
pub enum StripError {
    /// A position that has a line is at an address above 4294967295.
    AddressTooWide,
    /// An allocation failed.
    OutOfMemory,
}

impl From<AllocError> for StripError {
    ghost from_gives = { λ _ e. e ≡ strip_error.OutOfMemory };

    fn from(_e: AllocError) -> StripError {
        StripError::OutOfMemory
    }
}

impl<T: Drop> From<AllocFailed<T>> for StripError {
    ghost from_gives = { λ _ e. e ≡ strip_error.OutOfMemory };

    fn from(_e: AllocFailed<T>) -> StripError {
        StripError::OutOfMemory
    }
}

impl fmt::Display for StripError {
    ghost use Rattle.grain_bytecode.specs.Positions.{strip_error_text};

    ghost output = { λ error. Some (strip_error_text error) };

    fn fmt<W: fmt::Write>(&self, f: &mut fmt::Formatter<W>) -> fmt::Result {
        match self {
            StripError::AddressTooWide => {
                write!(f, "a position stands at an address above 4294967295")
            }
            StripError::OutOfMemory => write!(f, "out of memory"),
        }
    }
}

impl std::error::Error for StripError {}

/// Why positions were refused.
#[derive(Clone, Debug, PartialEq, Eq, Drop)]
pub enum TableError {
    /// The bytes are no address table.
    Malformed(pos::Error),
    /// Not as many addresses at which reading the code arrives have a site as the address table has entries.
    PastTheEnd {
        /// How many entries the address table has.
        entries: usize,
        /// How many addresses at which reading the code arrives have a site.
        matched: usize,
        /// How many bytes the code has, whatever the name says.
        instructions: usize,
    },
    /// The positions are those of another program.
    WrongProgram {
        /// The program that they are of.
        expected: u128,
        /// The program that they were offered to.
        found: u128,
    },
    /// The bytes are no stream of chain positions.
    ChainStream(StreamError),
    /// A stream of chain positions has more slots or fewer than the chains.
    ChainCount {
        /// How many slots the stream has.
        sites: usize,
        /// How many positions the chains carry.
        slots: usize,
    },
    /// An allocation failed.
    OutOfMemory,
}

impl From<pos::Error> for TableError {
    ghost from_gives = { λ error e. e ≡ table_error.Malformed error };

    fn from(error: pos::Error) -> TableError {
        TableError::Malformed(error)
    }
}

impl From<AllocError> for TableError {
    ghost from_gives = { λ _ e. e ≡ table_error.OutOfMemory };

    fn from(_e: AllocError) -> TableError {
        TableError::OutOfMemory
    }
}

impl fmt::Display for TableError {
    ghost use Rattle.grain_bytecode.specs.Positions.{positions_error_text};

    ghost output = { λ error. Some (positions_error_text error) };

    fn fmt<W: fmt::Write>(&self, f: &mut fmt::Formatter<W>) -> fmt::Result {
        match self {
            TableError::Malformed(error) => write!(f, "position table is malformed: {error:?}"),
            TableError::PastTheEnd {
                entries,
                matched,
                instructions,
            } => write!(
                f,
                "position table has {entries} entries but only {matched} begin an instruction of this chunk's {instructions} code bytes, so it is a different program's"
            ),
            TableError::WrongProgram { expected, found } => {
                let expected = DebugId(*expected);
                let found = DebugId(*found);
                write!(
                    f,
                    "sidecar belongs to debug id {expected}, not to this program's {found}"
                )
            }
            TableError::ChainStream(error) => write!(f, "{error}"),
            TableError::ChainCount { sites, slots } => write!(
                f,
                "chain site stream holds {sites} sites but this program's chains carry {slots} positions, so it is a different program's"
            ),
            TableError::OutOfMemory => write!(f, "out of memory"),
        }
    }
}

impl std::error::Error for TableError {}

/// The number of a program, printed as `0x` and 32 digits to the base 16.
#[derive(Clone, Copy)]
struct DebugId(u128);

impl fmt::Display for DebugId {
    ghost use Rattle.grain_bytecode.specs.Positions.{id_text};

    ghost output = { λ id. Some (id_text id.0) };

    fn fmt<W: fmt::Write>(&self, f: &mut fmt::Formatter<W>) -> fmt::Result {
        let high = (self.0 >> 64) as u64;
        let low = (self.0 % (1 << 64)) as u64;
        write!(f, "0x{high:016x}{low:016x}")
    }
}

/// The position of a site: none if its line is 0 or one of its numbers is above 65535. It takes constant time.
#[must_use]
pub fn site_to_position(site: Site) -> Position
    ensures { place_of result ≡ site_place site }
{
    match (u16::try_from(site.line), u16::try_from(site.column)) {
        (Ok(line), Ok(column)) if line > 0 => Position::new(line, column),
        _ => Position::NONE,
    }
}

impl Positions {
    /// The positions of code, byte by byte; stripped if each of them is none. It looks at each once at most.
    #[must_use]
    pub fn dense(positions: Vec<Position>) -> Positions
        ensures { places result ≡ dense (map place_of positions.items) }
    {
        if positions.iter().all(Position::is_none) {
            Positions::Stripped
        } else {
            Positions::Dense(positions)
        }
    }

    /// The position at an address, which is none past the code. It takes constant time.
    #[must_use]
    pub fn get(&self, pc: usize) -> Position
        ensures { place_of result ≡ place_at (places self.now) pc }
    {
        match self {
            Positions::Stripped => Position::NONE,
            Positions::Dense(positions) => match positions.get(pc) {
                Some(position) => *position,
                None => Position::NONE,
            },
        }
    }

    /// Whether none is known. It takes constant time.
    #[must_use]
    pub fn is_stripped(&self) -> bool
        ensures { result ≡ is_none (places self.now) }
    {
        matches!(self, Positions::Stripped)
    }

    /// Writes the address table of the positions that have a line. It goes over the positions a few times, and takes memory
    /// for an entry for each that has a line, and for what it writes.
    ///
    /// # Errors
    ///
    /// `AddressTooWide` if one of these is above 4294967295; else `OutOfMemory` if there is no memory for the
    /// address table.
    pub fn to_table(&self, alloc: Global) -> Result<Vec<u8>, StripError>
        ensures written { let list = entries_at_places (places self.now) in
            IfOk result (λ table. AreShortest table.items (length list ∷ numbers_from 0 list)) }
        ensures table { let list = entries_at_places (places self.now) in
            length list < 2 ^ 32 → IfOk result (λ table. Table table.items list) }
        ensures fits { IsOk result
            → All (λ entry. entry.0 < 2 ^ 32) (entries_at_places (places self.now)) }
        ensures wide { (result ≡ Err strip_error.AddressTooWide)
            ↔ Any (λ entry. 2 ^ 32 ≤ entry.0) (entries_at_places (places self.now)) }
    {
        match self {
            Positions::Stripped => Ok(pos::encode(alloc, &[])?),
            Positions::Dense(positions) => {
                if !addresses_fit(positions) {
                    return Err(StripError::AddressTooWide);
                }
                let sites = sites_of(alloc, positions)?;
                Ok(pos::encode(alloc, &sites)?)
            }
        }
    }

    /// Reads the positions of code from an address table.
    ///
    /// An address table of no entries gives `Stripped` for any code. The entries and the instructions are read side by side,
    /// so that the time goes by the lengths of the address table and the code. The memory is a position for each byte of
    /// the code.
    ///
    /// # Errors
    ///
    /// `Malformed` if the bytes are no address table; `PastTheEnd` if not as many of the addresses at which reading
    /// the code arrives have a site as it has entries; `OutOfMemory` if there is no memory for the positions.
    pub fn from_table(alloc: Global, table: &[u8], code: &[u8]) -> Result<Positions, TableError>
        ensures ok { IfOk result (λ positions. IsRead table.now code.now (places positions)) }
        ensures err { IfErr result (IsRefusal table.now code.now) }
    {
        pos::check(table)?;
        let entries = pos::count(table)? as usize;
        if entries == 0 {
            return Ok(Positions::Stripped);
        }
        let mut positions = vec![in alloc; Position::NONE; code.len()]?;
        let matched = place_all(table, code, &mut positions);
        if matched != entries {
            let instructions = code.len();
            return Err(TableError::PastTheEnd {
                entries,
                matched,
                instructions,
            });
        }
        Ok(Positions::dense(positions))
    }
}

/// Whether the address of each position that has a line fits a `u32`.
fn addresses_fit(positions: &[Position]) -> bool
    ensures fit { OnTrue result (All (λ entry. entry.0 < 2 ^ 32)
        (entries_at_places (Some (map place_of positions.now)))) }
    ensures wide { OnFalse result (Any (λ entry. 2 ^ 32 ≤ entry.0)
        (entries_at_places (Some (map place_of positions.now)))) }
{
    for (at, position) in positions.iter().enumerate() {
        let Some(_line) = position.line() else {
            continue;
        };
        if at > u32::MAX as usize {
            return false;
        }
    }
    true
}

/// An entry for each position that has a line, with its address.
fn sites_of(alloc: Global, positions: &[Position]) -> Result<Vec<(u32, Site)>, AllocError>
    requires { All (λ entry. entry.0 < 2 ^ 32) (entries_at_places (Some (map place_of positions.now))) }
    ensures { IfOk result (λ sites. sites.items ≡ entries_at_places (Some (map place_of positions.now))) }
{
    let mut sites = Vec::new(alloc);
    for (at, position) in positions.iter().enumerate() {
        let Some(line) = position.line() else {
            continue;
        };
        let column = position.position().unwrap_or(0);
        let site = Site {
            line: line as u32,
            column: column as u32,
        };
        sites.push((at as u32, site))?;
    }
    Ok(sites)
}

/// The site of an entry for an address of the code: none if the entry is elsewhere or its line is 0.
fn site_of(entry: Option<(u32, Site)>, at: usize) -> Option<Site>
    ensures { result ≡ code_site (option_to_list entry) at }
{
    let (address, site) = entry?;
    if address as usize != at || site.line == 0 {
        return None;
    }
    Some(site)
}

/// Keeps the position of an entry for an address of the code, and says whether it has a site for it.
fn place(entry: Option<(u32, Site)>, at: usize, positions: &mut [Position]) -> bool
    requires { at < length positions.old }
    ensures { IsPlaced (code_site (option_to_list entry) at) at
        positions.old positions.new result }
{
    let Some(site) = site_of(entry, at) else {
        return false;
    };
    positions[at] = site_to_position(site);
    true
}

/// The first entry at an address or after it, of one that was read and those that are left.
fn entry_from(
    entries: &mut Entries<'_>,
    read: Option<(u32, Site)>,
    at: usize,
) -> Option<(u32, Site)>
    ensures { (list : List Entry) → AreAhead read entries.old list
        → AreAhead result entries.new (from_address at list) }
{
    let mut next = read;
    while let Some((address, _)) = next {
        if address as usize >= at {
            return next;
        }
        next = entries.next();
    }
    None
}

/// Keeps the positions that an address table has for the addresses at which reading the code arrives, and counts those
/// that have a site. The entries and the code are walked side by side, each once.
fn place_all(table: &[u8], code: &[u8], positions: &mut [Position]) -> usize
    requires sized { length positions.old ≡ length code.now }
    requires blank { All (λ position. place_of position ≡ None) positions.old }
    ensures { (arrived : List ℕ) × Arrived code.now arrived
        × ((list : List Entry) → Table table.now list
        → (result ≡ matched list arrived)
        × (map place_of positions.new ≡ table_places list arrived code.now)) }
{
    let mut entries = pos::entries(table);
    let mut next = entries.next();
    let mut at = 0;
    let mut matched = 0;
    while at < code.len() {
        next = entry_from(&mut entries, next, at);
        matched += usize::from(place(next, at, positions));
        let Some(width) = width(code, at) else {
            return matched;
        };
        at += width;
    }
    matched
}
