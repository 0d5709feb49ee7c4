//! A program while its text is read.
ghost use Rattle.std.specs.Prelude.{◌≡◌, ◌<◌, ◌≤◌, IfOk, IfSome, MatchOption, OnOk, [], length, map, option_map, string_bytes, unwrap_or};
ghost use Rattle.std.specs.Option.{ForSome};
ghost use Rattle.grain.specs.Program.{listed_positions};
ghost use Rattle.grain_parse.specs.Drafted.{HasDirectives, HasEntries, HasReadNothing, IsParsedOf};
ghost use Rattle.grain_parse.specs.Entries.{GrowsTo};
ghost use Rattle.grain_parse.specs.declared.draft.TheConstants.{MAX_POSITIONS};

use crate::chains::read_chain;
use crate::chunks::Chunks;
use crate::code::{eat_label, read_instruction};
use crate::error::Unfinished;
use crate::labels::Labels;
use crate::parsed::Parsed;
use crate::pools::Pools;
use crate::sections::{Pass, Section, read_directive, section_named};
use crate::switches::read_switch_line;
use crate::values::{MAX_DEPTH, read_value};
use grain::{Parts, Positions, Program};
use grain_base::{Caps, Position};
use grain_lexer::{
    LineCursor, LineProblem, LineStop, no_number, read_text, read_text_or_word, read_token,
};
use grain_pools::{Strings, StringsError};
use grain_print::UNLISTED;
use std::alloc::{AllocError, Global};
use std::mem;

/// How many positions a text declares at most: as many as a file of 64 MiB has room for, of which 26 bytes are for all else.
/// A short text declares no more than [`most_positions`].
pub const MAX_POSITIONS: u64 = 64 * 1024 * 1024 - 26;

/// How many positions a text of these lines declares at most. Positions take memory that the text must pay for: one for each
/// of its bytes, and as many more as are printed without a line of their own.
pub(crate) fn most_positions(lines: &[&str]) -> u64
    ensures { result ≤ MAX_POSITIONS }
{
    let bytes = lines
        .iter()
        .fold(UNLISTED, |bytes, line| bytes.saturating_add(line.len()));
    MAX_POSITIONS.min(bytes as u64)
}

/// Which directives were given that begin no section.
#[derive(Clone, Copy, Default)]
pub(crate) struct Given {
    caps: bool,
    id: bool,
    fragments: bool,
    source: bool,
    positions: bool,
}

/// What a text says of a program besides its pools, chunks and code.
#[derive(Drop)]
pub(crate) struct Head {
    /// The capabilities, if the text declares some.
    caps: Option<Caps>,
    debug_id: u128,
    fragments: usize,
    source: Option<String>,
    /// How many bytes have a position, if the text says so.
    positions: Option<usize>,
    /// How many it may declare.
    most_positions: u64,
    /// What of this was given.
    given: Given,
}

/// A program while its text is read.
#[derive(Drop)]
pub(crate) struct Draft {
    head: Head,
    pools: Pools,
    chunks: Chunks,
    code: Vec<u8>,
    /// Addresses with their positions.
    places: Vec<(usize, Position)>,
    section: Section,
}

/// Reads the number of a program.
fn read_id(cursor: &mut LineCursor<'_>) -> Result<u128, LineStop> {
    cursor.blanks();
    let start = cursor.left;
    let digits = cursor.word()?;
    match digits.parse::<u128>() {
        Ok(id) => Ok(id),
        Err(error) => {
            cursor.left = start;
            Err(LineStop::Fault(no_number(error, LineProblem::NotDecimal)))
        }
    }
}

/// Reads capabilities: names with bars between them, in quotes.
fn read_caps(cursor: &mut LineCursor<'_>) -> Result<Caps, LineStop> {
    cursor.blanks();
    let start = cursor.left;
    let names = read_text(cursor)?;
    match bitflags::parser::from_str::<Caps>(&names) {
        Ok(caps) => Ok(caps),
        Err(_) => {
            cursor.left = start;
            Err(LineStop::Fault(LineProblem::NotCapability))
        }
    }
}

impl Given {
    /// Notes a directive, and says whether it was given before.
    fn note(&mut self, directive: &str) -> bool {
        match directive {
            ".caps" => mem::replace(&mut self.caps, true),
            ".id" => mem::replace(&mut self.id, true),
            ".fragments" => mem::replace(&mut self.fragments, true),
            ".source" => mem::replace(&mut self.source, true),
            ".positions" => mem::replace(&mut self.positions, true),
            _ => false,
        }
    }
}

impl Head {
    /// Reads what follows a directive that begins no section.
    fn read(&mut self, cursor: &mut LineCursor<'_>, directive: &str) -> Result<(), LineStop>
        ensures most { self.new.most_positions ≡ self.old.most_positions }
        ensures positions { OnOk result
            (IfSome self.old.positions (λ count. count ≤ self.old.most_positions)
            → IfSome self.new.positions (λ count. count ≤ self.old.most_positions)) }
    {
        if self.given.note(directive) {
            return Err(LineStop::Fault(LineProblem::DirectiveTwice));
        }
        match directive {
            ".caps" => self.caps = Some(read_caps(cursor)?),
            ".id" => self.debug_id = read_id(cursor)?,
            ".fragments" => self.fragments = cursor.number()? as usize,
            ".source" => self.source = Some(read_text(cursor)?),
            ".positions" => {
                let count = cursor.number_up_to(self.most_positions)?;
                self.positions = Some(count as usize);
            }
            _ => return Err(LineStop::Fault(LineProblem::Directive)),
        }
        Ok(())
    }
}

impl Draft {
    /// An empty program, which may declare at most this number of positions.
    pub fn new(alloc: Global, most_positions: u64) -> Draft
        ensures nothing { HasReadNothing result }
        ensures positions { result.head.most_positions ≡ most_positions }
    {
        Draft {
            head: Head {
                caps: None,
                debug_id: 0,
                fragments: 0,
                source: None,
                positions: None,
                most_positions,
                given: Given::default(),
            },
            pools: Pools::new(alloc),
            chunks: Chunks::new(alloc),
            code: Vec::new(alloc),
            places: Vec::new(alloc),
            section: Section::Code,
        }
    }

    /// Notes the position of an address.
    fn place(&mut self, at: usize, position: Position) -> Result<(), LineStop>
        ensures inside { OnOk result (ForSome self.old.head.positions (λ len. at < len)) }
        ensures code { self.new.code ≡ self.old.code }
    {
        match self.head.positions {
            Some(len) if at >= len => Err(LineStop::Fault(LineProblem::NoPosition)),
            _ => {
                self.places.push((at, position))?;
                Ok(())
            }
        }
    }

    /// Reads a line of code.
    fn read_code_line(
        &mut self,
        labels: &Labels,
        cursor: &mut LineCursor<'_>,
    ) -> Result<(), LineStop>
        ensures { OnOk result (GrowsTo self.old.code.items self.new.code.items) }
    {
        if eat_label(cursor) {
            return Ok(());
        }
        let at = self.code.len();
        read_instruction(&mut self.pools, labels, &mut self.code, cursor)?;
        cursor.blanks();
        let start = cursor.left;
        let Some(position) = cursor.position()? else {
            return Ok(());
        };
        let placed = self.place(at, position);
        if placed.is_err() {
            cursor.left = start;
        }
        placed
    }

    /// Reads a position by its address.
    fn read_place(&mut self, cursor: &mut LineCursor<'_>) -> Result<(), LineStop>
        ensures { self.new.code ≡ self.old.code }
    {
        let start = cursor.left;
        let at = cursor.number_up_to(MAX_POSITIONS)? as usize;
        let position = cursor.position_or_none()?;
        let placed = match self.head.positions {
            Some(_) => self.place(at, position),
            None => Err(LineStop::Fault(LineProblem::NoPosition)),
        };
        if placed.is_err() {
            cursor.left = start;
        }
        placed
    }

    /// Reads an entry of a pool.
    fn read_entry(&mut self, labels: &Labels, cursor: &mut LineCursor<'_>) -> Result<(), LineStop>
        ensures { OnOk result (GrowsTo self.old.code.items self.new.code.items) }
    {
        match self.section {
            Section::Names => self.pools.names.push(read_text_or_word(cursor)?)?,
            Section::Constants => self.pools.consts.push(read_value(cursor, MAX_DEPTH)?)?,
            Section::Operators => self.pools.tokens.push(read_token(cursor)?)?,
            Section::OpAssignments => {
                let assign_op = self.pools.read_assign_op_entry(cursor)?;
                self.pools.assign_ops.push(assign_op)?;
            }
            Section::Chains => {
                let chain = read_chain(&mut self.pools, cursor)?;
                self.pools.chains.push(chain)?;
            }
            Section::Switches => read_switch_line(&mut self.pools, labels, cursor)?,
            Section::Chunks => self.chunks.read_line(&mut self.pools, labels, cursor)?,
            Section::Code => self.read_code_line(labels, cursor)?,
            Section::Places => self.read_place(cursor)?,
        }
        Ok(())
    }

    /// Reads what follows a directive that begins no section.
    fn read_head<'a>(
        &mut self,
        cursor: &mut LineCursor<'a>,
        start: &'a [u8],
        directive: &str,
    ) -> Result<(), LineStop>
        ensures { self.new.code ≡ self.old.code }
    {
        let read = self.head.read(cursor, directive);
        if let Err(LineStop::Fault(LineProblem::Directive | LineProblem::DirectiveTwice)) = read {
            cursor.left = start;
        }
        read
    }

    /// Begins the section of a directive, or reads what follows it in the first pass. It says whether the line is read.
    fn follow<'a>(
        &mut self,
        pass: Pass,
        cursor: &mut LineCursor<'a>,
        start: &'a [u8],
        directive: &str,
    ) -> Result<bool, LineStop>
        ensures { self.new.code ≡ self.old.code }
    {
        if let Some(section) = section_named(directive) {
            self.section = section;
            return Ok(true);
        }
        if pass == Pass::Entries {
            self.read_head(cursor, start, directive)?;
            return Ok(true);
        }
        if directive == ".positions" && !self.places.is_empty() {
            cursor.left = start;
            return Err(LineStop::Fault(LineProblem::LatePositions));
        }
        Ok(false)
    }

    /// Reads a directive, or an entry that the pass reads. It says whether the line is read.
    fn read_item(
        &mut self,
        labels: &Labels,
        pass: Pass,
        cursor: &mut LineCursor<'_>,
    ) -> Result<bool, LineStop>
        ensures { OnOk result (GrowsTo self.old.code.items self.new.code.items) }
    {
        cursor.blanks();
        let start = cursor.left;
        match read_directive(cursor)? {
            None if pass.reads(self.section) => {
                self.read_entry(labels, cursor)?;
                Ok(true)
            }
            None => Ok(false),
            Some(directive) => self.follow(pass, cursor, start, directive),
        }
    }

    /// Begins a pass: code comes next, as at the beginning of a text.
    pub fn begin(&mut self)
        ensures { self.new.code ≡ self.old.code }
    {
        self.section = Section::Code;
    }

    /// Reads a line, if the pass reads it.
    pub fn read_line(
        &mut self,
        labels: &Labels,
        pass: Pass,
        cursor: &mut LineCursor<'_>,
    ) -> Result<(), LineStop>
        ensures { OnOk result (GrowsTo self.old.code.items self.new.code.items) }
    {
        if cursor.is_done() {
            return Ok(());
        }
        if self.read_item(labels, pass, cursor)? {
            cursor.end()
        } else {
            Ok(())
        }
    }

    /// What was read.
    pub fn finish(self, alloc: Global) -> Result<Parsed, Unfinished>
        ensures { IfOk result (IsParsedOf self) }
    {
        let Draft {
            head,
            pools,
            mut chunks,
            code,
            places,
            section: _,
        } = self;
        let main = match chunks.complete(code.len()) {
            Ok(main) => main,
            Err(_) => return Err(Unfinished::OutOfMemory),
        };
        let positions = positions_of(alloc, head.positions, &places, code.len())?;
        let Chunks {
            main: _,
            functions,
            automatic,
        } = chunks;
        let parts = parts_of(
            alloc,
            head.debug_id,
            head.fragments,
            head.source,
            pools,
            positions,
        )?;
        let caps = head.caps.unwrap_or(<Caps as grain_base::Flags>::all());
        Ok(Parsed {
            program: Program::new(alloc, caps, code, main, functions, parts),
            automatic,
            caps: head.caps,
        })
    }
}

/// The positions of code.
fn positions_of(
    alloc: Global,
    declared: Option<usize>,
    places: &[(usize, Position)],
    len: usize,
) -> Result<Positions, AllocError>
    // As many as are declared, or else as the code has. None are kept if none are declared and none are noted.
    ensures { IfOk result (λ positions. MatchOption (listed_positions positions)
        ((declared ≡ None) × (places.now ≡ []))
        (λ list. length list ≡ unwrap_or declared len)) }
{
    if declared.is_none() && places.is_empty() {
        return Ok(Positions::Stripped);
    }
    let mut list = vec![in alloc; Position::NONE; declared.unwrap_or(len)]?;
    for (at, position) in places {
        if let Some(place) = list.get_mut(*at) {
            *place = *position;
        }
    }
    Ok(Positions::Dense(list))
}

/// The names as a program has them.
fn names_of(alloc: Global, names: &[String]) -> Result<Strings, Unfinished>
    ensures { IfOk result (λ strings. strings ≡ map string_bytes names.now) }
{
    let mut texts = Vec::with_capacity(alloc, names.len())?;
    for name in names {
        texts.push(name.as_str()).map_err(AllocError::from)?;
    }
    match Strings::new(alloc, &texts) {
        Ok(names) => Ok(names),
        Err(StringsError::TooLong) => Err(Unfinished::NamesTooLong),
        Err(StringsError::OutOfMemory) => Err(Unfinished::OutOfMemory),
    }
}

/// What a program has besides its code and its chunks.
fn parts_of(
    alloc: Global,
    debug_id: u128,
    residuals: usize,
    source: Option<String>,
    pools: Pools,
    positions: Positions,
) -> Result<Parts, Unfinished>
    ensures entries { IfOk result (HasEntries pools) }
    ensures head { IfOk result (HasDirectives debug_id residuals
        (option_map string_bytes source) (listed_positions positions)) }
{
    let Pools {
        alloc: _,
        names,
        consts,
        tokens,
        assign_ops,
        chains,
        switches,
    } = pools;
    Ok(Parts {
        positions,
        debug_id,
        residuals,
        consts,
        names: names_of(alloc, &names)?,
        tokens,
        assign_ops,
        chains,
        switches,
        source,
    })
}
