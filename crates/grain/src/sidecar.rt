//! Positions apart from their program.
ghost use Rattle.std.specs.Prelude.{◌≡◌, ◌≢◌, ◌≤◌, ◌<◌, ◌^◌, ◌⊎◌, ◌↔◌, false, List, Option, Err, IsOk, IsTrue, IfOk, IfErr, OnOk, OnErr, All, Any, map};
ghost use Rattle.grain_base.specs.Place.{place_of};
ghost use Rattle.grain_base.specs.declared.pos.Site.{Site};
ghost use Rattle.grain_bytecode.specs.ChainStream.{Stream, StreamFlaw};
ghost use Rattle.grain_bytecode.specs.Positions.{IsRead, Place, entries_at_places, places};
ghost use Rattle.grain_bytecode.specs.declared.positions.StripError.TheVariants as strip_error;
ghost use Rattle.grain_bytecode.specs.declared.positions.TableError.TheVariants as table_error;
ghost use Rattle.grain.specs.Program.{places_of};
ghost use Rattle.grain.specs.Sidecars.{Belongs, IsAttached, IsSidecar, IsStripped, SidecarFlaw};

use crate::program::Program;
use crate::slots::{Slots, count_slots, draw_chains};
use grain_base::Position;
use grain_base::pos::Site;
use grain_bytecode::sites::{self, StreamError};
use grain_bytecode::{Positions, StripError, TableError};
use std::alloc::{AllocError, Global};

/// The positions of a program, apart from it: an address table for its code and a stream for its chains (docs/FORMAT.md,
/// "Address table" and "Chain stream").
#[derive(Drop)]
pub struct Sidecar {
    /// Which program they are of.
    pub debug_id: u128,
    /// The address table of the positions in the code.
    pub positions: Vec<u8>,
    /// The stream of the positions in the chains.
    pub chains: Vec<u8>,
}

impl Program {
    /// Writes the positions of the program, which keeps them, as [`Positions::to_table`] and [`sites::encode`] do.
    ///
    /// # Errors
    /// `AddressTooWide` if a position that has a line is above 4294967295, and `OutOfMemory` if there is no memory
    /// for what is written.
    pub fn sidecar(&self) -> Result<Sidecar, StripError>
        ensures ok { IfOk result (IsSidecar self.now) }
        ensures fits { IsOk result
            → All (λ entry. entry.0 < 2 ^ 32) (entries_at_places (places_of self.now)) }
        ensures wide { (result ≡ Err strip_error.AddressTooWide)
            ↔ Any (λ entry. 2 ^ 32 ≤ entry.0) (entries_at_places (places_of self.now)) }
    {
        Ok(Sidecar {
            debug_id: self.parts.debug_id,
            positions: self.parts.positions.to_table(self.alloc)?,
            chains: sites::encode(self.alloc, &self.parts.chains)?,
        })
    }

    /// Writes the positions of the program, and takes them off it. It costs as much as [`Program::sidecar`], and goes over
    /// the chains once more.
    ///
    /// # Errors
    /// As [`Program::sidecar`], the program being unchanged.
    pub fn strip_positions(&mut self) -> Result<Sidecar, StripError>
        ensures ok { IfOk result (IsSidecar self.old) }
        ensures stripped { OnOk result (IsStripped self.old self.new) }
        ensures fits { IsOk result
            → All (λ entry. entry.0 < 2 ^ 32) (entries_at_places (places_of self.old)) }
        ensures wide { (result ≡ Err strip_error.AddressTooWide)
            ↔ Any (λ entry. 2 ^ 32 ≤ entry.0) (entries_at_places (places_of self.old)) }
        ensures unchanged { OnErr result (self.new ≡ self.old) }
    {
        let sidecar = self.sidecar()?;
        self.parts.positions = Positions::Stripped;
        draw_chains(&mut self.parts.chains, &mut Slots { left: &[] });
        Ok(sidecar)
    }

    /// Whether the table of a sidecar, read with the code, gives exactly the positions of the program. Only then can they be stripped
    /// and attached again without a loss.
    ///
    /// These programs have positions that no sidecar gives back:
    ///
    /// - a position belongs to an address at which no instruction begins;
    /// - there are more or fewer positions than bytes of code;
    /// - there is a list of positions, all of which are empty.
    ///
    /// It reads the table, the code and the positions once, and allocates a list of positions.
    ///
    /// # Errors
    /// [`AllocError`] if the allocator refuses that list.
    pub fn is_restored_by(&self, sidecar: &Sidecar) -> Result<bool, AllocError>
        ensures { IfOk result (λ restores. IsTrue restores ↔ IsRead
            sidecar.now.positions.items self.now.code (places_of self.now)) }
    {
        match Positions::from_table(self.alloc, &sidecar.positions, &self.code) {
            Ok(positions) => Ok(same_places(&positions, &self.parts.positions)),
            Err(error) => unread(&error),
        }
    }

    /// Gives the program the positions of a sidecar. It goes over the sidecar, the code and the chains a few times, and takes
    /// memory for the positions and the sites.
    ///
    /// # Errors
    /// The first test that fails, by its name: `WrongProgram` if the sidecar is of another program; `Malformed` and
    /// `PastTheEnd` as [`Positions::from_table`]; `ChainStream` if its stream is none; `ChainCount` if the stream has not
    /// as many slots as the chains have positions. Of these no more are counted than a `usize` holds. `OutOfMemory` if
    /// there is no memory for what is read. Each time the program is unchanged.
    pub fn attach_positions(&mut self, sidecar: &Sidecar) -> Result<(), TableError>
        ensures attached { OnOk result (IsAttached self.old sidecar.now self.new) }
        ensures accepts { (places : Option (List Place)) (slots : List (Option Site))
            → Belongs self.old sidecar.now places slots
            → IfErr result (λ e. e ≡ table_error.OutOfMemory) }
        ensures flaws { IfErr result
            (λ e. (e ≡ table_error.OutOfMemory) ⊎ SidecarFlaw self.old sidecar.now e) }
        ensures unchanged { OnErr result (self.new ≡ self.old) }
    {
        if sidecar.debug_id != self.parts.debug_id {
            return Err(TableError::WrongProgram {
                expected: sidecar.debug_id,
                found: self.parts.debug_id,
            });
        }
        let positions = Positions::from_table(self.alloc, &sidecar.positions, &self.code)?;
        let sites = read_sites(self.alloc, &sidecar.chains)?;
        let slots = count_slots(&self.parts.chains);
        if sites.len() != slots {
            let sites = sites.len();
            return Err(TableError::ChainCount { sites, slots });
        }
        self.parts.positions = positions;
        draw_chains(&mut self.parts.chains, &mut Slots { left: &sites });
        Ok(())
    }
}

/// Positions that can't be read aren't restored, unless it is memory that ran out.
fn unread(error: &TableError) -> Result<bool, AllocError>
    ensures { IfOk result (λ restores. (restores ≡ false) × (error.now ≢ table_error.OutOfMemory)) }
{
    match error {
        TableError::OutOfMemory => Err(AllocError),
        TableError::Malformed(_)
        | TableError::PastTheEnd { .. }
        | TableError::WrongProgram { .. }
        | TableError::ChainStream(_)
        | TableError::ChainCount { .. } => Ok(false),
    }
}

/// Whether the same positions are known.
fn same_places(some: &Positions, others: &Positions) -> bool
    ensures { IsTrue result ↔ (places some.now ≡ places others.now) }
{
    match (some, others) {
        (Positions::Stripped, Positions::Stripped) => true,
        (Positions::Dense(some), Positions::Dense(others)) => same_positions(some, others),
        _ => false,
    }
}

fn same_positions(some: &[Position], others: &[Position]) -> bool
    ensures { IsTrue result ↔ (map place_of some.now ≡ map place_of others.now) }
{
    if some.len() != others.len() {
        return false;
    }
    for (index, position) in some.iter().enumerate() {
        if !same_place(*position, others[index]) {
            return false;
        }
    }
    true
}

fn same_place(some: Position, other: Position) -> bool
    ensures { IsTrue result ↔ (place_of some ≡ place_of other) }
{
    some == other
}

/// The sites of a stream of chain positions, slot by slot.
fn read_sites(alloc: Global, stream: &[u8]) -> Result<Vec<Option<Site>>, TableError>
    ensures ok { IfOk result (λ sites. Stream stream.now sites.items) }
    ensures whole { ((slots : List (Option Site)) × Stream stream.now slots)
        → IfErr result (λ e. e ≡ table_error.OutOfMemory) }
    ensures err { IfErr result (λ e. (e ≡ table_error.OutOfMemory)
        ⊎ ((error : StreamError) × (e ≡ table_error.ChainStream error)
        × StreamFlaw stream.now error)) }
{
    match sites::decode(alloc, stream) {
        Ok(sites) => Ok(sites),
        Err(StreamError::OutOfMemory) => Err(TableError::OutOfMemory),
        Err(error) => Err(TableError::ChainStream(error)),
    }
}
