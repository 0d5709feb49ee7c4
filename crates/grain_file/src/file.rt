//! Whole files.
ghost use Rattle.std.specs.Prelude.{◌≡◌, ◌≤◌, ◌⊎◌, ℕ, List, Option, Ok, [], IfOk, IfErr, OnOk, MatchResult, map, option_map, string_bytes};
ghost use Rattle.grain.specs.Program.{Program, listed_positions};
ghost use Rattle.grain_base.specs.Place.{place_of};
ghost use Rattle.grain_format.specs.Reading.{Decides, Gives};
ghost use Rattle.grain_format.specs.Form.{forms};
ghost use Rattle.grain_format.specs.Functions.{function_parts};
ghost use Rattle.grain_base.specs.Tokens.{token_parts};
ghost use Rattle.grain_format.specs.Tokens.{assign_op_parts};
ghost use Rattle.grain_format.specs.Chains.{chain_parts};
ghost use Rattle.grain_format.specs.Switches.{switch_parts};
ghost use Rattle.grain_file.specs.ProgramFile.{CodeParts, bounds_of, IsFileWithin, Kept, PoolParts, body_format, code_format, file_format, halves, kept, pools_format, rest_format, versioned_format, whole_at};
ghost use Rattle.grain_file.specs.Causes.{IsReadCause, IsReadFault, code_parts, pool_parts};

use grain::{Parts, Program};
use grain_base::{Caps, Dynamic, Flags, Position, Token};
use grain_bytecode::Positions;
use grain_code::{Chunk, Function};
use grain_format::{
    Cursor, FieldFault, FileField, Part, Stop, read_names, read_switches, read_values,
};
use grain_pools::{AssignOp, Chain, Strings, Switch};
use std::alloc::Global;
use thiserror::Error;

/// The greatest [`Limits::depth`]. To read a value takes about 1,200 bytes of the call stack for each level, and to drop it takes less:
/// 320 KiB suffice for this many levels.
pub const MAX_DEPTH: u32 = 256;

/// What a host bounds of the files that it reads.
///
/// Reading takes no more of the call stack than the nesting of values, and memory by a constant times the file.
#[derive(Clone, Copy, Debug, PartialEq, Eq)]
pub struct Limits {
    /// How many bytes a file has at most.
    pub size: usize,
    /// How deep values are nested at most: no more than [`MAX_DEPTH`]. One that holds no other counts 1.
    pub depth: u32,
    /// How many cases a switch has at most. To read one takes time by its cases, and by the square of their number if the
    /// values were chosen so that their hashes are the same.
    pub cases: usize,
}

impl Default for Limits {
    /// A file of 64 MiB, values nested 64 deep, and switches of 4096 cases.
    fn default() -> Limits {
        Limits {
            size: 64 * 1024 * 1024,
            depth: 64,
            cases: 4096,
        }
    }
}

/// Why bytes are no file within the limits.
#[derive(Clone, Copy, Debug, PartialEq, Eq, Error)]
pub enum ReadError {
    /// An allocation failed.
    #[error("out of memory")]
    OutOfMemory,
    /// The file has more bytes than the limit. Nothing of it was read.
    #[error("file of {size} bytes, limit {limit}")]
    TooLarge {
        /// How many bytes it has.
        size: usize,
        /// How many it may have.
        limit: usize,
    },
    /// The limit on how deep values are nested is above [`MAX_DEPTH`]. Nothing was read.
    #[error("the limit of {depth} on the nesting of values is above {MAX_DEPTH}")]
    DepthLimit {
        /// The limit.
        depth: u32,
    },
    /// The first thing that is wrong.
    #[error("byte {at}, in {part}: {fault}")]
    Malformed {
        /// The place of the byte.
        at: usize,
        /// The part that the byte is in.
        part: Part,
        /// What is wrong there.
        fault: FieldFault,
    },
}

/// The program that the bytes are a file of (docs/FORMAT.md, "Program files"). Nothing says that it verifies.
///
/// It goes over the bytes once. It takes memory for what the program has; for a count nothing is reserved beyond the number
/// of bytes that are left.
///
/// # Errors
/// Tested in this order:
///
/// - `DepthLimit`: the limit on the nesting of values is above [`MAX_DEPTH`].
/// - `TooLarge`: there are more bytes than the limit.
/// - `Malformed`: the first byte at which no file continues in this way, its part, and the cause.
///
/// `OutOfMemory` if the allocator refused.
pub fn read(alloc: Global, bytes: &[u8], limits: &Limits) -> Result<Program, ReadError>
    // What is read is what the bytes are a file of.
    ensures found { IfOk result (λ p. IsFileWithin limits.now bytes.now (kept p)) }
    // Of whatever the bytes are a file within the limits, that is read, unless memory runs out.
    ensures only { (k : Kept) → IsFileWithin limits.now bytes.now k
        → MatchResult result (λ p. kept p ≡ k) (λ e. e ≡ ReadError.OutOfMemory) }
    // Which fault it is, and where.
    ensures exact { IfErr result (IsReadCause limits.now bytes.now) }
{
    if limits.depth > MAX_DEPTH {
        return Err(ReadError::DepthLimit {
            depth: limits.depth,
        });
    }
    if bytes.len() > limits.size {
        return Err(ReadError::TooLarge {
            size: bytes.len(),
            limit: limits.size,
        });
    }
    read_whole(alloc, bytes, limits)
}

fn read_whole(alloc: Global, bytes: &[u8], limits: &Limits) -> Result<Program, ReadError>
    ensures { MatchResult result (λ p. whole_at (bounds_of limits.now) bytes.now ≡ Ok (kept p, []))
        (IsReadFault (bounds_of limits.now) bytes.now) }
{
    let mut cursor = Cursor::new(alloc, bytes);
    match read_file(&mut cursor, limits) {
        Ok(program) => Ok(program),
        Err(Stop::OutOfMemory) => Err(ReadError::OutOfMemory),
        Err(Stop::FieldFault(fault)) => {
            let at = bytes.len().saturating_sub(cursor.left.len());
            let part = cursor.part;
            Err(ReadError::Malformed { at, part, fault })
        }
    }
}

/// Reads a whole file, to the end of the bytes.
#[tactic(auto, unfolding(crate::specs::ProgramFile::whole_at))]
fn read_file(cursor: &mut Cursor<'_>, limits: &Limits) -> Result<Program, Stop>
    ensures gives { Gives kept result cursor.new.left.now (whole_at (bounds_of limits.now) cursor.old.left.now) }
    ensures all { OnOk result (cursor.new.left.now ≡ []) }
{
    let program = read_headed(cursor, limits)?;
    if cursor.left.is_empty() {
        Ok(program)
    } else {
        cursor.part = Part::Rest;
        Err(Stop::FieldFault(FieldFault::Trailing))
    }
}

/// Reads what a file begins with, and what follows.
#[tactic(auto, unfolding(crate::specs::ProgramFile::file_format, grain_format::specs::Texts::expected_at))]
fn read_headed(cursor: &mut Cursor<'_>, limits: &Limits) -> Result<Program, Stop>
    ensures { Gives kept result cursor.new.left.now
        ((file_format (bounds_of limits.now)).reading cursor.old.left.now) }
{
    cursor.expect(0x00, FieldFault::Magic)?;
    cursor.expect(0x67, FieldFault::Magic)?;
    cursor.expect(0x72, FieldFault::Magic)?;
    cursor.expect(0x6e, FieldFault::Magic)?;
    let program = read_versioned(cursor, limits)?;
    Ok(program)
}

/// Reads the version, the kind and the program.
#[tactic(auto, unfolding(crate::specs::ProgramFile::versioned_format, grain_format::specs::Texts::expected_at))]
fn read_versioned(cursor: &mut Cursor<'_>, limits: &Limits) -> Result<Program, Stop>
    ensures { Gives kept result cursor.new.left.now
        ((versioned_format (bounds_of limits.now)).reading cursor.old.left.now) }
{
    cursor.expect(2, FieldFault::Version)?;
    cursor.expect(0, FieldFault::Kind)?;
    let program = read_body(cursor, limits)?;
    Ok(program)
}

/// Reads the program.
#[tactic(auto, unfolding(crate::specs::ProgramFile::body_format, crate::specs::ProgramFile::rest_format, grain_format::specs::Texts::expected_at))]
fn read_body(cursor: &mut Cursor<'_>, limits: &Limits) -> Result<Program, Stop>
    ensures { Gives kept result cursor.new.left.now
        ((body_format (bounds_of limits.now)).reading cursor.old.left.now) }
{
    let code = read_code(cursor)?;
    let pools = read_pools(cursor, limits)?;
    cursor.part = Part::SourceName;
    let source = Option::<String>::read(cursor)?;
    cursor.part = Part::Positions;
    let positions = Option::<Vec<Position>>::read(cursor)?;
    let parts = Parts {
        positions: positions_of(positions),
        debug_id: code.debug_id,
        residuals: 0,
        consts: pools.consts,
        names: pools.names,
        tokens: pools.tokens,
        assign_ops: pools.assign_ops,
        chains: pools.chains,
        switches: pools.switches,
        source,
    };
    let alloc = cursor.alloc;
    Ok(Program::new(
        alloc,
        code.caps,
        code.code,
        code.main,
        code.functions,
        parts,
    ))
}

/// The positions, if they are known.
fn positions_of(positions: Option<Vec<Position>>) -> Positions
    ensures { option_map (λ list. map place_of list) (listed_positions result)
        ≡ option_map (λ list. map place_of list.items) positions }
{
    match positions {
        None => Positions::Stripped,
        Some(list) => Positions::Dense(list),
    }
}

/// The code of a program, with its chunks.
#[derive(Drop)]
struct Code {
    caps: Caps,
    debug_id: u128,
    code: Vec<u8>,
    main: Chunk,
    functions: Vec<Function>,
}

/// Reads the capabilities, the number of the program, the code, the main chunk and the functions.
#[tactic(auto, unfolding(crate::specs::ProgramFile::code_format))]
fn read_code(cursor: &mut Cursor<'_>) -> Result<Code, Stop>
    ensures { Gives code_parts result cursor.new.left.now
        (code_format.reading cursor.old.left.now) }
{
    cursor.part = Part::Capabilities;
    let caps = Caps::from_bits_retain(u16::read(cursor)?);
    cursor.part = Part::Id;
    let low = u64::read(cursor)?;
    let high = u64::read(cursor)?;
    let debug_id = join(low, high);
    cursor.part = Part::Code;
    let code = cursor.bytes()?;
    let code = Vec::from_slice(cursor.alloc, code)?;
    cursor.part = Part::MainChunk;
    let main = Chunk::read(cursor)?;
    cursor.part = Part::Functions;
    let functions = Vec::<Function>::read(cursor)?;
    Ok(Code {
        caps,
        debug_id,
        code,
        main,
        functions,
    })
}

/// The number of these halves.
pub(crate) fn join(low: u64, high: u64) -> u128
    ensures { halves result ≡ (low, high) }
{
    u128::from(high) * (1 << 64) + u128::from(low)
}

/// The pools of a program, without positions.
#[derive(Drop)]
struct PoolFields {
    names: Strings,
    consts: Vec<Dynamic>,
    tokens: Vec<Token>,
    assign_ops: Vec<AssignOp>,
    chains: Vec<Chain>,
    switches: Vec<Switch>,
}

/// Reads the names, constants, operators, op-assignments, chains and switches.
#[tactic(auto, unfolding(crate::specs::ProgramFile::pools_format))]
fn read_pools(cursor: &mut Cursor<'_>, limits: &Limits) -> Result<PoolFields, Stop>
    ensures { Gives pool_parts result cursor.new.left.now
        ((pools_format (bounds_of limits.now)).reading cursor.old.left.now) }
{
    let names = read_names(cursor)?;
    cursor.part = Part::Constants;
    let consts = read_values(cursor, limits.depth)?;
    cursor.part = Part::Operators;
    let tokens = Vec::<Token>::read(cursor)?;
    cursor.part = Part::OpAssignments;
    let assign_ops = Vec::<AssignOp>::read(cursor)?;
    cursor.part = Part::Chains;
    let chains = Vec::<Chain>::read(cursor)?;
    let switches = read_switches(cursor, &consts, limits.cases)?;
    Ok(PoolFields {
        names,
        consts,
        tokens,
        assign_ops,
        chains,
        switches,
    })
}
