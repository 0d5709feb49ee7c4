//! Why bytes are no file, as a record.
ghost use Rattle.std.specs.Prelude.{◌≡◌, IfSome, IsTrue, Some};
ghost use Rattle.grain_flat_file.specs.Errors.{cause_of, index_in, part_number, read_error_record};

use crate::records::CReadError;
use crate::{causes, parts};
use grain_file::{FieldFault, Part, ReadError};

/// Which fault it is, as a number.
fn cause_of(fault: FieldFault) -> u32
    ensures { result ≡ cause_of fault }
{
    match fault {
        FieldFault::Magic => causes::MAGIC,
        FieldFault::Version => causes::VERSION,
        FieldFault::Kind => causes::KIND,
        FieldFault::Truncated => causes::TRUNCATED,
        FieldFault::TooWide => causes::TOO_WIDE,
        FieldFault::NotShortest => causes::NOT_SHORTEST,
        FieldFault::NotText => causes::NOT_TEXT,
        FieldFault::NotCharacter => causes::NOT_CHARACTER,
        FieldFault::UnknownTag => causes::UNKNOWN_TAG,
        FieldFault::KeyOrder => causes::KEY_ORDER,
        FieldFault::TooDeep => causes::TOO_DEEP,
        FieldFault::NamesTooLong => causes::NAMES_TOO_LONG,
        FieldFault::CaseOrder => causes::CASE_ORDER,
        FieldFault::NoConstant => causes::NO_CONSTANT,
        FieldFault::TooManyCases => causes::TOO_MANY_CASES,
        FieldFault::SameCase => causes::SAME_CASE,
        FieldFault::NoLine => causes::NO_LINE,
        FieldFault::Trailing => causes::TRAILING,
    }
}

/// Which part it is, as a number.
fn part_number(part: Part) -> u32
    ensures { result ≡ part_number part }
{
    match part {
        Part::Header => parts::HEADER,
        Part::Capabilities => parts::CAPABILITIES,
        Part::Id => parts::ID,
        Part::Code => parts::CODE,
        Part::MainChunk => parts::MAIN_CHUNK,
        Part::Functions => parts::FUNCTIONS,
        Part::Function(_) => parts::FUNCTION,
        Part::Names => parts::NAMES,
        Part::Name(_) => parts::NAME,
        Part::Constants => parts::CONSTANTS,
        Part::Constant(_) => parts::CONSTANT,
        Part::Operators => parts::OPERATORS,
        Part::Operator(_) => parts::OPERATOR,
        Part::OpAssignments => parts::OP_ASSIGNMENTS,
        Part::OpAssignment(_) => parts::OP_ASSIGNMENT,
        Part::Chains => parts::CHAINS,
        Part::Chain(_) => parts::CHAIN,
        Part::Switches => parts::SWITCHES,
        Part::Switch(_) => parts::SWITCH,
        Part::SourceName => parts::SOURCE_NAME,
        Part::Positions => parts::POSITIONS,
        Part::Position(_) => parts::POSITION,
        Part::AddressTable => parts::ADDRESS_TABLE,
        Part::ChainStream => parts::CHAIN_STREAM,
        Part::Rest => parts::REST,
    }
}

/// The index of an item, else 0.
fn index_in(part: Part) -> u64
    ensures { result ≡ index_in part }
{
    match part {
        Part::Function(index)
        | Part::Name(index)
        | Part::Constant(index)
        | Part::Operator(index)
        | Part::OpAssignment(index)
        | Part::Chain(index)
        | Part::Switch(index)
        | Part::Position(index) => index as u64,
        _ => 0,
    }
}

/// Why bytes are no file, as a record. There is none if the allocator refused or a limit is too great.
pub fn read_error_record(error: &ReadError) -> Option<CReadError>
    ensures { result ≡ read_error_record error.now }
{
    match *error {
        ReadError::OutOfMemory | ReadError::DepthLimit { .. } => None,
        ReadError::TooLarge { size, limit } => Some(CReadError {
            cause: causes::TOO_LARGE,
            part: parts::HEADER,
            index: 0,
            at: size as u64,
            limit: limit as u64,
        }),
        ReadError::Malformed { at, part, fault } => Some(CReadError {
            cause: cause_of(fault),
            part: part_number(part),
            index: index_in(part),
            at: at as u64,
            limit: 0,
        }),
    }
}

/// The fault with a number.
fn fault_of(cause: u32) -> Option<FieldFault>
    ensures { IfSome result (λ fault. cause_of fault ≡ cause) }
{
    match cause {
        causes::MAGIC => Some(FieldFault::Magic),
        causes::VERSION => Some(FieldFault::Version),
        causes::KIND => Some(FieldFault::Kind),
        causes::TRUNCATED => Some(FieldFault::Truncated),
        causes::TOO_WIDE => Some(FieldFault::TooWide),
        causes::NOT_SHORTEST => Some(FieldFault::NotShortest),
        causes::NOT_TEXT => Some(FieldFault::NotText),
        causes::NOT_CHARACTER => Some(FieldFault::NotCharacter),
        causes::UNKNOWN_TAG => Some(FieldFault::UnknownTag),
        causes::KEY_ORDER => Some(FieldFault::KeyOrder),
        causes::TOO_DEEP => Some(FieldFault::TooDeep),
        causes::NAMES_TOO_LONG => Some(FieldFault::NamesTooLong),
        causes::CASE_ORDER => Some(FieldFault::CaseOrder),
        causes::NO_CONSTANT => Some(FieldFault::NoConstant),
        causes::TOO_MANY_CASES => Some(FieldFault::TooManyCases),
        causes::SAME_CASE => Some(FieldFault::SameCase),
        causes::NO_LINE => Some(FieldFault::NoLine),
        causes::TRAILING => Some(FieldFault::Trailing),
        _ => None,
    }
}

/// The part with a number, and the item with an index.
fn part_of(number: u32, index: usize) -> Option<Part>
    ensures { IfSome result (λ part. part_number part ≡ number) }
{
    match number {
        parts::HEADER => Some(Part::Header),
        parts::CAPABILITIES => Some(Part::Capabilities),
        parts::ID => Some(Part::Id),
        parts::CODE => Some(Part::Code),
        parts::MAIN_CHUNK => Some(Part::MainChunk),
        parts::FUNCTIONS => Some(Part::Functions),
        parts::FUNCTION => Some(Part::Function(index)),
        parts::NAMES => Some(Part::Names),
        parts::NAME => Some(Part::Name(index)),
        parts::CONSTANTS => Some(Part::Constants),
        parts::CONSTANT => Some(Part::Constant(index)),
        parts::OPERATORS => Some(Part::Operators),
        parts::OPERATOR => Some(Part::Operator(index)),
        parts::OP_ASSIGNMENTS => Some(Part::OpAssignments),
        parts::OP_ASSIGNMENT => Some(Part::OpAssignment(index)),
        parts::CHAINS => Some(Part::Chains),
        parts::CHAIN => Some(Part::Chain(index)),
        parts::SWITCHES => Some(Part::Switches),
        parts::SWITCH => Some(Part::Switch(index)),
        parts::SOURCE_NAME => Some(Part::SourceName),
        parts::POSITIONS => Some(Part::Positions),
        parts::POSITION => Some(Part::Position(index)),
        parts::ADDRESS_TABLE => Some(Part::AddressTable),
        parts::CHAIN_STREAM => Some(Part::ChainStream),
        parts::REST => Some(Part::Rest),
        _ => None,
    }
}

/// What a record says, if it says anything.
pub fn read_error_of(said: &CReadError) -> Option<ReadError>
    ensures { IfSome result (λ error. read_error_record error ≡ Some said.now) }
{
    let at = said.at as usize;
    let error = match said.cause {
        causes::TOO_LARGE => ReadError::TooLarge {
            size: at,
            limit: said.limit as usize,
        },
        cause => ReadError::Malformed {
            at,
            part: part_of(said.part, said.index as usize)?,
            fault: fault_of(cause)?,
        },
    };
    // A record that says more than its error isn't one of it.
    if is_same(&read_error_record(&error), said) {
        Some(error)
    } else {
        None
    }
}

/// Whether this is the record.
fn is_same(made: &Option<CReadError>, said: &CReadError) -> bool
    ensures { IsTrue result → made.now ≡ Some said.now }
{
    match made {
        Some(made) => {
            made.cause == said.cause
                && made.part == said.part
                && made.index == said.index
                && made.at == said.at
                && made.limit == said.limit
        }
        None => false,
    }
}
