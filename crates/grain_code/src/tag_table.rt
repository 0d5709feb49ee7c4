//! What a tag says about its instructions: a row for each.
//!
//! A row has 8 bytes, so that the walk finds all that it needs of most instructions by one load.
ghost use Rattle.std.specs.Prelude.{◌≡◌, get_or};
ghost use Rattle.grain_code.specs.Flows.{is_fixed};
ghost use Rattle.grain_code.specs.declared.tag_table.TheConstants.{TAG_ROWS};

use crate::flow::Flow;
use crate::tag;

/// What a tag says of the instructions that begin with it (docs/FORMAT.md, "Instructions"). The numbers of operands are 0
/// if [`TagRow::is_fixed`] is false.
#[derive(Clone, Copy, PartialEq, Eq, Debug)]
pub struct TagRow {
    /// How many bytes they take; 0 of a byte with which no instruction begins.
    pub width: u8,
    /// Whether they have an index into a pool. Of a byte with which no instruction begins it says that they have.
    pub has_index: bool,
    /// Whether they are quiet: they may sink below what was on the stacks when a handler was armed.
    pub is_quiet: bool,
    /// Whether they fall through, and do to the operands what this row says, whatever their fields are; they need no
    /// capability then. It is a column of its own, so that one test finds these instructions, the most frequent ones.
    pub is_plain: bool,
    /// How many operands there have to be.
    pub needs: u8,
    /// How many of them they take.
    pub takes: u8,
    /// How many they give.
    pub gives: u8,
    /// How they are left.
    pub flow: Flow,
}

impl TagRow {
    /// Whether the row says all that the instructions do, except where they lead. They need no capability then, and what
    /// they need, take and give doesn't depend on their fields or on pools.
    #[inline(always)]
    #[must_use]
    pub fn is_fixed(&self) -> bool
        ensures { result ≡ is_fixed self.now }
    {
        match self.flow {
            Flow::Falls => self.is_plain,
            Flow::Switches => false,
            Flow::Ends
            | Flow::Jumps
            | Flow::Branches
            | Flow::BeginsIterator
            | Flow::AdvancesIterator
            | Flow::EndsIterator
            | Flow::PushesHandler
            | Flow::PopsHandler => true,
        }
    }
}

const INDEX: bool = true;

const NO_INDEX: bool = false;

const QUIET: bool = true;

const LOUD: bool = false;

const PLAIN: bool = true;

const OTHER: bool = false;

/// The row of a tag, by its name: width, index, quiet, plain, needs, takes, gives, flow.
macro_rules! row {
    ($tag:ident: $width:literal $has_index:ident $is_quiet:ident $is_plain:ident $needs:literal $takes:literal $gives:literal $flow:ident) => {
        TagRow {
            width: $width,
            has_index: $has_index,
            is_quiet: $is_quiet,
            is_plain: $is_plain,
            needs: $needs,
            takes: $takes,
            gives: $gives,
            flow: Flow::$flow,
        }
    };
}

/// These rows, and [`NONE`] for each byte after them.
macro_rules! rows {
    (@four [$($row:expr,)*] $($rest:expr,)*) => {
        rows!(@sixteen [$($row,)*] $($rest,)* $($rest,)* $($rest,)* $($rest,)*)
    };
    (@sixteen [$($row:expr,)*] $($rest:expr,)*) => {
        [$($row,)* $($rest,)* $($rest,)* $($rest,)* $($rest,)*]
    };
    ($($row:expr,)*) => {
        rows!(@four [$($row,)*] NONE, NONE, NONE, NONE, NONE, NONE, NONE, NONE, NONE, NONE, NONE,)
    };
}

/// The row of a byte with which no instruction begins.
const NONE: TagRow = TagRow {
    width: 0,
    has_index: true,
    is_quiet: false,
    is_plain: false,
    needs: 0,
    takes: 0,
    gives: 0,
    flow: Flow::Falls,
};

/// The row of each byte. A `match` on the tag takes three times as long. A row has eight bytes, so that one is found without a
/// multiplication; a macro fills the table up, since the value of a constant is computed without loops.
pub static TAG_ROWS: [TagRow; 256] = rows![
    NONE,
    row!(LOAD_CONST:            3 INDEX    LOUD  PLAIN 0 0 1 Falls),
    row!(UNIT:                  1 NO_INDEX QUIET PLAIN 0 0 1 Falls),
    row!(FALSE:                 1 NO_INDEX QUIET PLAIN 0 0 1 Falls),
    row!(TRUE:                  1 NO_INDEX QUIET PLAIN 0 0 1 Falls),
    row!(LOAD_LOCAL:            3 NO_INDEX LOUD  PLAIN 0 0 1 Falls),
    row!(STORE_LOCAL:           3 NO_INDEX LOUD  PLAIN 1 1 0 Falls),
    row!(ASSIGN_LOCAL:          5 INDEX    LOUD  PLAIN 1 1 0 Falls),
    row!(ASSIGN_LOCAL_OP:       7 INDEX    LOUD  PLAIN 1 1 0 Falls),
    row!(DECLARE_LOCAL:         3 INDEX    LOUD  PLAIN 1 1 0 Falls),
    row!(DECLARE_CONST:         3 INDEX    LOUD  PLAIN 1 1 0 Falls),
    row!(POP:                   1 NO_INDEX QUIET PLAIN 1 1 0 Falls),
    row!(JUMP:                  5 NO_INDEX LOUD  OTHER 0 0 0 Jumps),
    row!(JUMP_IF_TRUE:          5 NO_INDEX LOUD  OTHER 1 1 0 Branches),
    row!(JUMP_IF_FALSE:         5 NO_INDEX LOUD  OTHER 1 1 0 Branches),
    row!(CALL:                  4 INDEX    LOUD  OTHER 0 0 0 Falls),
    row!(CALL_OP:               6 INDEX    LOUD  OTHER 0 0 0 Falls),
    row!(UNWIND_TO:             3 NO_INDEX QUIET PLAIN 0 0 0 Falls),
    row!(TICK:                  1 NO_INDEX LOUD  PLAIN 0 0 0 Falls),
    row!(RETURN:                1 NO_INDEX QUIET OTHER 0 0 0 Ends),
    row!(EVAL_AST:              3 INDEX    LOUD  PLAIN 0 0 1 Falls),
    row!(EVAL_AST_KEEP:         3 INDEX    LOUD  PLAIN 0 0 1 Falls),
    row!(CHAIN:                 3 INDEX    LOUD  OTHER 0 0 0 Falls),
    row!(MAKE_ARRAY:            3 NO_INDEX LOUD  OTHER 0 0 0 Falls),
    row!(SWITCH:                3 INDEX    LOUD  OTHER 0 0 0 Switches),
    row!(LOAD_NAMED:            3 INDEX    LOUD  OTHER 0 0 0 Falls),
    row!(ASSIGN_NAMED:          3 INDEX    LOUD  PLAIN 1 1 0 Falls),
    row!(ASSIGN_NAMED_OP:       5 INDEX    LOUD  PLAIN 1 1 0 Falls),
    row!(THROW:                 1 NO_INDEX LOUD  OTHER 1 1 0 Ends),
    row!(ITER_INIT:             1 NO_INDEX LOUD  OTHER 1 1 0 BeginsIterator),
    row!(ITER_NEXT:             5 NO_INDEX LOUD  OTHER 0 0 0 AdvancesIterator),
    row!(ITER_DROP:             1 NO_INDEX QUIET OTHER 0 0 0 EndsIterator),
    row!(STORE_SHARED:          3 NO_INDEX LOUD  PLAIN 1 1 0 Falls),
    row!(ITER_NEXT_INDEXED:     7 NO_INDEX LOUD  OTHER 0 0 0 AdvancesIterator),
    row!(POP_HANDLER:           1 NO_INDEX QUIET OTHER 0 0 0 PopsHandler),
    row!(PUSH_HANDLER:          5 NO_INDEX LOUD  OTHER 0 0 0 PushesHandler),
    row!(PUSH_HANDLER_VAR:      7 INDEX    LOUD  OTHER 0 0 0 PushesHandler),
    row!(INTERPOLATE_START:     1 NO_INDEX LOUD  PLAIN 0 0 1 Falls),
    row!(INTERPOLATE_APPEND:    1 NO_INDEX LOUD  PLAIN 2 1 0 Falls),
    row!(INTERPOLATE_END:       1 NO_INDEX LOUD  PLAIN 1 1 1 Falls),
    row!(MAKE_FN_PTR:           1 NO_INDEX LOUD  OTHER 0 0 0 Falls),
    row!(CURRY:                 2 NO_INDEX LOUD  OTHER 0 0 0 Falls),
    row!(CALL_FN_PTR:           2 NO_INDEX LOUD  OTHER 0 0 0 Falls),
    row!(CALL_FN_PTR_METHOD:    2 NO_INDEX LOUD  OTHER 0 0 0 Falls),
    row!(SHARE:                 3 NO_INDEX LOUD  OTHER 0 0 0 Falls),
    row!(SHARE_NAMED:           3 INDEX    LOUD  OTHER 0 0 0 Falls),
    row!(LOAD_SHARED:           3 NO_INDEX LOUD  PLAIN 0 0 1 Falls),
    row!(MAKE_CLOSURE:          3 INDEX    LOUD  OTHER 0 0 0 Falls),
    row!(IS_SHARED:             1 NO_INDEX LOUD  OTHER 0 0 0 Falls),
    row!(CHECKPOINT:            1 NO_INDEX LOUD  PLAIN 0 0 0 Falls),
    row!(CHECK_ARRAY_SIZE:      3 NO_INDEX LOUD  PLAIN 1 1 1 Falls),
    row!(CHECK_MAP_SIZE:        3 NO_INDEX LOUD  PLAIN 1 1 1 Falls),
    row!(MAKE_MAP:              3 NO_INDEX LOUD  OTHER 0 0 0 Falls),
    row!(CALL_LOCAL_REF:        6 INDEX    LOUD  OTHER 0 0 0 Falls),
    row!(ROTATE:                2 NO_INDEX QUIET OTHER 0 0 0 Falls),
    row!(CALL_NAMED_REF:        6 INDEX    LOUD  OTHER 0 0 0 Falls),
    row!(LOAD_SHARED_NAMED:     3 INDEX    LOUD  PLAIN 0 0 1 Falls),
    row!(LOAD_THIS:             1 NO_INDEX LOUD  OTHER 0 0 0 Falls),
    row!(LOAD_THIS_SHARED:      1 NO_INDEX LOUD  OTHER 0 0 0 Falls),
    row!(REQUIRE_THIS:          1 NO_INDEX LOUD  OTHER 0 0 0 Falls),
    row!(ASSIGN_THIS:           1 NO_INDEX LOUD  OTHER 0 0 0 Falls),
    row!(ASSIGN_THIS_OP:        3 INDEX    LOUD  OTHER 0 0 0 Falls),
    row!(CALL_THIS_REF:         4 INDEX    LOUD  OTHER 0 0 0 Falls),
    row!(CALL_FN_PTR_ON_LOCAL:  4 NO_INDEX LOUD  OTHER 0 0 0 Falls),
    row!(CALL_FN_PTR_ON_NAMED:  4 INDEX    LOUD  OTHER 0 0 0 Falls),
    row!(CALL_FN_PTR_ON_THIS:   2 NO_INDEX LOUD  OTHER 0 0 0 Falls),
    row!(SKIP_IF_NOT_UNIT:      5 NO_INDEX LOUD  OTHER 1 0 0 Branches),
    NONE,
    NONE,
    NONE,
    NONE,
    row!(STATEMENT:             3 NO_INDEX LOUD  PLAIN 0 0 0 Falls),
    row!(STORE_CONST:           3 NO_INDEX LOUD  PLAIN 1 1 0 Falls),
    row!(CALL_FN_PTR_CAPTURE:   2 NO_INDEX LOUD  OTHER 0 0 0 Falls),
    row!(CUSTOM_SYNTAX:         3 INDEX    LOUD  OTHER 0 0 0 Falls),
    row!(DECLARE_GLOBAL_CONST:  3 INDEX    LOUD  PLAIN 1 1 0 Falls),
    NONE,
    row!(EXPORT_LOCAL:          5 INDEX    LOUD  OTHER 0 0 0 Falls),
    row!(EXPORT_NAMED:          5 INDEX    LOUD  OTHER 0 0 0 Falls),
    row!(IMPORT:                3 INDEX    LOUD  OTHER 0 0 0 Falls),
];

/// The row of a tag.
#[inline(always)]
#[must_use]
pub fn tag_row(tag: u8) -> &'static TagRow
    ensures { (row : TagRow) → result.now ≡ get_or TAG_ROWS tag row }
{
    &TAG_ROWS[tag as usize]
}
