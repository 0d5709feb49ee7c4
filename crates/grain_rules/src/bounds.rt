//! What indices have to be below.
//!
//! A test returns the bound and the index, not an error with a text, so that it takes no memory and no pool.
ghost use Rattle.std.specs.Prelude.{◌≡◌, ◌∷◌, [], codes};
ghost use Rattle.grain_rules.specs.FirstOut.{bound_word, first_out, refused};
ghost use Rattle.grain_rules.specs.Indices.{entry_name};

use grain_code::Pool;

/// What an index has to be below.
#[derive(Clone, Copy)]
pub enum Bound {
    /// The size of the pool that it goes into.
    Pool(Pool),
    /// The operands of the chain whose step it is in.
    Operands,
}

/// An index that is out of bounds.
#[derive(Clone, Copy)]
pub struct BadIndex {
    /// What it would have to be below.
    pub bound: Bound,
    /// The index.
    pub index: u32,
}

/// What a refusal calls an index of the pool.
fn entry_name(pool: Pool) -> &'static str
    ensures { result.now ≡ entry_name pool }
{
    match pool {
        Pool::Constants => "constant",
        Pool::Names => "name",
        Pool::Operators => "operator",
        Pool::OpAssignments => "op-assignment",
        Pool::Fragments => "fragment",
        Pool::Chains => "chain",
        Pool::Switches => "switch",
        Pool::SyntaxSites => "custom syntax site",
    }
}

/// What a refusal calls an index with this bound.
pub(crate) fn word_of(bound: Bound) -> &'static str
    ensures { result.now ≡ bound_word bound }
{
    match bound {
        Bound::Pool(pool) => entry_name(pool),
        Bound::Operands => "operand",
    }
}

/// Tests an index against the size of its pool.
///
/// # Errors
/// The index, if the pool has no more entries than it says.
#[inline(always)]
pub fn check_below(size: usize, pool: Pool, index: u32) -> Result<(), BadIndex>
    ensures { refused result ≡ first_out (record {
      what = entry_name pool;
      index = index;
      bound = size;
    } ∷ []) }
{
    if (index as usize) < size {
        Ok(())
    } else {
        Err(BadIndex {
            bound: Bound::Pool(pool),
            index,
        })
    }
}

/// Tests a place among the operands of a chain.
///
/// # Errors
/// The place, if there are no more operands than it says.
#[inline(always)]
pub fn check_among(operands: u16, place: u32) -> Result<(), BadIndex>
    ensures { refused result ≡ first_out (record {
      what = codes "operand";
      index = place;
      bound = operands;
    } ∷ []) }
{
    if place < u32::from(operands) {
        Ok(())
    } else {
        Err(BadIndex {
            bound: Bound::Operands,
            index: place,
        })
    }
}
