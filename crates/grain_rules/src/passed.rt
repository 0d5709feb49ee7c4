//! Which chains and switches of the pools have passed: a bit for each, in words that take no memory of the heap.
//!
//! Many instructions may name one long chain. Without these bits its indices would be tested for each of them, which takes time by
//! the product.
ghost use Rattle.std.specs.Prelude.{◌≡◌, ◌<◌, ◌*◌, ◌⊎◌, ◌↔◌, ℕ, IsTrue, length};
ghost use Rattle.grain_rules.specs.Passed.{HasPassed};

/// How many words have a bit for each of the 65536 entries of a pool that code can name.
pub(crate) const WORDS: usize = 1024;

/// How many words have a bit for each entry of small pools: they are cleared in no time.
pub(crate) const FEW_WORDS: usize = 4;

/// The chains and the switches that have passed, of the first entries, a word for 64 of them.
#[derive(Drop)]
pub(crate) struct Passed<const N: usize> {
    pub(crate) chains: [u64; N],
    pub(crate) switches: [u64; N],
}

impl<const N: usize> Passed<N> {
    /// None has passed.
    pub(crate) fn new() -> Self
        ensures chains { (i : ℕ) → HasPassed result.chains i → ⊥ }
        ensures switches { (i : ℕ) → HasPassed result.switches i → ⊥ }
    {
        Passed {
            chains: [0; N],
            switches: [0; N],
        }
    }
}

/// Whether the entry has passed.
pub(crate) fn has_passed(words: &[u64], index: u32) -> bool
    ensures { IsTrue result ↔ HasPassed words.now index }
{
    let word = (index / 64) as usize;
    word < words.len() && words[word] >> (index % 64) & 1 == 1
}

/// Adds the entry to those that have passed, if it has a bit.
#[tactic(auto, using(crate::proofs::PassedBits::passed, crate::proofs::PassedBits::passed_still, crate::proofs::PassedBits::passed_here))]
pub(crate) fn add_passed(words: &mut [u64], index: u32)
    ensures only { (other : ℕ) → HasPassed words.new other
        → HasPassed words.old other ⊎ (other ≡ index) }
    ensures all { (other : ℕ) → HasPassed words.old other → HasPassed words.new other }
    ensures it { index < 64 * length words.old → HasPassed words.new index }
{
    let word = (index / 64) as usize;
    if word < words.len() {
        words[word] |= 1 << (index % 64);
    }
}
