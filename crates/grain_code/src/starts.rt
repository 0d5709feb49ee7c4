//! Where the instructions of code begin: a bit for each address.
//!
//! Bits with counts take a quarter of the memory of the code, and find the ordinal of an address in constant time.
ghost use Rattle.std.specs.Prelude.{◌≡◌, ◌↔◌, ◌<◌, ◌≤◌, ◌+◌, ◌*◌, ◌/◌, ◌++◌, ◌∷◌, [], ℕ, List, IsTrue, IfErr, IfOk, IfSome, Some, length, count_by, nat_lt, slice_get, vec_capacity};
ghost use Rattle.std.specs.List.{Contains};
ghost use Rattle.grain_code.specs.Split.{NoneStandsAt, Split};
ghost use Rattle.grain_code.specs.Starts.{Filling, ReadTo};

use crate::tag_widths::width;
use std::alloc::{AllocError, Global};
use std::marker::Model;

/// The starts among 64 addresses.
#[derive(Clone, Copy, Debug)]
struct Word {
    /// How many starts have lower addresses than these.
    before: usize,
    /// A bit for each address, the lowest for the lowest: whether it is a start.
    bits: u64,
}

/// The starts of the longest front of code that splits into instructions, and where that front ends.
///
/// A start is the address of an instruction's first byte. There are 16 bytes for each 64 bytes of code, and no call but
/// [`Starts::of`] and [`Starts::again`] takes memory. Contracts see the end and the list of the starts.
#[derive(Debug, Drop)]
pub struct Starts {
    words: Vec<Word>,
    end: usize,
    count: usize,
}

impl Model for Starts {
    ghost use Rattle.grain_code.specs.Starts.{Front, starts_in, IsCounted};

    ghost Value = { Front };

    ghost view = { λ s. record { end = s.end; starts = starts_in s.words.items } };

    ghost invariant = { λ s. IsCounted s.words.items s.count };
}

/// The starts of a front as far as they are written down, from the first on, in memory with room for more: a verifier tests
/// each instruction as it writes down where it begins.
///
/// No call takes memory. Contracts see where the front ends, the list of its starts, and how many words of 64 addresses
/// there is room for.
#[derive(Drop)]
pub struct Growing {
    /// The words that are full.
    words: Vec<Word>,
    /// The one that the end of the front lies in.
    word: Word,
    end: usize,
    count: usize,
}

impl Model for Growing {
    ghost use Rattle.std.specs.Vec.{vec_capacity};
    ghost use Rattle.grain_code.specs.Starts.{Growth, IsGrowing, all_bits, set_below};

    ghost Value = { Growth };

    ghost view = { λ g. record {
      end = g.end;
      starts = set_below (all_bits g.words.items g.word.bits) g.end;
      room = vec_capacity g.words;
    } };

    ghost invariant = { λ g. IsGrowing
        g.words.items g.word.before g.word.bits g.count g.end (vec_capacity g.words) };
}

/// Closes each word that lies before the end of the front, the open one first, and returns the one that is open then.
#[inline(always)]
fn close(words: &mut Vec<Word>, word: Word, count: usize, end: usize) -> Word
    requires room { end / 64 < vec_capacity words.old }
    requires behind { length words.old.items ≤ end / 64 }
    ensures room { vec_capacity words.new ≡ vec_capacity words.old }
    ensures opened { length words.new.items ≡ end / 64 }
    ensures filling { (starts : List ℕ)
        → Filling words.old.items word.before word.bits count end starts
        → Filling words.new.items result.before result.bits count end starts }
{
    let mut current = word;
    while words.len() < end / 64 {
        words.push_reserved(current);
        current = Word {
            before: count,
            bits: 0,
        };
    }
    current
}

impl Growing {
    /// None so far, in the memory of these words.
    #[inline(always)]
    fn begin(mut words: Vec<Word>) -> Growing
        requires { 0 < vec_capacity words }
        ensures { result ≡ record { end = 0; starts = []; room = vec_capacity words } }
    {
        words.clear();
        Growing {
            words,
            word: Word { before: 0, bits: 0 },
            end: 0,
            count: 0,
        }
    }

    /// None so far, in the memory of these starts, if it suffices for code of this many bytes.
    ///
    /// It takes constant time.
    ///
    /// # Errors
    ///
    /// The starts, as they were, if their memory doesn't suffice.
    #[inline(always)]
    pub fn within(starts: Starts, bytes: usize) -> Result<Growing, Starts>
        ensures begun { IfOk result (λ g. (g.end ≡ 0) × (g.starts ≡ [])) }
        ensures room { IfOk result (λ g. bytes / 64 < g.room) }
        ensures lacking { IfErr result (λ s. s ≡ starts) }
    {
        let Starts { words, end, count } = starts;
        if words.capacity() <= bytes / 64 {
            return Err(Starts { words, end, count });
        }
        Ok(Growing::begin(words))
    }

    /// Where the front ends: after the instruction that was written down last.
    ///
    /// It takes constant time.
    #[inline(always)]
    #[must_use]
    pub fn end(&self) -> usize
        ensures { result ≡ self.now.end }
    {
        self.end
    }

    /// One instruction more, which begins where the front ended, and the address after it.
    ///
    /// It takes constant time, and time by the words in between if the instruction has more than 64 bytes.
    #[inline(always)]
    pub fn push(&mut self, next: usize)
        requires further { self.old.end < next }
        requires room { next / 64 < self.old.room }
        ensures { self.new ≡ record {
          end = next;
          starts = self.old.starts ++ self.old.end ∷ [];
          room = self.old.room;
        } }
    {
        let Word { before, bits } = self.word;
        let bits = bits | 1u64 << (self.end % 64);
        self.count += 1;
        self.end = next;
        self.word = close(&mut self.words, Word { before, bits }, self.count, next);
    }

    /// The starts that were written down, and the end of their front.
    ///
    /// It takes constant time.
    #[inline(always)]
    #[must_use]
    pub fn finish(self) -> Starts
        ensures { result ≡ record { end = self.end; starts = self.starts } }
    {
        let Growing {
            mut words,
            word,
            end,
            count,
        } = self;
        words.push_reserved(word);
        Starts { words, end, count }
    }
}

/// A front as far as it was read: its last word, where it ends, and how many starts it has.
#[derive(Clone, Copy)]
struct Reading {
    word: Word,
    end: usize,
    count: usize,
}

/// Reads on from an address, with this many starts before it, up to a limit or to what is no instruction.
#[inline(always)]
fn read_word(code: &[u8], from: usize, before: usize, limit: usize) -> Reading
    requires inside { from ≤ length code.now }
    requires few { before ≤ from }
    ensures further { from ≤ result.end }
    ensures inside { result.end ≤ length code.now }
    ensures few { result.count ≤ result.end }
    ensures read { (words : List Word) → 64 * length words ≤ from
        → limit ≡ 64 * (length words + 1) → ReadTo code.now words before 0 before from
        → ReadTo code.now words result.word.before result.word.bits result.count result.end }
    ensures ended { result.end < limit → NoneStandsAt code.now result.end }
{
    let mut at = from;
    let mut count = before;
    let mut bits = 0;
    while at < limit {
        let Some(width) = width(code, at) else {
            break;
        };
        bits |= 1u64 << (at % 64);
        count += 1;
        at += width;
    }
    Reading {
        word: Word { before, bits },
        end: at,
        count,
    }
}

impl Starts {
    ghost use Rattle.grain_code.specs.Starts.{IsLongestFront};

    /// Those of no code. It takes no memory.
    #[must_use]
    #[inline(always)]
    pub fn none(alloc: Global) -> Starts
        ensures { result ≡ record { end = 0; starts = [] } }
    {
        Starts {
            words: Vec::new(alloc),
            end: 0,
            count: 0,
        }
    }

    /// The starts of the longest front of the code that splits.
    ///
    /// It reads the code once, up to where the front ends, in time linear in the code, and takes memory once.
    ///
    /// # Errors
    ///
    /// [`AllocError`] if the memory was refused: 16 bytes for each 64 bytes of code, those that are begun too.
    pub fn of(alloc: Global, code: &[u8]) -> Result<Starts, AllocError>
        ensures front { IfOk result (IsLongestFront code.now) }
        ensures whole { (starts : List ℕ) → Split code.now starts
            → IfOk result (λ s. s ≡ record { end = length code.now; starts = starts }) }
    {
        Starts::none(alloc).refill(code)
    }

    /// The result of [`Starts::of`], in the memory of these, of which more is taken if it doesn't suffice.
    ///
    /// # Errors
    ///
    /// [`AllocError`] if the memory was refused. Then that of these is given back.
    pub fn refill(self, code: &[u8]) -> Result<Starts, AllocError>
        ensures front { IfOk result (IsLongestFront code.now) }
        ensures whole { (starts : List ℕ) → Split code.now starts
            → IfOk result (λ s. s ≡ record { end = length code.now; starts = starts }) }
    {
        let Starts { mut words, .. } = self;
        words.clear();
        words.try_reserve_exact(code.len() / 64 + 1)?;
        let mut front = read_word(code, 0, 0, 64);
        while words.len() < front.end / 64 {
            words.push_reserved(front.word);
            let limit = 64 * (words.len() + 1);
            front = read_word(code, front.end, front.count, limit);
        }
        words.push_reserved(front.word);
        Ok(Starts {
            words,
            end: front.end,
            count: front.count,
        })
    }

    /// Where the front ends: the address of the first thing that is no instruction, or the end of the code.
    ///
    /// It takes constant time.
    #[must_use]
    pub fn end(&self) -> usize
        ensures { result ≡ self.now.end }
    {
        self.end
    }

    /// How many starts there are.
    ///
    /// It takes constant time.
    #[must_use]
    pub fn count(&self) -> usize
        ensures { result ≡ length self.now.starts }
    {
        self.count
    }

    /// Whether an address is a start. The end of the front is none.
    ///
    /// It takes constant time, and answers for every address.
    #[must_use]
    pub fn contains(&self, at: usize) -> bool
        ensures { IsTrue result ↔ Contains self.now.starts at }
    {
        match self.words.get(at / 64) {
            Some(word) => word.bits >> (at % 64) & 1 == 1,
            None => false,
        }
    }

    /// How many starts have lower addresses than a start, or `None` if the address is none.
    ///
    /// It takes constant time, and answers for every address.
    #[must_use]
    pub fn ordinal(&self, at: usize) -> Option<usize>
        ensures place { (k : ℕ) → (result ≡ Some k) ↔ (slice_get self.now.starts k ≡ Some at) }
        ensures below { IfSome result (λ k. k ≡ count_by (λ s. nat_lt s at) self.now.starts) }
    {
        let word = self.words.get(at / 64)?;
        if word.bits >> (at % 64) & 1 == 0 {
            return None;
        }
        let lower = word.bits & ((1u64 << (at % 64)) - 1);
        Some(word.before + lower.count_ones() as usize)
    }
}
