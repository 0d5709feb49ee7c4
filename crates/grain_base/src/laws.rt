//! Laws of the definitions that contracts cite, each the contract of a function that does nothing else.

ghost use Rattle.std.specs.Prelude.{◌≡◌, ℕ, ℤ, None, pos, neg_ℤ, ◌+◌, ◌<◌, ◌*ℤ◌, ◌-ℤ◌, ◌≤ℤ◌, ◌<ℤ◌, ◌↔◌, IsTrue, ◌^◌, List, ◌++◌, length, All};
ghost use Rattle.grain_base.specs.Varint.{Spells, IsShortest, NumberStandsAt, zigzag};
ghost use Rattle.grain_base.specs.AddressTable.{Entry, Table, LongestFront};
ghost use Rattle.std.specs.Int.RustNames.{bit_and};
ghost use Rattle.bitflags.specs.Sets.{known_bits};
ghost use Rattle.grain_base.specs.CapBits.{caps_table};
ghost use Rattle.grain_base.specs.Content.{Content, same};
ghost use Rattle.grain_base.specs.Place.{place_of};

use crate::position::Position;

/// No spelling of a number begins another, and bytes spell one number at most.
pub fn no_spelling_begins_another()
    ensures { (a b x y : List ℕ) (m n : ℕ) → Spells a m → Spells b n
        → a ++ x ≡ b ++ y → (a ≡ b) × (m ≡ n) }
{}

/// A number that is written is read again, whatever precedes and follows it.
pub fn written_is_read()
    ensures { (before spelling after : List ℕ) (n : ℕ) → IsShortest spelling n
        → NumberStandsAt (before ++ spelling ++ after) (length before) n
        (length before + length spelling) }
{}

/// A number has one shortest spelling.
pub fn one_shortest_spelling()
    ensures { (a b : List ℕ) (n : ℕ) → All (λ byte. byte < 256) a → All (λ byte. byte < 256) b
        → IsShortest a n → IsShortest b n → a ≡ b }
{}

/// A signed number v is encoded as 2v if it is at least 0, else as -2v - 1.
pub fn signed_numbers_are_folded()
    ensures even { (v : ℤ) → pos 0 ≤ℤ v → pos (zigzag v) ≡ pos 2 *ℤ v }
    ensures odd { (v : ℤ) → v <ℤ pos 0 → pos (zigzag v) ≡ neg_ℤ (pos 2 *ℤ v) -ℤ pos 1 }
{}

/// Bytes have one front, so `resolve` is a function of them.
pub fn one_front()
    ensures { (bytes : List ℕ) (a b : List Entry) → LongestFront bytes a → LongestFront bytes b → a ≡ b }
{}

/// The front of a table is its list, so a table that `encode` wrote resolves every address as its list does.
pub fn tables_resolve()
    ensures front { (bytes : List ℕ) (list front : List Entry) → Table bytes list
        → LongestFront bytes front → front ≡ list }
    ensures one { (bytes : List ℕ) (a b : List Entry) → Table bytes a → Table bytes b → a ≡ b }
{}

/// The capabilities have the 15 lowest bits: a number is a set of them exactly where it is below 2^15.
pub fn capabilities_have_the_lowest_bits()
    ensures all { known_bits caps_table ≡ 0x7fff }
    ensures known { (bits : ℕ) → (bit_and bits (known_bits caps_table) ≡ bits) ↔ (bits < 2 ^ 15) }
{}

/// `Position::NONE`, which this returns, has no place.
pub fn none_has_no_place() -> Position
    ensures { place_of result ≡ None }
{
    Position::NONE
}

/// Values are equal exactly where they have one content, in which a shared value is what it holds.
pub fn equality_is_of_content()
    ensures { (x y : Content) → IsTrue (same x y) ↔ (x ≡ y) }
{}
