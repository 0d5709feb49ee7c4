//! Lists of bases that share their ends, so that rows under deeply nested handlers don't take memory by the square.
ghost use Rattle.std.specs.Prelude.{◌≡◌, ◌≢◌, ◌∷◌, ◌<◌, ◌≤◌, ◌↔◌, ◌-◌, IsTrue, MatchOption, Some, length, slice_get};
ghost use Rattle.grain_explain.specs.RowView.{AreLinked, plain_base, list_in};

use crate::row::LinkedBase;

/// The first base of a list, unless the list is empty.
pub(crate) fn first_base(bases: &[LinkedBase], list: u32) -> Option<LinkedBase>
    requires linked { AreLinked bases.now }
    requires listed { list ≤ length bases.now }
    ensures { MatchOption result (list ≡ 0)
        (λ b. (list_in bases.now list ≡ plain_base b ∷ list_in bases.now b.next) × (b.next < list)) }
{
    if list == 0 {
        return None;
    }
    Some(bases[list as usize - 1])
}

/// The lists behind the first bases of two lists with unlike numbers, if these bases are equal.
fn behind_both(bases: &[LinkedBase], left: u32, right: u32) -> Option<(u32, u32)>
    requires linked { AreLinked bases.now }
    requires left { left ≤ length bases.now }
    requires right { right ≤ length bases.now }
    requires unlike { left ≢ right }
    ensures { MatchOption result (list_in bases.now left ≡ list_in bases.now right → ⊥)
        (λ p. ((list_in bases.now left ≡ list_in bases.now right)
        ↔ (list_in bases.now p.0 ≡ list_in bases.now p.1)) × (p.0 < left) × (p.1 < right)) }
{
    let Some(here) = first_base(bases, left) else {
        return None;
    };
    let Some(there) = first_base(bases, right) else {
        return None;
    };
    if here.operands != there.operands || here.iterators != there.iterators {
        return None;
    }
    Some((here.next, there.next))
}

/// Whether two lists have the same bases. They are compared as far as the ends that they share.
pub(crate) fn are_same(bases: &[LinkedBase], one: u32, other: u32) -> bool
    requires linked { AreLinked bases.now }
    requires one { one ≤ length bases.now }
    requires other { other ≤ length bases.now }
    ensures { IsTrue result ↔ (list_in bases.now one ≡ list_in bases.now other) }
{
    let mut left = one;
    let mut right = other;
    while left != right {
        let Some((left_end, right_end)) = behind_both(bases, left, right) else {
            return false;
        };
        left = left_end;
        right = right_end;
    }
    true
}

/// Whether this very base is in front of a list.
pub(crate) fn is_headed_by(bases: &[LinkedBase], list: u32, base: LinkedBase) -> bool
    ensures { IsTrue result → (0 < list) × (list ≤ length bases.now)
        × (slice_get bases.now (list - 1) ≡ Some base) }
{
    if list == 0 || list as usize > bases.len() {
        return false;
    }
    bases[list as usize - 1] == base
}
