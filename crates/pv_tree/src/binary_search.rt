//! Binary search in a sorted list whose items are reached through a trait.
ghost use Rattle.std.specs.Prelude.{◌≡◌, ℕ, ◌+◌, ◌^◌, ◌<◌, ◌≤◌, List, length, Some, position, slice_get, MatchResult};
ghost use Rattle.std.specs.Ordering.{is_eq};
ghost use Rattle.std.specs.declared.cmp.Ordering.{Ordering as Order};
ghost use Rattle.pv_tree.specs.Finding.{IsRising, IsFoundAt, IsGapAt};

use std::cmp::Ordering;

/// A sorted list that can be asked only one thing: how the item at an index compares with what is sought.
///
/// In contracts, a value has the list of the answers for all indices, which no query changes, and the number of queries
/// that are left.
pub trait Probe {
    /// How each item of the list compares with what is sought.
    ghost orders: { Self → List Order };

    /// How many queries are left.
    ghost left: { Self → ℕ };

    /// Returns how the item at an index compares with what is sought: `Less` if the item comes before it.
    ///
    /// The index is counted from 0 and must be below the length, and a query must be left. The call uses up one query.
    /// The call does not allocate.
    fn compare(&mut self, i: usize) -> Ordering
        requires place { i < length (orders self.old) }
        requires question { 1 ≤ left self.old }
        ensures order { Some result ≡ slice_get (orders self.old) i }
        ensures orders { orders self.new ≡ orders self.old }
        ensures asked { left self.new + 1 ≡ left self.old };
}

/// Finds the index of the item that is equal to what is sought by binary search, or gives `None` if there is no
/// such item.
///
/// The list must be sorted: first the items that are less, then at most one that is equal, then those that are
/// greater. `len` is its length.
///
/// For the least d such that `len` is below 2^d, the call makes at most d queries. At least that many queries must be
/// left. For example, 10 queries are enough for 1000 items. The call does not allocate.
pub fn find<P: Probe>(probe: &mut P, len: usize) -> Option<usize>
    requires len { len ≡ length (P.orders probe.old) }
    requires rising { IsRising (P.orders probe.old) }

    // At least d queries are left.
    requires enough { len < 2 ^ P.left probe.old }
    ensures place { result ≡ position is_eq (P.orders probe.old) }
    ensures orders { P.orders probe.new ≡ P.orders probe.old }
    ensures asked { (d : ℕ) → len < 2 ^ d → P.left probe.old ≤ P.left probe.new + d }
{
    place_of(probe, len).ok()
}

/// Finds the index of the item that is equal to what is sought (`Ok`), or the index at which to insert it (`Err`).
pub(crate) fn place_of<P: Probe>(probe: &mut P, len: usize) -> Result<usize, usize>
    requires len { len ≡ length (P.orders probe.old) }
    requires rising { IsRising (P.orders probe.old) }
    requires enough { len < 2 ^ P.left probe.old }
    ensures place { MatchResult result (IsFoundAt (P.orders probe.old)) (IsGapAt (P.orders probe.old)) }
    ensures orders { P.orders probe.new ≡ P.orders probe.old }
    ensures asked { (d : ℕ) → len < 2 ^ d → P.left probe.old ≤ P.left probe.new + d }
{
    let mut low = 0;
    let mut high = len;
    while low < high {
        let middle = low + (high - low) / 2;
        match probe.compare(middle) {
            Ordering::Less => low = middle + 1,
            Ordering::Equal => return Ok(middle),
            Ordering::Greater => high = middle,
        }
    }
    Err(low)
}
