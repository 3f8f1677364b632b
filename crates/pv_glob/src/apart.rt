//! Finds components that match no name in common, by their first bytes.
ghost use Rattle.std.specs.Prelude.{◌≡◌, ℕ, List, true, false, not};
ghost use Rattle.std.specs.List.{list_any};
ghost use Rattle.pv_glob.specs.Matching.{component_matches, name_matches};
ghost use Rattle.pv_glob.specs.Pairs.{is_many};

use crate::element::{Component, Element};
use crate::taker::is_many;

/// Returns whether at least one element is not `*`, so that it needs a byte.
fn needs_byte(elements: &[Element]) -> bool
    ensures { result ≡ list_any (λ element. not (is_many element)) elements.now }
{
    elements.iter().any(|element| !is_many(element))
}

/// Returns true only if two components match no name in common.
///
/// That is so if they begin with the same bytes and then with different ones, or one ends and the other does not. The
/// call does not allocate.
pub(crate) fn are_apart(a: &[Element], b: &[Element]) -> bool
    ensures { result ≡ true → (name : List ℕ) → component_matches a.now name ≡ true → component_matches b.now name ≡ false }
{
    let mut left = a;
    let mut right = b;
    loop {
        if left.is_empty() {
            return needs_byte(right);
        }
        if right.is_empty() {
            return needs_byte(left);
        }
        match (left, right) {
            ([Element::Byte(x), left_rest @ ..], [Element::Byte(y), right_rest @ ..]) => {
                if x != y {
                    return true;
                }
                left = left_rest;
                right = right_rest;
            }
            _ => return false,
        }
    }
}
