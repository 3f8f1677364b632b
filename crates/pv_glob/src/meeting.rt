//! Finds the first path that two patterns share.
ghost use Rattle.std.specs.Prelude.{◌≡◌, ℕ, ◌<◌, ◌≤◌, List, [], ◌∷◌, ◌++◌, true, false, not, ◌&&◌, nat_lt, length, slice_index_or, All, IsNone, IfOk, IfSome, MatchOption, if◌then◌else◌};
ghost use Rattle.pv_path.specs.Paths.{Path};
ghost use Rattle.pv_glob.specs.Matching.{component_matches};
ghost use Rattle.pv_glob.specs.Meeting.{are_met, has_room, is_met, met_at, shares};
ghost use Rattle.pv_glob.specs.Pairs.{is_shared};
ghost use Rattle.pv_glob.specs.Words.{Finds, IsFirst, shared_cmp, word_cmp};

use crate::apart::are_apart;
use crate::earlier::earlier;
use crate::element::Component;
use crate::literal_name::{name_by, written};
use crate::pair::pair_of;
use crate::pattern::Pattern;
use crate::plain::Plain;
use crate::search::least_word;
use pv_path::{Bytes, Name, TreePath};
use std::alloc::{AllocError, Global};

/// The paths that a pattern matches, and, if `below` is true, also every path below one of them.
///
/// No path with a staging name belongs to it.
#[derive(Drop)]
pub struct Reach {
    /// The pattern.
    pub pattern: Pattern,
    /// Whether paths below a matched path belong to it too.
    pub below: bool,
}

/// Returns the first word that both components match, of any length, or `None` if there is none.
fn first_word(alloc: Global, a: &Component, b: &Component) -> Result<Option<Bytes>, AllocError>
    ensures none { IfOk result (λ found. IsNone found → (word : List ℕ) → is_shared a.now b.now word ≡ false) }
    ensures first { IfOk result (λ found. IfSome found (IsFirst word_cmp (is_shared a.now b.now))) }
{
    let mut machine = pair_of(a, b)?;
    let places = machine.places();
    least_word(alloc, &mut machine, places)
}

/// Returns the first name that both components match, found by an automaton, or `None` if there is none.
///
/// A name has at most 255 bytes.
fn searched_name(alloc: Global, a: &Component, b: &Component) -> Result<Option<Name>, AllocError>
    ensures none { IfOk result (λ found. IsNone found → (name : List ℕ) → shares a.now b.now name ≡ false) }
    ensures first { IfOk result (λ found. IfSome found (IsFirst word_cmp (shares a.now b.now))) }
{
    match first_word(alloc, a, b)? {
        Some(word) => {
            if word.len() <= 255 {
                Ok(Some(Name::of(alloc, word.as_slice())?))
            } else {
                Ok(None)
            }
        }
        None => Ok(None),
    }
}

/// Returns the first name that both components match, or `None` if there is none.
///
/// A component without wildcards matches one name alone. If one of the two is such, no automaton is made.
fn first_name(alloc: Global, a: &Component, b: &Component) -> Result<Option<Name>, AllocError>
    ensures none { IfOk result (λ found. IsNone found → (name : List ℕ) → shares a.now b.now name ≡ false) }
    ensures first { IfOk result (λ found. IfSome found (IsFirst word_cmp (shares a.now b.now))) }
{
    match written(alloc, a)? {
        Some(bytes) => name_by(alloc, b, &bytes),
        None => match written(alloc, b)? {
            Some(bytes) => name_by(alloc, a, &bytes),
            None => searched_name(alloc, a, b),
        },
    }
}

/// Returns true only if two components at one index match no name in common. The call does not allocate.
fn some_apart(a: &[Component], b: &[Component]) -> bool
    ensures { result ≡ true → (k : ℕ) × (k < length a.now) × (k < length b.now) × ((name : List ℕ) → shares (slice_index_or a.now k []) (slice_index_or b.now k []) name ≡ false) }
{
    for (i, component) in a.iter().enumerate() {
        if i < b.len() && are_apart(component.as_slice(), b[i].as_slice()) {
            return true;
        }
    }
    false
}

/// Returns whether a path of some length can belong to both.
fn has_room(a: &[Component], a_below: bool, b: &[Component], b_below: bool) -> bool
    ensures { result ≡ has_room a.now a_below b.now b_below }
{
    if a.len() < b.len() {
        a_below
    } else if b.len() < a.len() {
        b_below
    } else {
        true
    }
}

/// Returns the component of the first pattern at an index, or that of the second past the end of the first.
fn component_at<'a>(a: &'a [Component], b: &'a [Component], at: usize) -> &'a Component
    requires { length a.now ≤ at → at < length b.now }
    ensures { result.now ≡ met_at a.now b.now at }
{
    if at < a.len() { &a[at] } else { &b[at] }
}

/// Returns the first path that belongs to both, of two patterns without braces, or `None` if there is none.
fn meet_plain(
    alloc: Global,
    a: &[Component],
    a_below: bool,
    b: &[Component],
    b_below: bool,
) -> Result<Option<TreePath>, AllocError>
    ensures none { IfOk result (λ found. IsNone found → (path : Path) → is_met a.now a_below b.now b_below path ≡ false) }
    ensures first { IfOk result (λ found. IfSome found (IsFirst shared_cmp (is_met a.now a_below b.now b_below))) }
{
    if !has_room(a, a_below, b, b_below) || some_apart(a, b) {
        return Ok(None);
    }
    let mut path = TreePath::root(alloc);
    for i in 0..a.len().max(b.len()) {
        let left = component_at(a, b, i);
        let right = component_at(b, a, i);
        match first_name(alloc, left, right)? {
            Some(name) => path.push(name)?,
            None => return Ok(None),
        }
    }
    Ok(Some(path))
}

/// Returns the first path that belongs to a pattern without braces and to any of some others, or `None` if there is
/// none.
fn meet_each(
    alloc: Global,
    a: &[Component],
    a_below: bool,
    b: &[Plain],
    b_below: bool,
) -> Result<Option<TreePath>, AllocError>
    ensures { IfOk result (Finds (are_met (a.now ∷ []) a_below b.now b_below)) }
{
    let mut found = None;
    for plain in b {
        let next = meet_plain(alloc, a, a_below, plain.components(), b_below)?;
        found = earlier(found, next);
    }
    Ok(found)
}

/// Returns the first path that belongs to any of some patterns without braces and to any of some others, or `None`.
fn meet_all(
    alloc: Global,
    a: &[Plain],
    a_below: bool,
    b: &[Plain],
    b_below: bool,
) -> Result<Option<TreePath>, AllocError>
    ensures { IfOk result (Finds (are_met a.now a_below b.now b_below)) }
{
    let mut found = None;
    for plain in a {
        let next = meet_each(alloc, plain.components(), a_below, b, b_below)?;
        found = earlier(found, next);
    }
    Ok(found)
}

/// Returns the first path that belongs to both `a` and `b`, or `None` exactly if there is no such path.
///
/// A path with fewer names comes first. Among paths with the same number of names, the first name that differs
/// decides, and the shorter name comes first. In names of one length the first byte that differs decides: `a` to
/// `z`, then `0` to `9`, then `A` to `Z`, then the other bytes by value. The only error is `AllocError`.
///
/// For example, the first path that `/a/*b` and `/a/b*` share is `/a/b`.
pub fn meet(alloc: Global, a: &Reach, b: &Reach) -> Result<Option<TreePath>, AllocError>
    ensures none { IfOk result (λ found. IsNone found → (path : Path) → are_met a.now.pattern a.now.below b.now.pattern b.now.below path ≡ false) }
    ensures first { IfOk result (λ found. IfSome found (IsFirst shared_cmp (are_met a.now.pattern a.now.below b.now.pattern b.now.below))) }
{
    meet_all(
        alloc,
        a.pattern.plains(),
        a.below,
        b.pattern.plains(),
        b.below,
    )
}
