//! Chooses the earlier of two paths, in the order in which the first shared path is chosen.
ghost use Rattle.std.specs.Prelude.{◌≡◌, ℕ, List, length};
ghost use Rattle.std.specs.Ordering.{is_gt, nat_cmp, on};
ghost use Rattle.std.specs.Cmp.Lexicographic.{slice_cmp};
ghost use Rattle.pv_glob.specs.Words.{earlier_of, rank, shared_cmp, word_cmp};

use crate::rank::rank;
use pv_path::{Name, TreePath};
use std::cmp::Ordering;

/// Compares two words of the same length by the first bytes that differ.
fn bytes_order(a: &[u8], b: &[u8]) -> Ordering
    requires { length a.now ≡ length b.now }
    ensures { result ≡ slice_cmp (on rank nat_cmp) a.now b.now }
{
    for (i, byte) in a.iter().enumerate() {
        match rank(*byte).cmp(&rank(b[i])) {
            Ordering::Equal => {}
            order => return order,
        }
    }
    Ordering::Equal
}

/// Compares two words by length, and then by the first bytes that differ.
fn word_order(a: &[u8], b: &[u8]) -> Ordering
    ensures { result ≡ word_cmp a.now b.now }
{
    match a.len().cmp(&b.len()) {
        Ordering::Equal => bytes_order(a, b),
        order => order,
    }
}

/// Compares two lists with the same number of names by the first names that differ.
fn names_order(a: &[Name], b: &[Name]) -> Ordering
    requires { length a.now ≡ length b.now }
    ensures { result ≡ slice_cmp word_cmp a.now b.now }
{
    for (i, name) in a.iter().enumerate() {
        match word_order(name.bytes(), b[i].bytes()) {
            Ordering::Equal => {}
            order => return order,
        }
    }
    Ordering::Equal
}

/// Compares two paths by their number of names, and then by the first names that differ.
fn path_order(a: &TreePath, b: &TreePath) -> Ordering
    ensures { result ≡ shared_cmp a.now b.now }
{
    match a.len().cmp(&b.len()) {
        Ordering::Equal => names_order(a.names(), b.names()),
        order => order,
    }
}

/// Returns whether path `a` comes after path `b`.
fn is_after(a: &TreePath, b: &TreePath) -> bool
    ensures { result ≡ is_gt (shared_cmp a.now b.now) }
{
    path_order(a, b) == Ordering::Greater
}

/// Returns the earlier of two paths, if there are any. The call does not allocate.
pub(crate) fn earlier(found: Option<TreePath>, next: Option<TreePath>) -> Option<TreePath>
    ensures { result ≡ earlier_of found next }
{
    match found {
        None => next,
        Some(path) => match next {
            None => Some(path),
            Some(other) => {
                if is_after(&path, &other) {
                    Some(other)
                } else {
                    Some(path)
                }
            }
        },
    }
}
