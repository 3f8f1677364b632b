//! The walk over heads in their order, which asks only about heads of which one is a prefix of the other.
ghost use Rattle.std.specs.Prelude.{◌≡◌, ◌≢◌, ◌↔◌, ℕ, ◌+◌, ◌<◌, ◌≤◌, ◌^◌, List, [], ◌∷◌, ◌++◌, true, false, length, slice_index_or, take, filter, All, AllPairs, Contains, Option, Some, None, IfOk, OnOk, is_ok};
ghost use Rattle.pv_path.specs.Paths.{Path, is_prefix};
ghost use Rattle.pv_overlap.specs.declared.pair.Pair.{Pair as PairValue};
ghost use Rattle.pv_overlap.specs.Answers.{ComesBefore, IsAnswered, IsReported, SameAnswers};
ghost use Rattle.pv_overlap.specs.Heads.{related};
ghost use Rattle.pv_overlap.specs.Questions.{WasAsked};
ghost use Rattle.pv_overlap.specs.Walk.{Grown, HasAnswer, IsHeadOf, IsOrderOf, IsSound, found_at, head_at, question_of, questions_at};

use crate::asker::Asker;
use crate::pair::{Pair, PairList};
use pv_path::{PathList, TreePath, is_prefix};
use std::alloc::{AllocError, Global};
use std::cmp::Ordering;
use std::collections::BTreeMap;

/// A head and its index, counted from 0.
#[derive(Drop, PartialEq, Eq, PartialOrd, Ord)]
pub(crate) struct Head {
    /// The path of the head.
    pub(crate) path: TreePath,
    /// Its index in the list of heads.
    pub(crate) index: u32,
}

/// The paths that were found, by the indices of two heads.
type Found = BTreeMap<(u32, u32), TreePath>;

/// Returns the heads in their order, each with its index.
fn in_order(alloc: Global, heads: &[TreePath]) -> Result<Vec<Head>, AllocError>
    requires { length heads.now < 2 ^ 32 }
    ensures { IfOk result (λ order. IsOrderOf heads.now order.items) }
{
    let mut order = Vec::new(alloc);
    for (i, head) in heads.iter().enumerate() {
        order.push(Head {
            path: head.copy()?,
            index: i as u32,
        })?;
    }
    order.sort_unstable();
    Ok(order)
}

/// Asks for the path of two heads, by their indices, and keeps it.
fn note<A: Asker>(
    alloc: Global,
    asker: &mut A,
    i: u32,
    j: u32,
    found: &mut Found,
) -> Result<(), AllocError>
    requires order { i < j }
    requires inside { j < length (A.heads asker.old) }
    requires related { related (slice_index_or (A.heads asker.old) i []) (slice_index_or (A.heads asker.old) j []) ≡ true }
    requires sound { IsSound (A.answers asker.old) (length (A.heads asker.old)) found.old }
    ensures grown { OnOk result (Grown (A.answers asker.old) (length (A.heads asker.old)) found.old found.new) }
    ensures noted { OnOk result (HasAnswer (A.answers asker.old) found.new i j) }
    ensures asked { A.asked asker.old asker.new ((i, j) ∷ []) }
    ensures heads { A.heads asker.new ≡ A.heads asker.old }
    ensures answers { SameAnswers (A.answers asker.old) (A.answers asker.new) }
{
    if let Some(path) = asker.ask(alloc, i, j)? {
        found.insert((i, j), path)?;
    }
    Ok(())
}

/// Asks for the path of two heads of which the first is a prefix of the second, and keeps it.
fn ask_about<A: Asker>(
    alloc: Global,
    asker: &mut A,
    a: &Head,
    b: &Head,
    found: &mut Found,
) -> Result<(), AllocError>
    requires a { IsHeadOf (A.heads asker.old) a.now }
    requires b { IsHeadOf (A.heads asker.old) b.now }
    requires prefix { is_prefix a.now.path b.now.path ≡ true }
    requires apart { a.now.index ≢ b.now.index }
    requires sound { IsSound (A.answers asker.old) (length (A.heads asker.old)) found.old }
    ensures grown { OnOk result (Grown (A.answers asker.old) (length (A.heads asker.old)) found.old found.new) }
    ensures noted { OnOk result (HasAnswer (A.answers asker.old) found.new a.now.index b.now.index) }
    ensures asked { A.asked asker.old asker.new (question_of a.now b.now ∷ []) }
    ensures heads { A.heads asker.new ≡ A.heads asker.old }
    ensures answers { SameAnswers (A.answers asker.old) (A.answers asker.new) }
{
    match a.index.cmp(&b.index) {
        Ordering::Less => note(alloc, asker, a.index, b.index, found),
        Ordering::Greater => note(alloc, asker, b.index, a.index, found),
        // No two heads have the same index.
        Ordering::Equal => Ok(()),
    }
}

/// Returns those open heads that are a prefix of the head at an index. All are given by their indices in the order.
fn still_open(
    alloc: Global,
    order: &[Head],
    opened: &[usize],
    at: usize,
) -> Result<Vec<usize>, AllocError>
    requires inside { at < length order.now }
    requires below { All (λ q. q < at) opened.now }
    ensures { IfOk result (λ kept. kept.items ≡ filter (λ q. is_prefix (head_at order.now q).path (head_at order.now at).path) opened.now) }
{
    let mut kept = Vec::new(alloc);
    for q in opened {
        if is_prefix(&order[*q].path, &order[at].path) {
            kept.push(*q)?;
        }
    }
    Ok(kept)
}

/// Asks for the paths of a head and those that are a prefix of it, and keeps them.
fn ask_open<A: Asker>(
    alloc: Global,
    asker: &mut A,
    order: &[Head],
    opened: &[usize],
    at: usize,
    found: &mut Found,
) -> Result<(), AllocError>
    requires inside { at < length order.now }
    requires below { All (λ q. q < at) opened.now }
    requires prefixes { All (λ q. is_prefix (head_at order.now q).path (head_at order.now at).path ≡ true) opened.now }
    requires order { IsOrderOf (A.heads asker.old) order.now }
    requires sound { IsSound (A.answers asker.old) (length (A.heads asker.old)) found.old }
    ensures grown { OnOk result (Grown (A.answers asker.old) (length (A.heads asker.old)) found.old found.new) }
    ensures noted { OnOk result (All (λ q. HasAnswer (A.answers asker.old) found.new (head_at order.now q).index (head_at order.now at).index) opened.now) }
    ensures some { (many : ℕ) × A.asked asker.old asker.new (questions_at order.now at (take many opened.now)) }
    ensures asked { OnOk result (A.asked asker.old asker.new (questions_at order.now at opened.now)) }
    ensures heads { A.heads asker.new ≡ A.heads asker.old }
    ensures answers { SameAnswers (A.answers asker.old) (A.answers asker.new) }
{
    for q in opened {
        ask_about(alloc, asker, &order[*q], &order[at], found)?;
    }
    Ok(())
}

/// Returns the pairs that were found, in their order.
fn listed(alloc: Global, found: Found) -> Result<PairList, AllocError>
    ensures exact { IfOk result (λ pairs. (pair : PairValue) → Contains pairs pair ↔ (found_at found pair.first pair.second ≡ Some pair.path)) }
    ensures ordered { IfOk result (AllPairs ComesBefore) }
{
    let mut pairs = PairList::new(alloc);
    for ((first, second), path) in found {
        pairs.push(Pair {
            first,
            second,
            path,
        })?;
    }
    Ok(pairs)
}

/// Returns the pairs of heads for which the asker answers a path, in the order of their indices.
///
/// - `heads` must be those of the asker, and fewer than 2^32.
/// - `asker` is asked only about two heads of which one is a prefix of the other, and about no pair twice. For two
///   heads that are not related so, the asker must allow the answer `None`.
///
/// If the answer is `Ok`, the asker was asked about all such pairs. Each pair in the list has a path that is an allowed
/// answer of the asker. For two heads that are not in the list, `None` is an allowed answer. The only error is
/// `AllocError`.
///
/// The heads are walked in the order of paths. At each head, the call keeps those earlier heads that are a prefix of
/// it, and asks about these alone.
pub fn pairs_by<A: Asker>(
    alloc: Global,
    heads: &PathList,
    asker: &mut A,
) -> Result<PairList, AllocError>
    requires heads { heads.now ≡ A.heads asker.old }
    requires few { length heads.now < 2 ^ 32 }
    requires unrelated { (i j : ℕ) → i < j → j < length heads.now → related (slice_index_or heads.now i []) (slice_index_or heads.now j []) ≡ false → A.answers asker.old i j None }
    ensures listed { IfOk result (λ pairs. (pair : PairValue) → Contains pairs pair → IsAnswered (A.answers asker.old) (length heads.now) pair) }
    ensures all { IfOk result (λ pairs. (i j : ℕ) → i < j → j < length heads.now → IsReported (A.answers asker.old) pairs i j) }
    ensures ordered { IfOk result (AllPairs ComesBefore) }
    ensures asked { WasAsked (A.asked asker.old asker.new) heads.now (is_ok result) }
    ensures heads { A.heads asker.new ≡ A.heads asker.old }
    ensures answers { SameAnswers (A.answers asker.old) (A.answers asker.new) }
{
    let order = in_order(alloc, heads.as_slice())?;
    let mut found = BTreeMap::new(alloc);
    let mut opened = Vec::new(alloc);
    for at in 0..order.len() {
        let mut kept = still_open(alloc, order.as_slice(), opened.as_slice(), at)?;
        ask_open(
            alloc,
            asker,
            order.as_slice(),
            kept.as_slice(),
            at,
            &mut found,
        )?;
        kept.push(at)?;
        opened = kept;
    }
    listed(alloc, found)
}
