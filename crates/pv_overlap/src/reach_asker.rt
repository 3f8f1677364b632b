//! The pairs of reaches that share a path. The automata of their patterns are asked.
ghost use Rattle.std.specs.Prelude.{◌≡◌, ℕ, ◌+◌, ◌*◌, ◌<◌, ◌^◌, length, All, AllPairs, Contains, IfOk, IfSome, ⊤};
ghost use Rattle.pv_path.specs.Paths.{Path};
ghost use Rattle.pv_glob.specs.Words.{Finds};
ghost use Rattle.pv_overlap.specs.declared.pair.Pair.{Pair as PairValue};
ghost use Rattle.pv_overlap.specs.Answers.{ComesBefore, IsAnswered, IsReported};
ghost use Rattle.pv_overlap.specs.Alike.{key_of};
ghost use Rattle.pv_overlap.specs.Subjects.{heads_of, MayAnswer, meets, reach_at};

use crate::alike::firsts_of;
use crate::asker::Asker;
use crate::heads::head;
use crate::pair::PairList;
use crate::walk::pairs_by;
use pv_glob::{Reach, meet};
use pv_path::{PathList, TreePath};
use std::alloc::{AllocError, Global};
use std::collections::HashMap;
use std::marker::Model;

/// Reaches, the first ones of which are those of lines. In contracts, a value is the list of the reaches and the number
/// of lines.
#[derive(Drop)]
pub(crate) struct Meeting<'a> {
    reaches: &'a [Reach],
    lines: usize,
    /// For each reach, the index of an equal one.
    firsts: Vec<u32>,
    /// What was answered for two reaches to which others are equal.
    known: HashMap<u64, Option<TreePath>>,
}

impl<'a> Model for Meeting<'a> {
    ghost use Rattle.std.specs.Prelude.{ℕ, List};
    ghost use Rattle.pv_glob.specs.declared.meeting.Reach.{Reach as ReachValue};
    ghost use Rattle.pv_overlap.specs.Alike.{AreAnswers, AreFirsts};

    ghost Value = { List ReachValue × ℕ };

    ghost view = { λ m. (m.reaches.now, m.lines) };

    ghost invariant = { λ m. AreFirsts m.reaches.now m.firsts.items × AreAnswers m.reaches.now m.known.entries };
}

/// Returns a copy of an answer.
fn copied(found: &Option<TreePath>) -> Result<Option<TreePath>, AllocError>
    ensures { IfOk result (λ copy. copy ≡ found.now) }
{
    match found {
        Some(path) => Ok(Some(path.copy()?)),
        None => Ok(None),
    }
}

/// Returns the number that stands for two indices.
fn key_of(a: u32, b: u32) -> u64
    ensures { result ≡ key_of a b }
{
    u64::from(a) * 4_294_967_296 + u64::from(b)
}

impl<'a> Meeting<'a> {
    /// Makes the asker for these reaches, of which the first `lines` are those of lines.
    fn of(alloc: Global, reaches: &'a [Reach], lines: usize) -> Result<Self, AllocError>
        requires few { length reaches.now < 2 ^ 32 }
        ensures { IfOk result (λ meeting. meeting ≡ (reaches.entry.now, lines)) }
    {
        Ok(Meeting {
            reaches,
            lines,
            firsts: firsts_of(alloc, reaches)?,
            known: HashMap::new(alloc),
        })
    }

    /// Returns the index of a reach that is equal to the one at an index.
    fn first(&self, i: u32) -> u32
        requires { i < length self.now.0 }
        ensures { reach_at self.now.0 result ≡ reach_at self.now.0 i }
    {
        self.firsts[i as usize]
    }

    /// Returns the first path that two reaches share, or `None` if they share none.
    fn met(&self, alloc: Global, i: u32, j: u32) -> Result<Option<TreePath>, AllocError>
        requires i { i < length self.now.0 }
        requires j { j < length self.now.0 }
        ensures { IfOk result (Finds (meets (reach_at self.now.0 i) (reach_at self.now.0 j))) }
    {
        meet(alloc, &self.reaches[i as usize], &self.reaches[j as usize])
    }

    /// Returns what was answered for two reaches before, if they were asked for.
    fn answered(&self, a: u32, b: u32) -> Option<&Option<TreePath>>
        ensures { IfSome result (λ found. Finds (meets (reach_at self.now.0 a) (reach_at self.now.0 b)) found.now) }
    {
        self.known.get(&key_of(a, b))
    }

    /// Keeps what was answered for two reaches.
    fn keep(&mut self, a: u32, b: u32, found: Option<TreePath>) -> Result<(), AllocError>
        requires { Finds (meets (reach_at self.old.0 a) (reach_at self.old.0 b)) found }
        ensures { self.new ≡ self.old }
    {
        self.known.insert(key_of(a, b), found)?;
        Ok(())
    }

    /// Returns the first path that two reaches share, or `None`. It is looked up if two equal reaches were asked for
    /// before.
    fn found(&mut self, alloc: Global, i: u32, j: u32) -> Result<Option<TreePath>, AllocError>
        requires i { i < length self.old.0 }
        requires j { j < length self.old.0 }
        ensures found { IfOk result (Finds (meets (reach_at self.old.0 i) (reach_at self.old.0 j))) }
        ensures same { self.new ≡ self.old }
    {
        let (a, b) = (self.first(i), self.first(j));
        if a == i && b == j {
            return self.met(alloc, i, j);
        }
        if let Some(found) = self.answered(a, b) {
            return copied(found);
        }
        let found = self.met(alloc, i, j)?;
        self.keep(a, b, copied(&found)?)?;
        Ok(found)
    }
}

impl<'a> Asker for Meeting<'a> {
    ghost heads = { λ s. heads_of s.0 };

    ghost answers = { λ s i j answer. MayAnswer s.0 s.1 i j answer };

    ghost asked = { λ _ _ _. ⊤ };

    fn ask(&mut self, alloc: Global, i: u32, j: u32) -> Result<Option<TreePath>, AllocError> {
        if (i as usize) < self.lines {
            self.found(alloc, i, j)
        } else {
            Ok(None)
        }
    }

    ghost asked_nothing = { λ _. tt };

    ghost asked_on = { λ _ _ _ _ _ _ _. tt };
}

/// Returns the heads of reaches.
fn heads_of(alloc: Global, reaches: &[Reach]) -> Result<PathList, AllocError>
    ensures { IfOk result (λ heads. heads ≡ heads_of reaches.now) }
{
    let mut heads = PathList::new(alloc);
    for reach in reaches {
        heads.push(head(alloc, &reach.pattern)?)?;
    }
    Ok(heads)
}

/// Returns the pairs of reaches that share a path, each with the first such path. The first reach of a pair is that of
/// a line.
pub(crate) fn pairs_of(
    alloc: Global,
    reaches: &[Reach],
    lines: usize,
) -> Result<PairList, AllocError>
    requires few { length reaches.now < 2 ^ 32 }
    ensures listed { IfOk result (λ pairs. (pair : PairValue) → Contains pairs pair → IsAnswered (MayAnswer reaches.now lines) (length reaches.now) pair) }
    ensures all { IfOk result (λ pairs. (i j : ℕ) → i < j → j < length reaches.now → IsReported (MayAnswer reaches.now lines) pairs i j) }
    ensures ordered { IfOk result (AllPairs ComesBefore) }
{
    let heads = heads_of(alloc, reaches)?;
    let mut asker = Meeting::of(alloc, reaches, lines)?;
    pairs_by(alloc, &heads, &mut asker)
}
