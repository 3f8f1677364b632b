//! Searches an automaton for its first word, level by level. Level n holds the states to which a word of n bytes leads
//! and no shorter word does, each with the first such word.
ghost use Rattle.std.specs.Prelude.{◌≡◌, ℕ, ◌+◌, ◌<◌, ◌≤◌, List, [], ◌∷◌, ◌++◌, true, false, length, map, replicate, set, ◌-◌, All, Contains, Some, None, is_none, is_some, IfOk, IfSome, IsNone, OnOk, if◌then◌else◌};
ghost use Rattle.std.specs.Ordering.{is_gt};
ghost use Rattle.pv_glob.specs.Machines.{reads};
ghost use Rattle.pv_glob.specs.Search.{word_at, noted, listed, unfound, Noted, IsSearched, FirstEnd};
ghost use Rattle.pv_glob.specs.Words.{rank, shortlex, word_cmp, IsFirst};

use crate::moves::{Move, Moves};
use crate::rank::{byte_at, first_rank};
use crate::word::Word;
use pv_path::Bytes;
use std::alloc::{AllocError, Global};

/// Notes that a word leads to a state, if no earlier word does. A state that had no word before is added to `next`.
fn note(
    found: &mut Vec<Option<Word>>,
    next: &mut Vec<u32>,
    place: u32,
    word: Word,
) -> Result<(), AllocError>
    requires { place < length found.old.items }
    ensures found { OnOk result (found.new.items ≡ noted found.old.items place word) }
    ensures next { OnOk result (next.new.items ≡ listed found.old.items next.old.items place) }
{
    let later = match &found[place as usize] {
        Some(old) => old.is_after(&word),
        None => {
            next.push(place)?;
            true
        }
    };
    if later {
        found[place as usize] = Some(word);
    }
    Ok(())
}

/// Notes the words that follow a word by some moves.
fn note_moves(
    found: &mut Vec<Option<Word>>,
    next: &mut Vec<u32>,
    word: &Word,
    moves: &[Move],
) -> Result<(), AllocError>
    requires { All (λ move. move.to < length found.old.items) moves.now }
    ensures { OnOk result (Noted found.old.items next.old.items word.now moves.now found.new.items next.new.items) }
{
    for step in moves {
        if step.low <= step.high {
            let further = word.followed_by(first_rank(step.low, step.high))?;
            note(found, next, step.to, further)?;
        }
    }
    Ok(())
}

/// Returns the first word that leads to a state.
fn word_to(found: &Vec<Option<Word>>, place: u32) -> Result<Word, AllocError>
    requires inside { place < length found.now.items }
    requires found { is_some (word_at found.now.items place) ≡ true }
    ensures { IfOk result (λ word. word_at found.now.items place ≡ Some word) }
{
    match &found[place as usize] {
        Some(word) => word.copy(),
        None => unreachable!(),
    }
}

/// Asks the states of a level for their moves, notes the words that follow, and returns the next level.
fn next_level<M: Moves>(
    alloc: Global,
    machine: &mut M,
    found: &mut Vec<Option<Word>>,
    level: &[u32],
) -> Result<Vec<u32>, AllocError>
    requires searched { IsSearched (M.machine machine.old) found.old.items level.now }
    requires no_end { FirstEnd (M.machine machine.old) found.old.items level.now None }
    requires questions { length level.now ≤ M.questions machine.old }
    ensures searched { IfOk result (λ next. IsSearched (M.machine machine.old) found.new.items next.items) }
    ensures count { IfOk result (λ next. unfound found.new.items + length next.items ≡ unfound found.old.items) }
    ensures same { M.machine machine.new ≡ M.machine machine.old }
    ensures cost { M.questions machine.old ≤ M.questions machine.new + length level.now }
{
    let mut next = Vec::new(alloc);
    for place in level {
        let word = word_to(found, *place)?;
        let moves = machine.moves(alloc, *place)?;
        note_moves(found, &mut next, &word, moves.as_slice())?;
    }
    Ok(next)
}

/// Returns whether a word comes before another, or there is no other.
fn is_earlier(word: &Word, first: &Option<Word>) -> bool
    ensures yes { result ≡ true → (old : List ℕ) → first.now ≡ Some old → is_gt (shortlex old word.now) ≡ true }
    ensures no { result ≡ false → (old : List ℕ) × (first.now ≡ Some old) × (is_gt (shortlex old word.now) ≡ false) }
{
    match first {
        Some(old) => old.is_after(word),
        None => true,
    }
}

/// Returns the first word that leads to an end among the states of a level, or `None` if none of them is an end.
fn first_end<M: Moves>(
    machine: &M,
    found: &Vec<Option<Word>>,
    level: &[u32],
) -> Result<Option<Word>, AllocError>
    requires { IsSearched (M.machine machine.now) found.now.items level.now }
    ensures { IfOk result (λ first. FirstEnd (M.machine machine.now) found.now.items level.now first) }
{
    let mut first: Option<Word> = None;
    for place in level {
        if machine.end(*place) {
            let word = word_to(found, *place)?;
            if is_earlier(&word, &first) {
                first = Some(word);
            }
        }
    }
    Ok(first)
}

/// Returns what is known before the first query: the empty word, which leads to state 0.
fn start(alloc: Global, places: u32) -> Result<Vec<Option<Word>>, AllocError>
    requires { 1 ≤ places }
    ensures { IfOk result (λ found. found.items ≡ Some [] ∷ replicate (places - 1) None) }
{
    let mut found = Vec::with_capacity(alloc, places as usize)?;
    found.push(Some(Word::empty(alloc)))?;
    for _ in 1..places {
        found.push(None)?;
    }
    Ok(found)
}

/// Returns the bytes of a word.
fn spelled(alloc: Global, word: &Word) -> Result<Bytes, AllocError>
    requires { (bytes : List ℕ) × All (λ b. b < 256) bytes × (map rank bytes ≡ word.now) }
    ensures { IfOk result (λ bytes. map rank bytes ≡ word.now) }
{
    let mut bytes = Bytes::new(alloc);
    for place in word.ranks() {
        bytes.push(byte_at(*place))?;
    }
    Ok(bytes)
}

/// Returns the first word that leads from state 0 of an automaton to an end, or `None` if no word does.
///
/// Shorter words come first. In words of one length the first byte that differs decides: `a` to `z`, then `0` to
/// `9`, then `A` to `Z`, then the other bytes by value.
///
/// `places` must be the number of states and at least 1, and at least that many queries must be left. The call makes at
/// most `places` queries. The automaton stays the same. The only error is `AllocError`.
pub fn least_word<M: Moves>(
    alloc: Global,
    machine: &mut M,
    places: u32,
) -> Result<Option<Bytes>, AllocError>
    requires places { places ≡ (M.machine machine.old).places }
    requires some { 1 ≤ places }
    requires questions { places ≤ M.questions machine.old }
    ensures none { IfOk result (λ found. IsNone found → (word : List ℕ) → reads (M.machine machine.old) 0 word ≡ false) }
    ensures first { IfOk result (λ found. IfSome found (IsFirst word_cmp (reads (M.machine machine.old) 0))) }
    ensures same { M.machine machine.new ≡ M.machine machine.old }
    ensures cost { M.questions machine.old ≤ M.questions machine.new + places }
{
    let mut found = start(alloc, places)?;
    let mut level = vec![in alloc; 0u32]?;
    while !level.is_empty() {
        if let Some(word) = first_end(machine, &found, level.as_slice())? {
            return Ok(Some(spelled(alloc, &word)?));
        }
        level = next_level(alloc, machine, &mut found, level.as_slice())?;
    }
    Ok(None)
}
