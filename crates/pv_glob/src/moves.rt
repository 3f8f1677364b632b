//! An automaton over bytes, as a search sees it.
ghost use Rattle.std.specs.Prelude.{◌≡◌, ℕ, ◌+◌, ◌<◌, All, IfOk};
ghost use Rattle.pv_glob.specs.Machines.{AllInside, Machine, targets};

use pv_path::Sequence;
use std::alloc::{AllocError, Global};

/// One move of an automaton: each byte from `low` to `high`, both included and by value, leads to the state `to`.
#[derive(Clone, Copy, PartialEq, Eq)]
pub struct Move {
    /// The least byte.
    pub low: u8,
    /// The greatest byte.
    pub high: u8,
    /// The state to which the move leads, counted from 0.
    pub to: u32,
}

/// A list of moves.
pub type MoveList = Sequence<Move>;

/// A finite automaton that reads words byte by byte. A word is a string of bytes. The states are numbers, counted from
/// 0. A call of `moves` is a query, and the automaton has a budget of queries.
///
/// An end is an accepting state: a word is accepted if its bytes lead from state 0 to an end. Several moves from one
/// state may take the same byte.
pub trait Moves {
    /// In contracts: the automaton, with its number of states, its ends, and the states to which bytes lead.
    ghost machine: { Self → Machine };

    /// In contracts: how many queries are left.
    ghost questions: { Self → ℕ };

    /// Returns whether a state is an end. `at` is the state, below the number of states. The call does not allocate.
    fn end(&self, at: u32) -> bool
        requires { at < (machine self.now).places }
        ensures { result ≡ (machine self.now).is_end at };

    /// Returns the moves from a state, all of which lead to states that exist.
    ///
    /// `at` is the state, below the number of states. At least one query must be left. The call uses up one query, even
    /// after an error. The automaton stays the same. The only error is `AllocError`.
    fn moves(&mut self, alloc: Global, at: u32) -> Result<MoveList, AllocError>
        requires place { at < (machine self.old).places }
        requires question { 0 < questions self.old }
        ensures moves { IfOk result (λ moves. (b : ℕ) → targets moves b ≡ (machine self.old).after at b) }
        ensures inside { IfOk result (AllInside (machine self.old).places) }
        ensures same { machine self.new ≡ machine self.old }
        ensures cost { questions self.new + 1 ≡ questions self.old };
}
