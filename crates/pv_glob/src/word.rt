//! Words as a search stores them: for each byte, its index in the order that the search uses (see `least_word`).
ghost use Rattle.std.specs.Prelude.{◌≡◌, ℕ, List, [], ◌∷◌, ◌++◌, IfOk};
ghost use Rattle.std.specs.Ordering.{is_gt};
ghost use Rattle.pv_glob.specs.Words.{shortlex};

use std::alloc::{AllocError, Global};
use std::cmp::Ordering;
use std::marker::Model;

/// A word. In contracts, a value is the list of the indices of its bytes in the order that the search uses.
#[derive(Drop)]
pub(crate) struct Word {
    ranks: Vec<u16>,
}

impl Model for Word {
    ghost Value = { List ℕ };

    ghost view = { λ w. w.ranks.items };
}

impl Word {
    /// Returns the word without bytes. The call does not allocate.
    pub(crate) fn empty(alloc: Global) -> Word
        ensures { result ≡ [] }
    {
        Word {
            ranks: Vec::new(alloc),
        }
    }

    /// Returns the indices of the bytes in the order that the search uses.
    pub(crate) fn ranks(&self) -> &[u16]
        ensures { result.now ≡ self.now }
    {
        self.ranks.as_slice()
    }

    /// Returns a copy of the word.
    pub(crate) fn copy(&self) -> Result<Word, AllocError>
        ensures { IfOk result (λ word. word ≡ self.now) }
    {
        Ok(Word {
            ranks: self.ranks.clone()?,
        })
    }

    /// Returns the word followed by the byte with this index in the order that the search uses.
    pub(crate) fn followed_by(&self, rank: u16) -> Result<Word, AllocError>
        ensures { IfOk result (λ word. word ≡ self.now ++ rank ∷ []) }
    {
        let mut ranks = Vec::with_capacity(*self.ranks.allocator(), self.ranks.len() + 1)?;
        ranks.extend_from_slice(self.ranks.as_slice())?;
        ranks.push(rank)?;
        Ok(Word { ranks })
    }

    /// Returns whether the word comes after another.
    pub(crate) fn is_after(&self, other: &Word) -> bool
        ensures { result ≡ is_gt (shortlex self.now other.now) }
    {
        let order = self
            .ranks
            .len()
            .cmp(&other.ranks.len())
            .then(self.ranks.cmp(&other.ranks));
        order == Ordering::Greater
    }
}
