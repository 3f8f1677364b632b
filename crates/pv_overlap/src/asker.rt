//! The trait of the value that [`crate::pairs_by`] asks for a path of two heads.
ghost use Rattle.std.specs.Prelude.{◌≡◌, ℕ, ◌<◌, List, [], ◌∷◌, ◌++◌, true, length, slice_index_or, IfOk};
ghost use Rattle.pv_path.specs.Paths.{Path};
ghost use Rattle.pv_overlap.specs.Answers.{Answers, SameAnswers};
ghost use Rattle.pv_overlap.specs.Heads.{related};
ghost use Rattle.pv_overlap.specs.Questions.{Question};

use pv_path::TreePath;
use std::alloc::{AllocError, Global};

/// A source of answers. It is asked about two heads of which one is a prefix of the other, and says whether there is a
/// path for them, and which. The implementor decides what a path for two heads is (`answers`).
pub trait Asker {
    /// The heads. No call changes them.
    ghost heads: { Self → List Path };

    /// Which answers are allowed for two heads: paths, or `None`. No call changes it.
    ghost answers: { Self → Answers };

    /// How queries change an asker: the relation between it before and after these queries, in order.
    ghost asked: { Self → Self → List Question → Type 0 };

    /// Returns the path for two heads, or `None` if there is none.
    ///
    /// `i` and `j` are indices of heads, counted from 0, and `i` is the lesser one. One of the two heads is a prefix of
    /// the other. The only error is `AllocError`. The query counts as asked then too.
    fn ask(&mut self, alloc: Global, i: u32, j: u32) -> Result<Option<TreePath>, AllocError>
        requires order { i < j }
        requires inside { j < length (heads self.old) }
        requires related { related (slice_index_or (heads self.old) i []) (slice_index_or (heads self.old) j []) ≡ true }
        ensures answer { IfOk result (answers self.old i j) }
        ensures heads { heads self.new ≡ heads self.old }
        ensures answers { SameAnswers (answers self.old) (answers self.new) }

        // This holds whatever the answer.
        ensures asked { asked self.old self.new ((i, j) ∷ []) };

    ghost asked_nothing: { (a : Self) → asked a a [] };

    ghost asked_on: { (a b c : Self) (some more : List Question) → asked a b some → asked b c more → asked a c (some ++ more) };
}
