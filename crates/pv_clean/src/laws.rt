//! Laws of what cleaning removes, and of its intermediate states. Each function does nothing, and its contract is the
//! law. A path is aged if a complete clean that begins now, from this tree, removes it. The input paths are those that
//! configuration lines are read from: the folders of tmpfiles.d(5) with all below them, /etc/passwd and /etc/group.
ghost use Rattle.std.specs.Prelude.{◌≡◌, ◌⊎◌, ℕ, Bool, List, is_some, true};
ghost use Rattle.std.specs.List.{list_any};
ghost use Rattle.pv_lines.specs.declared.line.Line.{Line as LineValue};
ghost use Rattle.pv_path.specs.Paths.{Path};
ghost use Rattle.pv_steps.specs.Content.{content_of};
ghost use Rattle.pv_steps.specs.Same.{object_states};
ghost use Rattle.pv_steps.specs.Trees.{Files, places, IsAbsentIn, IsTree};
ghost use Rattle.pv_walk.specs.Edits.{Pruned};
ghost use Rattle.pv_table.specs.declared.reason.Reason.TheVariants as reason;
ghost use Rattle.pv_table.specs.Cleaned.{is_aged};
ghost use Rattle.pv_layers.specs.Places.{is_input};
ghost use Rattle.pv_table.specs.Reaching.{governs};
ghost use Rattle.pv_table.specs.Repeatable.{HasReason};
ghost use Rattle.pv_clean.specs.Sentences.{is_aged_by};

/// States that a stopped clean phase has removed only what was aged at its beginning. All else is as it was, except for
/// timestamps.
pub fn a_stopped_clean_took_what_is_aged()
    ensures { (lines : List LineValue) (now : ℕ) (t u : Files) (q : Path) → Pruned (is_aged lines now t) t u
        → ((is_aged lines now t q ≡ true) × IsAbsentIn (places u) q) ⊎ (object_states (places u) q ≡ object_states (places t) q) }
{}

/// States that cleaning changes no input path in any intermediate state, if no line has the hazard `input`.
///
/// Each input path is absent as before, or has the same kind and the same content.
pub fn a_cleaning_leaves_what_lines_are_read_from()
    ensures { (lines : List LineValue) (now : ℕ) (t u : Files) (q : Path) → IsTree t
        → ((i : ℕ) → HasReason lines i reason.Input → ⊥) → Pruned (is_aged lines now t) t u → is_input q ≡ true
        → content_of (places u q) ≡ content_of (places t q) }
{}

/// States that the paths that are aged are those of the manual (tmpfiles.d(5), "Age", x and X).
///
/// A path other than the root is aged exactly if these hold:
///
/// - No line names it.
/// - Its object is old by the age of its directory, and this age does not spare it. An age with the prefix `~` spares
///   what is directly in the directory for which a line gives it.
/// - It is not a directory, or everything in it is aged.
pub fn what_is_aged_is_as_the_manual_says()
    ensures { (lines : List LineValue) (now : ℕ) (t : Files) (q : Path) → IsTree t
        → is_aged lines now t q ≡ is_aged_by (is_aged lines now t) lines now t q }
{}

/// States that no other set of paths is as the manual says.
///
/// The manual's rule is that of the law above, with its conditions. If a set obeys this rule at each present path, then
/// the present paths in the set are exactly the aged ones.
pub fn only_what_is_aged_is_as_the_manual_says()
    ensures { (lines : List LineValue) (now : ℕ) (t : Files) (aged : Path → Bool) → IsTree t
        → ((q : Path) → is_some (places t q) ≡ true → aged q ≡ is_aged_by aged lines now t q)
        → (q : Path) → is_some (places t q) ≡ true → aged q ≡ is_aged lines now t q }
{}

/// States that a line governs each path that is aged.
pub fn what_is_aged_is_governed()
    ensures { (lines : List LineValue) (now : ℕ) (t : Files) (q : Path) → is_aged lines now t q ≡ true
        → list_any (λ line. governs line q) lines ≡ true }
{}
