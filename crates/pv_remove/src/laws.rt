//! Laws of removing and purging: of runs that were cut short, of what both remove, and of their intermediate states.
//! Each function does nothing, and its contract is the law. A path goes if a complete run of the phase from this tree
//! removes it. In an intermediate state, some of the paths that go are gone, and nothing else has changed except
//! timestamps. The input paths are those that configuration lines are read from: the folders of tmpfiles.d(5) with all
//! below them, /etc/passwd and /etc/group.
ghost use Rattle.std.specs.Prelude.{◌≡◌, ℕ, ◌<◌, ◌^◌, Bool, List, true, false, is_some};
ghost use Rattle.std.specs.List.{AllByRecursion, list_any};
ghost use Rattle.pv_lines.specs.declared.line.Line.{Line as LineValue};
ghost use Rattle.pv_lines.specs.Lines.{IsLine};
ghost use Rattle.pv_path.specs.Paths.{Path};
ghost use Rattle.pv_steps.specs.Content.{content_of};
ghost use Rattle.pv_steps.specs.Same.{Same};
ghost use Rattle.pv_steps.specs.Trees.{Files, places, IsTree};
ghost use Rattle.pv_walk.specs.Edits.{Pruned};
ghost use Rattle.pv_table.specs.declared.reason.Reason.TheVariants as reason;
ghost use Rattle.pv_table.specs.Reaching.{governs};
ghost use Rattle.pv_table.specs.Removed.{is_gone, is_purged, is_unfinished, purged, removed};
ghost use Rattle.pv_layers.specs.Places.{is_input};
ghost use Rattle.pv_table.specs.Repeatable.{HasReason};
ghost use Rattle.pv_remove.specs.Sentences.{is_gone_by};

/// States that removing recovers: from any intermediate state, a complete removal leaves the same tree as from the
/// start.
///
/// "The same" leaves out timestamps and staging names. The times of the runs and the lines may be any.
pub fn a_removal_cut_short_recovers()
    ensures { (lines : List LineValue) (now later : ℕ) (t u : Files) → IsTree u → Pruned (is_gone lines t) t u
        → Same (removed lines later u) (removed lines now t) }
{}

/// States that purging recovers: from any intermediate state, a complete purge leaves the same tree as from the start.
///
/// "The same" leaves out timestamps and staging names. The times of the runs and the lines may be any.
pub fn a_purge_cut_short_recovers()
    ensures { (lines : List LineValue) (now later : ℕ) (t u : Files) → IsTree u → Pruned (is_purged lines t) t u
        → Same (purged lines later u) (purged lines now t) }
{}

/// States that removing changes no input path in any intermediate state, if no line has the hazard `input`.
///
/// Each input path is absent as before, or has the same kind and the same content.
pub fn a_removal_leaves_what_lines_are_read_from()
    ensures { (lines : List LineValue) (t u : Files) (q : Path) → IsTree t → AllByRecursion IsLine lines
        → ((i : ℕ) → HasReason lines i reason.Input → ⊥) → Pruned (is_gone lines t) t u → is_input q ≡ true
        → content_of (places u q) ≡ content_of (places t q) }
{}

/// States that purging changes no input path in any intermediate state, if no line has the hazard `input`.
///
/// Each input path is absent as before, or has the same kind and the same content.
pub fn a_purge_leaves_what_lines_are_read_from()
    ensures { (lines : List LineValue) (t u : Files) (q : Path) → IsTree t → AllByRecursion IsLine lines
        → ((i : ℕ) → HasReason lines i reason.Input → ⊥) → Pruned (is_purged lines t) t u → is_input q ≡ true
        → content_of (places u q) ≡ content_of (places t q) }
{}

/// States that the paths that go in removing are those of the manual (tmpfiles.d(5), r, R and D).
///
/// A present path other than the root goes exactly if a line that is not refused takes it. `R` takes the path that it
/// names and everything below it. `D` takes everything below a directory that it names. `r` takes the path that it
/// names if that is not a directory, or if everything in it goes.
pub fn what_is_gone_is_as_the_manual_says()
    ensures { (lines : List LineValue) (t : Files) (q : Path) → IsTree t → is_gone lines t q ≡ is_gone_by (is_gone lines t) lines t q }
{}

/// States that no other set of paths is as the manual says.
///
/// The manual's rule is that of the law above, which says of each path whether it goes. If a set obeys this rule at
/// each present path, then the present paths in the set are exactly those that go.
pub fn only_what_is_gone_is_as_the_manual_says()
    ensures { (lines : List LineValue) (t : Files) (goes : Path → Bool) → IsTree t
        → ((q : Path) → is_some (places t q) ≡ true → goes q ≡ is_gone_by goes lines t q)
        → (q : Path) → is_some (places t q) ≡ true → goes q ≡ is_gone lines t q }
{}

/// States that a line governs each path that goes in removing.
pub fn what_is_removed_is_governed()
    ensures { (lines : List LineValue) (t : Files) (q : Path) → AllByRecursion IsLine lines → is_gone lines t q ≡ true
        → list_any (λ line. governs line q) lines ≡ true }
{}

/// States that a line governs each path that goes in purging.
pub fn what_is_purged_is_governed()
    ensures { (lines : List LineValue) (t : Files) (q : Path) → AllByRecursion IsLine lines → is_purged lines t q ≡ true
        → list_any (λ line. governs line q) lines ≡ true }
{}

/// States that a removal that leaves nothing unfinished leaves nothing that removing over another tree would take.
///
/// The premise is that removing over a first tree leaves nothing unfinished. Then each path that is present in the
/// first tree, and that removing over some other tree would take, goes in the first tree too.
pub fn what_a_whole_removal_leaves_no_removal_takes()
    ensures { (lines : List LineValue) (t u : Files) (q : Path) → IsTree t → AllByRecursion IsLine lines
        → is_unfinished lines t ≡ false → is_gone lines u q ≡ true → is_some (places t q) ≡ true → is_gone lines t q ≡ true }
{}

/// States that what removing leaves of a tree is a tree: the root is a directory, and so is the parent of each present
/// path.
///
/// The premise is that the time of the run is below 2^64 microseconds.
pub fn what_a_removal_leaves_is_a_tree()
    ensures { (lines : List LineValue) (now : ℕ) (t : Files) → now < 2 ^ 64 → IsTree t → IsTree (removed lines now t) }
{}
