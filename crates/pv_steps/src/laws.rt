//! Laws of steps, runs and directories. Each function does nothing, and its contract is the law.
//!
//! A run in these laws is a list of steps done one after the other, all at one time `now`. The premise `Along` of a law
//! says that each step of the run is possible and effective when it is done.
ghost use Rattle.std.specs.Prelude.{◌≡◌, ℕ, ◌^◌, ◌<◌, Bool, true, false, List, [], ◌∷◌, ◌++◌, take, is_some, ⊤};
ghost use Rattle.std.specs.List.{AllByRecursion, list_any};
ghost use Rattle.std.specs.List.Sorted.{IsStrictlySortedBy};
ghost use Rattle.std.specs.Ordering.{eq_by_cmp, nat_cmp};
ghost use Rattle.std.specs.Cmp.Lexicographic.{slice_cmp};
ghost use Rattle.pv_path.specs.Paths.{Path};
ghost use Rattle.pv_steps.specs.declared.step.Step.{Step as StepValue};
ghost use Rattle.pv_steps.specs.Trees.{Files, places, names_below, IsTree};
ghost use Rattle.pv_steps.specs.Steps.{Can, StepFits, after, after_at};
ghost use Rattle.pv_steps.specs.Runs.{after_all, Along};
ghost use Rattle.pv_steps.specs.Content.{content_of, alters, AreOutside};

/// States that a step leaves at each path the object that `after_at` gives for this path.
pub fn a_step_leaves_what_it_says()
    ensures { (files : Files) (step : StepValue) (now : ℕ) →
        places (after files step now) ≡ after_at (places files) step now }
{}

/// States that a possible step leads from a tree to a tree: the root is a directory, and each other path lies in a
/// directory.
///
/// Two more premises are that the parts of the step are in range, as their types say (`StepFits`), and that `now` is
/// below 2^64.
pub fn a_step_leaves_a_tree()
    ensures { (files : Files) (step : StepValue) (now : ℕ) → IsTree files → Can (places files) step
        → StepFits step → now < 2 ^ 64 → IsTree (after files step now) }
{}

/// States that a run that begins at a tree has only trees as intermediate states. A premise is that `now` is below
/// 2^64.
pub fn a_run_passes_trees()
    ensures { (files : Files) (steps : List StepValue) (now : ℕ) → now < 2 ^ 64 → IsTree files
        → Along (λ _. ⊤) files steps now → Along IsTree files steps now }
{}

/// States that, if all intermediate states of a run are trees, then each prefix of its steps leaves a tree.
pub fn a_run_passes_trees_on_the_way()
    ensures { (files : Files) (steps : List StepValue) (now k : ℕ) → Along IsTree files steps now
        → IsTree (after_all files (take k steps) now) }
{}

/// States that, if no step of a run alters a path, then presence, kind and payload at this path are as before the
/// run.
pub fn a_run_leaves_what_it_does_not_alter()
    ensures { (files : Files) (steps : List StepValue) (now : ℕ) (path : Path)
        → AllByRecursion (λ step. alters step path ≡ false) steps
        → content_of (places (after_all files steps now) path) ≡ content_of (places files path) }
{}

/// States that a run outside of some paths leaves presence, kind and payload at each of these paths as they were.
///
/// A run is outside of them if it makes, writes, moves and removes only objects at other paths, and moves only
/// objects that have nothing below them. It may make a directory above such a path.
pub fn a_run_outside_leaves_contents()
    ensures { (inside : Path → Bool) (files : Files) (steps : List StepValue) (now : ℕ)
        → Along IsTree files steps now → AreOutside inside files steps now → (path : Path) → inside path ≡ true
        → content_of (places (after_all files steps now) path) ≡ content_of (places files path) }
{}

/// States that the list of the names in a directory is sorted by bytes and has each name once.
pub fn names_rise_strictly()
    ensures { (files : Files) (path : Path) → IsStrictlySortedBy (slice_cmp nat_cmp) (names_below files path) }
{}

/// States that a name is in the list of a directory exactly if there is an object at the path of the directory with
/// this name appended.
pub fn names_are_of_what_stands_there()
    ensures { (files : Files) (path : Path) (name : List ℕ) →
        list_any (eq_by_cmp (slice_cmp nat_cmp) name) (names_below files path) ≡ is_some (places files (path ++ name ∷ [])) }
{}

/// States that two trees have the same list of names at a path if the same children of this path are present in
/// both.
pub fn presence_decides_names()
    ensures { (t u : Files) (path : Path)
        → ((name : List ℕ) → is_some (places t (path ++ name ∷ [])) ≡ is_some (places u (path ++ name ∷ [])))
        → names_below t path ≡ names_below u path }
{}
