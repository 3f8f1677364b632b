//! Laws of the intermediate states of creating (tmpfiles.d(5)). Each function does nothing, and its contract is the
//! law. The input paths are those that configuration lines are read from: the folders of tmpfiles.d(5) with all below
//! them, /etc/passwd and /etc/group.
ghost use Rattle.std.specs.Prelude.{◌≡◌, ◌⊎◌, ℕ, List, true, false};
ghost use Rattle.std.specs.List.{AllByRecursion};
ghost use Rattle.pv_walk.specs.Nodes.{object_states_of};
ghost use Rattle.pv_steps.specs.Courses.{Partway, IsStepOfSome};
ghost use Rattle.pv_lines.specs.declared.line.Line.{Line as LineValue};
ghost use Rattle.pv_lines.specs.Lines.{IsLine};
ghost use Rattle.pv_path.specs.Paths.{Path, has_staging};
ghost use Rattle.pv_steps.specs.declared.step.Step.{Step as StepValue};
ghost use Rattle.pv_steps.specs.Content.{content_of};
ghost use Rattle.pv_steps.specs.Runs.{after_all};
ghost use Rattle.pv_steps.specs.Trees.{Files, places, IsTree};
ghost use Rattle.pv_create.specs.OnTheWay.{OnWay, turn_at, puts_parents, lines_course};
ghost use Rattle.pv_table.specs.ActionTable.{action_of};
ghost use Rattle.pv_table.specs.Effects.{turn_after};
ghost use Rattle.pv_table.specs.Saying.{found};
ghost use Rattle.pv_table.specs.Turns.{Turn};
ghost use Rattle.pv_walk.specs.Copying.{Subtree};
ghost use Rattle.pv_walk.specs.Replacing.{AreDirectories, CanReplace};
ghost use Rattle.pv_table.specs.declared.reason.Reason.TheVariants as reason;
ghost use Rattle.pv_table.specs.Active.{in_create_order};
ghost use Rattle.pv_layers.specs.Places.{is_input};
ghost use Rattle.pv_table.specs.Repeatable.{HasReason};

/// States that creating changes no input path in any intermediate state, if no line has the hazard `input`.
///
/// Each input path is absent as before, or has the same kind and the same content. This holds whatever lines are
/// refused. Input paths with a staging name in them are left out.
pub fn a_run_leaves_what_lines_are_read_from()
    ensures { (lines : List LineValue) (now : ℕ) (t u : Files) (q : Path) → IsTree t → IsTree u
        → AllByRecursion IsLine lines → ((i : ℕ) → HasReason lines i reason.Input → ⊥)
        → Partway (lines_course now) (in_create_order lines) t u → is_input q ≡ true → has_staging q ≡ false
        → content_of (places u q) ≡ content_of (places t q) }
{}

/// States that creating changes no input path, with a staging name in it or without, if no line has the hazard `input`.
///
/// A further premise, beside those of the law above, is that the intermediate state is reached by steps of the lines.
pub fn the_steps_of_a_run_leave_what_lines_are_read_from()
    ensures { (lines : List LineValue) (now : ℕ) (t : Files) (steps : List StepValue) (q : Path) → IsTree t → IsTree (after_all t steps now)
        → AllByRecursion IsLine lines → ((i : ℕ) → HasReason lines i reason.Input → ⊥)
        → Partway (lines_course now) (in_create_order lines) t (after_all t steps now)
        → AllByRecursion (IsStepOfSome (lines_course now) (in_create_order lines) t) steps → is_input q ≡ true
        → content_of (places (after_all t steps now) q) ≡ content_of (places t q) }
{}

/// States that a link or a file that another link or file replaces is never absent (rename(2)).
///
/// The premise is that a single Rename can replace the object at the path by what the line makes or copies. Then in
/// each intermediate state of the line, the path has the object from before or the one that the line leaves. Timestamps
/// are left out, and the path has no staging name.
pub fn what_one_rename_can_replace_is_never_absent()
    ensures { (now : ℕ) (line : LineValue) (path : Path) (t u : Files) (subtree : Subtree) → IsTree t → has_staging path ≡ false
        → puts_parents (places t) (action_of line) ≡ true → turn_at now line path t ≡ Turn.Put subtree
        → CanReplace path subtree (found now (action_of line) path t) → OnWay now line path t u
        → (object_states_of (places u) path ≡ object_states_of (places t) path)
        ⊎ (object_states_of (places u) path ≡ object_states_of (places (turn_after now line path t)) path) }
{}

/// States that a directory that another directory replaces is never absent, whatever is in the old one.
///
/// The premise is that a line makes or copies a directory to a path where a directory is. Then in each intermediate
/// state of the line, the path has the directory from before or the one that the line leaves. Timestamps are left out,
/// and the path has no staging name.
pub fn a_directory_that_a_directory_replaces_is_never_absent()
    ensures { (now : ℕ) (line : LineValue) (path : Path) (t u : Files) (subtree : Subtree) → IsTree t → has_staging path ≡ false
        → puts_parents (places t) (action_of line) ≡ true → turn_at now line path t ≡ Turn.Put subtree
        → AreDirectories path subtree (found now (action_of line) path t) → OnWay now line path t u
        → (object_states_of (places u) path ≡ object_states_of (places t) path)
        ⊎ (object_states_of (places u) path ≡ object_states_of (places (turn_after now line path t)) path) }
{}
