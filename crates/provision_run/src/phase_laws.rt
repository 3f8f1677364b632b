//! Laws of the intermediate states of phases. Each function does nothing, and its contract is the law. The input paths
//! are those that configuration lines are read from: the folders of tmpfiles.d(5) with all below them, /etc/passwd and
//! /etc/group.
ghost use Rattle.std.specs.Prelude.{◌≡◌, ◌⊎◌, ℕ, ◌<◌, ◌^◌, List, true, false};
ghost use Rattle.std.specs.List.{AllByRecursion, list_any};
ghost use Rattle.pv_steps.specs.Courses.{IsStepOfSome, Partway};
ghost use Rattle.pv_walk.specs.Edits.{Pruned};
ghost use Rattle.pv_walk.specs.Nodes.{object_states_of};
ghost use Rattle.pv_laws.specs.Between.{IsOnTheWay};
ghost use Rattle.pv_laws.specs.Moments.{Agree};
ghost use Rattle.pv_laws.specs.Stopping.{CopiesNothing};
ghost use Rattle.pv_layers.specs.Places.{is_input};
ghost use Rattle.pv_lines.specs.declared.line.Line.{Line as LineValue};
ghost use Rattle.pv_lines.specs.Lines.{IsLine};
ghost use Rattle.pv_path.specs.Paths.{Path, has_staging};
ghost use Rattle.pv_steps.specs.declared.step.Step.{Step as StepValue};
ghost use Rattle.pv_steps.specs.Content.{content_of};
ghost use Rattle.pv_steps.specs.Runs.{after_all};
ghost use Rattle.pv_steps.specs.Same.{Same};
ghost use Rattle.pv_steps.specs.Trees.{Files, places, IsTree};
ghost use Rattle.pv_table.specs.declared.reason.Reason.TheVariants as reason;
ghost use Rattle.pv_table.specs.Active.{are_distinct};
ghost use Rattle.pv_table.specs.Created.{RefusesNoLine};
ghost use Rattle.pv_table.specs.Pointwise.{ObjectStates};
ghost use Rattle.pv_table.specs.Reaching.{governs};
ghost use Rattle.pv_table.specs.Removed.{is_gone, is_unfinished, removed};
ghost use Rattle.pv_table.specs.Repeatable.{HasReason, IsRepeatable};
ghost use Rattle.provision_run.specs.Booted.{booted};
ghost use Rattle.provision_run.specs.BootedAgain.{StoppedBoots};
ghost use Rattle.provision_run.specs.Phases.{boot_phases, phases_course};
ghost use Rattle.provision_run.specs.declared.phase.Phase.{Phase as PhaseValue};

/// States that in each intermediate state of phases, a path that no line governs is as it was, whatever is refused.
///
/// Timestamps are left out, and so are paths with a staging name.
pub fn what_no_line_governs_stays()
    ensures { (lines : List LineValue) (now : ℕ) (phases : List PhaseValue) (t u : Files) (q : Path) → IsTree t
        → AllByRecursion IsLine lines → Partway (phases_course lines now) phases t u → has_staging q ≡ false
        → list_any (λ line. governs line q) lines ≡ false → object_states_of (places u) q ≡ object_states_of (places t) q }
{}

/// States that the boot command is crash-safe: over any intermediate state, a complete run leaves the same tree as from
/// the start.
///
/// "The same" leaves out timestamps and staging names. The runs may be at any times. The premises are these:
///
/// - No line has a hazard, and none copies. No two lines make or copy an object at one path, which holds for active
///   lines.
/// - Removing from the first tree leaves nothing unfinished.
/// - After removing, creating refuses no line in either of the two complete runs.
pub fn a_boot_cut_short_recovers()
    ensures { (lines : List LineValue) (now later : ℕ) (t u : Files) → IsTree t → IsTree u → AllByRecursion IsLine lines
        → AllByRecursion CopiesNothing lines → are_distinct lines ≡ true → IsRepeatable lines
        → is_unfinished lines t ≡ false → RefusesNoLine lines now (removed lines now t) → RefusesNoLine lines later (removed lines later u)
        → Partway (phases_course lines now) boot_phases t u → Same (booted lines later u) (booted lines now t) }
{}

/// States that the boot command is crash-safe after any number of runs that were cut short, each over the tree that the
/// run before it left. The premises on the lines are those of the law above.
///
/// Removing from the first of these trees must leave nothing unfinished. From each of them, creating over what removing
/// leaves must refuse no line.
pub fn boots_cut_short_again_and_again_recover()
    ensures { (lines : List LineValue) (moments : List ℕ) (now later : ℕ) (t u : Files) → IsTree t → IsTree u
        → AllByRecursion IsLine lines → AllByRecursion CopiesNothing lines → are_distinct lines ≡ true → IsRepeatable lines
        → is_unfinished lines t ≡ false → StoppedBoots lines moments t u → RefusesNoLine lines later (removed lines later u)
        → Same (booted lines later u) (booted lines now t) }
{}

/// States that an intermediate state of the boot command is of one of two kinds.
///
/// - Some of what is removed is gone, and nothing else has changed except timestamps.
/// - Over the tree that removing leaves, all lines of creating are done, or some lines are done and the next one has
///   begun. In the second case, each path is between what the finished lines leave and what the next one leaves
///   (`IsBetween` of pv_laws). The premises of this are that no line has a hazard, and that creating refuses none.
pub fn a_boot_on_its_way_removes_or_is_between_two_lines()
    ensures { (lines : List LineValue) (now : ℕ) (t u : Files) → now < 2 ^ 64 → IsTree t → AllByRecursion IsLine lines
        → Partway (phases_course lines now) boot_phases t u
        → Pruned (is_gone lines t) t u
        ⊎ ((s : ObjectStates) → IsRepeatable lines → RefusesNoLine lines now (removed lines now t) → Agree s (removed lines now t)
        → IsOnTheWay lines s u) }
{}

/// States that the boot command changes no input path in any intermediate state, if no line has the hazard `input`.
///
/// Each input path is absent as before, or has the same kind and the same content. Paths with a staging name are
/// included.
pub fn a_boot_leaves_what_lines_are_read_from()
    ensures { (lines : List LineValue) (now : ℕ) (t : Files) (steps : List StepValue) (q : Path) → now < 2 ^ 64 → IsTree t
        → IsTree (after_all t steps now) → AllByRecursion IsLine lines → ((i : ℕ) → HasReason lines i reason.Input → ⊥)
        → Partway (phases_course lines now) boot_phases t (after_all t steps now)
        → AllByRecursion (IsStepOfSome (phases_course lines now) boot_phases t) steps → is_input q ≡ true
        → content_of (places (after_all t steps now) q) ≡ content_of (places t q) }
{}
