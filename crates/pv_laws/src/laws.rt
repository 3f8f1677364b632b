//! Laws of what lines leave. Each function does nothing; its contract is the law.
//!
//! Most laws suppose that lines are such as `read_line` gives them, and that trees are well-formed: the contract of a
//! law says so. What a line leaves does not include timestamps, nor names that begin with `.#tf-` (staging names). The
//! same holds for "the same tree". A line is refused if one of its paths is refused, whether it has the modifier `-` or
//! not. In an intermediate state some lines are done, the next one has begun, and those after it have not.
ghost use Rattle.std.specs.Prelude.{◌≡◌, ℕ, Bool, List, [], ◌∷◌, take, length, Option, Some, true, false};
ghost use Rattle.std.specs.FinMap as fin;
ghost use Rattle.std.specs.List.{list_any, AllByRecursion};
ghost use Rattle.pv_path.specs.Paths.{Path, has_names, is_prefix, has_staging};
ghost use Rattle.pv_steps.specs.Trees.{Files, places, IsTree};
ghost use Rattle.pv_steps.specs.Same.{Same};
ghost use Rattle.pv_walk.specs.declared.object_state.ObjectState.{ObjectState as ObjectStateValue};
ghost use Rattle.pv_walk.specs.Nodes.{object_states_of};
ghost use Rattle.pv_walk.specs.Operations.{run};
ghost use Rattle.pv_walk.specs.Reasons as reasons;
ghost use Rattle.pv_lines.specs.declared.line.Line.{Line as LineValue};
ghost use Rattle.pv_lines.specs.Lines.{IsLine};
ghost use Rattle.pv_table.specs.Active.{active, are_distinct, in_create_order};
ghost use Rattle.pv_table.specs.Asked.{operations, operations_of};
ghost use Rattle.pv_table.specs.ActionTable.{action_of};
ghost use Rattle.pv_table.specs.Created.{by_line, created, created_messages, RefusesNoLine};
ghost use Rattle.pv_steps.specs.Doing.{after_each, one_is_refused};
ghost use Rattle.pv_table.specs.Pointwise.{ObjectStates, state};
ghost use Rattle.pv_table.specs.Reaching.{governs};
ghost use Rattle.pv_table.specs.Repeatable.{IsAt, IsRepeatable};
ghost use Rattle.pv_table.specs.Turns.{copied};
ghost use Rattle.pv_laws.specs.Between.{IsOnTheWay};
ghost use Rattle.pv_laws.specs.CarryingOut.{AreApart};
ghost use Rattle.pv_laws.specs.Copying.{PartwayOf, StoppedRuns};
ghost use Rattle.pv_laws.specs.Moments.{SameObjectStates, Agree};
ghost use Rattle.pv_laws.specs.Stopping.{CopiesNothing, IsPiece};
ghost use Rattle.pv_laws.specs.Swept.{LeavesNoStagingName};

/// States that a line leaves at a path what its operations there make of the object that was there.
///
/// So what it leaves depends on the object at this path alone. The premises are that the line copies nothing and is
/// not refused.
pub fn a_line_leaves_what_it_asks_for()
    ensures { (line : LineValue) (now : ℕ) (t : Files) (q : Path) → IsTree t → IsLine line → CopiesNothing line
        → (by_line now).is_refused line t ≡ false → has_staging q ≡ false
        → object_states_of (places ((by_line now).after line t)) q ≡ run (operations line q) (object_states_of (places t) q) }
{}

/// States that lines leave at a path what their operations there, one after the other, make of the object that was
/// there.
///
/// The premises are that no line copies and that none is refused.
pub fn lines_leave_what_they_ask_for()
    ensures { (lines : List LineValue) (now : ℕ) (t : Files) (q : Path) → IsTree t → AllByRecursion IsLine lines
        → AllByRecursion CopiesNothing lines → RefusesNoLine lines now t → has_staging q ≡ false
        → object_states_of (places (created lines now t)) q
        ≡ run (operations_of (in_create_order lines) q) (object_states_of (places t) q) }
{}

/// States that lines without hazards ask at each path for operations that are repeatable.
///
/// The definition is `IsRepeatable` of pv_walk, in `specs/Reasons.antt`. The other premise is that no two lines make
/// or copy an object at one path.
pub fn nothing_is_said_against_lines_without_reasons()
    ensures { (lines : List LineValue) (q : Path) → AllByRecursion IsLine lines → are_distinct lines ≡ true
        → IsRepeatable lines → has_names q ≡ true → reasons.IsRepeatable (operations_of (in_create_order lines) q) }
{}

/// States that doing all operations at a path gives the same from a piece (see below) as from the object that was there
/// at the start.
///
/// A piece is what the first few of the operations left at the path. It can also be nothing, while an object is being
/// replaced. The premises are that no line has a hazard, and that no two lines make or copy an object at one path.
pub fn a_piece_ends_as_the_start()
    ensures { (lines : List LineValue) (q : Path) (old new : Option ObjectStateValue) → AllByRecursion IsLine lines
        → are_distinct lines ≡ true → IsRepeatable lines → has_names q ≡ true → IsPiece (in_create_order lines) q old new
        → run (operations_of (in_create_order lines) q) new ≡ run (operations_of (in_create_order lines) q) old }
{}

/// States that in each intermediate state of a run there is a piece at each path.
///
/// A piece is what the first few of the operations left at the path. It can also be nothing, while an object is being
/// replaced. The premises are that no line copies, and that a complete run refuses no line.
pub fn what_is_on_the_way_is_a_piece()
    ensures { (lines : List LineValue) (now : ℕ) (t u : Files) (q : Path) → IsTree t → AllByRecursion IsLine lines
        → AllByRecursion CopiesNothing lines → RefusesNoLine lines now t → PartwayOf (in_create_order lines) now t u
        → has_staging q ≡ false
        → IsPiece (in_create_order lines) q (object_states_of (places t) q) (object_states_of (places u) q) }
{}

/// States that a complete run from a tree with a piece at each path leaves the same tree as a complete run from the
/// start. A piece is what the first few of the operations left at the path, or nothing, while an object is being
/// replaced.
///
/// The premises are:
/// - No line copies, and no line has a hazard.
/// - No two lines make or copy an object at one path.
/// - Neither complete run refuses a line.
///
/// The two runs may have different times.
pub fn a_run_from_pieces_recovers()
    ensures { (lines : List LineValue) (now later : ℕ) (t u : Files) → IsTree t → IsTree u
        → AllByRecursion IsLine lines → AllByRecursion CopiesNothing lines → are_distinct lines ≡ true
        → IsRepeatable lines → RefusesNoLine lines now t → RefusesNoLine lines later u
        → ((q : Path) → has_staging q ≡ false
        → IsPiece (in_create_order lines) q (object_states_of (places t) q) (object_states_of (places u) q))
        → Same (created lines later u) (created lines now t) }
{}

/// States that creating is crash-safe: the rerun of a stopped run leaves the same tree as one complete run.
///
/// The premises are:
/// - No line has a hazard.
/// - No two lines make or copy an object at one path. Active lines are such lines.
/// - Neither a complete run from the first tree nor the rerun refuses a line.
///
/// Lines may copy. The rerun may have another time.
pub fn a_run_cut_short_recovers()
    ensures { (lines : List LineValue) (now later : ℕ) (t u : Files) → IsTree t → IsTree u
        → AllByRecursion IsLine lines → are_distinct lines ≡ true → IsRepeatable lines → RefusesNoLine lines now t
        → RefusesNoLine lines later u → PartwayOf (in_create_order lines) now t u
        → Same (created lines later u) (created lines now t) }
{}

/// States that creating recovers after any number of stopped runs, each from the tree that the run before it left.
///
/// A further complete run leaves the same tree as one complete run from the first tree. The premises are:
/// - No line has a hazard.
/// - No two lines make or copy an object at one path.
/// - Complete runs from all these trees refuse no line.
///
/// Lines may copy. Each run may have its own time.
pub fn runs_cut_short_again_and_again_recover()
    ensures { (lines : List LineValue) (moments : List ℕ) (now later : ℕ) (t u : Files) → IsTree t → IsTree u
        → AllByRecursion IsLine lines → are_distinct lines ≡ true → IsRepeatable lines
        → StoppedRuns lines moments t u → RefusesNoLine lines later u
        → Same (created lines later u) (created lines now t) }
{}

/// States that two lines that are apart leave the same tree in either order.
///
/// The premises are:
/// - The two lines, alone in a table, have no hazard.
/// - Neither reaches a path that the other governs.
/// - Neither of them is refused, in either order.
///
/// Lines may copy. The two orders may have different times.
pub fn lines_that_are_apart_commute()
    ensures { (a b : LineValue) (now later : ℕ) (t : Files) → IsTree t → IsLine a → IsLine b
        → IsRepeatable (a ∷ b ∷ []) → AreApart a b → one_is_refused (by_line now) (a ∷ b ∷ []) t ≡ false
        → one_is_refused (by_line later) (b ∷ a ∷ []) t ≡ false
        → Same (after_each (by_line now) (a ∷ b ∷ []) t) (after_each (by_line later) (b ∷ a ∷ []) t) }
{}

/// States that whether a run refuses a line depends neither on its time nor on timestamps in the tree. Lines may
/// copy.
pub fn refusing_no_line_needs_no_moment()
    ensures { (lines : List LineValue) (now later : ℕ) (t u : Files) → SameObjectStates t u → RefusesNoLine lines now t
        → RefusesNoLine lines later u }
{}

/// States that the messages of a run depend neither on its time nor on timestamps in the tree (`new_messages`).
///
/// The same holds for the tree that it leaves, except for timestamps (`left`). Lines may copy.
pub fn messages_and_trees_need_no_moment()
    ensures new_messages { (lines : List LineValue) (now later : ℕ) (t u : Files) → SameObjectStates t u
        → created_messages lines now t ≡ created_messages lines later u }
    ensures left { (lines : List LineValue) (now later : ℕ) (t u : Files) → SameObjectStates t u
        → SameObjectStates (created lines now t) (created lines later u) }
{}

/// States that a path that no line governs stays as it is, whatever is refused.
///
/// This holds in a complete run (`whole`), and in each intermediate state (`stopped`). Lines may copy.
pub fn what_no_line_governs_stays()
    ensures whole { (lines : List LineValue) (now : ℕ) (t : Files) (q : Path) → IsTree t → AllByRecursion IsLine lines
        → has_staging q ≡ false → list_any (λ line. governs line q) lines ≡ false
        → object_states_of (places (created lines now t)) q ≡ object_states_of (places t) q }
    ensures stopped { (lines : List LineValue) (now : ℕ) (t u : Files) (q : Path) → IsTree t → AllByRecursion IsLine lines
        → has_staging q ≡ false → list_any (λ line. governs line q) lines ≡ false → PartwayOf (in_create_order lines) now t u
        → object_states_of (places u) q ≡ object_states_of (places t) q }
{}

/// States that a complete run leaves nothing at the staging names along the path of a line that makes or copies.
///
/// The premises are that the line was not refused, and that what it copies was there. It does not matter what earlier
/// runs left at these names.
pub fn a_run_leaves_no_staging_name()
    ensures { (lines : List LineValue) (now : ℕ) (t : Files) → AllByRecursion IsLine lines
        → LeavesNoStagingName lines now t (created lines now t) }
{}

/// States that the definition `state` of pv_table gives what lines leave. It computes the object at each path by the
/// operations at this path, without regard to refusals.
///
/// This holds after the first k lines, for each k (`some`), and after all lines (`all`). The premises are that no line
/// copies, and that none is refused.
pub fn each_path_by_itself_is_what_lines_leave()
    ensures some { (lines : List LineValue) (now k : ℕ) (s : ObjectStates) (t : Files) → IsTree t → AllByRecursion IsLine lines
        → AllByRecursion CopiesNothing lines → RefusesNoLine lines now t → Agree s t
        → Agree (state lines k s) (after_each (by_line now) (take k (in_create_order lines)) t) }
    ensures all { (lines : List LineValue) (now : ℕ) (s : ObjectStates) (t : Files) → IsTree t → AllByRecursion IsLine lines
        → AllByRecursion CopiesNothing lines → RefusesNoLine lines now t → Agree s t
        → Agree (state lines (length (in_create_order lines)) s) (created lines now t) }
{}

/// States that no two active lines make or copy an object at one path (`distinct`).
///
/// If the lines that were read have no hazard, the active lines have none (`repeatable`).
pub fn active_lines_are_distinct()
    ensures distinct { (boot : Bool) (prefix exclude : Option Path) (lines : List LineValue)
        → are_distinct (active boot prefix exclude lines) ≡ true }
    ensures repeatable { (boot : Bool) (prefix exclude : Option Path) (lines : List LineValue) → IsRepeatable lines
        → IsRepeatable (active boot prefix exclude lines) }
{}

/// States that in each intermediate state of a run all lines are done, or one line has begun and is not finished.
///
/// If one line has begun and is not finished, each path is in one of these cases:
/// - At the path is an object. Its kind and its owner are those of the object there before this line, or after it.
/// - Nothing is at the path, and nothing is there before this line, or nothing is there after it.
/// - Nothing is at the path, and the line replaces an object there or above.
///
/// The first premise is that a complete run refuses no line. The second is that no line copies (`plain`), or that no
/// line has a hazard (`copies`).
pub fn on_the_way_each_path_is_between_two_lines()
    ensures plain { (lines : List LineValue) (now : ℕ) (s : ObjectStates) (t u : Files) → IsTree t → AllByRecursion IsLine lines
        → AllByRecursion CopiesNothing lines → RefusesNoLine lines now t → Agree s t
        → PartwayOf (in_create_order lines) now t u → IsOnTheWay lines s u }
    ensures copies { (lines : List LineValue) (now : ℕ) (s : ObjectStates) (t u : Files) → IsTree t → AllByRecursion IsLine lines
        → IsRepeatable lines → RefusesNoLine lines now t → Agree s t
        → PartwayOf (in_create_order lines) now t u → IsOnTheWay lines s u }
{}

/// States that the definition `state` of pv_table gives what lines without hazards leave. It computes the object at
/// each path by the operations at this path. Lines may copy.
///
/// This holds after the first k lines, for each k (`some`), and after all lines (`all`). The premises are that no line
/// has a hazard, and that none is refused.
pub fn each_path_by_itself_is_what_lines_without_reasons_leave()
    ensures some { (lines : List LineValue) (now k : ℕ) (s : ObjectStates) (t : Files) → IsTree t → AllByRecursion IsLine lines
        → IsRepeatable lines → RefusesNoLine lines now t → Agree s t
        → Agree (state lines k s) (after_each (by_line now) (take k (in_create_order lines)) t) }
    ensures all { (lines : List LineValue) (now : ℕ) (s : ObjectStates) (t : Files) → IsTree t → AllByRecursion IsLine lines
        → IsRepeatable lines → RefusesNoLine lines now t → Agree s t
        → Agree (state lines (length (in_create_order lines)) s) (created lines now t) }
{}

/// States that the definition `state` of pv_table gives the same from the tree of a stopped run as from the first tree.
/// It computes the object at each path by the operations at this path.
///
/// The premises are:
/// - No line has a hazard.
/// - No two lines make or copy an object at one path.
/// - A complete run from the first tree refuses no line. What a rerun would refuse does not matter.
///
/// Lines may copy.
pub fn states_after_a_stop_end_as_from_the_start()
    ensures { (lines : List LineValue) (now : ℕ) (s r : ObjectStates) (t u : Files) (q : Path) → IsTree t → IsTree u
        → AllByRecursion IsLine lines → are_distinct lines ≡ true → IsRepeatable lines → RefusesNoLine lines now t
        → Agree s t → Agree r u → PartwayOf (in_create_order lines) now t u → has_staging q ≡ false
        → fin.get (state lines (length (in_create_order lines)) r) q
        ≡ fin.get (state lines (length (in_create_order lines)) s) q }
{}

/// States that a path that a line copies stays as it is, with everything below it, whatever is refused.
///
/// This holds in a complete run (`whole`), and in each intermediate state (`stopped`). The premise is that no line has
/// a hazard.
pub fn what_lines_copy_stays()
    ensures whole { (lines : List LineValue) (j : ℕ) (copier : LineValue) (source q : Path) (now : ℕ) (t : Files)
        → AllByRecursion IsLine lines → IsRepeatable lines → IsAt lines j copier → copied (action_of copier) ≡ Some source
        → is_prefix source q ≡ true → has_names q ≡ true → has_staging q ≡ false → IsTree t
        → object_states_of (places (created lines now t)) q ≡ object_states_of (places t) q }
    ensures stopped { (lines : List LineValue) (j : ℕ) (copier : LineValue) (source q : Path) (now : ℕ) (t u : Files)
        → AllByRecursion IsLine lines → IsRepeatable lines → IsAt lines j copier → copied (action_of copier) ≡ Some source
        → is_prefix source q ≡ true → has_names q ≡ true → has_staging q ≡ false → IsTree t
        → PartwayOf (in_create_order lines) now t u → object_states_of (places u) q ≡ object_states_of (places t) q }
{}
