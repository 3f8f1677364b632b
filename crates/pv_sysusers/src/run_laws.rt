//! Laws of runs of systemd-sysusers. Each function does nothing, and its contract is the law.
ghost use Rattle.std.specs.Prelude.{◌≡◌, ◌≤◌, ℕ, false, List, length};
ghost use Rattle.std.specs.List.{AllByRecursion};
ghost use Rattle.pv_requests.specs.declared.request.Request.{Request as RequestValue};
ghost use Rattle.pv_path.specs.Paths.{Path, has_staging};
ghost use Rattle.pv_steps.specs.Same.{Same, object_states};
ghost use Rattle.pv_steps.specs.Trees.{Files, places};
ghost use Rattle.pv_walk.specs.Preparing.{with_parent};
ghost use Rattle.pv_layers.specs.Places.{etc};
ghost use Rattle.pv_sysusers.specs.Accounted.{HasPlainPath, accounted, accounts_messages, day_of, edits_at};

/// States that timestamps and staging names do not count: from two trees that differ only in them, complete runs on one
/// day leave the same.
///
/// "The same" leaves out timestamps and staging names. A run that was stopped before it changed anything else leaves a
/// tree that differs from its first tree only in these. The premises are that the paths of the lines have no staging
/// name, and that none is /etc.
pub fn stamps_and_staging_names_do_not_count()
    ensures { (requests : List RequestValue) (now later : ℕ) (t u : Files) → AllByRecursion HasPlainPath requests →
        day_of later ≡ day_of now → Same u t → Same (accounted requests later u) (accounted requests now t) }
{}

/// States that a run recovers if it was stopped after it made /etc and before it renamed a file into place.
///
/// The next complete run on the same day leaves what the stopped run would have left, except for timestamps and staging
/// names. The premises are that the run changes at least one text, that the paths of its lines have no staging name,
/// and that none is /etc.
pub fn a_run_stopped_after_putting_etc_recovers()
    ensures { (requests : List RequestValue) (now later : ℕ) (t u : Files) → AllByRecursion HasPlainPath requests →
        day_of later ≡ day_of now → 1 ≤ length (edits_at requests now (places t)) →
        ((q : Path) → has_staging q ≡ false → object_states (places u) q ≡ object_states (with_parent 0 (places t) etc) q) →
        Same (accounted requests later u) (accounted requests now t) }
{}

/// States that messages do not depend on timestamps and staging names: from two trees that differ only in them, runs on
/// one day give the same messages.
///
/// The premises are that the paths of the lines have no staging name, and that none is /etc.
pub fn what_is_said_does_not_depend_on_stamps()
    ensures { (requests : List RequestValue) (now later : ℕ) (t u : Files) → AllByRecursion HasPlainPath requests →
        day_of later ≡ day_of now → Same u t → accounts_messages requests later (places u) ≡ accounts_messages requests now (places t) }
{}
