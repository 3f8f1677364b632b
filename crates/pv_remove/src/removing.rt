//! The remove phase.
ghost use Rattle.std.specs.Prelude.{◌≡◌, IfOk};
ghost use Rattle.pv_path.specs.Paths.{Path};
ghost use Rattle.pv_steps.specs.Trees.{IsTree};
ghost use Rattle.pv_walk.specs.Removal.{is_one_of};
ghost use Rattle.pv_table.specs.Removed.{is_gone, is_unfinished, removed, removed_messages};
ghost use Rattle.pv_remove.specs.Ended.{Recovers, TakesAway};
ghost use Rattle.pv_steps.specs.Acting.{steps_done};

use crate::covering::covered_paths;
use crate::judging::judge;
use crate::plan::{Plan, apply_plan};
use pv_steps::{Carried, Tree, TreeFault};
use pv_table::Table;
use pv_text::Messages;
use pv_walk::whole_of;
use std::alloc::{AllocError, Global};

/// Removes what the lines r, R and D of a table name (tmpfiles.d(5), systemd-tmpfiles(8), `--remove`).
///
/// `R` removes each path that it names, with everything below it. `D` removes everything below a directory that it
/// names. `r` removes each path that it names, but a directory only if everything in it is removed too. A line that is
/// refused at a path removes nothing there. The root is never removed.
///
/// All this is decided from the tree as it is before the phase. Then the deepest paths are removed first, and those of
/// one depth in byte order. A directory that stays and lost a child gets new timestamps of change and modification.
///
/// - `table` has the active lines.
/// - `now` is the time of the run, in microseconds since 1970-01-01 UTC.
/// - `messages` gets the messages of the phase after its steps, in the order in which the lines were read. They say at
///   which paths a line is refused, and what is kept.
///
/// The answer is one of these:
///
/// - `Ok(Whole)`: nothing is left unfinished. `Ok(NotCarriedOut)`: a line is refused at a path, or `r` leaves a
///   directory that is not empty.
/// - `Err(Failed)`: the tree refused a step, and none was done after it. No message was added.
/// - `Err(Memory)`: out of memory. A prefix of the messages was added, and a prefix of the steps may have been done.
///
/// A run may be stopped after any step. A complete run at any time then leaves the same tree as one complete run,
/// except for timestamps and staging names. There is no premise on the lines.
///
/// For example, the line `R /run/app` removes `/run/app` with everything below it.
pub fn remove_run<T: Tree>(
    alloc: Global,
    tree: &mut T,
    table: &Table,
    now: u64,
    messages: &mut Messages,
) -> Result<Carried, TreeFault>
    // The tree that it leaves, timestamps included, its messages, its answer and its steps.
    ensures run { TakesAway T.Tree (is_gone table.now (T.state tree.old)) (removed_messages table.now (T.state tree.old))
        (is_unfinished table.now (T.state tree.old)) now tree.old tree.new messages.old messages.new result }

    // Crash safety.
    ensures recovers { Recovers (removed table.now) now (T.state tree.old) (steps_done T.Tree tree.old tree.new) }
{
    let plan = removal_plan(alloc, tree, table)?;
    apply_plan(alloc, tree, plan, now, messages)
}

/// Plans the phase: which paths the lines r, R and D remove, and the messages.
fn removal_plan<T: Tree>(alloc: Global, tree: &T, table: &Table) -> Result<Plan, AllocError>
    ensures gone { IfOk result (λ plan. (q : Path) → is_one_of plan.paths q ≡ is_gone table.now (T.state tree.now) q) }
    ensures new_messages { IfOk result (λ plan. plan.new_messages ≡ removed_messages table.now (T.state tree.now)) }
    ensures unfinished { IfOk result (λ plan. plan.unfinished ≡ is_unfinished table.now (T.state tree.now)) }
    ensures tree { IsTree (T.state tree.now) }
{
    let lines = table.lines();
    let covered = covered_paths(alloc, tree, lines)?;
    let paths = whole_of(alloc, tree, covered)?;
    let mut new_messages = Messages::new(alloc);
    let unfinished = judge(alloc, tree, lines, &paths, &mut new_messages)?;
    Ok(Plan {
        paths,
        new_messages,
        unfinished,
    })
}
