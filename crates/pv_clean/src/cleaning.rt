//! The clean phase.
ghost use Rattle.std.specs.Prelude.{◌≡◌, length, OnOk};
ghost use Rattle.pv_steps.specs.Acting.{Acted, steps_done};
ghost use Rattle.pv_walk.specs.Edits.{Pruned};
ghost use Rattle.pv_walk.specs.PostOrder.{DoesInPostOrder};
ghost use Rattle.pv_table.specs.Cleaned.{cleaned, is_aged};
ghost use Rattle.pv_clean.specs.Cleaning.{clean_step, is_due, most_steps, IsCleanStep, IsCleanedInTurn, TakesOnly};

use crate::aging::all_judged;
use crate::steps::clean_steps;
use pv_steps::{Tree, TreeFault, try_all};
use pv_table::Table;
use std::alloc::Global;

/// Removes what is older than the age of its directory (tmpfiles.d(5), "Age", x and X; systemd-tmpfiles(8), `--clean`).
///
/// A path goes if these conditions hold: no line names it, its object is old by the age of its directory, and this age
/// does not spare it. An age with the prefix `~` spares what is directly in the directory for which a line gives it. A
/// directory goes only if everything in it goes. What is old is decided from the timestamps at the beginning of the
/// phase. The root is never removed.
///
/// A directory that stays and lost a child gets its access and modification times back after its children are done
/// (utimensat(2)). The steps are in post-order: the steps of the children of a directory are in byte order, each after
/// the steps of everything below it. The step of the directory comes last.
///
/// - `table` has the active lines.
/// - `now` is the time of the run, in microseconds since 1970-01-01 UTC.
///
/// The answer is one of these:
///
/// - `Ok(())`: the phase is complete. Cleaning refuses no line and gives no message.
/// - `Err(Failed)`: the tree refused a step, and none was done after it.
/// - `Err(Memory)`: out of memory.
///
/// After an error, each path that is gone was to be removed, and everything else is as it was, except for timestamps.
/// Cleaning is not crash-safe: a stopped run leaves new timestamps on a directory, and so a rerun may keep it.
///
/// For example, the line `d /tmp - - - 10d` gives the age of 10 days to everything in `/tmp`.
pub fn clean_run<T: Tree>(
    alloc: Global,
    tree: &mut T,
    table: &Table,
    now: u64,
) -> Result<(), TreeFault>
    // The tree that a complete run leaves, timestamps included.
    ensures ok { OnOk result (T.state tree.new ≡ cleaned table.now now (T.state tree.old)) }

    // A complete run has done one step for each path that goes, and one for each directory that stays and lost a child.
    ensures exact { OnOk result (length (steps_done T.Tree tree.old tree.new)
        ≡ most_steps (is_aged table.now now (T.state tree.old)) (T.state tree.old)) }

    // The steps of every run, whatever the answer.
    ensures acted { Acted T.Tree (Pruned (is_aged table.now now (T.state tree.old)) (T.state tree.old))
        (IsCleanStep (is_aged table.now now (T.state tree.old)) (T.state tree.old))
        (most_steps (is_aged table.now now (T.state tree.old)) (T.state tree.old)) now tree.old tree.new result }

    // The steps of every run are the first ones of this list: one step for each path that goes, and one for each
    // directory that stays and loses a child, in post-order.
    ensures order { DoesInPostOrder (is_due (is_aged table.now now (T.state tree.old)) (T.state tree.old))
        (clean_step (is_aged table.now now (T.state tree.old)) (T.state tree.old)) (T.steps tree.old) (T.steps tree.new) }

    // In each intermediate state, all directories with other timestamps lie on one path down from the root.
    ensures in_turn { IsCleanedInTurn now (T.state tree.old) (steps_done T.Tree tree.old tree.new) }

    // A stopped run has removed only what is aged.
    ensures stopped { TakesOnly (is_aged table.now now (T.state tree.old)) now (T.state tree.old)
        (steps_done T.Tree tree.old tree.new) }
{
    clean(alloc, tree, table, now)
}

/// Finds the steps of the clean phase and does them. The steps are in post-order: the steps of the children of a
/// directory are in byte order, each after the steps of everything below it.
fn clean<T: Tree>(alloc: Global, tree: &mut T, table: &Table, now: u64) -> Result<(), TreeFault>
    ensures ok { OnOk result (T.state tree.new ≡ cleaned table.now now (T.state tree.old)) }
    ensures exact { OnOk result (length (steps_done T.Tree tree.old tree.new)
        ≡ most_steps (is_aged table.now now (T.state tree.old)) (T.state tree.old)) }
    ensures acted { Acted T.Tree (Pruned (is_aged table.now now (T.state tree.old)) (T.state tree.old))
        (IsCleanStep (is_aged table.now now (T.state tree.old)) (T.state tree.old))
        (most_steps (is_aged table.now now (T.state tree.old)) (T.state tree.old)) now tree.old tree.new result }
    ensures order { DoesInPostOrder (is_due (is_aged table.now now (T.state tree.old)) (T.state tree.old))
        (clean_step (is_aged table.now now (T.state tree.old)) (T.state tree.old)) (T.steps tree.old) (T.steps tree.new) }
    ensures in_turn { IsCleanedInTurn now (T.state tree.old) (steps_done T.Tree tree.old tree.new) }
{
    let judged = all_judged(alloc, tree, table, now)?;
    let steps = clean_steps(alloc, tree, judged)?;
    try_all(tree, steps, now)
}
