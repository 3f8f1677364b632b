//! Purging: the removal of what lines with `$` name.
ghost use Rattle.std.specs.Prelude.{◌≡◌, ◌&&◌, ◌||◌, ◌++◌, map, is_some, IfOk, OnOk};
ghost use Rattle.std.specs.List.{AllByRecursion, list_any};
ghost use Rattle.pv_lines.specs.Lines.{IsLine};
ghost use Rattle.pv_path.specs.Paths.{Path};
ghost use Rattle.pv_steps.specs.Trees.{places, IsTree};
ghost use Rattle.pv_text.specs.GivenMessages.{message_text_at};
ghost use Rattle.pv_walk.specs.Removal.{is_one_of};
ghost use Rattle.pv_table.specs.Reaching.{path_in};
ghost use Rattle.pv_table.specs.Removed.{is_purge_unfinished, is_purged, purge_refusal, purge_texts, purged, purged_messages, purges};
ghost use Rattle.pv_remove.specs.Ended.{Recovers, TakesAway};
ghost use Rattle.pv_steps.specs.Acting.{steps_done};

use crate::covering::refusal;
use crate::plan::{Plan, apply_plan};
use pv_lines::Line;
use pv_path::TreePath;
use pv_steps::{Carried, Tree, TreeFault, Why, is_present};
use pv_table::{Table, path_of, say_refused};
use pv_text::Messages;
use pv_walk::whole_of;
use std::alloc::{AllocError, Global};

/// Removes the paths of lines with `$`, each with everything below it (systemd-tmpfiles(8), `--purge`).
///
/// A line that is refused at its path removes nothing. The root is never removed. All this is decided from the tree as
/// it is before the phase. Then the deepest paths are removed first, and those of one depth in byte order. A directory
/// that stays and lost a child gets new timestamps of change and modification.
///
/// - `table` has the active lines.
/// - `now` is the time of the run, in microseconds since 1970-01-01 UTC.
/// - `messages` gets a message for each refused line whose path is present, after the steps, in the order in which the
///   lines were read.
///
/// The answer is one of these:
///
/// - `Ok(Whole)`: no line with `$` and a present path is refused. Otherwise it is `Ok(NotCarriedOut)`.
/// - `Err(Failed)`: the tree refused a step, and none was done after it. No message was added.
/// - `Err(Memory)`: out of memory. A prefix of the messages was added, and a prefix of the steps may have been done.
///
/// A run may be stopped after any step. A complete run at any time then leaves the same tree as one complete run,
/// except for timestamps and staging names. There is no premise on the lines.
pub fn purge_run<T: Tree>(
    alloc: Global,
    tree: &mut T,
    table: &Table,
    now: u64,
    messages: &mut Messages,
) -> Result<Carried, TreeFault>
    // The tree that it leaves, timestamps included, its messages, its answer and its steps.
    ensures run { TakesAway T.Tree (is_purged table.now (T.state tree.old)) (purged_messages table.now (T.state tree.old))
        (is_purge_unfinished table.now (T.state tree.old)) now tree.old tree.new messages.old messages.new result }

    // Crash safety.
    ensures recovers { Recovers (purged table.now) now (T.state tree.old) (steps_done T.Tree tree.old tree.new) }
{
    let plan = purge_plan(alloc, tree, table)?;
    apply_plan(alloc, tree, plan, now, messages)
}

/// Plans the phase: which paths the lines with `$` remove, and the messages.
fn purge_plan<T: Tree>(alloc: Global, tree: &T, table: &Table) -> Result<Plan, AllocError>
    ensures gone { IfOk result (λ plan. (q : Path) → is_one_of plan.paths q ≡ is_purged table.now (T.state tree.now) q) }
    ensures new_messages { IfOk result (λ plan. plan.new_messages ≡ purged_messages table.now (T.state tree.now)) }
    ensures unfinished { IfOk result (λ plan. plan.unfinished ≡ is_purge_unfinished table.now (T.state tree.now)) }
    ensures tree { IsTree (T.state tree.now) }
{
    let lines = table.lines();
    let purged = purged_paths(alloc, tree, lines)?;
    let paths = whole_of(alloc, tree, purged)?;
    let mut new_messages = Messages::new(alloc);
    let unfinished = judge_purge(alloc, tree, lines, &mut new_messages)?;
    Ok(Plan {
        paths,
        new_messages,
        unfinished,
    })
}

/// Returns the present paths that some line purges, in no order.
fn purged_paths<T: Tree>(
    alloc: Global,
    tree: &T,
    lines: &[Line],
) -> Result<Vec<TreePath>, AllocError>
    requires lines { AllByRecursion IsLine lines.now }
    ensures { IfOk result (λ paths. (q : Path) → is_one_of paths.items q
        ≡ (is_some (places (T.state tree.now) q) && list_any (λ line. purges line (places (T.state tree.now)) q) lines.now)) }
{
    let mut purged = Vec::new(alloc);
    for line in lines {
        let mut more = paths_of(alloc, tree, line)?;
        purged.append(&mut more)?;
    }
    Ok(purged)
}

/// Returns the present paths that a line purges.
fn paths_of<T: Tree>(alloc: Global, tree: &T, line: &Line) -> Result<Vec<TreePath>, AllocError>
    requires line { IsLine line.now }
    ensures { IfOk result (λ paths. (q : Path) → is_one_of paths.items q
        ≡ (is_some (places (T.state tree.now) q) && purges line.now (places (T.state tree.now)) q)) }
{
    if !line.purge {
        return Ok(Vec::new(alloc));
    }
    let path = path_of(alloc, line)?;
    match refusal(alloc, tree, line, &path)? {
        Some(_) => Ok(Vec::new(alloc)),
        None => tree.at_and_below(alloc, &path),
    }
}

/// Adds the messages of refused lines in the order in which they were read, and returns whether a line is refused.
fn judge_purge<T: Tree>(
    alloc: Global,
    tree: &T,
    lines: &[Line],
    new_messages: &mut Messages,
) -> Result<bool, AllocError>
    requires lines { AllByRecursion IsLine lines.now }
    ensures new_messages { OnOk result (new_messages.new ≡ new_messages.old ++ purged_messages lines.now (T.state tree.now)) }
    ensures unfinished { IfOk result (λ unfinished. unfinished ≡ is_purge_unfinished lines.now (T.state tree.now)) }
{
    let mut unfinished = false;
    for line in lines {
        unfinished |= judge_purge_line(alloc, tree, line, new_messages)?;
    }
    Ok(unfinished)
}

/// Adds the message of one line if it is refused, and returns whether it is.
fn judge_purge_line<T: Tree>(
    alloc: Global,
    tree: &T,
    line: &Line,
    new_messages: &mut Messages,
) -> Result<bool, AllocError>
    requires line { IsLine line.now }
    ensures new_messages { OnOk result (new_messages.new ≡ new_messages.old ++ map (message_text_at line.now.place) (purge_texts line.now (places (T.state tree.now)))) }
    ensures unfinished { IfOk result (λ unfinished. unfinished ≡ is_some (purge_refusal line.now (places (T.state tree.now)))) }
{
    let path = path_of(alloc, line)?;
    match purge_refusal(alloc, tree, line, &path)? {
        Some((place, why)) => {
            say_refused(alloc, &line.place, &path, place, why, new_messages)?;
            Ok(true)
        }
        None => Ok(false),
    }
}

/// Returns the component at which a line with `$` is refused at its path, and why. The answer is `None` if the path is
/// absent.
fn purge_refusal<T: Tree>(
    alloc: Global,
    tree: &T,
    line: &Line,
    path: &TreePath,
) -> Result<Option<(u32, Why)>, AllocError>
    requires line { IsLine line.now }
    requires path { path.now ≡ path_in line.now.path }
    ensures { IfOk result (λ refusal. refusal ≡ purge_refusal line.now (places (T.state tree.now))) }
{
    if !line.purge || !is_present(tree, path) {
        return Ok(None);
    }
    refusal(alloc, tree, line, path)
}
