//! A line carried out at a path.
ghost use Rattle.std.specs.Prelude.{◌≡◌, true, None, OnOk};
ghost use Rattle.pv_steps.specs.Courses.{CarriesOut};
ghost use Rattle.pv_steps.specs.Acting.{Acted};
ghost use Rattle.pv_steps.specs.Trees.{places};
ghost use Rattle.pv_table.specs.Saying.{found};
ghost use Rattle.pv_table.specs.Turns.{has_something, refused_at};
ghost use Rattle.pv_create.specs.Actions.{IsLineAt, IsReady};
ghost use Rattle.pv_create.specs.OnTheWay.{turn_course};
ghost use Rattle.pv_create.specs.Turning.{Readying, IsReadyStep, ready_work};

use crate::line_at::{LineAt, makes};
use crate::refusing::{has_something, refusal, say_refusal};
use crate::settling::settle;
use pv_steps::{Carried, Tree, TreeFault};
use pv_text::Messages;
use pv_walk::prepare;
use std::alloc::Global;

/// Carries out a line at a path (tmpfiles.d(5)).
///
/// - A line that is refused gives a message and does nothing else. The path that a copy reads is judged before its own.
/// - If there is nothing to copy, nothing is done.
/// - A line that makes or copies an object removes what earlier runs have staged along the path, and makes absent
///   parents.
/// - Then the new object or the copy is put in place of the old object. Otherwise the old object is adjusted or, if it
///   is of another kind, left with a message.
pub(crate) fn at_turn<T: Tree>(
    alloc: Global,
    tree: &mut T,
    at: &LineAt<'_>,
    messages: &mut Messages,
) -> Result<Carried, TreeFault>
    requires at { IsLineAt at.now (T.state tree.old) }
    ensures run { CarriesOut T.Tree (turn_course at.entry.now.now at.entry.now.line.now) at.entry.now.path.now at.entry.now.now tree.old tree.new
        messages.old messages.new result }
{
    if let Some(refused) = refusal(alloc, tree, at)? {
        say_refusal(alloc, &at.line.place, &refused, messages)?;
        return Ok(Carried::NotCarriedOut);
    }
    if !has_something(tree, at.action) {
        return Ok(Carried::Whole);
    }
    get_ready(alloc, tree, at)?;
    settle(alloc, tree, at, messages)?;
    Ok(Carried::Whole)
}

/// Makes a path ready for a line that is not refused. A line that makes or copies removes what earlier runs have staged
/// along the path, and makes absent parents.
fn get_ready<T: Tree>(alloc: Global, tree: &mut T, at: &LineAt<'_>) -> Result<(), TreeFault>
    requires at { IsLineAt at.now (T.state tree.old) }
    requires unrefused { refused_at at.now.line.now at.now.path.now (places (T.state tree.old)) ≡ None }
    requires something { has_something (places (T.state tree.old)) at.now.action.now ≡ true }
    ensures ok { OnOk result (T.state tree.new ≡ found at.entry.now.now at.entry.now.action.now at.entry.now.path.now (T.state tree.old)) }
    ensures ready { OnOk result (IsReady at.entry.now.action.now at.entry.now.path.now (T.state tree.new)) }
    ensures acted { Acted T.Tree (Readying at.entry.now.action.now at.entry.now.path.now (T.state tree.old))
        (IsReadyStep at.entry.now.action.now at.entry.now.path.now (T.state tree.old))
        (ready_work at.entry.now.action.now at.entry.now.path.now (T.state tree.old)) at.entry.now.now tree.old tree.new result }
{
    if makes(at.action) {
        prepare(alloc, tree, at.path, at.now)
    } else {
        Ok(())
    }
}
