//! What a line does at a path that is ready.
ghost use Rattle.std.specs.Prelude.{◌≡◌, ◌≤◌, ◌++◌, map, OnOk, OnErr};
ghost use Rattle.pv_text.specs.GivenMessages.{MessagesPart, message_text_at};
ghost use Rattle.pv_steps.specs.Acting.{asked};
ghost use Rattle.pv_steps.specs.Trees.{IsTree};
ghost use Rattle.pv_table.specs.declared.action.Action.{Action as ActionValue};
ghost use Rattle.pv_table.specs.Saying.{turn_texts};
ghost use Rattle.pv_table.specs.Turns.{View, decide, view_of};
ghost use Rattle.pv_create.specs.Deciding.{meant};
ghost use Rattle.pv_create.specs.Actions.{IsAction, IsReady};
ghost use Rattle.pv_create.specs.Turning.{Settles};

use crate::deciding::{Turn, decide};
use crate::line_at::{LineAt, adjustment_of};
use crate::object::adjust;
use crate::putting::put;
use crate::reached::adjust_reached;
use pv_path::TreePath;
use pv_steps::{Tree, TreeFault};
use pv_table::say_left;
use pv_text::{Messages, Place};
use std::alloc::{AllocError, Global};

/// Does what is decided at a path that is ready. An object that is left as it is gives a message.
pub(crate) fn settle<T: Tree>(
    alloc: Global,
    tree: &mut T,
    at: &LineAt<'_>,
    messages: &mut Messages,
) -> Result<(), TreeFault>
    requires action { IsAction at.now.path.now at.now.action.now }
    requires ready { IsReady at.now.action.now at.now.path.now (T.state tree.old) }
    ensures settles { let turn = decide at.entry.now.action.now (view_of (T.state tree.old)) at.entry.now.path.now in
        Settles T.Tree at.entry.now.now at.entry.now.action.now at.entry.now.path.now turn tree.old tree.new result }
    ensures new_messages { let turn = decide at.entry.now.action.now (view_of (T.state tree.old)) at.entry.now.path.now in
        OnOk result (messages.new ≡ messages.old ++ map (message_text_at at.entry.now.line.now.place) (turn_texts at.entry.now.path.now turn)) }
    // All messages are added before the first step.
    ensures told { let turn = decide at.entry.now.action.now (view_of (T.state tree.old)) at.entry.now.path.now in
        1 ≤ asked result (T.steps tree.old) (T.steps tree.new)
        → messages.new ≡ messages.old ++ map (message_text_at at.entry.now.line.now.place) (turn_texts at.entry.now.path.now turn) }
    ensures part { let turn = decide at.entry.now.action.now (view_of (T.state tree.old)) at.entry.now.path.now in
        MessagesPart (map (message_text_at at.entry.now.line.now.place) (turn_texts at.entry.now.path.now turn)) messages.old messages.new }
{
    let turn = decide(alloc, tree, at.action, at.path)?;
    say_turn(alloc, &at.line.place, at.path, turn, messages)?;
    apply(alloc, tree, at, turn)
}

/// Adds a message if the object at the path is left as it is.
fn say_turn(
    alloc: Global,
    place: &Place,
    path: &TreePath,
    turn: Turn,
    messages: &mut Messages,
) -> Result<(), AllocError>
    ensures ok { OnOk result ((action : ActionValue) (view : View) → messages.new
        ≡ messages.old ++ map (message_text_at place.now) (turn_texts path.now (meant action view turn))) }
    ensures err { OnErr result (messages.new ≡ messages.old) }
{
    match turn {
        Turn::Left(kind) => say_left(alloc, place, path, kind, messages),
        Turn::Nothing | Turn::Put | Turn::Become => Ok(()),
    }
}

/// Does what is decided. A line that only adjusts reaches below the path, whatever object is at the path itself.
fn apply<T: Tree>(alloc: Global, tree: &mut T, at: &LineAt<'_>, turn: Turn) -> Result<(), TreeFault>
    requires action { IsAction at.now.path.now at.now.action.now }
    requires ready { IsReady at.now.action.now at.now.path.now (T.state tree.old) }
    requires tree { IsTree (T.state tree.old) }
    requires turn { meant at.now.action.now (view_of (T.state tree.old)) turn
        ≡ decide at.now.action.now (view_of (T.state tree.old)) at.now.path.now }
    ensures { let done = meant at.entry.now.action.now (view_of (T.state tree.old)) turn in
        Settles T.Tree at.entry.now.now at.entry.now.action.now at.entry.now.path.now done tree.old tree.new result }
{
    if let Some(adjustment) = adjustment_of(at.action) {
        return adjust_reached(alloc, tree, adjustment, at.path, at.now);
    }
    match turn {
        Turn::Put => put(alloc, tree, at),
        Turn::Become => adjust(alloc, tree, at.path, at.action.sets(), at.now),
        Turn::Nothing | Turn::Left(_) => Ok(()),
    }
}
