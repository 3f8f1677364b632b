//! Whether a line is refused at a path, and at which component.
ghost use Rattle.std.specs.Prelude.{◌≡◌, ◌<◌, ◌^◌, false, ◌++◌, ◌∷◌, [], length, option_map, unwrap_or, IfOk, IfSome, OnOk, OnErr};
ghost use Rattle.pv_steps.specs.Trees.{places, IsTree};
ghost use Rattle.pv_text.specs.GivenMessages.{message_text_at};
ghost use Rattle.pv_table.specs.ActionTable.{action_of};
ghost use Rattle.pv_table.specs.Saying.{refused_text};
ghost use Rattle.pv_table.specs.Turns.{copied, has_something, named_refusal, owner_made, refused_at, source_owner};
ghost use Rattle.pv_create.specs.Refusing.{source_refused, refused_as};

use crate::line_at::{LineAt, copied};
use pv_path::TreePath;
use pv_steps::{Tree, Why, is_present};
use pv_table::{Action, say_refused, say_source_refused};
use pv_text::{Messages, Place};
use pv_walk::{refusal_of, unsafe_component};
use std::alloc::{AllocError, Global};

/// A component at which a path is not safe to walk, and why. Components are counted from 0 for the root.
#[derive(Clone, Copy)]
pub(crate) enum Refused<'a> {
    /// It is on the path that the line copies.
    Source(&'a TreePath, u32, Why),
    /// It is on the path at which the line is carried out.
    Named(&'a TreePath, u32, Why),
}

/// Returns why a line is refused at a path, or `None` if it is not refused.
///
/// What the line copies is judged first. The path itself is judged only if there is something to do.
pub(crate) fn refusal<'a, T: Tree>(
    alloc: Global,
    tree: &T,
    at: &LineAt<'a>,
) -> Result<Option<Refused<'a>>, AllocError>
    requires asked { action_of at.now.line.now ≡ at.now.action.now }
    requires few { length at.now.path.now < 2 ^ 32 }
    requires source { IfSome (copied at.now.action.now) (λ source. length source < 2 ^ 32) }
    ensures { IfOk result (λ refused. option_map refused_as refused
        ≡ refused_at at.entry.now.line.now at.entry.now.path.now (places (T.state tree.now))) }
{
    if let Some(refused) = source_refused(alloc, tree, at.action)? {
        return Ok(Some(refused));
    }
    if !has_something(tree, at.action) {
        return Ok(None);
    }
    named_refusal(alloc, tree, at)
}

/// Returns the first unsafe component above what a line copies, or `None`.
fn source_refused<'a, T: Tree>(
    alloc: Global,
    tree: &T,
    action: &'a Action,
) -> Result<Option<Refused<'a>>, AllocError>
    requires { IfSome (copied action.now) (λ source. length source < 2 ^ 32) }
    ensures { IfOk result (λ refused. option_map refused_as refused
        ≡ source_refused action.now (places (T.state tree.now))) }
{
    match copied(action) {
        None => Ok(None),
        Some(source) => match unsafe_component(alloc, tree, source)? {
            Some((count, why)) => Ok(Some(Refused::Source(source, count, why))),
            None => Ok(None),
        },
    }
}

/// Returns whether there is something to do. A copy of an absent path does nothing.
pub(crate) fn has_something<T: Tree>(tree: &T, action: &Action) -> bool
    ensures something { result ≡ has_something (places (T.state tree.now)) action.now }
    ensures tree { result ≡ false → IsTree (T.state tree.now) }
{
    match copied(action) {
        None => true,
        Some(source) => is_present(tree, source),
    }
}

/// Returns the component of the path itself at which a line is refused, or `None`.
fn named_refusal<'a, T: Tree>(
    alloc: Global,
    tree: &T,
    at: &LineAt<'a>,
) -> Result<Option<Refused<'a>>, AllocError>
    requires asked { action_of at.now.line.now ≡ at.now.action.now }
    requires few { length at.now.path.now < 2 ^ 32 }
    ensures { IfOk result (λ refused. option_map refused_as refused
        ≡ named_refusal at.entry.now.line.now at.entry.now.path.now (places (T.state tree.now))) }
{
    match refusal_of(alloc, tree, at.path, owner_made(tree, at))? {
        Some((count, why)) => Ok(Some(Refused::Named(at.path, count, why))),
        None => Ok(None),
    }
}

/// Returns the owner that an absent last component counts as: the line's user, otherwise the owner of what is copied,
/// otherwise root.
fn owner_made<T: Tree>(tree: &T, at: &LineAt<'_>) -> u32
    requires { action_of at.now.line.now ≡ at.now.action.now }
    ensures { result ≡ owner_made at.entry.now.line.now (places (T.state tree.now)) }
{
    match at.line.user {
        Some(user) => user.id,
        None => source_owner(tree, at.action),
    }
}

/// Returns the owner of what a line copies, or root if it copies nothing.
fn source_owner<T: Tree>(tree: &T, action: &Action) -> u32
    ensures { result ≡ unwrap_or (source_owner (places (T.state tree.now)) action.now) 0 }
{
    match copied(action) {
        None => 0,
        Some(source) => owner_at(tree, source),
    }
}

/// Returns the owner of the object at a path, or root if it is absent.
fn owner_at<T: Tree>(tree: &T, path: &TreePath) -> u32
    ensures { result ≡ unwrap_or (option_map (λ o. o.node.uid) (places (T.state tree.now) path.now)) 0 }
{
    match tree.look(path) {
        Some(node) => node.uid,
        None => 0,
    }
}

/// Adds the message that a line is refused, with the component and the cause.
pub(crate) fn say_refusal(
    alloc: Global,
    place: &Place,
    refused: &Refused<'_>,
    messages: &mut Messages,
) -> Result<(), AllocError>
    ensures ok { OnOk result (messages.new
        ≡ messages.old ++ message_text_at place.now (refused_text (refused_as refused.now)) ∷ []) }
    ensures err { OnErr result (messages.new ≡ messages.old) }
{
    match refused {
        Refused::Source(path, count, why) => {
            say_source_refused(alloc, place, path, *count, *why, messages)
        }
        Refused::Named(path, count, why) => say_refused(alloc, place, path, *count, *why, messages),
    }
}
