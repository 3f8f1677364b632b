//! What a line that makes an object leaves at and below its path.
ghost use Rattle.std.specs.Prelude.{◌≡◌, true, Some, IfOk};
ghost use Rattle.std.specs.Option.{option_copied, option_map_or};
ghost use Rattle.pv_walk.specs.Nodes.{object_state_of};
ghost use Rattle.pv_walk.specs.Operations.{stays};
ghost use Rattle.pv_table.specs.Pointwise.{after_turn, parent_object_state};
ghost use Rattle.pv_table.specs.Turns.{Turn, making_turn};
ghost use Rattle.pv_walk.specs.Copying.{single};
ghost use Rattle.pv_walk.specs.Staging.{new_object};

use pv_path::Name;
use pv_table::{Making, OperationList};
use pv_walk::{Body, NewFile, NewKind, ObjectState, Test, new_object_state, run_operations, stays};
use std::alloc::{AllocError, Global};

/// Returns the directory that a line makes for an absent parent: it belongs to root and has the mode 0755.
pub(crate) fn parent_object_state(alloc: Global) -> Result<ObjectState, AllocError>
    ensures { IfOk result (λ object_state. object_state ≡ parent_object_state) }
{
    let parent = NewFile {
        what: NewKind::Directory,
        mode: 0o755,
        uid: 0,
        gid: 0,
    };
    new_object_state(alloc, &parent)
}

/// Returns what a line that makes an object leaves at or below its path. `rest` has the names below the line's path.
pub(crate) fn after_making(
    alloc: Global,
    making: &Making,
    old: Option<&ObjectState>,
    rest: &[Name],
    here: Option<ObjectState>,
) -> Result<Option<ObjectState>, AllocError>
    ensures { IfOk result (λ object_state. object_state ≡ after_turn (making_turn making.now (option_copied old.entry)) rest.now here) }
{
    let new = new_object_state(alloc, &making.new)?;
    match old {
        None => Ok(single(new, rest)),
        Some(old) => over(alloc, making, new, old, rest, here),
    }
}

/// Returns what a line that makes an object leaves at or below its path, where there is an object before it.
fn over(
    alloc: Global,
    making: &Making,
    new: ObjectState,
    old: &ObjectState,
    rest: &[Name],
    here: Option<ObjectState>,
) -> Result<Option<ObjectState>, AllocError>
    requires { new ≡ object_state_of (new_object making.now.new 0) }
    ensures { IfOk result (λ object_state. object_state ≡ after_turn (making_turn making.now (Some old.now)) rest.now here) }
{
    if !is_kept(making.renew, &new.body, &old.body) {
        Ok(single(new, rest))
    } else if new.body.kind == old.body.kind {
        adjusted(alloc, &making.sets, rest, here)
    } else {
        Ok(here)
    }
}

/// Returns one object at the path itself, and nothing below it.
fn single(object_state: ObjectState, rest: &[Name]) -> Option<ObjectState>
    ensures { result ≡ single object_state rest.now }
{
    match rest {
        [] => Some(object_state),
        [_, ..] => None,
    }
}

/// Returns the object at the line's path with what the line sets, and what is below it unchanged.
pub(crate) fn adjusted(
    alloc: Global,
    sets: &OperationList,
    rest: &[Name],
    here: Option<ObjectState>,
) -> Result<Option<ObjectState>, AllocError>
    ensures { IfOk result (λ object_state. object_state ≡ after_turn (Turn.Become sets.now) rest.now here) }
{
    match rest {
        [] => run_operations(alloc, sets.as_slice(), here),
        [_, ..] => Ok(here),
    }
}

/// Returns whether the old object stays where a line would make a new one.
fn is_kept(renew: Option<Test>, new: &Body, old: &Body) -> bool
    ensures { result ≡ option_map_or (λ test. stays test new.now old.now) renew true }
{
    match renew {
        None => true,
        Some(test) => stays(test, new, old),
    }
}
