//! What a line that copies leaves at and below its path.
ghost use Rattle.std.specs.Prelude.{◌≡◌, ◌&&◌, true, Some, IfOk, if◌then◌else◌};
ghost use Rattle.std.specs.FinMap as fin;
ghost use Rattle.pv_walk.specs.Nodes.{same_kind};
ghost use Rattle.pv_path.specs.Paths.{has_names, has_staging};
ghost use Rattle.pv_steps.specs.Objects.{is_directory};
ghost use Rattle.pv_table.specs.declared.action.Action.TheVariants.{Copy};
ghost use Rattle.pv_table.specs.Pointwise.{after_turn, view};
ghost use Rattle.pv_table.specs.Turns.{copy_of, decide, is_childless, topped_by};

use crate::line_turn::LineTurn;
use crate::made::adjusted;
use crate::standing::Standing;
use pv_path::{Name, is_staging};
use pv_steps::Kind;
use pv_table::Copying;
use pv_walk::{ObjectState, topped};
use std::alloc::{AllocError, Global};

/// Returns what a line that copies leaves at or below its path. `rest` has the names below the line's path.
pub(crate) fn after_copying(
    alloc: Global,
    copying: &Copying,
    turn: &LineTurn<'_>,
    rest: &[Name],
    here: Option<ObjectState>,
) -> Result<Option<ObjectState>, AllocError>
    requires childless { turn.now.childless ≡ is_childless (view turn.now.before.now) turn.now.path.now }
    requires names { has_names rest.now ≡ true }
    ensures { IfOk result (λ object_state. object_state
        ≡ after_turn (decide (Copy copying.now) (view turn.now.before.now) turn.now.path.now) rest.now here) }
{
    let Some(source) = turn.before.get(&copying.source) else {
        return Ok(here);
    };
    let Some(old) = turn.before.get(turn.path) else {
        return copied(alloc, copying, turn.before, source, rest);
    };
    if is_replaced(copying, turn.childless, source.body.kind, old.body.kind) {
        copied(alloc, copying, turn.before, source, rest)
    } else if source.body.kind == old.body.kind {
        adjusted(alloc, &copying.sets, rest, here)
    } else {
        Ok(here)
    }
}

/// Returns whether a copy replaces an object. A copied directory replaces an empty directory. An object of another kind
/// is replaced if the line has `=`.
fn is_replaced(copying: &Copying, childless: bool, source: Kind, old: Kind) -> bool
    ensures { result ≡ (if same_kind source old then is_directory source && childless else copying.now.renews) }
{
    if source == old {
        source.is_directory() && childless
    } else {
        copying.renews
    }
}

/// Returns the copy of an object with everything below it, at a rest of names. Staging names are left out.
fn copied(
    alloc: Global,
    copying: &Copying,
    before: &Standing,
    source: &ObjectState,
    rest: &[Name],
) -> Result<Option<ObjectState>, AllocError>
    requires source { fin.get before.now copying.now.source ≡ Some source.now }
    requires names { has_names rest.now ≡ true }
    ensures { IfOk result (λ copy. copy ≡ copy_of copying.now (view before.now) rest.now) }
{
    match rest {
        [] => Ok(Some(topped_by(copying, source)?)),
        [_, ..] => {
            if is_staged(rest) {
                return Ok(None);
            }
            before.copy_at(&copying.source.followed_by(rest)?)
        }
    }
}

/// Returns whether one of these names is a staging name.
fn is_staged(names: &[Name]) -> bool
    ensures { result ≡ has_staging names.now }
{
    names.iter().any(|name| is_staging(name.bytes()))
}

/// Returns a copied object with the mode and the owners of a line. A link takes the owners alone.
fn topped_by(copying: &Copying, source: &ObjectState) -> Result<ObjectState, AllocError>
    ensures { IfOk result (λ top. top ≡ topped_by copying.now source.now) }
{
    let top = copying.top(source.body.kind.is_directory());
    Ok(topped(&top, source.copy()?))
}
