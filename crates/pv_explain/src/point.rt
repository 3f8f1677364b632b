//! What a line leaves at one path, from the objects at all paths.
ghost use Rattle.std.specs.Prelude.{◌≡◌, ◌&&◌, not, Some, IfOk, is_some, unwrap_or, if◌then◌else◌};
ghost use Rattle.std.specs.FinMap as fin;
ghost use Rattle.pv_walk.specs.Operations.{run};
ghost use Rattle.pv_path.specs.Paths.{is_prefix, same_path};
ghost use Rattle.pv_table.specs.declared.action.Action.TheVariants.{Create, Copy};
ghost use Rattle.pv_table.specs.Pointwise.{at_made, parent_object_state, point, adjusts_path, view};
ghost use Rattle.pv_table.specs.Reaching.{names_above};
ghost use Rattle.pv_table.specs.Turns.{is_childless};
ghost use Rattle.pv_explain.specs.LineTurns.{IsLineTurn};

use crate::copied::after_copying;
use crate::line_turn::LineTurn;
use crate::made::{after_making, parent_object_state};
use crate::standing::Standing;
use pv_lines::Line;
use pv_path::{TreePath, has_staging, is_prefix, names_under};
use pv_table::{Action, Adjustment, Copying, Making, names, names_first};
use pv_walk::{ObjectState, run_operations};
use std::alloc::{AllocError, Global};

/// Returns what a line leaves at a path.
pub(crate) fn point(
    alloc: Global,
    turn: &LineTurn<'_>,
    other: &TreePath,
) -> Result<Option<ObjectState>, AllocError>
    requires { IsLineTurn turn.now }
    ensures { IfOk result (λ object_state. object_state ≡ point turn.now.line.now turn.now.before.now other.now) }
{
    match turn.action {
        Action::Create(making) => made(alloc, making, turn.path, turn.before, other),
        Action::Copy(copying) => copied(alloc, copying, turn, other),
        Action::Adjust(adjustment) => touched(alloc, turn.line, adjustment, turn.before, other),
        Action::Idle => turn.before.copy_at(other),
    }
}

/// Returns whether a path is above another one.
fn is_above(other: &TreePath, path: &TreePath) -> bool
    ensures { result ≡ (is_prefix other.now path.now && not (same_path other.now path.now)) }
{
    is_prefix(other, path) && other != path
}

/// Returns what is above the path of a line that makes an object: what was there, or a new parent directory.
fn above(
    alloc: Global,
    before: &Standing,
    other: &TreePath,
) -> Result<Option<ObjectState>, AllocError>
    ensures { IfOk result (λ object_state. object_state ≡ Some (unwrap_or (fin.get before.now other.now) parent_object_state)) }
{
    match before.get(other) {
        Some(object_state) => Ok(Some(object_state.copy()?)),
        None => Ok(Some(parent_object_state(alloc)?)),
    }
}

/// Returns what a line that makes an object leaves at a path.
fn made(
    alloc: Global,
    making: &Making,
    path: &TreePath,
    before: &Standing,
    other: &TreePath,
) -> Result<Option<ObjectState>, AllocError>
    ensures { IfOk result (λ object_state. object_state ≡ at_made (Create making.now) path.now before.now other.now) }
{
    if is_above(other, path) {
        return above(alloc, before, other);
    }
    let here = before.copy_at(other)?;
    match names_under(path.names(), other.names()) {
        Some(rest) => after_making(alloc, making, before.get(path), rest, here),
        None => Ok(here),
    }
}

/// Returns what a line that copies leaves at a path.
fn copied(
    alloc: Global,
    copying: &Copying,
    turn: &LineTurn<'_>,
    other: &TreePath,
) -> Result<Option<ObjectState>, AllocError>
    requires { turn.now.childless ≡ is_childless (view turn.now.before.now) turn.now.path.now }
    ensures { let before = turn.now.before.now in IfOk result (λ object_state. object_state
        ≡ (if is_some (fin.get before copying.now.source) then at_made (Copy copying.now) turn.now.path.now before other.now
        else fin.get before other.now)) }
{
    let here = turn.before.copy_at(other)?;
    if turn.before.get(&copying.source).is_none() {
        return Ok(here);
    }
    if is_above(other, turn.path) {
        return above(alloc, turn.before, other);
    }
    match names_under(turn.path.names(), other.names()) {
        Some(rest) => after_copying(alloc, copying, turn, rest, here),
        None => Ok(here),
    }
}

/// Returns what a line that adjusts leaves at a path.
fn touched(
    alloc: Global,
    line: &Line,
    adjustment: &Adjustment,
    before: &Standing,
    other: &TreePath,
) -> Result<Option<ObjectState>, AllocError>
    ensures { IfOk result (λ object_state. object_state
        ≡ (if adjusts_path line.now adjustment.now other.now then run adjustment.now.sets (fin.get before.now other.now)
        else fin.get before.now other.now)) }
{
    let here = before.copy_at(other)?;
    if adjusts_path(line, adjustment, other) {
        run_operations(alloc, adjustment.sets.as_slice(), here)
    } else {
        Ok(here)
    }
}

/// Returns whether a line adjusts a path: it names the path or, if it is recursive, a path above it.
fn adjusts_path(line: &Line, adjustment: &Adjustment, path: &TreePath) -> bool
    ensures { result ≡ adjusts_path line.now adjustment.now path.now }
{
    names(line, path) || (adjustment.deep && names_above(line, path) && !has_staging(path))
}

/// Returns whether a line names a path above this one.
fn names_above(line: &Line, path: &TreePath) -> bool
    ensures { result ≡ names_above line.now path.now }
{
    for count in 0..path.len() {
        if names_first(line, path, count) {
            return true;
        }
    }
    false
}
