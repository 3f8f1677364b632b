//! What lines leave at each path, one after the other.
ghost use Rattle.std.specs.Prelude.{◌≡◌, [], ◌∷◌, ◌++◌, map, take, IfOk, OnOk};
ghost use Rattle.std.specs.FinMap as fin;
ghost use Rattle.std.specs.List.{filter_map};
ghost use Rattle.pv_lines.specs.declared.line.Line.{Line as LineValue};
ghost use Rattle.pv_path.specs.Paths.{rest_under};
ghost use Rattle.pv_table.specs.ActionTable.{action_of};
ghost use Rattle.pv_table.specs.Pointwise.{point, point_paths, pointwise_after, state, tabulated};
ghost use Rattle.pv_table.specs.Reaching.{path_in};
ghost use Rattle.pv_walk.specs.Preparing.{parents_of};
ghost use Rattle.pv_explain.specs.LineTurns.{IsLineTurn};

use crate::line_turn::LineTurn;
use crate::point::point;
use crate::standing::Standing;
use pv_lines::Line;
use pv_path::{TreePath, is_prefix, rebase};
use pv_table::{Action, Table, action_of, create_order, path_of};
use std::alloc::{AllocError, Global};

/// Returns what the first `count` lines of a table leave at each path, in the order of the create phase
/// (tmpfiles.d(5)).
///
/// `start` has the objects before the first line. If the table has fewer lines, all of them count. The objects are
/// computed without looking at whether a path is safe to walk, so that no line counts as refused. The only error is
/// `AllocError`.
pub fn state_after(
    alloc: Global,
    table: &Table,
    count: usize,
    start: Standing,
) -> Result<Standing, AllocError>
    ensures { IfOk result (λ after. after ≡ state table.now count start) }
{
    let order = create_order(alloc, table)?;
    let mut standing = start;
    for place in first(order.as_slice(), count) {
        if let Some(line) = table.line(*place) {
            standing = after_line(alloc, line, &standing)?;
        }
    }
    Ok(standing)
}

/// Returns the first `count` of some indices, or all if there are fewer.
fn first(places: &[usize], count: usize) -> &[usize]
    ensures { result.now ≡ take count places.now }
{
    if count < places.len() {
        &places[..count]
    } else {
        places
    }
}

/// Returns what one line leaves at each path, from the objects before it.
///
/// The objects are computed without looking at whether a path is safe to walk, so that no line counts as refused. The
/// only error is `AllocError`.
pub fn after_line(alloc: Global, line: &Line, before: &Standing) -> Result<Standing, AllocError>
    ensures { IfOk result (λ after. after ≡ pointwise_after before.now line.now) }
{
    let action = action_of(alloc, line)?;
    let path = path_of(alloc, line)?;
    let paths = touched_paths(alloc, &action, &path, before)?;
    let turn = LineTurn::of(line, &action, &path, before);
    tabulated(alloc, &turn, &paths)
}

/// Returns what one line leaves at these paths. The answer has no other paths.
///
/// `before` has the objects before the line. The only error is `AllocError`.
pub fn after_line_at(
    alloc: Global,
    line: &Line,
    before: &Standing,
    paths: &[TreePath],
) -> Result<Standing, AllocError>
    ensures { IfOk result (λ after. after ≡ tabulated paths.now (point line.now before.now)) }
{
    let action = action_of(alloc, line)?;
    let path = path_of(alloc, line)?;
    let turn = LineTurn::of(line, &action, &path, before);
    tabulated(alloc, &turn, paths)
}

/// Returns what a line leaves at these paths.
fn tabulated(alloc: Global, turn: &LineTurn<'_>, paths: &[TreePath]) -> Result<Standing, AllocError>
    requires { IsLineTurn turn.now }
    ensures { IfOk result (λ after. after ≡ tabulated paths.now (point turn.now.line.now turn.now.before.now)) }
{
    let mut after = Standing::new(alloc);
    for other in paths {
        if let Some(object_state) = point(alloc, turn, other)? {
            after.put(other.copy()?, object_state)?;
        }
    }
    Ok(after)
}

/// Returns the paths at which a line may put an object, and those at which an object is.
fn touched_paths(
    alloc: Global,
    action: &Action,
    path: &TreePath,
    before: &Standing,
) -> Result<Vec<TreePath>, AllocError>
    ensures { IfOk result (λ paths. (line : LineValue) → action.now ≡ action_of line → path.now ≡ path_in line.path
        → paths.items ≡ point_paths line before.now ++ fin.keys before.now) }
{
    let mut present = before.paths(alloc)?;
    let mut paths = Vec::new(alloc);
    match action {
        Action::Create(_) => add_line(alloc, &mut paths, path)?,
        Action::Copy(copying) => {
            add_line(alloc, &mut paths, path)?;
            add_copies(alloc, &mut paths, &copying.source, path, &present)?;
        }
        Action::Adjust(_) => {}
        Action::Idle => {}
    }
    paths.append(&mut present)?;
    Ok(paths)
}

/// Returns the root, the path, and then the paths between them, from the shortest on.
///
/// For example, for `/a/b/c` they are `/`, `/a/b/c`, `/a` and `/a/b`. The only error is `AllocError`.
pub fn places_along(alloc: Global, path: &TreePath) -> Result<Vec<TreePath>, AllocError>
    ensures { IfOk result (λ places. places.items ≡ [] ∷ path.now ∷ parents_of path.now) }
{
    let mut places = Vec::new(alloc);
    places.push(TreePath::root(alloc))?;
    add_line(alloc, &mut places, path)?;
    Ok(places)
}

/// Adds a path and then those above it, except the root, from the shortest on.
fn add_line(alloc: Global, paths: &mut Vec<TreePath>, path: &TreePath) -> Result<(), AllocError>
    ensures { OnOk result (paths.new.items ≡ paths.old.items ++ path.now ∷ parents_of path.now) }
{
    paths.push(path.copy()?)?;
    let names = path.names();
    let mut place = TreePath::root(alloc);
    for name in &names[..names.len().saturating_sub(1)] {
        place.push(name.copy()?)?;
        paths.push(place.copy()?)?;
    }
    Ok(())
}

/// Adds the path to which each of some paths at or below a source is copied.
fn add_copies(
    alloc: Global,
    paths: &mut Vec<TreePath>,
    source: &TreePath,
    path: &TreePath,
    present: &[TreePath],
) -> Result<(), AllocError>
    ensures { OnOk result (paths.new.items
        ≡ paths.old.items ++ map (λ rest. path.now ++ rest) (filter_map (rest_under source.now) present.now)) }
{
    for other in present {
        if is_prefix(source, other) {
            paths.push(rebase(alloc, other, source, path)?)?;
        }
    }
    Ok(())
}
