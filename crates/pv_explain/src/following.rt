//! Which part of a tree is followed from line to line.
ghost use Rattle.std.specs.Prelude.{◌≡◌, [], ◌∷◌, Bool, not, true, ◌&&◌, ◌||◌, Some, is_some, IfOk};
ghost use Rattle.std.specs.FinMap as fin;
ghost use Rattle.std.specs.List.{list_all};
ghost use Rattle.pv_path.specs.Paths.{is_prefix};
ghost use Rattle.pv_table.specs.ActionTable.{action_of};
ghost use Rattle.pv_table.specs.Pointwise.{ObjectStates, pointwise_after};
ghost use Rattle.pv_table.specs.Turns.{copied};
ghost use Rattle.pv_walk.specs.Preparing.{parents_of};
ghost use Rattle.pv_explain.specs.declared.following.Scope.TheVariants.{Within};
ghost use Rattle.pv_explain.specs.declared.region.Region.{Region as RegionValue};
ghost use Rattle.pv_explain.specs.Following.{holds, Follows, HoldsCopy, IsAlong, IsWithin, Suits};

use crate::region::Region;
use crate::standing::Standing;
use crate::state::{after_line, after_line_at, places_along};
use pv_lines::{Line, LinePath};
use pv_path::{TreePath, is_prefix};
use pv_table::{Action, action_of};
use std::alloc::{AllocError, Global};

/// Which part of a tree is followed.
#[derive(Drop)]
pub(crate) enum Scope {
    /// A path and those above it.
    Along(Vec<TreePath>),
    /// A region.
    Within(Region),
}

/// Returns the objects after a line, or `None` if the objects that are followed do not decide this.
pub(crate) fn after(
    alloc: Global,
    line: &Line,
    path: &TreePath,
    scope: &Scope,
    before: Standing,
) -> Result<Option<Standing>, AllocError>
    requires { Suits scope.now path.now line.now }
    ensures follows { IfOk result (λ next. (s left : ObjectStates) → next ≡ Some left → Follows scope.now path.now before s
        → Follows scope.now path.now left (pointwise_after s line.now)) }
    ensures whole { IfOk result (λ next. (region : RegionValue) → scope.now ≡ Within region → is_some next ≡ true) }
{
    match scope {
        Scope::Along(places) => after_along(alloc, line, path, places, before),
        Scope::Within(region) => Ok(Some(after_within(alloc, line, region, before)?)),
    }
}

/// Returns the objects in a region after a line. A line that changes nothing there is passed over.
fn after_within(
    alloc: Global,
    line: &Line,
    region: &Region,
    before: Standing,
) -> Result<Standing, AllocError>
    requires { HoldsCopy region.now line.now }
    ensures { IfOk result (λ left. (s : ObjectStates) → IsWithin (holds region.now) before s
        → IsWithin (holds region.now) left (pointwise_after s line.now)) }
{
    if let LinePath::Literal(own) = &line.path {
        if is_outside(alloc, own, region, &before)? {
            return Ok(before);
        }
    }
    after_line(alloc, line, &before)
}

/// Returns whether making an object at a path puts nothing in a region. This is so if the path is not in it, and those
/// paths above it that are in it are present.
fn is_outside(
    alloc: Global,
    own: &TreePath,
    region: &Region,
    before: &Standing,
) -> Result<bool, AllocError>
    ensures { IfOk result (λ outside. outside ≡ (not (holds region.now own.now)
        && list_all (λ q. not (holds region.now q) || is_some (fin.get before.now q)) ([] ∷ own.now ∷ parents_of own.now))) }
{
    let places = places_along(alloc, own)?;
    Ok(!region.holds(own) && have_all(&places, region, before))
}

/// Returns whether those of some paths that are in a region are present.
fn have_all(places: &[TreePath], region: &Region, before: &Standing) -> bool
    ensures { result ≡ list_all (λ q. not (holds region.now q) || is_some (fin.get before.now q)) places.now }
{
    places.iter().all(|place| has(place, region, before))
}

/// Returns whether a path is present, or not in a region.
fn has(place: &TreePath, region: &Region, before: &Standing) -> bool
    ensures { result ≡ (not (holds region.now place.now) || is_some (fin.get before.now place.now)) }
{
    !region.holds(place) || before.get(place).is_some()
}

/// Returns the objects at a path and above it after a line. A line that changes nothing there is passed over. The
/// answer is `None` for any other line that copies.
fn after_along(
    alloc: Global,
    line: &Line,
    path: &TreePath,
    places: &[TreePath],
    before: Standing,
) -> Result<Option<Standing>, AllocError>
    requires { places.now ≡ [] ∷ path.now ∷ parents_of path.now }
    ensures { IfOk result (λ next. (s left : ObjectStates) → next ≡ Some left → IsAlong path.now before s
        → IsAlong path.now left (pointwise_after s line.now)) }
{
    if let LinePath::Literal(own) = &line.path {
        if is_aside(own, path, places, &before) {
            return Ok(Some(before));
        }
    }
    if copies(alloc, line)? {
        return Ok(None);
    }
    Ok(Some(after_line_at(alloc, line, &before, places)?))
}

/// Returns whether a line copies.
fn copies(alloc: Global, line: &Line) -> Result<bool, AllocError>
    ensures { IfOk result (λ copies. copies ≡ is_some (copied (action_of line.now))) }
{
    let action = action_of(alloc, line)?;
    Ok(matches!(action, Action::Copy(_)))
}

/// Returns whether making an object at one path puts nothing at another path or above it. This is so if the first is
/// not above the second, and the paths above both are present.
fn is_aside(own: &TreePath, path: &TreePath, places: &[TreePath], before: &Standing) -> bool
    ensures { result ≡ (not (is_prefix own.now path.now)
        && list_all (λ q. not (is_prefix q own.now) || is_some (fin.get before.now q)) places.now) }
{
    !is_prefix(own, path) && are_there(own, places, before)
}

/// Returns whether those of some paths that are above a path are present.
fn are_there(own: &TreePath, places: &[TreePath], before: &Standing) -> bool
    ensures { result ≡ list_all (λ q. not (is_prefix q own.now) || is_some (fin.get before.now q)) places.now }
{
    places.iter().all(|place| is_there(own, place, before))
}

/// Returns whether a path is present, or not above another one.
fn is_there(own: &TreePath, place: &TreePath, before: &Standing) -> bool
    ensures { result ≡ (not (is_prefix place.now own.now) || is_some (fin.get before.now place.now)) }
{
    !is_prefix(place, own) || before.get(place).is_some()
}
