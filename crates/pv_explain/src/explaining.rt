//! What lines do at a path, one after the other.
ghost use Rattle.std.specs.Prelude.{◌≡◌, ◌++◌, [], ℕ, false, true, Some, is_some, option_map, IfOk, OnOk};
ghost use Rattle.std.specs.List.{cons_option};
ghost use Rattle.std.specs.Option.{option_copied};
ghost use Rattle.pv_walk.specs.Nodes.{object_states_of};
ghost use Rattle.pv_path.specs.Paths.{has_staging};
ghost use Rattle.pv_steps.specs.Trees.{places};
ghost use Rattle.pv_table.specs.Created.{created, RefusesNoLine};
ghost use Rattle.pv_table.specs.Pointwise.{ObjectStates};
ghost use Rattle.pv_table.specs.Repeatable.{IsRepeatable};
ghost use Rattle.pv_explain.specs.declared.explained.Explained.{Explained as ExplainedValue};
ghost use Rattle.pv_explain.specs.declared.following.Scope.TheVariants.{Within};
ghost use Rattle.pv_explain.specs.declared.region.Region.{Region};
ghost use Rattle.pv_explain.specs.Acts.{act_between, acts, object_state_in, last, standing};
ghost use Rattle.pv_explain.specs.Following.{Fits, Follows, Tells};

use crate::comparing::{act_between, node_and_payload};
use crate::explained::{ActList, Explained, LineAct};
use crate::following::{Scope, after};
use crate::region::{closed_region, paths_in};
use crate::standing::Standing;
use crate::state::places_along;
use crate::tree_standing::standing_at;
use pv_lines::Line;
use pv_path::TreePath;
use pv_steps::Tree;
use pv_table::{Table, create_order};
use pv_walk::ObjectState;
use std::alloc::{AllocError, Global};

/// Explains a path: which lines of a table change what is there in the create phase, and which object is there at the
/// end (tmpfiles.d(5)).
///
/// `table` has the active lines. The lines in the answer are those for which the object at the path differs before and
/// after them, in the order of the create phase. The tree is not changed. What lines leave is computed for each path
/// without looking at whether a path is safe to walk, so that no line counts as refused. Timestamps are left out.
///
/// Suppose that no line has a hazard, that a complete create run refuses no line, and that no name of the path is a
/// staging name. Then this run leaves exactly the object of the answer, except for timestamps.
///
/// For example, of the lines `d /run/app` and `z /run/app 0750`, the first one makes `/run/app` if it is absent. The
/// second one changes it. The only error is `AllocError`.
pub fn explain<T: Tree>(
    alloc: Global,
    tree: &T,
    table: &Table,
    path: &TreePath,
) -> Result<Explained, AllocError>
    // Exactly the lines for which the object at the path differs before and after them.
    ensures acts { IfOk result (λ explanation. explanation.acts ≡ acts table.now (standing (T.state tree.now)) path.now) }

    // The object there after all lines, and none exactly if the path is absent then.
    ensures node { IfOk result (λ explanation. option_map object_state_in explanation.node
        ≡ last table.now (standing (T.state tree.now)) path.now) }

    // If no line has a hazard, and a create run refuses no line, this is what the run leaves there.
    ensures leaves { IfOk result (λ explanation. (now : ℕ) → IsRepeatable table.now → RefusesNoLine table.now now (T.state tree.now)
        → has_staging path.now ≡ false
        → option_map object_state_in explanation.node ≡ object_states_of (places (created table.now now (T.state tree.now))) path.now) }
{
    // The lines of a table were read.
    let _lines = table.lines();
    match explain_along(alloc, tree, table, path)? {
        Some(explanation) => Ok(explanation),
        None => explain_within(alloc, tree, table, path),
    }
}

/// Explains a path by the objects at the path and above it. The answer is `None` if these are not enough.
fn explain_along<T: Tree>(
    alloc: Global,
    tree: &T,
    table: &Table,
    path: &TreePath,
) -> Result<Option<Explained>, AllocError>
    ensures { IfOk result (λ answer. (explanation : ExplainedValue) → answer ≡ Some explanation
        → Tells table.now (standing (T.state tree.now)) path.now explanation) }
{
    let places = places_along(alloc, path)?;
    let start = standing_at(alloc, tree, &places)?;
    follow(alloc, table, path, &Scope::Along(places), start)
}

/// Explains a path by the objects in a region that has the source of each copy in it.
fn explain_within<T: Tree>(
    alloc: Global,
    tree: &T,
    table: &Table,
    path: &TreePath,
) -> Result<Explained, AllocError>
    ensures { IfOk result (λ explanation. Tells table.now (standing (T.state tree.now)) path.now explanation) }
{
    let region = closed_region(alloc, table, path)?;
    let paths = paths_in(alloc, tree, &region)?;
    let start = standing_at(alloc, tree, &paths)?;
    match follow(alloc, table, path, &Scope::Within(region), start)? {
        Some(whole) => Ok(whole),
        None => unreachable!(),
    }
}

/// Follows the lines of a table in the order of the create phase. The answer is `None` if the objects that are followed
/// do not decide what is at the path.
fn follow(
    alloc: Global,
    table: &Table,
    path: &TreePath,
    scope: &Scope,
    start: Standing,
) -> Result<Option<Explained>, AllocError>
    requires { Fits scope.now path.now table.now }
    ensures explanation { IfOk result (λ answer. (s : ObjectStates) (explanation : ExplainedValue) → answer ≡ Some explanation
        → Follows scope.now path.now start s → Tells table.now s path.now explanation) }
    ensures whole { IfOk result (λ answer. (region : Region) → scope.now ≡ Within region → is_some answer ≡ true) }
{
    let order = create_order(alloc, table)?;
    let mut standing = start;
    let mut acts = ActList::new(alloc);
    for place in order.as_slice() {
        let line = table.line_at(*place);
        let before = standing.copy_at(path)?;
        match after(alloc, line, path, scope, standing)? {
            Some(next) => standing = next,
            None => return Ok(None),
        }
        note(&mut acts, line, before, standing.get(path))?;
    }
    Ok(Some(ended(acts, standing.copy_at(path)?)))
}

/// Returns the explanation, for what lines do and the object at the end.
fn ended(acts: ActList, last: Option<ObjectState>) -> Explained
    ensures acts { result.acts ≡ acts }
    ensures node { option_map object_state_in result.node ≡ last }
{
    let node = match last {
        Some(object_state) => Some(node_and_payload(object_state)),
        None => None,
    };
    Explained { acts, node }
}

/// Adds what a line does, if it changes the object at the path.
fn note(
    acts: &mut ActList,
    line: &Line,
    before: Option<ObjectState>,
    after: Option<&ObjectState>,
) -> Result<(), AllocError>
    ensures { OnOk result (acts.new ≡ acts.old ++ cons_option
        (option_map (λ act. record { place = line.now.place; act = act }) (act_between before (option_copied after.entry))) []) }
{
    if let Some(act) = act_between(before.as_ref(), after) {
        acts.push(LineAct {
            place: line.place.copy()?,
            act,
        })?;
    }
    Ok(())
}
