//! The objects of a tree, without timestamps.
ghost use Rattle.std.specs.Prelude.{◌≡◌, IfOk};
ghost use Rattle.pv_walk.specs.Nodes.{object_states_of};
ghost use Rattle.pv_steps.specs.Trees.{places};
ghost use Rattle.pv_table.specs.Pointwise.{tabulated};

use crate::standing::Standing;
use pv_path::TreePath;
use pv_steps::Tree;
use pv_walk::object_state_at;
use std::alloc::{AllocError, Global};

/// Returns the objects at some paths of a tree, without timestamps.
pub(crate) fn standing_at<T: Tree>(
    alloc: Global,
    tree: &T,
    paths: &[TreePath],
) -> Result<Standing, AllocError>
    ensures { IfOk result (λ standing. standing ≡ tabulated paths.now (object_states_of (places (T.state tree.now)))) }
{
    let mut standing = Standing::new(alloc);
    for path in paths {
        if let Some(object_state) = object_state_at(alloc, tree, path)? {
            standing.put(path.copy()?, object_state)?;
        }
    }
    Ok(standing)
}
