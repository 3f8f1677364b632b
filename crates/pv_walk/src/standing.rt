//! Adds a path to a list if an object is there.
ghost use Rattle.std.specs.Prelude.{◌≡◌, ◌++◌, ◌∷◌, [], is_some, if◌then◌else◌, OnOk};
ghost use Rattle.pv_steps.specs.Trees.{places};

use pv_path::TreePath;
use pv_steps::{Tree, is_present};
use std::alloc::AllocError;

/// Appends a copy of a path to a list, if there is an object at the path. The only error is `AllocError`.
pub fn add_standing<T: Tree>(
    tree: &T,
    path: &TreePath,
    paths: &mut Vec<TreePath>,
) -> Result<(), AllocError>
    ensures { OnOk result (paths.new.items ≡ paths.old.items
        ++ (if is_some (places (T.state tree.now) path.now) then path.now ∷ [] else [])) }
{
    if is_present(tree, path) {
        paths.push(path.copy()?)?;
    }
    Ok(())
}
