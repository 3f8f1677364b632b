//! The present paths that a line names.
ghost use Rattle.std.specs.Prelude.{◌≡◌, filter, IfOk};
ghost use Rattle.std.specs.FinMap as fin;
ghost use Rattle.pv_path.specs.Paths.{same_path};
ghost use Rattle.pv_table.specs.Reaching.{names};

use pv_lines::{Line, LinePath};
use pv_path::TreePath;
use pv_steps::Tree;
use pv_walk::{add_standing, in_order, matching_paths};
use std::alloc::{AllocError, Global};

/// Lists the present paths that a line names, in byte order, each once (tmpfiles.d(5), "Path"; glob(7)).
///
/// A line names its own path, or the paths that its pattern matches. Symbolic links are not followed. Byte order
/// compares paths name by name. The only error is `AllocError`.
pub fn named_paths<T: Tree>(
    alloc: Global,
    tree: &T,
    line: &Line,
) -> Result<Vec<TreePath>, AllocError>
    ensures { IfOk result (λ paths. paths.items ≡ filter (names line.now) (fin.keys (T.state tree.now))) }
{
    match &line.path {
        LinePath::Literal(path) => standing_at(alloc, tree, path),
        LinePath::Glob(pattern) => matching_paths(alloc, tree, pattern),
    }
}

/// Lists this path alone if an object is at it, otherwise no path.
///
/// The only error is `AllocError`.
pub fn standing_at<T: Tree>(
    alloc: Global,
    tree: &T,
    path: &TreePath,
) -> Result<Vec<TreePath>, AllocError>
    ensures { IfOk result (λ paths. paths.items ≡ filter (same_path path.now) (fin.keys (T.state tree.now))) }
{
    let mut paths = Vec::new(alloc);
    add_standing(tree, path, &mut paths)?;
    Ok(in_order(paths))
}
