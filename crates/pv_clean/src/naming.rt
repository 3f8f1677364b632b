//! The paths that lines name.
ghost use Rattle.std.specs.Prelude.{◌≡◌, ◌&&◌, ◌||◌, is_some, IfOk, OnOk};
ghost use Rattle.std.specs.List.{list_any};
ghost use Rattle.pv_path.specs.Paths.{Path};
ghost use Rattle.pv_steps.specs.Trees.{places};
ghost use Rattle.pv_walk.specs.Removal.{is_one_of};
ghost use Rattle.pv_table.specs.Reaching.{names};

use pv_lines::Line;
use pv_path::TreePath;
use pv_steps::Tree;
use pv_table::named_paths;
use std::alloc::{AllocError, Global};
use std::collections::BTreeSet;

/// Returns the present paths that some line names.
pub(crate) fn all_named<T: Tree>(
    alloc: Global,
    tree: &T,
    lines: &[Line],
) -> Result<BTreeSet<TreePath>, AllocError>
    ensures { IfOk result (λ named. (q : Path) → is_one_of named.keys q
        ≡ (is_some (places (T.state tree.now) q) && list_any (λ line. names line q) lines.now)) }
{
    let mut named = BTreeSet::new(alloc);
    for line in lines {
        let paths = named_paths(alloc, tree, line)?;
        add_all(&mut named, paths)?;
    }
    Ok(named)
}

/// Adds paths to a set.
fn add_all(set: &mut BTreeSet<TreePath>, paths: Vec<TreePath>) -> Result<(), AllocError>
    ensures { OnOk result ((q : Path) → is_one_of set.new.keys q ≡ (is_one_of set.old.keys q || is_one_of paths.items q)) }
{
    let mut left = paths;
    while let Some(path) = left.pop() {
        set.insert(path)?;
    }
    Ok(())
}
