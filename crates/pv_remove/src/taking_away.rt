//! The removal of some paths of a tree, each with everything below it.
ghost use Rattle.std.specs.Prelude.{◌≡◌, OnOk};
ghost use Rattle.pv_path.specs.Paths.{Path};
ghost use Rattle.pv_steps.specs.Acting.{Acted};
ghost use Rattle.pv_steps.specs.Content.{Removes};
ghost use Rattle.pv_steps.specs.Objects.{modified};
ghost use Rattle.pv_walk.specs.Edits.{Pruned};
ghost use Rattle.pv_walk.specs.Removal.{is_one_of};
ghost use Rattle.pv_walk.specs.Whole.{count_of, goes_whole};
ghost use Rattle.pv_table.specs.Removed.{files_without};
ghost use Rattle.pv_remove.specs.Ended.{TakesInOrder};

use pv_steps::{Tree, TreeFault};
use pv_walk::{PathSet, deepest_last, remove_all};
use std::alloc::Global;

/// Removes these paths, the deepest first and those of one depth in byte order. Everything below a removed path is
/// removed too. A directory that stays and lost a child gets new timestamps.
pub(crate) fn take_away<T: Tree>(
    alloc: Global,
    tree: &mut T,
    paths: PathSet,
    now: u64,
) -> Result<(), TreeFault>
    requires whole { (q : Path) → is_one_of paths q ≡ goes_whole (is_one_of paths) (T.state tree.old) q }
    ensures gone { OnOk result (T.state tree.new ≡ files_without (is_one_of paths) (modified now) (T.state tree.old)) }
    ensures acted { Acted T.Tree (Pruned (is_one_of paths) (T.state tree.old)) (Removes (is_one_of paths))
        (count_of (is_one_of paths) (T.state tree.old)) now tree.old tree.new result }
    ensures order { TakesInOrder (is_one_of paths) (T.state tree.old) (T.steps tree.old) (T.steps tree.new) }
{
    let ordered = deepest_last(paths)?;
    remove_all(alloc, tree, ordered, now)
}
