//! Lists of paths in byte order.
ghost use Rattle.std.specs.Prelude.{◌≡◌, IsTrue};
ghost use Rattle.std.specs.List.Sorted.{IsStrictlySortedBy};
ghost use Rattle.pv_path.specs.Paths.{Path, path_cmp};
ghost use Rattle.pv_walk.specs.Removal.{is_one_of};

use pv_path::TreePath;

/// Sorts paths in byte order, and keeps each only once. A list that is sorted already costs one comparison for each
/// path.
pub fn in_order(paths: Vec<TreePath>) -> Vec<TreePath>
    ensures rises { IsStrictlySortedBy path_cmp result.items }
    ensures members { (q : Path) → is_one_of result.items q ≡ is_one_of paths.items q }
{
    if rise(&paths) {
        return paths;
    }
    let mut ordered = paths;
    ordered.sort_unstable();
    ordered.dedup();
    ordered
}

/// Returns whether each path comes before the next one.
fn rise(paths: &[TreePath]) -> bool
    ensures { IsTrue result → IsStrictlySortedBy path_cmp paths.now }
{
    paths.is_sorted_by(|a, b| a.order(b).is_lt())
}
