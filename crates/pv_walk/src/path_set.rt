//! Sets of paths that are kept in byte order.
ghost use Rattle.std.specs.Prelude.{◌≡◌, [], ◌∷◌, reverse, true, slice_get, option_map, IfSome, OnErr, OnOk};
ghost use Rattle.std.specs.declared.cmp.Ordering.TheVariants.{Less};
ghost use Rattle.std.specs.List.Sorted.{IsStrictlySortedBy};
ghost use Rattle.pv_path.specs.Paths.{Path, path_cmp};
ghost use Rattle.pv_walk.specs.Removal.{is_one_of};

use pv_path::TreePath;
use std::alloc::{AllocError, Global};
use std::collections::BTreeSet;
use std::marker::Model;

/// A set of paths. In contracts it is the list of its paths in byte order.
///
/// Each new path comes before all paths of the set, so adding it takes no comparison.
#[derive(Drop)]
pub struct PathSet {
    // From the last path in byte order to the first.
    paths: Vec<TreePath>,
}

impl Model for PathSet {
    ghost use Rattle.std.specs.Prelude.{List, reverse};
    ghost use Rattle.std.specs.List.Sorted.{IsStrictlySortedBy};
    ghost use Rattle.pv_path.specs.Paths.{Path, path_cmp};

    ghost Value = { List Path };

    ghost view = { λ s. reverse s.paths.items };

    ghost invariant = { λ s. IsStrictlySortedBy (λ p q. path_cmp q p) s.paths.items };
}

impl PathSet {
    /// Returns the empty set. The call does not allocate.
    pub(crate) fn new(alloc: Global) -> PathSet
        ensures { result ≡ [] }
    {
        PathSet {
            paths: Vec::new(alloc),
        }
    }

    /// Adds a path, which must come before all paths of the set. The only error is `AllocError`.
    pub(crate) fn add_first(&mut self, path: TreePath) -> Result<(), AllocError>
        requires first { (q : Path) → is_one_of self.old q ≡ true → path_cmp path q ≡ Less }
        ensures added { OnOk result (self.new ≡ path ∷ self.old) }
        ensures kept { OnErr result (self.new ≡ self.old) }
    {
        self.paths.push(path)?;
        Ok(())
    }

    /// Returns the first path, or `None` if the set is empty.
    pub(crate) fn first(&self) -> Option<&TreePath>
        ensures first { option_map (λ path. path.now) result ≡ slice_get self.now 0 }
        ensures member { IfSome result (λ path. is_one_of self.now path.now ≡ true) }
    {
        self.paths.last()
    }

    /// Returns whether a path is in the set. The time grows with the logarithm of the number of paths.
    pub fn contains(&self, path: &TreePath) -> bool
        ensures { result ≡ is_one_of self.now path.now }
    {
        is_in(&self.paths, path)
    }

    /// Returns the paths as a list, from the last in byte order to the first.
    pub(crate) fn into_last_first(self) -> Vec<TreePath>
        ensures paths { result.items ≡ reverse self }
        ensures order { IsStrictlySortedBy path_cmp self }
    {
        let PathSet { paths } = self;
        paths
    }
}

/// Returns whether a path is in a list of paths, which must be in order from the last in byte order to the first.
fn is_in(paths: &[TreePath], path: &TreePath) -> bool
    requires { IsStrictlySortedBy (λ p q. path_cmp q p) paths.now }
    ensures { result ≡ is_one_of paths.now path.now }
{
    paths.binary_search_by(|at| path.order(at)).is_ok()
}

/// Returns whether a path is in a `BTreeSet` of paths. The call does not allocate.
pub fn is_among(paths: &BTreeSet<TreePath>, path: &TreePath) -> bool
    ensures { result ≡ is_one_of paths.now.keys path.now }
{
    paths.contains(path)
}
