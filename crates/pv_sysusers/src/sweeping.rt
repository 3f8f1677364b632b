//! The removal of what earlier runs have staged for the account files.
ghost use Rattle.std.specs.Prelude.{◌≡◌, ◌∷◌, [], map, IfOk, OnOk};
ghost use Rattle.std.specs.List.{AllByRecursion};
ghost use Rattle.pv_path.specs.Paths.{staging_of};
ghost use Rattle.pv_steps.specs.Trees.{places, IsAbsentIn};
ghost use Rattle.pv_steps.specs.Acting.{Acted};
ghost use Rattle.pv_steps.specs.Content.{Removes};
ghost use Rattle.pv_walk.specs.Edits.{Pruned, all_taken, count_at, taken};
ghost use Rattle.pv_walk.specs.Staging.{count_at_all, is_under_any};
ghost use Rattle.pv_layers.specs.Places.{etc};
ghost use Rattle.pv_sysusers.specs.FileWriting.{IsSweptPath, account_paths, swept_names};

use crate::paths::account_paths;
use pv_layers::etc_path;
use pv_path::TreePath;
use pv_steps::{Tree, TreeFault};
use pv_walk::sweep;
use std::alloc::Global;

/// Removes the objects at the staging names of /etc and of the account files, with all below them.
pub(crate) fn sweep_all<T: Tree>(alloc: Global, tree: &mut T, now: u64) -> Result<(), TreeFault>
    ensures ok { OnOk result (places (T.state tree.new) ≡ all_taken now swept_names (places (T.state tree.old))) }
    ensures free { OnOk result (AllByRecursion (λ p. IsAbsentIn (places (T.state tree.new)) (staging_of p)) (etc ∷ account_paths)) }
    ensures acted { Acted T.Tree (Pruned (is_under_any swept_names) (T.state tree.old)) (Removes (is_under_any swept_names))
        (count_at_all (T.state tree.old) swept_names) now tree.old tree.new result }
{
    let paths = account_paths(alloc)?;
    let etc = etc_path(alloc)?;
    sweep(alloc, tree, &etc, now)?;
    sweep_files(alloc, tree, &paths, now)
}

/// Removes the objects at the staging names of these files. The staging name of /etc is absent.
fn sweep_files<T: Tree>(
    alloc: Global,
    tree: &mut T,
    paths: &[TreePath],
    now: u64,
) -> Result<(), TreeFault>
    requires paths { AllByRecursion IsSweptPath paths.now }
    requires above { IsAbsentIn (places (T.state tree.old)) (staging_of etc) }
    ensures ok { OnOk result (places (T.state tree.new) ≡ all_taken now (map staging_of paths.now) (places (T.state tree.old))) }
    ensures free { OnOk result (AllByRecursion (λ p. IsAbsentIn (places (T.state tree.new)) (staging_of p)) (etc ∷ paths.now)) }
    ensures acted { Acted T.Tree (Pruned (is_under_any swept_names) (T.state tree.old)) (Removes (is_under_any swept_names))
        (count_at_all (T.state tree.old) (map staging_of paths.now)) now tree.old tree.new result }
{
    match paths {
        [] => Ok(()),
        [path, rest @ ..] => {
            sweep_file(alloc, tree, path, now)?;
            sweep_files(alloc, tree, rest, now)
        }
    }
}

/// Removes the object at the staging name of one file. The staging name of /etc is absent.
fn sweep_file<T: Tree>(
    alloc: Global,
    tree: &mut T,
    path: &TreePath,
    now: u64,
) -> Result<(), TreeFault>
    requires path { IsSweptPath path.now }
    requires above { IsAbsentIn (places (T.state tree.old)) (staging_of etc) }
    ensures ok { OnOk result (places (T.state tree.new) ≡ taken now (staging_of path.now) (places (T.state tree.old))) }
    ensures free { OnOk result (IsAbsentIn (places (T.state tree.new)) (staging_of path.now)) }
    ensures above { OnOk result (IsAbsentIn (places (T.state tree.new)) (staging_of etc)) }
    ensures acted { Acted T.Tree (Pruned (is_under_any swept_names) (T.state tree.old)) (Removes (is_under_any swept_names))
        (count_at (T.state tree.old) (staging_of path.now)) now tree.old tree.new result }
{
    sweep(alloc, tree, path, now)
}
