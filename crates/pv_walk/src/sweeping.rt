//! Removes what an earlier run has left at staging names.
ghost use Rattle.std.specs.Prelude.{◌≡◌, ◌≢◌, ◌≤◌, ℕ, List, [], true, length, map, Some, is_some, IfOk, OnOk};
ghost use Rattle.std.specs.List.{list_any};
ghost use Rattle.pv_path.specs.Names.{staging_name};
ghost use Rattle.pv_path.specs.Paths.{is_prefix, last_name, staging_of};
ghost use Rattle.pv_steps.specs.Trees.{places};
ghost use Rattle.pv_steps.specs.Content.{Removes};
ghost use Rattle.pv_walk.specs.Edits.{Pruned, taken, all_taken, count_at};
ghost use Rattle.pv_steps.specs.Acting.{Acted};
ghost use Rattle.pv_walk.specs.Removal.{removal_at};
ghost use Rattle.pv_walk.specs.Listing.{stands_at};
ghost use Rattle.pv_walk.specs.PostOrder.{DidInPostOrder, DoesInPostOrder, TakesInTurn};
ghost use Rattle.pv_walk.specs.Staging.{staging_names, is_under_any, count_at_all, can_stage};

use crate::remove::{remove, remove_below};
use crate::walking::go_down;
use pv_path::{NameList, TreePath, staging};
use pv_steps::{Tree, TreeFault, is_present};
use std::alloc::{AllocError, Global};

/// Removes the object at a path, with everything below it, if it is present.
pub(crate) fn take_away<T: Tree>(
    alloc: Global,
    tree: &mut T,
    path: &TreePath,
    now: u64,
) -> Result<(), TreeFault>
    requires { path.now ≢ [] }
    ensures taken { OnOk result
        (places (T.state tree.new) ≡ taken now path.now (places (T.state tree.old))) }
    ensures acted { Acted T.Tree (Pruned (is_prefix path.now) (T.state tree.old))
        (Removes (is_prefix path.now))
        (count_at (T.state tree.old) path.now) now tree.old tree.new result }
    ensures order { DoesInPostOrder (stands_at (T.state tree.old) path.now) (removal_at (T.state tree.old))
        (T.steps tree.old) (T.steps tree.new) }
    ensures whole { OnOk result (DidInPostOrder (stands_at (T.state tree.old) path.now)
        (removal_at (T.state tree.old)) (T.steps tree.old) (T.steps tree.new)) }
{
    if !is_present(tree, path) {
        return Ok(());
    }
    remove_below(alloc, tree, path, now)?;
    remove(tree, path.copy()?, now)
}

/// Removes the object at the staging name of one path, with everything below it.
fn sweep_place<T: Tree>(
    alloc: Global,
    tree: &mut T,
    place: &TreePath,
    now: u64,
) -> Result<(), TreeFault>
    requires short { (name : List ℕ) → last_name place.now ≡ Some name → length name ≤ 250 }
    requires not_root { place.now ≢ [] }
    ensures taken { OnOk result
        (places (T.state tree.new) ≡ taken now (staging_of place.now) (places (T.state tree.old))) }
    ensures acted { Acted T.Tree (Pruned (is_prefix (staging_of place.now)) (T.state tree.old))
        (Removes (is_prefix (staging_of place.now)))
        (count_at (T.state tree.old) (staging_of place.now)) now tree.old tree.new result }
    ensures order { DoesInPostOrder (stands_at (T.state tree.old) (staging_of place.now))
        (removal_at (T.state tree.old)) (T.steps tree.old) (T.steps tree.new) }
    ensures whole { OnOk result (DidInPostOrder (stands_at (T.state tree.old) (staging_of place.now))
        (removal_at (T.state tree.old)) (T.steps tree.old) (T.steps tree.new)) }
{
    let stage = staging(alloc, place)?;
    take_away(alloc, tree, &stage, now)
}

/// Returns the staging name for each name of a path, in the order of the path.
fn names_for_staging(alloc: Global, path: &TreePath) -> Result<NameList, AllocError>
    requires { can_stage path.now ≡ true }
    ensures { IfOk result (λ names. names ≡ map staging_name path.now) }
{
    let mut names = NameList::new(alloc);
    for name in path.names() {
        names.push(name.staging(alloc)?)?;
    }
    Ok(names)
}

/// Returns whether an object is at the staging name of the path or of a path above it.
fn has_staged<T: Tree>(alloc: Global, tree: &T, path: &TreePath) -> Result<bool, AllocError>
    requires { can_stage path.now ≡ true }
    ensures { IfOk result (λ staged. staged
        ≡ list_any (λ p. is_some (places (T.state tree.now) p)) (staging_names path.now)) }
{
    let names = names_for_staging(alloc, path)?;
    Ok(tree.has_beside(path, names.as_slice()))
}

/// Removes the objects at the staging names of the path and of each path above it, one after the other.
fn sweep_each<T: Tree>(
    alloc: Global,
    tree: &mut T,
    path: &TreePath,
    now: u64,
) -> Result<(), TreeFault>
    requires { can_stage path.now ≡ true }
    ensures taken { OnOk result
        (places (T.state tree.new)
        ≡ all_taken now (staging_names path.now) (places (T.state tree.old))) }
    ensures acted { Acted T.Tree (Pruned (is_under_any (staging_names path.now)) (T.state tree.old))
        (Removes (is_under_any (staging_names path.now)))
        (count_at_all (T.state tree.old) (staging_names path.now)) now tree.old tree.new result }
    ensures order { TakesInTurn (T.state tree.old) (staging_names path.now) (T.steps tree.old) (T.steps tree.new) }
{
    let mut place = TreePath::root(alloc);
    for name in path.names() {
        go_down(&mut place, name)?;
        sweep_place(alloc, tree, &place, now)?;
    }
    Ok(())
}

/// Removes what an earlier run has staged along a path: the objects at the staging names of the path and of each
/// path above it.
///
/// Each is removed with everything below it, one after the other from the root on. Each is removed in post-order: the
/// children of a directory in byte order, each after everything below it. For example, for `/run/app` first
/// `/.#tf-run` goes, and then `/run/.#tf-app`.
/// Each name of the path must have at most 250 bytes. `now` is in microseconds since 1970-01-01 UTC.
///
/// The errors are those of a step: `Failed` or `Memory`. After an error some of the objects may be removed.
#[tactic(auto, using(crate::proofs::SweepLaws::nothing_taken))]
pub fn sweep<T: Tree>(
    alloc: Global,
    tree: &mut T,
    path: &TreePath,
    now: u64,
) -> Result<(), TreeFault>
    requires { can_stage path.now ≡ true }
    ensures taken { OnOk result
        (places (T.state tree.new)
        ≡ all_taken now (staging_names path.now) (places (T.state tree.old))) }
    ensures acted { Acted T.Tree (Pruned (is_under_any (staging_names path.now)) (T.state tree.old))
        (Removes (is_under_any (staging_names path.now)))
        (count_at_all (T.state tree.old) (staging_names path.now)) now tree.old tree.new result }
    ensures order { TakesInTurn (T.state tree.old) (staging_names path.now) (T.steps tree.old) (T.steps tree.new) }
{
    // Along most paths nothing is staged. One descent from the root shows that.
    if !has_staged(alloc, tree, path)? {
        return Ok(());
    }
    sweep_each(alloc, tree, path, now)
}
