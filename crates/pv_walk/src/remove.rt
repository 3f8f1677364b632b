//! Removes what is below a path.
ghost use Rattle.std.specs.Prelude.{◌≡◌, ◌≢◌, [], ◌∷◌, ◌++◌, length, map, reverse, true, is_some, IfOk, IfSome, OnOk};
ghost use Rattle.pv_path.specs.Paths.{Path, same_path};
ghost use Rattle.pv_steps.specs.Trees.{places, IsPresent, IsEmptyIn, IsTree};
ghost use Rattle.pv_steps.specs.Steps.{gone};
ghost use Rattle.pv_steps.specs.Objects.{modified};
ghost use Rattle.pv_steps.specs.Content.{Removes};
ghost use Rattle.pv_walk.specs.Edits.{Pruned, emptied};
ghost use Rattle.pv_steps.specs.Acting.{Acted};
ghost use Rattle.pv_walk.specs.Removal.{is_below, is_one_of, without, count_below, removal_at, DonePart, MayHaveGone};
ghost use Rattle.pv_walk.specs.Listing.{children_of, stands_below, IsListing, AreGathered, AreRemovable};
ghost use Rattle.pv_walk.specs.PostOrder.{AreInPostOrder, DidInPostOrder, DoesInPostOrder};

use crate::known_child::is_directory_above;
use pv_path::{TreePath, child};
use pv_steps::{Step, Tree, TreeFault, is_directory, try_all, try_step};
use std::alloc::{AllocError, Global};

/// Appends the paths of what is in the directory at a path, in byte order. It appends nothing if there is no
/// directory.
fn push_children<T: Tree>(
    alloc: Global,
    tree: &T,
    path: &TreePath,
    work: &mut Vec<TreePath>,
) -> Result<(), AllocError>
    ensures added { OnOk result
        (work.new.items ≡ work.old.items ++ children_of (T.state tree.now) path.now) }
    ensures tree { IsTree (T.state tree.now) }
{
    if !is_directory(tree, path) {
        return Ok(());
    }
    let names = tree.list(alloc, path)?;
    for name in names.as_slice() {
        work.push(child(alloc, path, name.bytes())?)?;
    }
    Ok(())
}

/// Returns the paths of everything below a path, each once, and each directory before what is in it.
///
/// Everything below a listed directory follows it directly. Read from its end, the list is in post-order: the children
/// of a directory are in byte order, each after everything below it. The path itself is not in the list. The only error
/// is `AllocError`.
pub fn below<T: Tree>(alloc: Global, tree: &T, path: &TreePath) -> Result<Vec<TreePath>, AllocError>
    ensures all { IfOk result (λ paths. IsListing (T.state tree.now) path.now paths.items) }
    ensures gathered { IfOk result (λ paths. AreGathered paths.items) }
    ensures order { IfOk result (λ paths. AreInPostOrder (reverse paths.items)) }
    ensures tree { IsTree (T.state tree.now) }
{
    let mut work = Vec::new(alloc);
    push_children(alloc, tree, path, &mut work)?;
    let mut listed = Vec::new(alloc);
    while let Some(next) = work.pop() {
        push_children(alloc, tree, &next, &mut work)?;
        listed.push(next)?;
    }
    Ok(listed)
}

/// Removes the object at a path, below which there is nothing.
pub(crate) fn remove<T: Tree>(tree: &mut T, path: TreePath, now: u64) -> Result<(), TreeFault>
    requires present { IsPresent (T.state tree.old) path }
    requires empty { IsEmptyIn (places (T.state tree.old)) path }
    requires not_root { path ≢ [] }
    ensures gone { OnOk result
        (places (T.state tree.new) ≡ gone now path (places (T.state tree.old))) }
    ensures acted { Acted T.Tree (MayHaveGone now path (T.state tree.old))
        (Removes (same_path path)) 1 now tree.old tree.new result }
    ensures order { DonePart (removal_at (T.state tree.old) path ∷ []) (T.steps tree.old) (T.steps tree.new) }
    ensures whole { OnOk result (T.steps tree.new ≡ T.steps tree.old ++ removal_at (T.state tree.old) path ∷ []) }
{
    let step = removal(tree, path);
    try_step(tree, step, now)
}

/// Returns the step that removes the object at a path: `RemoveDir` for a directory, otherwise `Unlink`. The call does
/// not allocate.
///
/// The step is possible only if there is an object that has nothing below it (unlink(2), rmdir(2)).
pub fn removal<T: Tree>(tree: &T, path: TreePath) -> Step
    ensures { result ≡ removal_at (T.state tree.now) path }
{
    removal_before(tree, path, None)
}

/// Returns the steps that remove the objects at some paths, in the order of the paths. All paths must be present.
fn removals<T: Tree>(alloc: Global, tree: &T, paths: Vec<TreePath>) -> Result<Vec<Step>, AllocError>
    requires { (q : Path) → is_one_of paths.items q ≡ true → is_some (places (T.state tree.now) q) ≡ true }
    ensures { IfOk result (λ steps. steps.items ≡ map (removal_at (T.state tree.now)) paths.items) }
{
    let mut left = paths;
    left.reverse();
    let mut steps = Vec::with_capacity(alloc, left.len())?;
    while let Some(path) = left.pop() {
        let step = removal_before(tree, path, left.last());
        steps.push(step)?;
    }
    Ok(steps)
}

/// Returns the step that removes the object at a path, as `removal` does. The next path of a list may be given, which
/// must be present: if it is directly below the path, the call does not look.
fn removal_before<T: Tree>(tree: &T, path: TreePath, next: Option<&TreePath>) -> Step
    requires { IfSome next (λ q. is_some (places (T.state tree.now) q.now) ≡ true) }
    ensures { result ≡ removal_at (T.state tree.now) path }
{
    if is_directory_above(tree, &path, next) {
        Step::RemoveDir { path }
    } else {
        Step::Unlink { path }
    }
}

/// Removes the objects at some paths, the last path of the list first.
///
/// Each path must be present, must not be the root, and must be in the list once. Everything in a listed directory
/// must come after it in the list. A directory that stays and loses a child gets new timestamps: `now`, in
/// microseconds since 1970-01-01 UTC.
///
/// The errors are those of a step: `Failed` or `Memory`. After an error, some paths from the end of the list are
/// removed.
pub fn remove_all<T: Tree>(
    alloc: Global,
    tree: &mut T,
    paths: Vec<TreePath>,
    now: u64,
) -> Result<(), TreeFault>
    requires { AreRemovable (T.state tree.old) paths.items }
    ensures gone { OnOk result
        (places (T.state tree.new) ≡ without (is_one_of paths.items) (modified now) (T.state tree.old)) }
    ensures acted { Acted T.Tree (Pruned (is_one_of paths.items) (T.state tree.old))
        (Removes (is_one_of paths.items)) (length paths.items) now tree.old tree.new result }
    ensures order { DonePart (map (removal_at (T.state tree.old)) (reverse paths.items))
        (T.steps tree.old) (T.steps tree.new) }
    ensures whole { OnOk result
        (T.steps tree.new ≡ T.steps tree.old ++ map (removal_at (T.state tree.old)) (reverse paths.items)) }
{
    let steps = removals(alloc, tree, paths)?;
    try_all(tree, steps, now)
}

/// Removes everything below a path, in post-order: the children of a directory in byte order, each after everything
/// below it.
///
/// The call does nothing if the path is absent or is not a directory. `now` is in microseconds since 1970-01-01 UTC.
/// The errors are those of a step: `Failed` or `Memory`. After an error some of the objects may be removed.
pub fn remove_below<T: Tree>(
    alloc: Global,
    tree: &mut T,
    path: &TreePath,
    now: u64,
) -> Result<(), TreeFault>
    ensures emptied { OnOk result
        (places (T.state tree.new) ≡ emptied now path.now (T.state tree.old)) }
    ensures acted { Acted T.Tree (Pruned (is_below path.now) (T.state tree.old))
        (Removes (is_below path.now))
        (count_below (T.state tree.old) path.now) now tree.old tree.new result }
    ensures order { DoesInPostOrder (stands_below (T.state tree.old) path.now) (removal_at (T.state tree.old))
        (T.steps tree.old) (T.steps tree.new) }
    ensures whole { OnOk result (DidInPostOrder (stands_below (T.state tree.old) path.now)
        (removal_at (T.state tree.old)) (T.steps tree.old) (T.steps tree.new)) }
{
    let paths = below(alloc, tree, path)?;
    remove_all(alloc, tree, paths, now)
}
