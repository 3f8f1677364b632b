//! Prepares a path for a new object: removes what is staged along it, and makes absent parents.
ghost use Rattle.std.specs.Prelude.{◌≡◌, ◌≢◌, ◌≤◌, ◌+◌, ◌*◌, [], true, false, is_some, IfOk, OnOk, if◌then◌else◌};
ghost use Rattle.pv_path.specs.Paths.{parent_of, has_staging, staging_of};
ghost use Rattle.pv_steps.specs.declared.node.Kind.TheVariants.{Directory};
ghost use Rattle.pv_steps.specs.Trees.{places, IsKind, IsAbsentIn, IsTree};
ghost use Rattle.pv_steps.specs.Acting.{Acted};
ghost use Rattle.pv_walk.specs.Staging.{staging_names, count_at_all, can_stage, most_new};
ghost use Rattle.pv_walk.specs.Putting.{Putting, IsPutStep};
ghost use Rattle.pv_walk.specs.Preparing.{prepared, with_parent, with_parents, parent_file, Preparing, IsPrepareStep, parent_count, CanPass, IsSwept};

use crate::new_file::{NewFile, NewKind};
use crate::put::put_over;
use crate::sweeping::sweep;
use crate::walking::go_down;
use pv_path::{TreePath, parent};
use pv_steps::{Tree, TreeFault, is_present};
use std::alloc::{AllocError, Global};

/// Prepares a path for a new object: removes what an earlier run has staged along the path, and makes each absent
/// parent.
///
/// A new parent is a directory with mode 0755 that belongs to root. `now` is in microseconds since 1970-01-01 UTC. Each
/// name of the path must have at most 250 bytes, and none may be a staging name. Everything that is present above the
/// path must be a directory.
///
/// Afterwards what is at the path is as before. If the path is not the root, its parent is a directory, and nothing
/// is at its staging name. The errors are those of a step: `Failed` or `Memory`. After an error some of the steps
/// may be done.
pub fn prepare<T: Tree>(
    alloc: Global,
    tree: &mut T,
    path: &TreePath,
    now: u64,
) -> Result<(), TreeFault>
    requires short { can_stage path.now ≡ true }
    requires unstaged { has_staging path.now ≡ false }
    requires pass { CanPass path.now (T.state tree.old) }
    ensures ok { OnOk result (places (T.state tree.new)
        ≡ prepared now path.now (places (T.state tree.old))) }
    // What a new object at the path needs.
    ensures here { OnOk result (places (T.state tree.new) path.now
        ≡ places (T.state tree.old) path.now) }
    ensures parent { OnOk result (path.now ≢ []
        → IsKind Directory (T.state tree.new) (parent_of path.now)) }
    ensures free { OnOk result (path.now ≢ []
        → IsAbsentIn (places (T.state tree.new)) (staging_of path.now)) }
    ensures acted { Acted T.Tree (Preparing path.now (T.state tree.old)) (IsPrepareStep path.now (T.state tree.old))
        (count_at_all (T.state tree.old) (staging_names path.now)
        + most_new * parent_count path.now (T.state tree.old)) now tree.old tree.new result }
{
    sweep(alloc, tree, path, now)?;
    put_parents(alloc, tree, path, now)
}

/// Makes a directory at each absent component above a path, from the root on. If the parent is present, none is absent,
/// and nothing is done.
fn put_parents<T: Tree>(
    alloc: Global,
    tree: &mut T,
    path: &TreePath,
    now: u64,
) -> Result<(), TreeFault>
    requires short { can_stage path.now ≡ true }
    requires unstaged { has_staging path.now ≡ false }
    requires pass { CanPass path.now (T.state tree.old) }
    requires swept { IsSwept path.now (T.state tree.old) }
    ensures ok { OnOk result (places (T.state tree.new)
        ≡ with_parents now path.now (places (T.state tree.old))) }
    ensures here { OnOk result (places (T.state tree.new) path.now
        ≡ places (T.state tree.old) path.now) }
    ensures parent { OnOk result (IsKind Directory (T.state tree.new) (parent_of path.now)) }
    ensures swept { OnOk result (IsSwept path.now (T.state tree.new)) }
    ensures acted { Acted T.Tree (Preparing path.now (T.state tree.old)) (IsPrepareStep path.now (T.state tree.old))
        (most_new * parent_count path.now (T.state tree.old)) now tree.old tree.new result }
{
    if has_parent(alloc, tree, path)? {
        return Ok(());
    }
    let mut place = TreePath::root(alloc);
    let names = path.names();
    for name in &names[..names.len().saturating_sub(1)] {
        go_down(&mut place, name)?;
        put_parent(alloc, tree, &place, now)?;
    }
    Ok(())
}

/// Returns whether the parent of a path is present. The root counts as its own parent.
fn has_parent<T: Tree>(alloc: Global, tree: &T, path: &TreePath) -> Result<bool, AllocError>
    ensures present { IfOk result (λ has. has ≡ is_some (places (T.state tree.now) (parent_of path.now))) }
    ensures tree { IsTree (T.state tree.now) }
{
    match parent(alloc, path)? {
        Some(parent) => Ok(is_present(tree, &parent)),
        None => Ok(is_present(tree, path)),
    }
}

/// Makes a directory that belongs to root at a component, if nothing is there.
fn put_parent<T: Tree>(
    alloc: Global,
    tree: &mut T,
    place: &TreePath,
    now: u64,
) -> Result<(), TreeFault>
    requires not_root { place.now ≢ [] }
    requires short { can_stage place.now ≡ true }
    requires unstaged { has_staging place.now ≡ false }
    requires parent { IsKind Directory (T.state tree.old) (parent_of place.now) }
    requires free { IsAbsentIn (places (T.state tree.old)) (staging_of place.now) }
    ensures ok { OnOk result (places (T.state tree.new)
        ≡ with_parent now (places (T.state tree.old)) place.now) }
    ensures acted { Acted T.Tree (Putting place.now parent_file (T.state tree.old))
        (IsPutStep place.now parent_file)
        (if is_some (places (T.state tree.old) place.now) then 0 else most_new)
        now tree.old tree.new result }
{
    if is_present(tree, place) {
        return Ok(());
    }
    put_over(alloc, tree, place, &parent_file(), now)
}

/// Returns the directory that an absent parent becomes.
fn parent_file() -> NewFile
    ensures { result ≡ parent_file }
{
    NewFile {
        what: NewKind::Directory,
        mode: 0o755,
        uid: 0,
        gid: 0,
    }
}
