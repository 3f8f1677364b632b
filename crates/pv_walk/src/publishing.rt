//! Renames staged objects into place.
ghost use Rattle.std.specs.Prelude.{◌≡◌, ◌≢◌, ◌⊎◌, ◌+◌, [], ◌∷◌, ◌++◌, true, OnOk};
ghost use Rattle.pv_path.specs.Paths.{is_prefix, staging_of};
ghost use Rattle.pv_steps.specs.Trees.{places, IsPresent, IsTree};
ghost use Rattle.pv_steps.specs.Steps.{Movable, Yields, moved};
ghost use Rattle.pv_steps.specs.Content.{Removes};
ghost use Rattle.pv_walk.specs.Edits.{count_at};
ghost use Rattle.pv_steps.specs.Acting.{Acted};
ghost use Rattle.pv_walk.specs.Staging.{IsPublishing, can_stage};
ghost use Rattle.pv_walk.specs.Removal.{removal_at, Clearing, Publishing, MayHaveMoved};
ghost use Rattle.pv_walk.specs.PostOrder.{must_go, DidInPostOrder, DoesInPostOrder, PublishesInOrder};
ghost use Rattle.pv_steps.specs.declared.step.Step.TheVariants.{Rename};

use crate::remove::remove_below;
use crate::sweeping::take_away;
use pv_path::{TreePath, staging};
use pv_steps::{Step, Tree, TreeFault, is_directory, is_present, try_step};
use std::alloc::Global;

/// Removes what a Rename from the staging name cannot replace at a path, in post-order.
///
/// If a directory replaces a directory, this is everything in the old one. If neither is a directory, it is
/// nothing. Otherwise it is the old object with everything below it.
fn make_way<T: Tree>(
    alloc: Global,
    tree: &mut T,
    stage: &TreePath,
    path: &TreePath,
    now: u64,
) -> Result<(), TreeFault>
    requires stage { stage.now ≡ staging_of path.now }
    requires not_root { path.now ≢ [] }
    requires staged { IsPresent (T.state tree.old) stage.now }
    ensures yields { OnOk result (Yields (places (T.state tree.new)) stage.now path.now) }
    ensures same { OnOk result
        (moved now stage.now path.now (places (T.state tree.new))
        ≡ moved now stage.now path.now (places (T.state tree.old))) }
    ensures staged { OnOk result (IsPresent (T.state tree.new) stage.now) }
    ensures tree { IsTree (T.state tree.old) }
    ensures acted { Acted T.Tree (Clearing path.now (T.state tree.old)) (Removes (is_prefix path.now))
        (count_at (T.state tree.old) path.now) now tree.old tree.new result }
    ensures order { DoesInPostOrder (must_go (T.state tree.old) path.now) (removal_at (T.state tree.old))
        (T.steps tree.old) (T.steps tree.new) }
    ensures whole { OnOk result (DidInPostOrder (must_go (T.state tree.old) path.now)
        (removal_at (T.state tree.old)) (T.steps tree.old) (T.steps tree.new)) }
{
    if !is_present(tree, path) {
        return Ok(());
    }
    match (is_directory(tree, stage), is_directory(tree, path)) {
        (true, true) => remove_below(alloc, tree, path, now),
        (false, false) => Ok(()),
        (true, false) => take_away(alloc, tree, path, now),
        (false, true) => take_away(alloc, tree, path, now),
    }
}

/// Renames what is staged to its path.
fn rename<T: Tree>(tree: &mut T, stage: TreePath, path: TreePath, now: u64) -> Result<(), TreeFault>
    requires stage { stage ≡ staging_of path }
    requires not_root { path ≢ [] }
    requires movable { Movable (places (T.state tree.old)) stage path }
    ensures moved { OnOk result
        (places (T.state tree.new) ≡ moved now stage path (places (T.state tree.old))) }
    ensures acted { Acted T.Tree (MayHaveMoved now path (T.state tree.old)) (IsPublishing path)
        1 now tree.old tree.new result }
    ensures order { T.steps tree.new ≡ T.steps tree.old
        ⊎ T.steps tree.new ≡ T.steps tree.old ++ Rename stage path ∷ [] }
{
    let step = Step::Rename {
        from: stage,
        to: path,
    };
    try_step(tree, step, now)
}

/// Renames the object at the staging name of a path into place, in one step with everything below it (rename(2)).
///
/// For example, `/run/.#tf-app` becomes `/run/app`. Before that, the call removes from the old object only what this
/// rename cannot replace. It does so in post-order: the children of a directory in byte order, each after everything
/// below it. `now` is in microseconds since 1970-01-01 UTC. The path must not be the root, its names must
/// have at most 250 bytes, and there must be an object at its staging name.
///
/// The errors are those of a step: `Failed` or `Memory`. After an error some of the steps may be done, so the old
/// object may be removed in part.
pub fn publish<T: Tree>(
    alloc: Global,
    tree: &mut T,
    path: &TreePath,
    now: u64,
) -> Result<(), TreeFault>
    requires short { can_stage path.now ≡ true }
    requires not_root { path.now ≢ [] }
    requires staged { IsPresent (T.state tree.old) (staging_of path.now) }
    ensures moved { OnOk result
        (places (T.state tree.new)
        ≡ moved now (staging_of path.now) path.now (places (T.state tree.old))) }
    ensures acted { Acted T.Tree (Publishing now path.now (T.state tree.old))
        (IsPublishing path.now)
        (1 + count_at (T.state tree.old) path.now) now tree.old tree.new result }
    ensures order { PublishesInOrder (T.state tree.old) path.now (T.steps tree.old) (T.steps tree.new) }
{
    let stage = staging(alloc, path)?;
    publish_staged(alloc, tree, stage, path, now)
}

/// Renames the object at the staging name of a path into place, where this staging name is known.
pub(crate) fn publish_staged<T: Tree>(
    alloc: Global,
    tree: &mut T,
    stage: TreePath,
    path: &TreePath,
    now: u64,
) -> Result<(), TreeFault>
    requires stage { stage ≡ staging_of path.now }
    requires not_root { path.now ≢ [] }
    requires staged { IsPresent (T.state tree.old) (staging_of path.now) }
    ensures moved { OnOk result
        (places (T.state tree.new)
        ≡ moved now (staging_of path.now) path.now (places (T.state tree.old))) }
    ensures acted { Acted T.Tree (Publishing now path.now (T.state tree.old))
        (IsPublishing path.now)
        (1 + count_at (T.state tree.old) path.now) now tree.old tree.new result }
    ensures order { PublishesInOrder (T.state tree.old) path.now (T.steps tree.old) (T.steps tree.new) }
{
    make_way(alloc, tree, &stage, path, now)?;
    rename(tree, stage, path.copy()?, now)
}
