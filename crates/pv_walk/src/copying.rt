//! Copies of an object with everything below it (tmpfiles.d(5), type `C`).
ghost use Rattle.std.specs.Prelude.{◌≡◌, ◌≢◌, ◌+◌, ◌*◌, [], true, false, OnOk};
ghost use Rattle.pv_walk.specs.Edits.{count_at};
ghost use Rattle.pv_walk.specs.Nodes.{object_states_of};
ghost use Rattle.pv_path.specs.Paths.{parent_of, has_staging, staging_of};
ghost use Rattle.pv_steps.specs.declared.node.Kind.TheVariants.{Directory};
ghost use Rattle.pv_steps.specs.Acting.{Acted};
ghost use Rattle.pv_steps.specs.Trees.{places, IsKind, IsAbsentIn, IsPresent};
ghost use Rattle.pv_walk.specs.Copying.{copy_from, copied_count, topped, with_subtree, IsStagingOf, IsCopyStep, IsTopNode};
ghost use Rattle.pv_walk.specs.Replacing.{Replacing};
ghost use Rattle.pv_walk.specs.Stages.{InStages, Staging};
ghost use Rattle.pv_walk.specs.Staging.{can_stage, most_staged, most_new};

use crate::listing::pieces_of;
use crate::subtree::{put_subtree, stage_subtree};
use pv_path::TreePath;
use pv_steps::{Tree, TreeFault};
use std::alloc::Global;

/// The mode and the owners that the top of a copy gets. A field that is `None` is taken from the source.
#[derive(Clone, Copy)]
pub struct TopNode {
    /// The mode as the 12 bits of chmod(2), at most 07777. It is not used if the top is a link.
    pub mode: Option<u16>,
    /// The user ID of the owner, at most 4294967294.
    pub uid: Option<u32>,
    /// The ID of the owning group, at most 4294967294.
    pub gid: Option<u32>,
}

/// Copies the object at `source`, with everything below it, to the staging name of `path`.
///
/// Objects at staging names below the source are not copied. Each copied object has everything that it has at the
/// source, except that its four timestamps are `now`, in microseconds since 1970-01-01 UTC. The top gets the mode
/// and the owners of `top`. A directory gets its owners and its mode after everything below it was made.
///
/// The path must not be the root, its names must have at most 250 bytes, and its parent must be a directory. Nothing
/// may be at the staging name, and the source must be present.
///
/// The errors are those of a step: `Failed` or `Memory`. After an error some of the steps may be done, but only the
/// staging name and what is below it has changed, timestamps left out. The objects to copy are listed before the
/// first step.
pub fn stage_copy<T: Tree>(
    alloc: Global,
    tree: &mut T,
    source: &TreePath,
    path: &TreePath,
    top: &TopNode,
    now: u64,
) -> Result<(), TreeFault>
    requires not_root { path.now ≢ [] }
    requires short { can_stage path.now ≡ true }
    requires parent { IsKind Directory (T.state tree.old) (parent_of path.now) }
    requires free { IsAbsentIn (places (T.state tree.old)) (staging_of path.now) }
    requires source { IsPresent (T.state tree.old) source.now }
    requires top { IsTopNode top.now }
    ensures ok { OnOk result (places (T.state tree.new)
        ≡ with_subtree now (staging_of path.now) (copy_from (topped top.now) source.now (object_states_of (places (T.state tree.old))))
        (places (T.state tree.old))) }
    // Whatever the answer, under the staging name there are only stages of the copy, and nothing else has changed.
    ensures acted { let subtree = copy_from (topped top.now) source.now (object_states_of (places (T.state tree.old))) in
        Acted T.Tree (Staging (staging_of path.now) subtree (T.state tree.old)) (IsStagingOf path.now subtree)
        (most_staged * copied_count subtree source.now (T.state tree.old)) now tree.old tree.new result }
{
    let pieces = pieces_of(alloc, tree, source, top)?;
    stage_subtree(alloc, tree, path, pieces, now)
}

/// Copies the object at `source`, with everything below it, to `path`. The copy replaces the old object with
/// everything below it.
///
/// The copy is complete under the staging name before anything of the old object is removed. Then it is renamed into
/// place in one step. An old object that the rename can replace by itself is not removed first. `stage_copy` says what
/// each copied object has, and gives the conditions. One more condition is that no name of the path is a staging name.
///
/// The errors are those of a step: `Failed` or `Memory`. After an error some of the steps may be done. At each
/// moment the old object is as it was, or the copy is complete at its staging name or at the path.
pub fn copy_over<T: Tree>(
    alloc: Global,
    tree: &mut T,
    source: &TreePath,
    path: &TreePath,
    top: &TopNode,
    now: u64,
) -> Result<(), TreeFault>
    requires not_root { path.now ≢ [] }
    requires short { can_stage path.now ≡ true }
    requires unstaged { has_staging path.now ≡ false }
    requires parent { IsKind Directory (T.state tree.old) (parent_of path.now) }
    requires free { IsAbsentIn (places (T.state tree.old)) (staging_of path.now) }
    requires source { IsPresent (T.state tree.old) source.now }
    requires top { IsTopNode top.now }
    ensures ok { OnOk result (places (T.state tree.new)
        ≡ with_subtree now path.now (copy_from (topped top.now) source.now (object_states_of (places (T.state tree.old))))
        (places (T.state tree.old))) }
    ensures acted { let subtree = copy_from (topped top.now) source.now (object_states_of (places (T.state tree.old))) in
        Acted T.Tree (Replacing path.now subtree (T.state tree.old)) (IsCopyStep path.now subtree)
        (count_at (T.state tree.old) path.now
        + most_new * copied_count subtree source.now (T.state tree.old)) now tree.old tree.new result }
    // Under the staging name there are only stages of the copy.
    ensures stages { let subtree = copy_from (topped top.now) source.now (object_states_of (places (T.state tree.old))) in
        Acted T.Tree (InStages (staging_of path.now) subtree) (IsCopyStep path.now subtree)
        (count_at (T.state tree.old) path.now
        + most_new * copied_count subtree source.now (T.state tree.old)) now tree.old tree.new result }
{
    let pieces = pieces_of(alloc, tree, source, top)?;
    put_subtree(alloc, tree, path, pieces, now)
}
