//! Puts new objects at paths.
ghost use Rattle.std.specs.Prelude.{◌≡◌, ◌≢◌, ◌+◌, [], ◌∷◌, true, false, IfOk, OnOk};
ghost use Rattle.pv_path.specs.Paths.{parent_of, has_staging, staging_of};
ghost use Rattle.pv_steps.specs.declared.node.Kind.TheVariants.{Directory};
ghost use Rattle.pv_steps.specs.Trees.{places, IsKind, IsAbsentIn};
ghost use Rattle.pv_steps.specs.Steps.{made};
ghost use Rattle.pv_walk.specs.Edits.{count_at};
ghost use Rattle.pv_steps.specs.Acting.{Acted};
ghost use Rattle.pv_walk.specs.declared.listing.Piece.TheVariants.{Make, Give};
ghost use Rattle.pv_walk.specs.Making.{new_metadata};
ghost use Rattle.pv_walk.specs.Staging.{IsNewFile, GivesNew, new_object, can_stage, most_staged, most_new};
ghost use Rattle.pv_walk.specs.Putting.{IsPutStep, put_over};
ghost use Rattle.pv_walk.specs.Replacing.{Replacing, new_subtree};
ghost use Rattle.pv_walk.specs.Stages.{InStages, Staging};

use crate::listing::Piece;
use crate::new_file::{NewFile, metadata_of};
use crate::subtree::{put_subtree, stage_subtree};
use pv_path::TreePath;
use pv_steps::{Tree, TreeFault};
use std::alloc::{AllocError, Global};

/// Puts a new object at a path in a directory, in place of the old object with everything below it.
///
/// The new object is complete under its staging name before anything of the old object is removed. Then it is
/// renamed into place in one step. Its four timestamps are `now`, in microseconds since 1970-01-01 UTC.
///
/// The path must not be the root. Its names must have at most 250 bytes (the staging prefix has five), and none may be
/// a staging name. Its parent must be a directory, nothing may be at its staging name, and the parts of the new object
/// must be in range (definition `IsNewFile`).
///
/// The errors are those of a step: `Failed` or `Memory`. After an error some of the steps may be done. At each
/// moment the old object is as it was, or the new one is complete at its staging name or at the path.
pub fn put_over<T: Tree>(
    alloc: Global,
    tree: &mut T,
    path: &TreePath,
    new: &NewFile,
    now: u64,
) -> Result<(), TreeFault>
    requires not_root { path.now ≢ [] }
    requires short { can_stage path.now ≡ true }
    requires unstaged { has_staging path.now ≡ false }
    requires parent { IsKind Directory (T.state tree.old) (parent_of path.now) }
    requires free { IsAbsentIn (places (T.state tree.old)) (staging_of path.now) }
    requires new { IsNewFile new.now }
    ensures ok { OnOk result (places (T.state tree.new)
        ≡ put_over now path.now new.now (places (T.state tree.old))) }
    ensures acted { Acted T.Tree (Replacing path.now (new_subtree new.now) (T.state tree.old))
        (IsPutStep path.now new.now) (count_at (T.state tree.old) path.now + most_new)
        now tree.old tree.new result }
    // Under the staging name there are only stages of the new object.
    ensures stages { Acted T.Tree (InStages (staging_of path.now) (new_subtree new.now))
        (IsPutStep path.now new.now) (count_at (T.state tree.old) path.now + most_new)
        now tree.old tree.new result }
{
    let pieces = pieces_of_new(alloc, new)?;
    put_subtree(alloc, tree, path, pieces, now)
}

/// Makes a new object under the staging name of a path, and gives it its content, its owners and its mode.
///
/// Its four timestamps are `now`, in microseconds since 1970-01-01 UTC. The conditions are those of `put_over`,
/// except that names of the path may be staging names.
///
/// The errors are those of a step: `Failed` or `Memory`. After an error some of the steps may be done, but only the
/// staging name has changed, timestamps left out.
pub fn stage_file<T: Tree>(
    alloc: Global,
    tree: &mut T,
    path: &TreePath,
    new: &NewFile,
    now: u64,
) -> Result<(), TreeFault>
    requires not_root { path.now ≢ [] }
    requires short { can_stage path.now ≡ true }
    requires parent { IsKind Directory (T.state tree.old) (parent_of path.now) }
    requires free { IsAbsentIn (places (T.state tree.old)) (staging_of path.now) }
    requires new { IsNewFile new.now }
    ensures acted { Acted T.Tree (Staging (staging_of path.now) (new_subtree new.now) (T.state tree.old))
        (GivesNew (staging_of path.now) new.now) most_staged now tree.old tree.new result }
    ensures ok { OnOk result (places (T.state tree.new)
        ≡ made now (staging_of path.now) (new_object new.now now) (places (T.state tree.old))) }
{
    let pieces = pieces_of_new(alloc, new)?;
    stage_subtree(alloc, tree, path, pieces, now)
}

/// Returns the pieces of work of one new object, the last one first.
fn pieces_of_new(alloc: Global, new: &NewFile) -> Result<Vec<Piece>, AllocError>
    ensures { IfOk result (λ pieces. pieces.items
        ≡ Give [] (new_metadata new.now) ∷ Make [] new.now.what ∷ []) }
{
    let mut pieces = Vec::new(alloc);
    pieces.push(Piece::Give(TreePath::root(alloc), metadata_of(alloc, new)))?;
    pieces.push(Piece::Make(TreePath::root(alloc), new.what.copy()?))?;
    Ok(pieces)
}
