//! Subtrees of new objects: they are made under a staging name, and renamed into place in one step.
ghost use Rattle.std.specs.Prelude.{◌≡◌, ◌≢◌, ◌+◌, [], true, is_some, OnOk};
ghost use Rattle.pv_walk.specs.Edits.{count_at};
ghost use Rattle.pv_path.specs.Paths.{parent_of, staging_of};
ghost use Rattle.pv_steps.specs.declared.node.Kind.TheVariants.{Directory};
ghost use Rattle.pv_steps.specs.Acting.{Acted};
ghost use Rattle.pv_steps.specs.Trees.{places, IsKind, IsAbsentIn};
ghost use Rattle.pv_walk.specs.Copying.{with_subtree, GivesPart, IsStagingOf, IsCopyStep};
ghost use Rattle.pv_walk.specs.Replacing.{Replacing};
ghost use Rattle.pv_walk.specs.Pieces.{CanDo, IsDone, GivesPiece, PieceWay, piece_cost, cost_of, IsPlan, made_of};
ghost use Rattle.pv_walk.specs.Stages.{InStages, Staging};
ghost use Rattle.pv_walk.specs.Staging.{can_stage};

use crate::listing::Piece;
use crate::publishing::publish_staged;
use crate::setting_metadata::set_metadata;
use crate::stage::begin;
use pv_path::{TreePath, staging};
use pv_steps::{Tree, TreeFault};
use std::alloc::Global;

/// Puts the subtree that pieces of work make at a path in a directory, in place of the old object with everything
/// below it.
///
/// The subtree is complete under the staging name before anything of the old object is removed. Then it is renamed
/// into place in one step.
pub(crate) fn put_subtree<T: Tree>(
    alloc: Global,
    tree: &mut T,
    path: &TreePath,
    pieces: Vec<Piece>,
    now: u64,
) -> Result<(), TreeFault>
    requires not_root { path.now ≢ [] }
    requires short { can_stage path.now ≡ true }
    requires parent { IsKind Directory (T.state tree.old) (parent_of path.now) }
    requires free { IsAbsentIn (places (T.state tree.old)) (staging_of path.now) }
    requires plan { IsPlan pieces.items }
    requires top { is_some (made_of pieces.items []) ≡ true }
    ensures ok { OnOk result (places (T.state tree.new)
        ≡ with_subtree now path.now (made_of pieces.items) (places (T.state tree.old))) }
    ensures acted { Acted T.Tree (Replacing path.now (made_of pieces.items) (T.state tree.old))
        (IsCopyStep path.now (made_of pieces.items))
        (cost_of pieces.items + (1 + count_at (T.state tree.old) path.now)) now tree.old tree.new result }
    // Under the staging name there are only stages of the subtree.
    ensures stages { Acted T.Tree (InStages (staging_of path.now) (made_of pieces.items))
        (IsCopyStep path.now (made_of pieces.items))
        (cost_of pieces.items + (1 + count_at (T.state tree.old) path.now)) now tree.old tree.new result }
{
    let stage = staging(alloc, path)?;
    make_subtree(tree, &stage, pieces, now)?;
    publish_staged(alloc, tree, stage, path, now)
}

/// Makes a subtree under the staging name of a path, from the last piece of the list on.
///
/// After an error some of the steps may be done, but only the staging name and what is below it has changed.
pub(crate) fn stage_subtree<T: Tree>(
    alloc: Global,
    tree: &mut T,
    path: &TreePath,
    pieces: Vec<Piece>,
    now: u64,
) -> Result<(), TreeFault>
    requires not_root { path.now ≢ [] }
    requires short { can_stage path.now ≡ true }
    requires parent { IsKind Directory (T.state tree.old) (parent_of path.now) }
    requires free { IsAbsentIn (places (T.state tree.old)) (staging_of path.now) }
    requires plan { IsPlan pieces.items }
    requires top { is_some (made_of pieces.items []) ≡ true }
    ensures ok { OnOk result (places (T.state tree.new)
        ≡ with_subtree now (staging_of path.now) (made_of pieces.items) (places (T.state tree.old))) }
    ensures acted { Acted T.Tree (Staging (staging_of path.now) (made_of pieces.items) (T.state tree.old))
        (IsStagingOf path.now (made_of pieces.items)) (cost_of pieces.items) now tree.old tree.new result }
{
    let stage = staging(alloc, path)?;
    make_subtree(tree, &stage, pieces, now)
}

/// Makes a subtree at an absent path in a directory, from the last piece of the list on.
///
/// After an error some of the steps may be done, but only the path and what is below it has changed.
fn make_subtree<T: Tree>(
    tree: &mut T,
    path: &TreePath,
    pieces: Vec<Piece>,
    now: u64,
) -> Result<(), TreeFault>
    requires not_root { path.now ≢ [] }
    requires parent { IsKind Directory (T.state tree.old) (parent_of path.now) }
    requires free { IsAbsentIn (places (T.state tree.old)) path.now }
    requires plan { IsPlan pieces.items }
    requires top { is_some (made_of pieces.items []) ≡ true }
    ensures ok { OnOk result (places (T.state tree.new)
        ≡ with_subtree now path.now (made_of pieces.items) (places (T.state tree.old))) }
    ensures acted { Acted T.Tree (Staging path.now (made_of pieces.items) (T.state tree.old))
        (GivesPart path.now (made_of pieces.items)) (cost_of pieces.items) now tree.old tree.new result }
{
    let mut left = pieces;
    while let Some(piece) = left.pop() {
        put_piece(tree, path, piece, now)?;
    }
    Ok(())
}

/// Does one piece of work.
fn put_piece<T: Tree>(
    tree: &mut T,
    stage: &TreePath,
    piece: Piece,
    now: u64,
) -> Result<(), TreeFault>
    requires { CanDo stage.now piece (T.state tree.old) }
    ensures acted { Acted T.Tree (PieceWay stage.now piece (T.state tree.old))
        (GivesPiece stage.now piece (T.state tree.old)) (piece_cost piece)
        now tree.old tree.new result }
    ensures ok { OnOk result
        (IsDone now stage.now piece (T.state tree.old) (T.state tree.new)) }
{
    match piece {
        Piece::Make(rest, what) => begin(tree, &stage.followed_by(rest.names())?, what, now),
        Piece::Give(rest, new) => set_metadata(tree, &stage.followed_by(rest.names())?, &new, now),
    }
}
