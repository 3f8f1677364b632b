//! The new texts of account files are put into a tree.
ghost use Rattle.std.specs.Prelude.{◌≡◌, ◌≤◌, ◌+◌, ◌*◌, [], fold, length, OnOk};
ghost use Rattle.std.specs.List.{AllByRecursion};
ghost use Rattle.pv_path.specs.Paths.{is_prefix, staging_of};
ghost use Rattle.pv_steps.specs.declared.node.Kind.TheVariants.{Directory};
ghost use Rattle.pv_steps.specs.Trees.{places, IsAbsentIn, IsKind, IsPresent};
ghost use Rattle.pv_steps.specs.Acting.{Acted};
ghost use Rattle.pv_steps.specs.Steps.{made};
ghost use Rattle.pv_walk.specs.Edits.{SameOutside};
ghost use Rattle.pv_walk.specs.Preparing.{parent_file, with_parent};
ghost use Rattle.pv_walk.specs.Putting.{IsPutStep, Putting};
ghost use Rattle.pv_walk.specs.Staging.{count_at_all, new_object, GivesNew};
ghost use Rattle.pv_sysusers.specs.Edits.{AreEdits, IsFree, most_edited, with_edit};
ghost use Rattle.pv_layers.specs.Places.{etc};
ghost use Rattle.pv_sysusers.specs.FileWriting.{AccountWay, IsAccountStep, IsEditOf, PutsDirectory, carried_out, directory_steps, most_directory, most_put, swept_names};
ghost use Rattle.pv_sysusers.specs.Turns.{InTurn, NoneComes, TurnWay};

use crate::edit::Edit;
use crate::publishing::publish_all;
use crate::staging::stage_all;
use crate::sweeping::sweep_all;
use pv_layers::etc_path;
use pv_path::{TreePath, staging};
use pv_steps::{Step, Tree, TreeFault, is_present, try_step};
use pv_walk::publish;
use std::alloc::Global;

/// Removes what earlier runs have staged, and then puts the new texts at their paths. All files are staged before the
/// first one is renamed into place.
pub(crate) fn write_account_files<T: Tree>(
    alloc: Global,
    tree: &mut T,
    edits: &[Edit],
    now: u64,
) -> Result<(), TreeFault>
    requires edits { AreEdits edits.now }
    requires files { AllByRecursion (IsEditOf (places (T.state tree.old))) edits.now }
    requires pass { IsPresent (T.state tree.old) etc → IsKind Directory (T.state tree.old) etc }
    ensures ok { OnOk result (places (T.state tree.new) ≡ carried_out now edits.now (places (T.state tree.old))) }
    ensures acted { Acted T.Tree (AccountWay edits.now (T.state tree.old)) (IsAccountStep edits.now (T.state tree.old))
        (count_at_all (T.state tree.old) swept_names + most_put edits.now (places (T.state tree.old))) now tree.old tree.new result }
    ensures turn { Acted T.Tree (TurnWay edits.now (T.state tree.old)) (IsAccountStep edits.now (T.state tree.old))
        (count_at_all (T.state tree.old) swept_names + most_put edits.now (places (T.state tree.old))) now tree.old tree.new result }
{
    sweep_all(alloc, tree, now)?;
    match edits {
        [] => Ok(()),
        [_, ..] => put_all(alloc, tree, edits, now),
    }
}

/// Puts the new texts of files at their paths. It first makes /etc, if that is absent.
fn put_all<T: Tree>(alloc: Global, tree: &mut T, edits: &[Edit], now: u64) -> Result<(), TreeFault>
    requires some { 1 ≤ length edits.now }
    requires edits { AreEdits edits.now }
    requires files { AllByRecursion (IsEditOf (places (T.state tree.old))) edits.now }
    requires pass { IsPresent (T.state tree.old) etc → IsKind Directory (T.state tree.old) etc }
    requires above { IsAbsentIn (places (T.state tree.old)) (staging_of etc) }
    requires free { AllByRecursion (IsFree (places (T.state tree.old))) edits.now }
    ensures ok { OnOk result (places (T.state tree.new) ≡ fold (with_edit now) (with_parent now (places (T.state tree.old)) etc) edits.now) }
    ensures acted { Acted T.Tree (AccountWay edits.now (T.state tree.old)) (IsAccountStep edits.now (T.state tree.old))
        (directory_steps (places (T.state tree.old)) + most_edited * length edits.now) now tree.old tree.new result }
    ensures turn { Acted T.Tree (InTurn edits.now) (IsAccountStep edits.now (T.state tree.old))
        (directory_steps (places (T.state tree.old)) + most_edited * length edits.now) now tree.old tree.new result }
{
    put_directory(alloc, tree, now)?;
    stage_all(alloc, tree, edits, now)?;
    publish_all(alloc, tree, edits, now)
}

/// Makes /etc if it is absent, as a parent directory is made: it belongs to root and has the mode 0755.
fn put_directory<T: Tree>(alloc: Global, tree: &mut T, now: u64) -> Result<(), TreeFault>
    requires pass { IsPresent (T.state tree.old) etc → IsKind Directory (T.state tree.old) etc }
    requires free { IsAbsentIn (places (T.state tree.old)) (staging_of etc) }
    ensures ok { OnOk result (places (T.state tree.new) ≡ with_parent now (places (T.state tree.old)) etc) }
    ensures directory { OnOk result (IsKind Directory (T.state tree.new) etc) }
    ensures acted { Acted T.Tree (Putting etc parent_file (T.state tree.old)) (PutsDirectory (T.state tree.old))
        (directory_steps (places (T.state tree.old))) now tree.old tree.new result }
    ensures below { Acted T.Tree (NoneComes (T.state tree.old)) (PutsDirectory (T.state tree.old))
        (directory_steps (places (T.state tree.old))) now tree.old tree.new result }
{
    let path = etc_path(alloc)?;
    if is_present(tree, &path) {
        return Ok(());
    }
    make_directory(alloc, tree, &path, now)
}

/// Makes the absent /etc in three steps.
fn make_directory<T: Tree>(
    alloc: Global,
    tree: &mut T,
    path: &TreePath,
    now: u64,
) -> Result<(), TreeFault>
    requires path { path.now ≡ etc }
    requires absent { IsAbsentIn (places (T.state tree.old)) etc }
    requires free { IsAbsentIn (places (T.state tree.old)) (staging_of etc) }
    ensures ok { OnOk result (places (T.state tree.new) ≡ made now etc (new_object parent_file now) (places (T.state tree.old))) }
    ensures acted { Acted T.Tree (Putting etc parent_file (T.state tree.old)) (IsPutStep etc parent_file)
        most_directory now tree.old tree.new result }
    ensures below { Acted T.Tree (NoneComes (T.state tree.old)) (IsPutStep etc parent_file)
        most_directory now tree.old tree.new result }
{
    stage_directory(alloc, tree, path, now)?;
    publish(alloc, tree, path, now)
}

/// Makes /etc under its staging name, with its mode.
fn stage_directory<T: Tree>(
    alloc: Global,
    tree: &mut T,
    path: &TreePath,
    now: u64,
) -> Result<(), TreeFault>
    requires path { path.now ≡ etc }
    requires root { IsKind Directory (T.state tree.old) [] }
    requires free { IsAbsentIn (places (T.state tree.old)) (staging_of etc) }
    ensures ok { OnOk result (places (T.state tree.new) ≡ made now (staging_of etc) (new_object parent_file now) (places (T.state tree.old))) }
    ensures acted { Acted T.Tree (SameOutside (is_prefix (staging_of etc)) (T.state tree.old)) (GivesNew (staging_of etc) parent_file)
        2 now tree.old tree.new result }
{
    let stage = staging(alloc, path)?;
    let make = Step::MakeDir {
        path: stage.copy()?,
    };
    try_step(tree, make, now)?;
    let mode = Step::SetMode {
        path: stage,
        mode: 0o755,
    };
    try_step(tree, mode, now)
}
