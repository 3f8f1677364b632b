//! Staging of new texts, file by file.
ghost use Rattle.std.specs.Prelude.{◌≡◌, ◌*◌, fold, length, IfOk, OnOk};
ghost use Rattle.std.specs.List.{AllByRecursion};
ghost use Rattle.pv_path.specs.Paths.{staging_of};
ghost use Rattle.pv_steps.specs.declared.node.Kind.TheVariants.{Directory};
ghost use Rattle.pv_steps.specs.Trees.{places, IsKind};
ghost use Rattle.pv_steps.specs.Same.{Same};
ghost use Rattle.pv_steps.specs.Acting.{Acted};
ghost use Rattle.pv_sysusers.specs.Edits.{AreEdits, IsEdit, IsFree, IsOfSome, StagesEdit, most_staged, new_file, with_staged};
ghost use Rattle.pv_layers.specs.Places.{etc};
ghost use Rattle.pv_sysusers.specs.Turns.{StagingOne, StagingSome};

use crate::edit::Edit;
use pv_path::staging;
use pv_steps::{Tree, TreeFault};
use pv_walk::{NewFile, NewKind, put_held, set_metadata};
use std::alloc::{AllocError, Global};

/// Stages the new texts of files, file by file in their order.
pub(crate) fn stage_all<T: Tree>(
    alloc: Global,
    tree: &mut T,
    edits: &[Edit],
    now: u64,
) -> Result<(), TreeFault>
    requires edits { AreEdits edits.now }
    requires directory { IsKind Directory (T.state tree.old) etc }
    requires free { AllByRecursion (IsFree (places (T.state tree.old))) edits.now }
    ensures ok { OnOk result (places (T.state tree.new)
        ≡ fold (with_staged now) (places (T.state tree.old)) edits.now) }
    ensures acted { Acted T.Tree (Same (T.state tree.old)) (IsOfSome StagesEdit edits.now)
        (most_staged * length edits.now) now tree.old tree.new result }
    ensures turn { Acted T.Tree (StagingSome edits.now (T.state tree.old)) (IsOfSome StagesEdit edits.now)
        (most_staged * length edits.now) now tree.old tree.new result }
{
    match edits {
        [] => Ok(()),
        [edit, rest @ ..] => {
            stage(alloc, tree, edit, now)?;
            stage_all(alloc, tree, rest, now)
        }
    }
}

/// Stages the new text of one file, with its metadata.
fn stage<T: Tree>(alloc: Global, tree: &mut T, edit: &Edit, now: u64) -> Result<(), TreeFault>
    requires edit { IsEdit edit.now }
    requires directory { IsKind Directory (T.state tree.old) etc }
    requires free { IsFree (places (T.state tree.old)) edit.now }
    ensures ok { OnOk result (places (T.state tree.new) ≡ with_staged now (places (T.state tree.old)) edit.now) }
    ensures acted { Acted T.Tree (Same (T.state tree.old)) (StagesEdit edit.now)
        most_staged now tree.old tree.new result }
    ensures stages { Acted T.Tree (StagingOne edit.now (T.state tree.old)) (StagesEdit edit.now)
        most_staged now tree.old tree.new result }
{
    let new = new_file(edit)?;
    let stage = staging(alloc, &edit.path)?;
    put_held(tree, &stage, &new, now)?;
    set_metadata(tree, &stage, &edit.metadata, now)
}

/// Returns the new file, with its mode and its owners.
fn new_file(edit: &Edit) -> Result<NewFile, AllocError>
    requires { IsEdit edit.now }
    ensures { IfOk result (λ new. new ≡ new_file edit.now) }
{
    Ok(NewFile {
        what: NewKind::File(edit.text.copy()?),
        mode: edit.metadata.acl.access.mode(edit.metadata.special),
        uid: edit.metadata.uid,
        gid: edit.metadata.gid,
    })
}
