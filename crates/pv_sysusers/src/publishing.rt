//! Renaming of staged files into place, file by file.
ghost use Rattle.std.specs.Prelude.{◌≡◌, ◌⊎◌, fold, length, OnOk};
ghost use Rattle.std.specs.List.{AllByRecursion};
ghost use Rattle.pv_steps.specs.declared.node.Kind.TheVariants.{Directory};
ghost use Rattle.pv_steps.specs.Trees.{places, IsKind};
ghost use Rattle.pv_steps.specs.Acting.{Acted};
ghost use Rattle.pv_walk.specs.Removal.{MayHaveMoved};
ghost use Rattle.pv_sysusers.specs.Edits.{AreEdits, IsEdit, IsOfSome, IsStaged, Published, PublishesEdit, with_published};
ghost use Rattle.pv_layers.specs.Places.{etc};

use crate::edit::Edit;
use pv_path::staging;
use pv_steps::{Step, Tree, TreeFault, try_step};
use std::alloc::Global;

/// Renames staged files into place, file by file in their order.
pub(crate) fn publish_all<T: Tree>(
    alloc: Global,
    tree: &mut T,
    edits: &[Edit],
    now: u64,
) -> Result<(), TreeFault>
    requires edits { AreEdits edits.now }
    requires directory { IsKind Directory (T.state tree.old) etc }
    requires staged { AllByRecursion (IsStaged (places (T.state tree.old))) edits.now }
    ensures ok { OnOk result (places (T.state tree.new)
        ≡ fold (with_published now) (places (T.state tree.old)) edits.now) }
    ensures acted { Acted T.Tree (Published now edits.now (T.state tree.old)) (IsOfSome PublishesEdit edits.now)
        (length edits.now) now tree.old tree.new result }
{
    match edits {
        [] => Ok(()),
        [edit, rest @ ..] => {
            publish(alloc, tree, edit, now)?;
            publish_all(alloc, tree, rest, now)
        }
    }
}

/// Renames the staged file of one edit into place, in one step.
fn publish<T: Tree>(alloc: Global, tree: &mut T, edit: &Edit, now: u64) -> Result<(), TreeFault>
    requires edit { IsEdit edit.now }
    requires directory { IsKind Directory (T.state tree.old) etc }
    requires staged { IsStaged (places (T.state tree.old)) edit.now }
    ensures ok { OnOk result (places (T.state tree.new) ≡ with_published now (places (T.state tree.old)) edit.now) }
    ensures acted { Acted T.Tree (MayHaveMoved now edit.now.path (T.state tree.old)) (PublishesEdit edit.now)
        1 now tree.old tree.new result }
{
    let step = Step::Rename {
        from: staging(alloc, &edit.path)?,
        to: edit.path.copy()?,
    };
    try_step(tree, step, now)
}
