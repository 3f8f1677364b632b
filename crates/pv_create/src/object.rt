//! Adjusting of one object.
ghost use Rattle.std.specs.Prelude.{◌≡◌, IfSome, OnOk};
ghost use Rattle.pv_path.specs.Names.{same_bytes};
ghost use Rattle.pv_steps.specs.declared.node.Kind.TheVariants.{File};
ghost use Rattle.pv_steps.specs.Acting.{asked, Acted};
ghost use Rattle.pv_steps.specs.Steps.{on_at};
ghost use Rattle.pv_steps.specs.Trees.{places, IsKind, IsPresent};
ghost use Rattle.pv_walk.specs.SettingMetadata.{IsKeptBy};
ghost use Rattle.pv_walk.specs.Changing.{Changing};
ghost use Rattle.pv_table.specs.Created.{change_work};
ghost use Rattle.pv_table.specs.Effects.{become};
ghost use Rattle.pv_create.specs.Sets.{AreSets};
ghost use Rattle.pv_create.specs.Adjusting.{Adjusting, GivesSet, GivesWanted, holding, written};

use crate::wanted::wanted_at;
use pv_path::{Bytes, TreePath};
use pv_steps::{Step, Tree, TreeFault, try_step};
use pv_walk::{Operation, set_metadata};
use std::alloc::Global;

/// Adjusts the object at a path: its bytes, owners, mode, ACL, extended attributes and file attribute flags, in this
/// order.
///
/// A part is set only if this changes something (tmpfiles.d(5)). The bytes of a file are read only if the line sets
/// bytes.
pub(crate) fn adjust<T: Tree>(
    alloc: Global,
    tree: &mut T,
    path: &TreePath,
    sets: &[Operation],
    now: u64,
) -> Result<(), TreeFault>
    requires present { IsPresent (T.state tree.old) path.now }
    requires sets { AreSets sets.now }

    // The object becomes what the sets make of it, timestamps included, and nothing else changes.
    ensures ok { OnOk result (places (T.state tree.new)
        ≡ on_at path.now (become now sets.now) (places (T.state tree.old))) }

    // What holds at each moment and of each step, whatever the answer. There are at most four steps, and none if
    // nothing changes.
    ensures acted { Acted T.Tree (Adjusting path.now sets.now (T.state tree.old))
        (GivesSet path.now sets.now (T.state tree.old))
        (change_work sets.now (places (T.state tree.old) path.now)) now tree.old tree.new result }
{
    let Some(new) = wanted_at(alloc, tree, path, sets)? else {
        return Ok(());
    };
    give_bytes(tree, path, &new.bytes, now)?;
    set_metadata(tree, path, &new.metadata, now)
}

/// Gives the file at a path the wanted bytes, if it has others.
fn give_bytes<T: Tree>(
    tree: &mut T,
    path: &TreePath,
    wanted: &Option<Bytes>,
    now: u64,
) -> Result<(), TreeFault>
    requires { IfSome wanted.now (λ bytes. IsKind File (T.state tree.old) path.now) }
    ensures ok { OnOk result (places (T.state tree.new)
        ≡ on_at path.now (written now wanted.now) (places (T.state tree.old))) }
    ensures acted { Acted T.Tree (Changing path.now (holding wanted.now) (T.state tree.old))
        (GivesWanted path.now wanted.now (T.state tree.old)) 1 now tree.old tree.new result }
    ensures idle { IsKeptBy (holding wanted.now) path.now (T.state tree.old)
        → asked result (T.steps tree.old) (T.steps tree.new) ≡ 0 }
{
    let Some(bytes) = wanted else {
        return Ok(());
    };
    if is_same(tree.bytes(path), bytes.as_slice()) {
        return Ok(());
    }
    let step = Step::Write {
        path: path.copy()?,
        content: bytes.copy()?,
    };
    try_step(tree, step, now)
}

/// Returns whether two byte strings are equal.
fn is_same(a: &[u8], b: &[u8]) -> bool
    ensures { result ≡ same_bytes a.now b.now }
{
    a == b
}
