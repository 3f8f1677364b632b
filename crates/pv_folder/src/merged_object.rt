//! Merges one object of a manifest into the tree of real objects.
ghost use Rattle.std.specs.Prelude.{◌≡◌, ◌↔◌, IsTrue, Some, None, IfSome, OnOk, true};
ghost use Rattle.pv_path.specs.Paths.{has_names, parent_of};
ghost use Rattle.pv_steps.specs.declared.node.Kind.TheVariants.{Directory};
ghost use Rattle.pv_steps.specs.Objects.{IsObject};
ghost use Rattle.pv_steps.specs.Steps.{on_at, put_at};
ghost use Rattle.pv_steps.specs.Trees.{IsKind, kind_of, places};
ghost use Rattle.pv_tree.specs.Changes.{MayHave};
ghost use Rattle.pv_walk.specs.Nodes.{same_kind};
ghost use Rattle.pv_folder.specs.Merge.{IsPlainAt, with_metadata, is_real_kind, merged_of};

use pv_path::{Name, TreePath};
use pv_steps::{Kind, Node};
use pv_tree::MemTree;
use std::alloc::{AllocError, Global};

/// Returns whether a host has objects of this kind.
fn is_real_kind(kind: Kind) -> bool
    ensures { result ≡ is_real_kind kind }
{
    matches!(kind, Kind::Directory | Kind::File)
}

fn same_kind(a: Kind, b: Kind) -> bool
    ensures { result ≡ same_kind a b }
{
    a == b
}

/// Gives a real object everything that the manifest says of an object of its kind at its path.
fn set_metadata(
    tree: &mut MemTree,
    names: &[Name],
    node: &Node,
    kind: Kind,
) -> Result<(), AllocError>
    requires kind { kind_of (places tree.old.files names.now) ≡ Some kind }
    requires plain { IsPlainAt tree.old.files names.now }
    requires fits { same_kind node.now.kind kind ≡ true → IfSome (places tree.old.files names.now) (MayHave node.now) }
    ensures places { OnOk result
        (places tree.new.files ≡ on_at names.now (with_metadata (Some node.now)) (places tree.old.files)) }
    ensures steps { tree.new.steps ≡ tree.old.steps }
{
    if same_kind(node.kind, kind) {
        tree.set_node(names, node.copy()?);
    }
    Ok(())
}

/// Returns the names of the parent of a path.
fn parent_names(names: &[Name]) -> &[Name]
    ensures { result.now ≡ parent_of names.now }
{
    match names {
        [] => names,
        [above @ .., _] => above,
    }
}

/// Returns whether the parent of a path is a directory of a tree.
fn lies_in_directory(tree: &MemTree, names: &[Name]) -> bool
    ensures { IsTrue result ↔ IsKind Directory tree.now.files (parent_of names.now) }
{
    match tree.kind_at(parent_names(names)) {
        Some(kind) => matches!(kind, Kind::Directory),
        None => false,
    }
}

/// Adds the manifest's object at a path where nothing is real, if it is not left out.
fn add_unreal(
    alloc: Global,
    tree: &mut MemTree,
    names: &[Name],
    node: &Node,
    payload: &[u8],
) -> Result<(), AllocError>
    requires absent { places tree.old.files names.now ≡ None }
    requires names { has_names names.now ≡ true }
    requires object { IsObject (record { node = node.now; payload = payload.now }) }
    ensures places { let path = names.now in let t = places tree.old.files in
        let described = Some (record { node = node.now; payload = payload.now }) in
        OnOk result (places tree.new.files ≡ put_at path (merged_of described None (kind_of (t (parent_of path)))) t) }
    ensures steps { tree.new.steps ≡ tree.old.steps }
{
    if is_real_kind(node.kind) || !lies_in_directory(tree, names) {
        return Ok(());
    }
    let path = TreePath::of(alloc, names)?;
    tree.add(&path, node.copy()?, payload)
}

/// Merges what the manifest says at a path into a tree of real objects.
pub(crate) fn merge_at(
    alloc: Global,
    tree: &mut MemTree,
    names: &[Name],
    node: &Node,
    payload: &[u8],
) -> Result<(), AllocError>
    requires names { has_names names.now ≡ true }
    requires object { IsObject (record { node = node.now; payload = payload.now }) }
    requires plain { IsPlainAt tree.old.files names.now }
    ensures places { let path = names.now in let t = places tree.old.files in
        let described = Some (record { node = node.now; payload = payload.now }) in
        OnOk result (places tree.new.files ≡ put_at path (merged_of described (t path) (kind_of (t (parent_of path)))) t) }
    ensures steps { tree.new.steps ≡ tree.old.steps }
{
    match tree.kind_at(names) {
        Some(kind) => set_metadata(tree, names, node, kind),
        None => add_unreal(alloc, tree, names, node, payload),
    }
}
