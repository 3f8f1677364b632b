//! The calls of a host, over a tree in memory.
ghost use Rattle.std.specs.Prelude.{◌≡◌, ◌↔◌, [], None, Some, option_map, IsTrue, IfOk, OnOk, OnErr, IsErrOf};
ghost use Rattle.pv_steps.specs.declared.node.Kind.TheVariants.{Directory, File};
ghost use Rattle.pv_steps.specs.Trees.{IsKind, IsTree, kind_of, places};
ghost use Rattle.pv_steps.specs.Steps.{Can, HasRoom, after_at};
ghost use Rattle.pv_folder.specs.declared.host.HostFault.TheVariants.{Failed};
ghost use Rattle.pv_folder.specs.Content.{May, bytes_of, held, items_in, listing};
ghost use Rattle.pv_folder.specs.Content.Change.{MakeDir, RemoveDir, RemoveFile, Rename, WriteFile};
ghost use Rattle.pv_folder.specs.Memory.{Becomes, content_of, host_kind, item_at};

use crate::growing::add_at;
use crate::host::HostFault;
use crate::item::{HostItem, HostKind, HostList};
use pv_path::{Bytes, Name, TreePath, child};
use pv_steps::{Kind, Node, Object, Step, Tree, is_directory};
use pv_tree::{MemTree, TreeBuilder};
use std::alloc::{AllocError, Global};

/// Returns the kind that an object of a tree has for a host.
fn host_kind(kind: Kind) -> HostKind
    ensures { result ≡ host_kind kind }
{
    match kind {
        Kind::Directory => HostKind::Directory,
        Kind::File => HostKind::File,
        Kind::Link | Kind::Fifo | Kind::CharDevice | Kind::BlockDevice => HostKind::Other,
    }
}

/// Returns the kind of the object at a path of a tree, or `None` if it is absent.
pub(crate) fn kind_at(tree: &MemTree, path: &TreePath) -> Option<Kind>
    ensures kind { result ≡ kind_of (places tree.now.files path.now) }
    ensures tree { IsTree tree.now.files }
{
    match tree.node_at(path) {
        Some(node) => Some(node.kind),
        None => None,
    }
}

/// Returns an object in a directory of a tree, as a host names it.
fn item_of(
    alloc: Global,
    tree: &MemTree,
    path: &TreePath,
    name: &Name,
) -> Result<HostItem, AllocError>
    ensures { IfOk result (λ item. item ≡ item_at tree.now.files path.now name.now) }
{
    let below = child(alloc, path, name.bytes())?;
    let kind = match kind_at(tree, &below) {
        Some(kind) => host_kind(kind),
        None => HostKind::Other,
    };
    Ok(HostItem {
        name: Bytes::copy_of(alloc, name.bytes())?,
        kind,
    })
}

/// Returns the objects in a directory of a tree.
fn items_of(alloc: Global, tree: &MemTree, path: &TreePath) -> Result<HostList, AllocError>
    requires { IsKind Directory tree.now.files path.now }
    ensures { IfOk result (λ items. items ≡ items_in (content_of tree.now.files) path.now) }
{
    let names = tree.names_at(alloc, path)?;
    let mut items = HostList::new(alloc);
    for name in names.as_slice() {
        items.push(item_of(alloc, tree, path, name)?)?;
    }
    Ok(items)
}

/// Lists a directory of a tree. The answer is `None` if the path is not a directory.
pub(crate) fn listing_of(
    alloc: Global,
    tree: &MemTree,
    path: &TreePath,
) -> Result<Option<HostList>, AllocError>
    ensures { IfOk result (λ items. items ≡ listing (content_of tree.now.files) path.now) }
{
    if !is_directory(tree, path) {
        return Ok(None);
    }
    Ok(Some(items_of(alloc, tree, path)?))
}

/// Returns whether there is a file at a path of a tree.
fn is_file(tree: &MemTree, path: &TreePath) -> bool
    ensures { IsTrue result ↔ IsKind File tree.now.files path.now }
{
    matches!(kind_at(tree, path), Some(Kind::File))
}

/// Returns the bytes of a file of a tree, or `None` if the path is not a file.
pub(crate) fn file_bytes(
    alloc: Global,
    tree: &MemTree,
    path: &TreePath,
) -> Result<Option<Vec<u8>>, AllocError>
    ensures { IfOk result (λ bytes. option_map (λ b. b.items) bytes
        ≡ bytes_of (held (content_of tree.now.files) path.now)) }
{
    if !is_file(tree, path) {
        return Ok(None);
    }
    Ok(Some(Vec::from_slice(alloc, tree.bytes(path))?))
}

/// Does a step of a tree. If memory runs out, the tree is as before.
fn do_step(tree: &mut MemTree, step: Step) -> Result<(), HostFault>
    requires { Can (places tree.old.files) step }
    ensures ok { OnOk result (places tree.new.files ≡ after_at (places tree.old.files) step 0) }
    ensures err { OnErr result (tree.new.files ≡ tree.old.files) }
    ensures memory { IsErrOf result Failed → ⊥ }
{
    match tree.step(&step, 0) {
        Ok(()) => Ok(()),
        Err(_) => Err(HostFault::Memory),
    }
}

/// Makes a directory in a tree. If memory runs out, the tree is as before.
pub(crate) fn make_dir(tree: &mut MemTree, path: TreePath) -> Result<(), HostFault>
    requires { May (held (content_of tree.old.files)) (MakeDir path) }
    ensures ok { OnOk result (Becomes (MakeDir path) tree.old.files tree.new.files) }
    ensures err { OnErr result (tree.new.files ≡ tree.old.files) }
    ensures memory { IsErrOf result Failed → ⊥ }
{
    do_step(tree, Step::MakeDir { path })
}

/// Renames the object at a path of a tree, with everything below it. If memory runs out, the tree is as before.
pub(crate) fn rename(tree: &mut MemTree, from: TreePath, to: TreePath) -> Result<(), HostFault>
    requires { May (held (content_of tree.old.files)) (Rename from to) }
    ensures ok { OnOk result (Becomes (Rename from to) tree.old.files tree.new.files) }
    ensures err { OnErr result (tree.new.files ≡ tree.old.files) }
    ensures memory { IsErrOf result Failed → ⊥ }
{
    do_step(tree, Step::Rename { from, to })
}

/// Removes a file of a tree. If memory runs out, the tree is as before.
pub(crate) fn remove_file(tree: &mut MemTree, path: TreePath) -> Result<(), HostFault>
    requires { May (held (content_of tree.old.files)) (RemoveFile path) }
    ensures ok { OnOk result (Becomes (RemoveFile path) tree.old.files tree.new.files) }
    ensures err { OnErr result (tree.new.files ≡ tree.old.files) }
    ensures memory { IsErrOf result Failed → ⊥ }
{
    do_step(tree, Step::Unlink { path })
}

/// Removes an empty directory of a tree. If memory runs out, the tree is as before.
pub(crate) fn remove_dir(tree: &mut MemTree, path: TreePath) -> Result<(), HostFault>
    requires { May (held (content_of tree.old.files)) (RemoveDir path) }
    ensures ok { OnOk result (Becomes (RemoveDir path) tree.old.files tree.new.files) }
    ensures err { OnErr result (tree.new.files ≡ tree.old.files) }
    ensures memory { IsErrOf result Failed → ⊥ }
{
    do_step(tree, Step::RemoveDir { path })
}

/// Replaces the bytes of a file of a tree. If memory runs out, the tree is as before.
fn rewrite(tree: &mut MemTree, path: TreePath, content: Bytes) -> Result<(), HostFault>
    requires { IsKind File tree.old.files path }
    ensures ok { OnOk result (Becomes (WriteFile path content) tree.old.files tree.new.files) }
    ensures err { OnErr result (tree.new.files ≡ tree.old.files) }
    ensures memory { IsErrOf result Failed → ⊥ }
{
    do_step(tree, Step::Write { path, content })
}

/// Makes an empty file in a tree.
fn make_file(tree: &mut MemTree, path: TreePath) -> Result<(), HostFault>
    requires { HasRoom (places tree.old.files) path }
    ensures ok { OnOk result (Becomes (WriteFile path []) tree.old.files tree.new.files) }
    ensures there { OnOk result (IsKind File tree.new.files path) }
    ensures memory { IsErrOf result Failed → ⊥ }
{
    do_step(tree, Step::MakeFile { path })
}

/// Returns a copy of a tree with one more file.
fn with_file(
    alloc: Global,
    tree: &MemTree,
    path: TreePath,
    content: Bytes,
) -> Result<MemTree, HostFault>
    requires { HasRoom (places tree.now.files) path }
    ensures ok { IfOk result (λ more. Becomes (WriteFile path content) tree.now.files more.files) }
    ensures memory { IsErrOf result Failed → ⊥ }
{
    let mut more = copy_of(alloc, tree)?;
    make_file(&mut more, path.copy()?)?;
    rewrite(&mut more, path, content)?;
    Ok(more)
}

/// Writes a file of a tree as a whole. A new file is made in a copy of the tree, so that the tree is as before if
/// memory runs out.
pub(crate) fn write_file(
    alloc: Global,
    tree: &mut MemTree,
    path: TreePath,
    content: Bytes,
) -> Result<(), HostFault>
    requires { May (held (content_of tree.old.files)) (WriteFile path content) }
    ensures ok { OnOk result (Becomes (WriteFile path content) tree.old.files tree.new.files) }
    ensures err { OnErr result (tree.new.files ≡ tree.old.files) }
    ensures memory { IsErrOf result Failed → ⊥ }
{
    if is_file(tree, &path) {
        return rewrite(tree, path, content);
    }
    *tree = with_file(alloc, tree, path, content)?;
    Ok(())
}

/// Returns a copy of an object.
fn object_of(alloc: Global, node: &Node, payload: &[u8]) -> Result<Object, AllocError>
    ensures { IfOk result (λ object. object ≡ record { node = node.now; payload = payload.now }) }
{
    Ok(Object {
        node: node.copy()?,
        payload: Bytes::copy_of(alloc, payload)?,
    })
}

/// Copies the tree, with no step recorded.
fn copy_of(alloc: Global, tree: &MemTree) -> Result<MemTree, AllocError>
    ensures { IfOk result (λ copy. copy.files ≡ tree.now.files) }
{
    let mut walk = tree.walk(alloc)?;
    let Some(root) = walk.place() else {
        unreachable!()
    };
    let mut builder = TreeBuilder::new(alloc, root.node.copy()?)?;
    walk.advance()?;
    while let Some(place) = walk.place() {
        let object = object_of(alloc, place.node, place.payload)?;
        add_at(alloc, &mut builder, place.names, object)?;
        walk.advance()?;
    }
    Ok(builder.finish())
}
