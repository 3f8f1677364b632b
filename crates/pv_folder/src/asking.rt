//! The one change that a step on a tree asks of the host that has the tree in a folder.
ghost use Rattle.std.specs.Prelude.{◌≡◌, ◌↔◌, ◌≤◌, ◌++◌, is_some, IsTrue, OnOk, OnErr, IsErrOf};
ghost use Rattle.std.specs.Option.{option_to_list};
ghost use Rattle.pv_io.specs.Faults.{HasRisen};
ghost use Rattle.pv_steps.specs.declared.node.Kind.TheVariants.{File};
ghost use Rattle.pv_steps.specs.Trees.{IsKind, places};
ghost use Rattle.pv_folder.specs.declared.host.HostFault.TheVariants.{Failed};
ghost use Rattle.pv_folder.specs.Content.{spelled};
ghost use Rattle.pv_folder.specs.Counts.{count_after};
ghost use Rattle.pv_folder.specs.Folders.{real_of, tree_path};
ghost use Rattle.pv_folder.specs.Keeping.{IsChangedBy, MayAskFor, change_for, move, removal};
ghost use Rattle.pv_folder.specs.Made.{AreRecorded};

use crate::host::{Host, HostFault};
use crate::host_path::host_path;
use pv_path::TreePath;
use pv_steps::{Kind, Step};
use pv_tree::MemTree;
use std::alloc::Global;

/// Returns whether there is a directory or a file at a path of a tree.
fn is_real(tree: &MemTree, path: &TreePath) -> bool
    ensures { result ≡ is_some (real_of (places tree.now.files path.now)) }
{
    match tree.node_at(path) {
        Some(node) => matches!(node.kind, Kind::Directory | Kind::File),
        None => false,
    }
}

/// Returns whether there is a file at a path of a tree.
fn is_file(tree: &MemTree, path: &TreePath) -> bool
    ensures { IsTrue result ↔ IsKind File tree.now.files path.now }
{
    match tree.node_at(path) {
        Some(node) => matches!(node.kind, Kind::File),
        None => false,
    }
}

/// Removes the object at a path, if it is a file.
fn remove_file<H: Host>(
    alloc: Global,
    host: &mut H,
    folder: &[u8],
    tree: &MemTree,
    path: &TreePath,
) -> Result<(), HostFault>
    requires { MayAskFor (H.content host.old)
        (removal (tree_path (spelled folder.now) ++ path.now) (real_of (places tree.now.files path.now))) }
    ensures done { OnOk result (IsChangedBy
        (removal (tree_path (spelled folder.now) ++ path.now) (real_of (places tree.now.files path.now)))
        (H.content host.old) (H.content host.new)) }
    ensures kept { OnErr result (H.content host.new ≡ H.content host.old) }
    ensures recorded { OnOk result (AreRecorded
        (option_to_list (removal (tree_path (spelled folder.now) ++ path.now) (real_of (places tree.now.files path.now))))
        (H.changes host.old) (H.changes host.new)) }
    ensures unrecorded { OnErr result (H.changes host.new ≡ H.changes host.old) }
    ensures cause { IsErrOf result Failed → HasRisen (H.faults host.old) (H.faults host.new) }
    ensures never_falls { H.faults host.old ≤ H.faults host.new }
    ensures count { H.faults host.new ≡ count_after result (H.faults host.old) }
{
    if !is_file(tree, path) {
        return Ok(());
    }
    host.remove_file(&host_path(alloc, folder, path)?)
}

/// The two paths of a rename.
#[derive(Drop)]
struct Move<'a> {
    from: &'a TreePath,
    to: &'a TreePath,
}

/// Renames the object at a path, if it is a directory or a file. Otherwise the host has only a file that the rename
/// may replace, and this is removed.
fn rename<H: Host>(
    alloc: Global,
    host: &mut H,
    folder: &[u8],
    tree: &MemTree,
    paths: Move<'_>,
) -> Result<(), HostFault>
    requires { let top = tree_path (spelled folder.now) in
        MayAskFor (H.content host.old) (move (top ++ paths.from.now) (top ++ paths.to.now)
        (real_of (places tree.now.files paths.from.now)) (real_of (places tree.now.files paths.to.now))) }
    ensures done { let top = tree_path (spelled folder.now) in
        OnOk result (IsChangedBy (move (top ++ paths.entry.from.now) (top ++ paths.entry.to.now)
        (real_of (places tree.now.files paths.entry.from.now)) (real_of (places tree.now.files paths.entry.to.now)))
        (H.content host.old) (H.content host.new)) }
    ensures kept { OnErr result (H.content host.new ≡ H.content host.old) }
    ensures recorded { let top = tree_path (spelled folder.now) in
        OnOk result (AreRecorded (option_to_list (move (top ++ paths.entry.from.now) (top ++ paths.entry.to.now)
        (real_of (places tree.now.files paths.entry.from.now)) (real_of (places tree.now.files paths.entry.to.now))))
        (H.changes host.old) (H.changes host.new)) }
    ensures unrecorded { OnErr result (H.changes host.new ≡ H.changes host.old) }
    ensures cause { IsErrOf result Failed → HasRisen (H.faults host.old) (H.faults host.new) }
    ensures never_falls { H.faults host.old ≤ H.faults host.new }
    ensures count { H.faults host.new ≡ count_after result (H.faults host.old) }
{
    if !is_real(tree, paths.from) {
        return remove_file(alloc, host, folder, tree, paths.to);
    }
    let from = host_path(alloc, folder, paths.from)?;
    let to = host_path(alloc, folder, paths.to)?;
    host.rename(&from, &to)
}

/// Asks the host that has a tree in a folder for the change that a step on the tree needs, if it needs one.
pub(crate) fn ask_for<H: Host>(
    alloc: Global,
    host: &mut H,
    folder: &[u8],
    tree: &MemTree,
    step: &Step,
) -> Result<(), HostFault>
    requires { MayAskFor (H.content host.old)
        (change_for (tree_path (spelled folder.now)) (places tree.now.files) step.now) }
    ensures done { OnOk result (IsChangedBy
        (change_for (tree_path (spelled folder.now)) (places tree.now.files) step.now)
        (H.content host.old) (H.content host.new)) }
    ensures kept { OnErr result (H.content host.new ≡ H.content host.old) }
    ensures recorded { OnOk result (AreRecorded
        (option_to_list (change_for (tree_path (spelled folder.now)) (places tree.now.files) step.now))
        (H.changes host.old) (H.changes host.new)) }
    ensures unrecorded { OnErr result (H.changes host.new ≡ H.changes host.old) }
    ensures cause { IsErrOf result Failed → HasRisen (H.faults host.old) (H.faults host.new) }
    ensures never_falls { H.faults host.old ≤ H.faults host.new }
    ensures count { H.faults host.new ≡ count_after result (H.faults host.old) }
{
    match step {
        Step::MakeDir { path } => host.make_dir(&host_path(alloc, folder, path)?),
        Step::MakeFile { path } => host.write_file(&host_path(alloc, folder, path)?, b""),
        Step::Write { path, content } => {
            host.write_file(&host_path(alloc, folder, path)?, content.as_slice())
        }
        Step::Rename { from, to } => rename(alloc, host, folder, tree, Move { from, to }),
        Step::Unlink { path } => remove_file(alloc, host, folder, tree, path),
        Step::RemoveDir { path } => host.remove_dir(&host_path(alloc, folder, path)?),
        Step::MakeFifo { .. }
        | Step::MakeDevice { .. }
        | Step::MakeLink { .. }
        | Step::SetMode { .. }
        | Step::SetOwner { .. }
        | Step::SetAcl { .. }
        | Step::SetAttrs { .. }
        | Step::SetLetters { .. }
        | Step::SetStamps { .. } => Ok(()),
    }
}
