//! A host in memory, which fails at planned calls.
ghost use Rattle.std.specs.Prelude.{◌≡◌, ◌≤◌, ◌↔◌, ◌∷◌, [], ◌++◌, true, Contains, Some, is_some, map, option_map, IfOk, OnOk, OnErr, IsErrOf};
ghost use Rattle.pv_io.specs.Calls.{call_after};
ghost use Rattle.pv_io.specs.Faults.{HasRisen};
ghost use Rattle.pv_io.specs.Memory.{fresh};
ghost use Rattle.pv_path.specs.Paths.{has_names};
ghost use Rattle.pv_folder.specs.declared.host.HostFault.TheVariants.{Failed};
ghost use Rattle.pv_folder.specs.Content.{IsContent, May, bytes_of, given, held, listing, spelled, within};
ghost use Rattle.pv_folder.specs.Counts.{count_after};
ghost use Rattle.pv_folder.specs.Content.Change.{MakeDir, RemoveDir, RemoveFile, Rename, WriteFile};
ghost use Rattle.pv_folder.specs.Memory.{Becomes, change_of, content_of};

use crate::change::HostChange;
use crate::host::{FileBytes, Host, HostFault, limited};
use crate::item::HostList;
use crate::plan::Plan;
use crate::spelling::path_of;
use crate::tree_host::{
    file_bytes, listing_of, make_dir, remove_dir, remove_file, rename, write_file,
};
use pv_path::{Bytes, TreePath};
use pv_tree::MemTree;
use std::alloc::{AllocError, Global};

/// A host over a tree in memory, which fails exactly at planned calls.
///
/// It has the directories of the tree and the files with their bytes. Of each other object it has only the name. In
/// contracts its content is known, and so are the changes that it has made.
#[derive(Drop)]
pub struct MemHost {
    tree: MemTree,
    plan: Plan,
    changes: Vec<HostChange>,
}

impl MemHost {
    /// Returns a host that has the content of this tree. The calls whose numbers are in `fails` will answer
    /// `Failed`.
    ///
    /// Calls are counted from 0. For example, with `fails` of 0 and 2 the first and the third call fail.
    pub fn new(content: MemTree, fails: Vec<u64>) -> MemHost
        ensures tree { result.tree ≡ content }
        ensures plan { result.plan ≡ fresh fails.items }
        ensures changes { result.changes.items ≡ [] }
    {
        let alloc = *fails.allocator();
        MemHost {
            tree: content,
            plan: Plan::new(fails),
            changes: Vec::new(alloc),
        }
    }

    /// Returns the tree that the host has now.
    pub fn content(&self) -> &MemTree
        ensures { result.now ≡ self.now.tree }
    {
        &self.tree
    }
}

/// Returns the path that bytes spell. Its names are known to be allowed.
fn named_path(alloc: Global, bytes: &[u8]) -> Result<TreePath, AllocError>
    requires { has_names (spelled bytes.now) ≡ true }
    ensures { IfOk result (λ path. path ≡ spelled bytes.now) }
{
    match path_of(alloc, bytes)? {
        Some(path) => Ok(path),
        None => unreachable!(),
    }
}

/// Does a change of a tree, and appends it to the list of changes.
///
/// The only error is `Memory`. Tree and list are then as before.
fn do_recorded(
    alloc: Global,
    tree: &mut MemTree,
    changes: &mut Vec<HostChange>,
    change: HostChange,
) -> Result<(), HostFault>
    requires { May (held (content_of tree.old.files)) (change_of change) }
    ensures done { OnOk result (Becomes (change_of change) tree.old.files tree.new.files) }
    ensures recorded { OnOk result (changes.new.items ≡ changes.old.items ++ change ∷ []) }
    ensures kept { OnErr result (tree.new.files ≡ tree.old.files) }
    ensures unrecorded { OnErr result (changes.new.items ≡ changes.old.items) }
    ensures fault { IsErrOf result Failed → ⊥ }
{
    changes.push(change.copy()?)?;
    match do_change(alloc, tree, change) {
        Ok(()) => Ok(()),
        Err(fault) => {
            let _undone = changes.pop();
            Err(fault)
        }
    }
}

/// Does a change of a tree. The only error is `Memory`. The tree is then as before.
fn do_change(alloc: Global, tree: &mut MemTree, change: HostChange) -> Result<(), HostFault>
    requires { May (held (content_of tree.old.files)) (change_of change) }
    ensures done { OnOk result (Becomes (change_of change) tree.old.files tree.new.files) }
    ensures kept { OnErr result (tree.new.files ≡ tree.old.files) }
    ensures fault { IsErrOf result Failed → ⊥ }
{
    match change {
        HostChange::MakeDir { path } => make_dir(tree, path),
        HostChange::WriteFile { path, bytes } => write_file(alloc, tree, path, bytes),
        HostChange::Rename { from, to } => rename(tree, from, to),
        HostChange::RemoveFile { path } => remove_file(tree, path),
        HostChange::RemoveDir { path } => remove_dir(tree, path),
    }
}

impl Host for MemHost {
    ghost content = { λ h. Some (content_of h.tree.files) };

    ghost changes = { λ h. Some (map change_of h.changes.items) };

    ghost faults = { λ h. h.plan.faults };

    fn list(&mut self, alloc: Global, path: &[u8]) -> Result<Option<HostList>, HostFault>
        ensures from_content { IfOk result (λ items. items ≡ listing (content_of self.old.tree.files) (spelled path.now)) }
        ensures content { IsContent (held (content_of self.old.tree.files)) }
        ensures kept { self.new.tree.files ≡ self.old.tree.files }
        ensures unasked { self.new.changes.items ≡ self.old.changes.items }
        ensures cause { IsErrOf result Failed → HasRisen self.old.plan.faults self.new.plan.faults }
        ensures never_falls { self.old.plan.faults ≤ self.new.plan.faults }
        ensures count { self.new.plan.faults ≡ count_after result self.old.plan.faults }
        ensures planned { IsErrOf result Failed ↔ Contains self.old.plan.fails self.old.plan.calls }
        ensures counted { self.new.plan.calls ≡ call_after self.old.plan.calls }
    {
        self.plan.begin_call()?;
        match path_of(alloc, path)? {
            Some(path) => Ok(listing_of(alloc, &self.tree, &path)?),
            None => Ok(None),
        }
    }

    fn read_file(&mut self, alloc: Global, path: &[u8]) -> Result<Option<Vec<u8>>, HostFault>
        ensures from_content { IfOk result (λ bytes.
            option_map (λ b. b.items) bytes ≡ bytes_of (held (content_of self.old.tree.files) (spelled path.now))) }
        ensures content { IsContent (held (content_of self.old.tree.files)) }
        ensures kept { self.new.tree.files ≡ self.old.tree.files }
        ensures unasked { self.new.changes.items ≡ self.old.changes.items }
        ensures cause { IsErrOf result Failed → HasRisen self.old.plan.faults self.new.plan.faults }
        ensures never_falls { self.old.plan.faults ≤ self.new.plan.faults }
        ensures count { self.new.plan.faults ≡ count_after result self.old.plan.faults }
        ensures planned { IsErrOf result Failed ↔ Contains self.old.plan.fails self.old.plan.calls }
        ensures counted { self.new.plan.calls ≡ call_after self.old.plan.calls }
    {
        self.plan.begin_call()?;
        match path_of(alloc, path)? {
            Some(path) => Ok(file_bytes(alloc, &self.tree, &path)?),
            None => Ok(None),
        }
    }

    fn read_within(
        &mut self,
        alloc: Global,
        path: &[u8],
        most: usize,
    ) -> Result<Option<FileBytes>, HostFault>
        ensures from_content { IfOk result (λ found.
            option_map given found ≡ option_map (within most) (bytes_of (held (content_of self.old.tree.files) (spelled path.now)))) }
        ensures content { IsContent (held (content_of self.old.tree.files)) }
        ensures kept { self.new.tree.files ≡ self.old.tree.files }
        ensures unasked { self.new.changes.items ≡ self.old.changes.items }
        ensures cause { IsErrOf result Failed → HasRisen self.old.plan.faults self.new.plan.faults }
        ensures never_falls { self.old.plan.faults ≤ self.new.plan.faults }
        ensures count { self.new.plan.faults ≡ count_after result self.old.plan.faults }
        ensures planned { IsErrOf result Failed ↔ Contains self.old.plan.fails self.old.plan.calls }
        ensures counted { self.new.plan.calls ≡ call_after self.old.plan.calls }
    {
        match self.read_file(alloc, path) {
            Ok(Some(bytes)) => Ok(Some(limited(bytes, most))),
            Ok(None) => Ok(None),
            Err(fault) => Err(fault),
        }
    }

    fn write_file(&mut self, path: &[u8], bytes: &[u8]) -> Result<(), HostFault>
        requires { May (held (content_of self.old.tree.files)) (WriteFile (spelled path.now) bytes.now) }
        ensures done { OnOk result (Becomes (WriteFile (spelled path.now) bytes.now) self.old.tree.files self.new.tree.files) }
        ensures kept { OnErr result (self.new.tree.files ≡ self.old.tree.files) }
        ensures recorded { OnOk result (map change_of self.new.changes.items ≡ map change_of self.old.changes.items ++ WriteFile (spelled path.now) bytes.now ∷ []) }
        ensures unrecorded { OnErr result (self.new.changes.items ≡ self.old.changes.items) }
        ensures cause { IsErrOf result Failed → HasRisen self.old.plan.faults self.new.plan.faults }
        ensures never_falls { self.old.plan.faults ≤ self.new.plan.faults }
        ensures count { self.new.plan.faults ≡ count_after result self.old.plan.faults }
        ensures planned { IsErrOf result Failed ↔ Contains self.old.plan.fails self.old.plan.calls }
        ensures counted { self.new.plan.calls ≡ call_after self.old.plan.calls }
    {
        self.plan.begin_call()?;
        let alloc = *self.changes.allocator();
        let path = named_path(alloc, path)?;
        let bytes = Bytes::copy_of(alloc, bytes)?;
        let change = HostChange::WriteFile { path, bytes };
        do_recorded(alloc, &mut self.tree, &mut self.changes, change)
    }

    fn make_dir(&mut self, path: &[u8]) -> Result<(), HostFault>
        requires { May (held (content_of self.old.tree.files)) (MakeDir (spelled path.now)) }
        ensures done { OnOk result (Becomes (MakeDir (spelled path.now)) self.old.tree.files self.new.tree.files) }
        ensures kept { OnErr result (self.new.tree.files ≡ self.old.tree.files) }
        ensures recorded { OnOk result (map change_of self.new.changes.items ≡ map change_of self.old.changes.items ++ MakeDir (spelled path.now) ∷ []) }
        ensures unrecorded { OnErr result (self.new.changes.items ≡ self.old.changes.items) }
        ensures cause { IsErrOf result Failed → HasRisen self.old.plan.faults self.new.plan.faults }
        ensures never_falls { self.old.plan.faults ≤ self.new.plan.faults }
        ensures count { self.new.plan.faults ≡ count_after result self.old.plan.faults }
        ensures planned { IsErrOf result Failed ↔ Contains self.old.plan.fails self.old.plan.calls }
        ensures counted { self.new.plan.calls ≡ call_after self.old.plan.calls }
    {
        self.plan.begin_call()?;
        let alloc = *self.changes.allocator();
        let path = named_path(alloc, path)?;
        let change = HostChange::MakeDir { path };
        do_recorded(alloc, &mut self.tree, &mut self.changes, change)
    }

    fn rename(&mut self, from: &[u8], to: &[u8]) -> Result<(), HostFault>
        requires { May (held (content_of self.old.tree.files)) (Rename (spelled from.now) (spelled to.now)) }
        ensures done { OnOk result (Becomes (Rename (spelled from.now) (spelled to.now)) self.old.tree.files self.new.tree.files) }
        ensures kept { OnErr result (self.new.tree.files ≡ self.old.tree.files) }
        ensures recorded { OnOk result (map change_of self.new.changes.items ≡ map change_of self.old.changes.items ++ Rename (spelled from.now) (spelled to.now) ∷ []) }
        ensures unrecorded { OnErr result (self.new.changes.items ≡ self.old.changes.items) }
        ensures cause { IsErrOf result Failed → HasRisen self.old.plan.faults self.new.plan.faults }
        ensures never_falls { self.old.plan.faults ≤ self.new.plan.faults }
        ensures count { self.new.plan.faults ≡ count_after result self.old.plan.faults }
        ensures planned { IsErrOf result Failed ↔ Contains self.old.plan.fails self.old.plan.calls }
        ensures counted { self.new.plan.calls ≡ call_after self.old.plan.calls }
    {
        self.plan.begin_call()?;
        let alloc = *self.changes.allocator();
        let from = named_path(alloc, from)?;
        let to = named_path(alloc, to)?;
        let change = HostChange::Rename { from, to };
        do_recorded(alloc, &mut self.tree, &mut self.changes, change)
    }

    fn replace_file(&mut self, from: &[u8], to: &[u8]) -> Result<(), HostFault>
        requires { May (held (content_of self.old.tree.files)) (Rename (spelled from.now) (spelled to.now)) }
        ensures done { OnOk result (Becomes (Rename (spelled from.now) (spelled to.now)) self.old.tree.files self.new.tree.files) }
        ensures kept { OnErr result (self.new.tree.files ≡ self.old.tree.files) }
        ensures recorded { OnOk result (map change_of self.new.changes.items ≡ map change_of self.old.changes.items ++ Rename (spelled from.now) (spelled to.now) ∷ []) }
        ensures unrecorded { OnErr result (self.new.changes.items ≡ self.old.changes.items) }
        ensures cause { IsErrOf result Failed → HasRisen self.old.plan.faults self.new.plan.faults }
        ensures never_falls { self.old.plan.faults ≤ self.new.plan.faults }
        ensures count { self.new.plan.faults ≡ count_after result self.old.plan.faults }
        ensures planned { IsErrOf result Failed ↔ Contains self.old.plan.fails self.old.plan.calls }
        ensures counted { self.new.plan.calls ≡ call_after self.old.plan.calls }
    {
        self.rename(from, to)
    }

    fn remove_file(&mut self, path: &[u8]) -> Result<(), HostFault>
        requires { May (held (content_of self.old.tree.files)) (RemoveFile (spelled path.now)) }
        ensures done { OnOk result (Becomes (RemoveFile (spelled path.now)) self.old.tree.files self.new.tree.files) }
        ensures kept { OnErr result (self.new.tree.files ≡ self.old.tree.files) }
        ensures recorded { OnOk result (map change_of self.new.changes.items ≡ map change_of self.old.changes.items ++ RemoveFile (spelled path.now) ∷ []) }
        ensures unrecorded { OnErr result (self.new.changes.items ≡ self.old.changes.items) }
        ensures cause { IsErrOf result Failed → HasRisen self.old.plan.faults self.new.plan.faults }
        ensures never_falls { self.old.plan.faults ≤ self.new.plan.faults }
        ensures count { self.new.plan.faults ≡ count_after result self.old.plan.faults }
        ensures planned { IsErrOf result Failed ↔ Contains self.old.plan.fails self.old.plan.calls }
        ensures counted { self.new.plan.calls ≡ call_after self.old.plan.calls }
    {
        self.plan.begin_call()?;
        let alloc = *self.changes.allocator();
        let path = named_path(alloc, path)?;
        let change = HostChange::RemoveFile { path };
        do_recorded(alloc, &mut self.tree, &mut self.changes, change)
    }

    fn remove_dir(&mut self, path: &[u8]) -> Result<(), HostFault>
        requires { May (held (content_of self.old.tree.files)) (RemoveDir (spelled path.now)) }
        ensures done { OnOk result (Becomes (RemoveDir (spelled path.now)) self.old.tree.files self.new.tree.files) }
        ensures kept { OnErr result (self.new.tree.files ≡ self.old.tree.files) }
        ensures recorded { OnOk result (map change_of self.new.changes.items ≡ map change_of self.old.changes.items ++ RemoveDir (spelled path.now) ∷ []) }
        ensures unrecorded { OnErr result (self.new.changes.items ≡ self.old.changes.items) }
        ensures cause { IsErrOf result Failed → HasRisen self.old.plan.faults self.new.plan.faults }
        ensures never_falls { self.old.plan.faults ≤ self.new.plan.faults }
        ensures count { self.new.plan.faults ≡ count_after result self.old.plan.faults }
        ensures planned { IsErrOf result Failed ↔ Contains self.old.plan.fails self.old.plan.calls }
        ensures counted { self.new.plan.calls ≡ call_after self.old.plan.calls }
    {
        self.plan.begin_call()?;
        let alloc = *self.changes.allocator();
        let path = named_path(alloc, path)?;
        let change = HostChange::RemoveDir { path };
        do_recorded(alloc, &mut self.tree, &mut self.changes, change)
    }
}
