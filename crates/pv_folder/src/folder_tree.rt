//! A tree in memory whose directories and files are in a folder of a host, too.
ghost use Rattle.std.specs.Prelude.{◌≡◌, ◌++◌, ◌∷◌, [], ◌≤◌, ℕ, true, false, length, take, IfSome, OnOk, OnErr, IsErrOf, Err};
ghost use Rattle.std.specs.Option.{option_to_list};
ghost use Rattle.pv_steps.specs.declared.tree.TreeFault.TheVariants.{Failed, Memory};
ghost use Rattle.pv_steps.specs.Trees.{IsTree, places};
ghost use Rattle.pv_steps.specs.Steps.{Can, StepFits, after};
ghost use Rattle.pv_steps.specs.Counting.{refused, faults_after};
ghost use Rattle.pv_folder.specs.Content.{held, spelled};
ghost use Rattle.pv_folder.specs.Counts.{count_after};
ghost use Rattle.pv_folder.specs.Folders.{Agrees, tree_path};
ghost use Rattle.pv_folder.specs.Keeping.{HasManifest, IsChangedBy, IsReady, IsSameButNew, Keeps, Moves, change_for};
ghost use Rattle.pv_folder.specs.Made.{AreRecorded, HasMade};
ghost use Rattle.pv_folder.specs.Moments.{closing};
ghost use Rattle.pv_folder.specs.Moving.{moves_none, moves_on, same, same_on};
ghost use Rattle.pv_folder.specs.Sole.{agrees_prop, ready_prop};

use crate::asking::ask_for;
use crate::closing::replace_manifest;
use crate::host::{Host, HostFault};
use pv_path::{Name, NameList, TreePath};
use pv_steps::{Node, Step, Tree, TreeFault};
use pv_tree::{MemTree, parts_fit};
use std::alloc::{AllocError, Global};

/// A tree in memory whose directories and files are in a folder of a host, too.
///
/// A step that concerns a directory or a file asks the host for at most one change, below `tree`. After that the
/// step is done in memory. Everything else, such as owners and links, is in memory alone, and `close_folder` writes
/// it to the manifest.
///
/// A step that runs out of memory may have been done on the host alone. From then on every step answers `Memory`,
/// and the host is not called. Until then, a host with a known content has exactly the directories and files of the
/// tree in memory.
#[derive(Drop)]
pub struct FolderTree<'a, H: Host> {
    host: &'a mut H,
    /// The path of the folder on the host.
    folder: Vec<u8>,
    tree: MemTree,
    /// Whether a step has begun that may be done on the host alone.
    pending: bool,
    /// The number of the steps that were recorded when the tree last refused one.
    refused_at: usize,
    ghost ready: { IfSome (H.content host.now) (λ c. IsReady (spelled folder.items) (held c)) } by { ready_prop (spelled folder.items) (H.content host.now) },
    ghost agrees: { pending ≡ false → IfSome (H.content host.now) (λ c. Agrees (spelled folder.items) tree.files (held c)) } by { agrees_prop pending (spelled folder.items) tree.files (H.content host.now) },
}

impl<'a, H: Host> FolderTree<'a, H> {
    /// Returns the tree that a host has in a folder. The call does not allocate.
    ///
    /// `folder` is the path of the folder on the host, with slashes between the names. If the content of the host is
    /// known, the folder must be prepared, and must have exactly the directories and files of `tree`. The answer of
    /// `read_folder` has such a tree. A folder is prepared if it has the directory `tree`, and each of `manifest` and
    /// `manifest.new` is a file or absent.
    pub fn of(host: &'a mut H, folder: Vec<u8>, tree: MemTree) -> FolderTree<'a, H>
        requires { IfSome (H.content host.old) (λ c. Keeps (spelled folder.items) tree.files c) }
        ensures host { result.host.ghost_name ≡ host.entry.ghost_name }
        ensures now { result.host.now ≡ host.old }
        ensures folder { result.folder ≡ folder }
        ensures tree { result.tree ≡ tree }
        ensures pending { result.pending ≡ false }
    {
        FolderTree {
            host,
            folder,
            tree,
            pending: false,
            refused_at: 0,
        }
    }

    /// Returns the host, as the steps have left it. The call does not allocate.
    pub fn into_host(self) -> &'a mut H
        ensures host { result.ghost_name ≡ self.entry.host.ghost_name }
        ensures now { result.now ≡ self.entry.host.now }
    {
        let FolderTree {
            host,
            folder: _,
            tree: _,
            pending: _,
            refused_at: _,
        } = self;
        host
    }

    /// Returns the tree in memory. The call does not allocate.
    pub fn tree(&self) -> &MemTree
        ensures { result.now ≡ self.now.tree }
    {
        &self.tree
    }

    /// Returns whether a step has run out of memory. The call does not allocate.
    ///
    /// If the answer is `false`, a host with a known content has exactly the directories and files of the tree in
    /// memory. If it is `true`, the host may be one step ahead.
    pub fn is_pending(&self) -> bool
        ensures pending { result ≡ self.now.pending }
        ensures agrees { result ≡ false →
            IfSome (H.content self.now.host.now) (λ c. Agrees (spelled self.now.folder.items) self.now.tree.files (held c)) }
    {
        self.pending
    }

    /// Replaces the manifest. If the content of the host is known, the old one is there after an error.
    pub(crate) fn replace_manifest(&mut self, alloc: Global, text: &[u8]) -> Result<(), HostFault>
        ensures done { OnOk result (HasManifest (spelled self.old.folder.items) text.now
            (H.content self.old.host.now) (H.content self.new.host.now)) }
        ensures kept { OnErr result (IsSameButNew (spelled self.old.folder.items)
            (H.content self.old.host.now) (H.content self.new.host.now)) }
        ensures asked { OnOk result (HasMade (closing (spelled self.old.folder.items) text.now)
            (H.content self.old.host.now) (H.content self.new.host.now) (H.changes self.old.host.now) (H.changes self.new.host.now)) }
        ensures part { OnErr result ((k : ℕ) × ((k ≤ 1) × HasMade (take k (closing (spelled self.old.folder.items) text.now))
            (H.content self.old.host.now) (H.content self.new.host.now) (H.changes self.old.host.now) (H.changes self.new.host.now))) }
        ensures never_falls { H.faults self.old.host.now ≤ H.faults self.new.host.now }
        ensures count { H.faults self.new.host.now ≡ count_after result (H.faults self.old.host.now) }
        ensures host { self.new.host.ghost_name ≡ self.old.host.ghost_name }
        ensures folder { self.new.folder ≡ self.old.folder }
        ensures tree { self.new.tree ≡ self.old.tree }
        ensures pending { self.new.pending ≡ self.old.pending }
    {
        replace_manifest(alloc, self.host, &self.folder, text)
    }
}

impl<'a, H: Host> Tree for FolderTree<'a, H> {
    ghost state = { λ t. t.tree.files };

    ghost steps = { λ t. t.tree.steps };

    ghost faults = { λ t. H.faults t.host.now };

    ghost refused_at = { λ t. t.refused_at };

    ghost reaches = { λ a b. (b.host.ghost_name ≡ a.host.ghost_name)
        × Moves (record { folder = spelled a.folder.items; files = a.tree.files; steps = a.tree.steps; content = H.content a.host.now; changes = H.changes a.host.now; faults = H.faults a.host.now; pending = a.pending })
        (record { folder = spelled b.folder.items; files = b.tree.files; steps = b.tree.steps; content = H.content b.host.now; changes = H.changes b.host.now; faults = H.faults b.host.now; pending = b.pending }) };

    fn look(&self, path: &TreePath) -> Option<&Node> {
        self.tree.node_at(path)
    }

    fn look_along(&self, alloc: Global, path: &TreePath) -> Result<Vec<&Node>, AllocError> {
        self.tree.look_along(alloc, path)
    }

    fn has_beside(&self, path: &TreePath, names: &[Name]) -> bool {
        self.tree.has_beside(path, names)
    }

    fn list(&self, alloc: Global, path: &TreePath) -> Result<NameList, AllocError> {
        self.tree.names_at(alloc, path)
    }

    fn at_and_below(&self, alloc: Global, path: &TreePath) -> Result<Vec<TreePath>, AllocError> {
        self.tree.at_and_below(alloc, path)
    }

    fn bytes(&self, path: &TreePath) -> &[u8] {
        self.tree.bytes(path)
    }

    fn target(&self, path: &TreePath) -> &[u8] {
        self.tree.target(path)
    }

    fn step(&mut self, step: &Step, now: u64) -> Result<(), TreeFault>
        requires { Can (places self.old.tree.files) step.now }
        ensures state { OnOk result (self.new.tree.files ≡ after self.old.tree.files step.now now) }
        ensures recorded { OnOk result (self.new.tree.steps ≡ self.old.tree.steps ++ step.now ∷ []) }
        ensures kept { OnErr result (self.new.tree.files ≡ self.old.tree.files) }
        ensures unrecorded { OnErr result (self.new.tree.steps ≡ self.old.tree.steps) }
        ensures fits { StepFits step.now }
        ensures reaches { (self.new.host.ghost_name ≡ self.old.host.ghost_name)
            × Moves (record { folder = spelled self.old.folder.items; files = self.old.tree.files; steps = self.old.tree.steps; content = H.content self.old.host.now; changes = H.changes self.old.host.now; faults = H.faults self.old.host.now; pending = self.old.pending })
            (record { folder = spelled self.new.folder.items; files = self.new.tree.files; steps = self.new.tree.steps; content = H.content self.new.host.now; changes = H.changes self.new.host.now; faults = H.faults self.new.host.now; pending = self.new.pending }) }
        ensures counted { H.faults self.new.host.now ≡ faults_after (refused result) (H.faults self.old.host.now) }
        ensures last { IsErrOf result Failed → self.new.refused_at ≡ length self.new.tree.steps }

        // A step that is done has changed the host as it asked. A step that failed has changed nothing there.
        ensures changed { OnOk result (IsChangedBy
            (change_for (tree_path (spelled self.old.folder.items)) (places self.old.tree.files) step.now)
            (H.content self.old.host.now) (H.content self.new.host.now)) }
        ensures unchanged { IsErrOf result Failed → H.content self.new.host.now ≡ H.content self.old.host.now }

        // The host has made this change and no other, or none.
        ensures asked { OnOk result (AreRecorded
            (option_to_list (change_for (tree_path (spelled self.old.folder.items)) (places self.old.tree.files) step.now))
            (H.changes self.old.host.now) (H.changes self.new.host.now)) }
        ensures unasked { IsErrOf result Failed → H.changes self.new.host.now ≡ H.changes self.old.host.now }

        // Once a step has run out of memory, each further step answers `Memory`, and the host is not called.
        ensures pending { IsErrOf result Memory → self.new.pending ≡ true }
        ensures settled { (IsErrOf result Memory → ⊥) → self.new.pending ≡ false }
        ensures pending_fails { self.old.pending ≡ true → (result ≡ Err Memory) × (self.new.host.now ≡ self.old.host.now) }
    {
        parts_fit(step);
        if self.pending {
            return Err(TreeFault::Memory);
        }
        self.pending = true;
        let alloc = *self.folder.allocator();
        match ask_for(alloc, self.host, &self.folder, &self.tree, step) {
            Ok(()) => {}
            Err(HostFault::Memory) => return Err(TreeFault::Memory),
            Err(HostFault::Failed) => {
                self.pending = false;
                self.refused_at = self.tree.step_count();
                return Err(TreeFault::Failed);
            }
        }
        self.tree.step(step, now)?;
        self.pending = false;
        Ok(())
    }

    ghost reaches_self = { λ a. (same _, moves_none _) };

    ghost reaches_on = { λ a b c p q. (same_on _ _ _ p.0 q.0, moves_on _ _ _ p.1 q.1) };

    ghost is_tree = { λ t. t.tree.tree };

    ghost never_falls = { λ _ _ p. p.1.count };
}
