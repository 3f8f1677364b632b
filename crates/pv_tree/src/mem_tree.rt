//! The tree in memory.
ghost use Rattle.std.specs.Prelude.{◌≡◌, ◌↔◌, IsTrue, ℕ, ◌≤◌, List, [], ◌∷◌, ◌++◌, length, Some, None, IfOk, IfSome, OnOk, OnErr, IsErrOf, slice_get, filter_map, map, ⊤};
ghost use Rattle.std.proofs.Common.{arith};
ghost use Rattle.std.specs.Option.{option_copied, option_to_list};
ghost use Rattle.std.specs.FinMap as fin;
ghost use Rattle.pv_steps.specs.declared.node.Kind.TheVariants.{Directory, File, Link};
ghost use Rattle.pv_steps.specs.declared.tree.TreeFault.TheVariants.{Failed};
ghost use Rattle.pv_steps.specs.Objects.{IsObject};
ghost use Rattle.pv_steps.specs.Trees.{places, IsKind, IsTree, kind_of, node_at, payload_at, names_below, child_name};
ghost use Rattle.pv_steps.specs.Steps.{Can, HasRoom, StepFits, after, on_at};
ghost use Rattle.pv_steps.specs.Counting.{refused, faults_after};
ghost use Rattle.pv_tree.specs.Changes.{MayHave, with_node};
ghost use Rattle.pv_tree.specs.Held.{root_alone};
ghost use Rattle.pv_tree.specs.Sole.{tree_prop};
ghost use Rattle.pv_tree.specs.Slots.{files_of, IsTreeOf};

use crate::apply::{do_told, parts_fit};
use crate::edits::{put_below, set_node_at};
use crate::slot::Slot;
use crate::slots::{has_beside, nodes_along, root_slots};
use crate::step_log::{StepLog, directory_by, slot_at, slot_of};
use crate::walk::{Walk, paths_left};
use pv_path::{Bytes, Name, NameList, TreePath};
use pv_steps::{Kind, Node, Object, Step, Tree, TreeFault};
use std::alloc::{AllocError, Global};
use std::marker::Model;

/// A file tree in memory, together with the list of the steps done on it since it was made.
///
/// In contracts, a value has two parts: `files`, the map from paths to objects, and `steps`, the list of recorded
/// steps.
#[derive(Drop)]
pub struct MemTree {
    alloc: Global,
    /// The root has the number 0.
    slots: Vec<Slot>,
    /// The numbers of the slots to which no path leads.
    free: Vec<usize>,
    log: StepLog,
    ghost tree: { IsTree (files_of slots.items) } by { tree_prop (files_of slots.items) },
}

impl Model for MemTree {
    ghost use Rattle.pv_tree.specs.Held.{Held, held_code};
    ghost use Rattle.pv_tree.specs.Near.{IsHeld};
    ghost use Rattle.pv_tree.specs.Slots.{files_of};

    ghost Value = { Held };

    ghost coded = { held_code };

    ghost view = { λ t. record { files = files_of t.slots.items; steps = t.log.steps.items; tree = t.tree } };

    ghost invariant = { λ t. IsHeld t.slots.items t.free.items t.log.steps.items t.log.near };
}

impl MemTree {
    /// Returns a tree that has only a root, with no step recorded.
    ///
    /// `root` is the node of the root. Its kind must be `Directory`, and its parts must fit each other (`IsObject` in
    /// pv_steps). The only error is `AllocError`.
    pub fn new(alloc: Global, root: Node) -> Result<MemTree, AllocError>
        requires kind { root.kind ≡ Directory }
        requires object { IsObject (record { node = root; payload = [] }) }
        ensures files { IfOk result (λ tree. tree.files ≡ root_alone root) }
        ensures steps { IfOk result (λ tree. tree.steps ≡ []) }
    {
        let slots = root_slots(alloc, root)?;
        Ok(MemTree::of(alloc, slots, Vec::new(alloc)))
    }

    /// Returns the tree that slots hold, with no step recorded. The call does not allocate.
    pub(crate) fn of(alloc: Global, slots: Vec<Slot>, free: Vec<usize>) -> MemTree
        requires { IsTreeOf slots.items free.items }
        ensures files { result.files ≡ files_of slots.items }
        ensures steps { result.steps ≡ [] }
    {
        MemTree {
            alloc,
            slots,
            free,
            log: StepLog {
                steps: Vec::new(alloc),
                near: 0,
            },
        }
    }

    /// Adds an object at an absent path whose parent is a directory, and records no step.
    ///
    /// The timestamps of the new object are those of `node`. The directory is not changed. `payload` is the bytes of a
    /// file or the target of a link. It must be empty for any other kind. Node and payload must fit each other
    /// (`IsObject` in pv_steps).
    ///
    /// The only error is `AllocError`. The tree is then as before.
    pub fn add(&mut self, path: &TreePath, node: Node, payload: &[u8]) -> Result<(), AllocError>
        requires room { HasRoom (places self.old.files) path.now }
        requires object { IsObject (record { node = node; payload = payload.now }) }
        ensures ok { OnOk result (self.new.files
            ≡ fin.insert self.old.files path.now (record { node = node; payload = payload.now })) }
        ensures steps { self.new.steps ≡ self.old.steps }
        ensures err { OnErr result (self.new ≡ self.old) }
    {
        let payload = Bytes::copy_of(self.alloc, payload)?;
        self.add_object(path, Object { node, payload })
    }

    /// Adds an object at an absent path in a directory, and takes over its payload without copying it.
    fn add_object(&mut self, path: &TreePath, object: Object) -> Result<(), AllocError>
        requires room { HasRoom (places self.old.files) path.now }
        requires object { IsObject object }
        ensures ok { OnOk result (self.new.files ≡ fin.insert self.old.files path.now object) }
        ensures steps { self.new.steps ≡ self.old.steps }
        ensures err { OnErr result (self.new ≡ self.old) }
    {
        let _names = path.names();
        let directory = directory_by(&self.slots, &self.log, path);
        put_below(
            self.alloc,
            &mut self.slots,
            &mut self.free,
            directory,
            path,
            object,
        )?;
        Ok(())
    }

    /// Returns the node of the object at a path, or `None` if the path is absent. The call does not allocate.
    pub fn node_at(&self, path: &TreePath) -> Option<&Node>
        ensures node { option_copied result ≡ node_at self.now.files path.now }
        ensures tree { IsTree self.now.files }
    {
        match slot_at(&self.slots, &self.log, path) {
            Some(slot) => Some(&slot.node),
            None => None,
        }
    }

    /// Returns the kind of the object at the path of these names, or `None` if the path is absent. The call does not
    /// allocate.
    ///
    /// `names` are the components from the root on, so an empty slice is the root.
    pub fn kind_at(&self, names: &[Name]) -> Option<Kind>
        ensures kind { result ≡ kind_of (places self.now.files names.now) }
        ensures tree { IsTree self.now.files }
    {
        match slot_of(&self.slots, &self.log, names) {
            Some(slot) => Some(slot.node.kind),
            None => None,
        }
    }

    /// Replaces the node of the object at the path of these names. If the path is absent, the call does nothing.
    ///
    /// The new node must be of the same kind and fit the payload. The payload and everything below the path stay. The
    /// call records no step, and does not allocate.
    pub fn set_node(&mut self, names: &[Name], node: Node)
        requires { IfSome (places self.old.files names.now) (MayHave node) }
        ensures places { places self.new.files ≡ on_at names.now (with_node node) (places self.old.files) }
        ensures steps { self.new.steps ≡ self.old.steps }
    {
        set_node_at(&mut self.slots, names, node);
    }

    /// Returns the names in the directory at a path, in byte order. At the path there must be a directory. The only
    /// error is `AllocError`.
    pub fn names_at(&self, alloc: Global, path: &TreePath) -> Result<NameList, AllocError>
        requires { IsKind Directory self.now.files path.now }
        ensures { IfOk result (λ names. names ≡ names_below self.now.files path.now) }
    {
        match slot_at(&self.slots, &self.log, path) {
            Some(slot) => slot.content.names(alloc),
            None => unreachable!(),
        }
    }

    /// Returns the bytes of a file or the target of a link, and an empty slice for an object of another kind. The call
    /// does not allocate.
    ///
    /// The answer is `None` if the path is absent.
    pub fn payload_at(&self, path: &TreePath) -> Option<&[u8]>
        ensures { option_copied result ≡ payload_at self.now.files path.now }
    {
        match slot_at(&self.slots, &self.log, path) {
            Some(slot) => Some(slot.content.payload()),
            None => None,
        }
    }

    /// Returns a walk over all objects of the tree, which begins at the root. The only error is `AllocError`.
    pub fn walk(&self, alloc: Global) -> Result<Walk<'_>, AllocError>
        ensures entries { IfOk result (λ walk. walk ≡ fin.entries self.now.files) }
        ensures tree { IsTree self.now.files }
    {
        Walk::of(alloc, &self.slots)
    }

    /// Returns the number of steps done since the tree was made. The call does not allocate.
    pub fn step_count(&self) -> usize
        ensures { result ≡ length self.now.steps }
    {
        self.log.steps.len()
    }
}

impl Tree for MemTree {
    ghost state = { λ t. t.files };

    ghost steps = { λ t. t.steps };

    ghost faults = { λ t. 0 };

    ghost refused_at = { λ t. 0 };

    ghost reaches = { λ _ _. ⊤ };

    fn look(&self, path: &TreePath) -> Option<&Node>
        ensures node { option_copied result ≡ node_at self.now.files path.now }
        ensures tree { IsTree self.now.files }
    {
        self.node_at(path)
    }

    fn look_along(&self, alloc: Global, path: &TreePath) -> Result<Vec<&Node>, AllocError> {
        nodes_along(alloc, &self.slots, path.names())
    }

    fn has_beside(&self, path: &TreePath, names: &[Name]) -> bool {
        has_beside(&self.slots, path.names(), names)
    }

    fn list(&self, alloc: Global, path: &TreePath) -> Result<NameList, AllocError> {
        self.names_at(alloc, path)
    }

    fn at_and_below(&self, alloc: Global, path: &TreePath) -> Result<Vec<TreePath>, AllocError> {
        let mut walk = Walk::below(alloc, &self.slots, path.names())?;
        paths_left(alloc, &mut walk)
    }

    fn bytes(&self, path: &TreePath) -> &[u8] {
        match self.payload_at(path) {
            Some(bytes) => bytes,
            None => unreachable!(),
        }
    }

    fn target(&self, path: &TreePath) -> &[u8] {
        match self.payload_at(path) {
            Some(target) => target,
            None => unreachable!(),
        }
    }

    fn step(&mut self, step: &Step, now: u64) -> Result<(), TreeFault>
        requires { Can (places self.old.files) step.now }
        ensures state { OnOk result (self.new.files ≡ after self.old.files step.now now) }
        ensures recorded { OnOk result (self.new.steps ≡ self.old.steps ++ step.now ∷ []) }
        ensures kept { OnErr result (self.new.files ≡ self.old.files) }
        ensures unrecorded { OnErr result (self.new.steps ≡ self.old.steps) }
        ensures fits { StepFits step.now }

        // It refuses no step: the only error is that memory ran out.
        ensures cause { IsErrOf result Failed → ⊥ }
        ensures counted { 0 ≡ faults_after (refused result) 0 }
    {
        parts_fit(step);
        do_told(
            self.alloc,
            &mut self.slots,
            &mut self.free,
            &mut self.log,
            step,
            now,
        )
    }

    ghost reaches_self = { λ _. tt };

    ghost reaches_on = { λ _ _ _ _ _. tt };

    ghost is_tree = { λ t. t.tree };

    ghost never_falls = { λ _ _ _. Prim.omega arith };
}
