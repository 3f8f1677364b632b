//! A builder of trees: objects are added in the order of their paths.
ghost use Rattle.std.specs.Prelude.{◌≡◌, ◌≢◌, ℕ, ◌+◌, ◌<◌, ◌≤◌, List, [], length, take, vec_len, vec_capacity, true, false, Some, Err, IfOk, OnOk, OnErr};
ghost use Rattle.std.specs.Ordering.{is_lt};
ghost use Rattle.std.specs.FinMap as fin;
ghost use Rattle.pv_path.specs.Paths.{has_names, is_prefix, parent_of, path_cmp};
ghost use Rattle.pv_steps.specs.declared.node.Kind.TheVariants.{Directory};
ghost use Rattle.pv_steps.specs.Objects.{IsObject};
ghost use Rattle.pv_steps.specs.Steps.{put_at};
ghost use Rattle.pv_steps.specs.Trees.{IsKind, IsKindIn, IsTree};
ghost use Rattle.pv_tree.specs.declared.builder.BuildFault.TheVariants.{Memory};
ghost use Rattle.pv_tree.specs.Growth.{IsGrowing, IsShared};
ghost use Rattle.pv_tree.specs.Held.{root_alone};
ghost use Rattle.pv_tree.specs.Slots.{places_in};

use crate::edits::put_below;
use crate::mem_tree::MemTree;
use crate::slot::Slot;
use crate::slots::{is_directory_in, push_within, root_slots, shared_names};
use pv_path::{Name, TreePath};
use pv_steps::{Node, Object};
use std::alloc::{AllocError, Global};
use std::marker::Model;
use thiserror::Error;

/// Why a `TreeBuilder` did not add an object.
#[derive(Clone, Copy, Debug, PartialEq, Eq, Error)]
pub enum BuildFault {
    /// The path is not greater than the path that was added last. Paths are compared name by name, and names byte
    /// by byte.
    #[error("OutOfOrder")]
    OutOfOrder,
    /// The parent of the path is absent from the tree, or it is not a directory.
    #[error("NoParent")]
    NoParent,
    /// Memory ran out.
    #[error("Memory")]
    Memory,
}

impl From<AllocError> for BuildFault {
    ghost from_gives = { λ _ e. e ≡ Memory };

    fn from(_e: AllocError) -> BuildFault {
        BuildFault::Memory
    }
}

/// Returns whether the second path is greater than the first one, with which it shares so many names.
fn comes_after(first: &TreePath, second: &TreePath, shared: usize) -> bool
    requires { IsShared first.now second.now shared }
    ensures { result ≡ is_lt (path_cmp first.now second.now) }
{
    match (first.get(shared), second.get(shared)) {
        (Some(one), Some(other)) => one.cmp(other).is_lt(),
        (None, Some(_)) => true,
        (_, None) => false,
    }
}

/// Counts the names of the last path that make up the parent of the next path.
///
/// No other directory can be this parent, because objects come in the order of their paths.
fn depth_after(last: &TreePath, path: &TreePath) -> Result<usize, BuildFault>
    ensures depth { IfOk result (λ depth. take depth last.now ≡ parent_of path.now) }
    ensures parent { IfOk result (λ depth. depth + 1 ≡ length path.now) }
    ensures within { IfOk result (λ depth. depth ≤ length last.now) }
    ensures after { OnOk result (is_lt (path_cmp last.now path.now) ≡ true) }
    ensures order { result ≡ Err BuildFault.OutOfOrder → is_lt (path_cmp last.now path.now) ≡ false }
    ensures apart { result ≡ Err BuildFault.NoParent → is_prefix (parent_of path.now) last.now ≡ false }
    ensures late { result ≡ Err BuildFault.NoParent → is_lt (path_cmp last.now path.now) ≡ true }
{
    let shared = shared_names(last.names(), path.names());
    if !comes_after(last, path, shared) {
        return Err(BuildFault::OutOfOrder);
    }
    if path.len() - shared != 1 {
        return Err(BuildFault::NoParent);
    }
    Ok(shared)
}

/// Counts the names of the last path that make up the parent of the next path, and makes room for one more slot
/// number in `way`.
///
/// After an error the numbers in `way` are as before.
fn directory_depth(
    slots: &Vec<Slot>,
    last: &TreePath,
    way: &mut Vec<usize>,
    path: &TreePath,
) -> Result<usize, BuildFault>
    requires { (free : List ℕ) × IsGrowing slots.now.items free last.now way.old.items }
    ensures depth { IfOk result (λ depth. take depth last.now ≡ parent_of path.now) }
    ensures parent { IfOk result (λ depth. depth + 1 ≡ length path.now) }
    ensures within { IfOk result (λ depth. depth ≤ length last.now) }
    ensures after { OnOk result (is_lt (path_cmp last.now path.now) ≡ true) }
    ensures there { OnOk result (IsKindIn Directory (places_in slots.now.items) (parent_of path.now)) }
    ensures order { result ≡ Err BuildFault.OutOfOrder → is_lt (path_cmp last.now path.now) ≡ false }
    ensures late { result ≡ Err BuildFault.NoParent → is_lt (path_cmp last.now path.now) ≡ true }
    ensures orphan { result ≡ Err BuildFault.NoParent →
        IsKindIn Directory (places_in slots.now.items) (parent_of path.now) → ⊥ }
    ensures way { way.new.items ≡ way.old.items }
    ensures room { OnOk result (vec_len way.new < vec_capacity way.new) }
{
    let depth = depth_after(last, path)?;
    let directory = way[depth];
    if !is_directory_in(slots, directory) {
        return Err(BuildFault::NoParent);
    }
    way.reserve(1)?;
    Ok(depth)
}

/// Adds an object after the last one, whose path and ancestors' slot numbers are given.
///
/// After an error everything is as before.
fn add_after(
    alloc: Global,
    slots: &mut Vec<Slot>,
    free: &mut Vec<usize>,
    last: &mut TreePath,
    way: &mut Vec<usize>,
    path: TreePath,
    object: Object,
) -> Result<(), BuildFault>
    requires growing { IsGrowing slots.old.items free.old.items last.old way.old.items }
    requires named { has_names path ≡ true }
    requires object { IsObject object }
    ensures growing { IsGrowing slots.new.items free.new.items last.new way.new.items }
    ensures ok { OnOk result (places_in slots.new.items ≡ put_at path (Some object) (places_in slots.old.items)) }
    ensures last { OnOk result (last.new ≡ path) }
    ensures slots_kept { OnErr result (slots.new.items ≡ slots.old.items) }
    ensures last_kept { OnErr result (last.new ≡ last.old) }
    ensures after { OnOk result (is_lt (path_cmp last.old path) ≡ true) }
    ensures parent { OnOk result (IsKindIn Directory (places_in slots.old.items) (parent_of path)) }
    ensures order { result ≡ Err BuildFault.OutOfOrder → is_lt (path_cmp last.old path) ≡ false }
    ensures late { result ≡ Err BuildFault.NoParent → is_lt (path_cmp last.old path) ≡ true }
    ensures orphan { result ≡ Err BuildFault.NoParent →
        IsKindIn Directory (places_in slots.old.items) (parent_of path) → ⊥ }
{
    let depth = directory_depth(slots, last, way, &path)?;
    let directory = way[depth];
    let number = put_below(alloc, slots, free, directory, &path, object)?;
    way.truncate(depth + 1);
    push_within(way, number);
    *last = path;
    Ok(())
}

/// A tree that is built by adding objects in the order of their paths, and so without looking up directories.
///
/// For example, `/`, `/a`, `/a/b` and `/b` are in this order: a directory comes before what is in it.
///
/// In contracts, a value has two parts: `files`, the tree so far, and `last`, the path of the object that was added
/// last.
#[derive(Drop)]
pub struct TreeBuilder {
    alloc: Global,
    slots: Vec<Slot>,
    free: Vec<usize>,
    /// The path of the object that was added last.
    last: TreePath,
    /// The numbers of the slots from the root to this object.
    way: Vec<usize>,
}

impl Model for TreeBuilder {
    ghost use Rattle.pv_tree.specs.Growth.{Grown, grown_code, IsGrowing};
    ghost use Rattle.pv_tree.specs.Slots.{files_of};

    ghost Value = { Grown };

    ghost coded = { grown_code };

    ghost view = { λ b. record { files = files_of b.slots.items; last = b.last } };

    ghost invariant = { λ b. IsGrowing b.slots.items b.free.items b.last b.way.items };
}

impl TreeBuilder {
    /// Returns a builder whose tree has only a root, which counts as the object that was added last.
    ///
    /// `root` is the node of the root. Its kind must be `Directory`, and its parts must fit each other (`IsObject` in
    /// pv_steps). The only error is `AllocError`.
    pub fn new(alloc: Global, root: Node) -> Result<TreeBuilder, AllocError>
        requires kind { root.kind ≡ Directory }
        requires object { IsObject (record { node = root; payload = [] }) }
        ensures { IfOk result (λ builder. builder ≡ record { files = root_alone root; last = [] }) }
    {
        let slots = root_slots(alloc, root)?;
        let mut way = Vec::new(alloc);
        way.push(0)?;
        Ok(TreeBuilder {
            alloc,
            slots,
            free: Vec::new(alloc),
            last: TreePath::root(alloc),
            way,
        })
    }

    /// Adds an object with its timestamps as they are, and takes over path and payload without copying them.
    ///
    /// The path must be greater than the last one, and its parent must be a directory of the tree. Otherwise the error
    /// is `OutOfOrder` or `NoParent`. If both apply, it is `OutOfOrder`. If memory ran out, it is `Memory`.
    ///
    /// The parts of the object must fit each other (`IsObject` in pv_steps). After an error the builder is as before.
    pub fn add(&mut self, path: TreePath, object: Object) -> Result<(), BuildFault>
        requires { IsObject object }
        ensures ok { OnOk result (self.new ≡ record { files = fin.insert self.old.files path object; last = path }) }
        ensures err { OnErr result (self.new ≡ self.old) }
        ensures after { OnOk result (is_lt (path_cmp self.old.last path) ≡ true) }
        ensures parent { OnOk result (IsKind Directory self.old.files (parent_of path)) }

        // A path out of order is reported before a missing parent.
        ensures order { result ≡ Err BuildFault.OutOfOrder → is_lt (path_cmp self.old.last path) ≡ false }
        ensures late { result ≡ Err BuildFault.NoParent → is_lt (path_cmp self.old.last path) ≡ true }
        ensures orphan { result ≡ Err BuildFault.NoParent → IsKind Directory self.old.files (parent_of path) → ⊥ }
    {
        let _names = path.names();
        add_after(
            self.alloc,
            &mut self.slots,
            &mut self.free,
            &mut self.last,
            &mut self.way,
            path,
            object,
        )
    }

    /// Adds an object as `add` does, without its checks. The path must be greater than the last one, and its parent
    /// must be a directory of the tree. The parts of the object must fit each other (`IsObject` in pv_steps).
    ///
    /// The only error is `AllocError`. The builder is then as before.
    pub fn add_next(&mut self, path: TreePath, object: Object) -> Result<(), AllocError>
        requires object { IsObject object }
        requires after { is_lt (path_cmp self.old.last path) ≡ true }
        requires parent { IsKind Directory self.old.files (parent_of path) }
        ensures ok { OnOk result (self.new ≡ record { files = fin.insert self.old.files path object; last = path }) }
        ensures err { OnErr result (self.new ≡ self.old) }
    {
        match self.add(path, object) {
            Ok(()) => Ok(()),
            Err(BuildFault::Memory) => Err(AllocError),
            Err(BuildFault::OutOfOrder | BuildFault::NoParent) => unreachable!(),
        }
    }

    /// Returns the tree that was built, with no step recorded. The call does not allocate.
    pub fn finish(self) -> MemTree
        ensures files { result.files ≡ self.files }
        ensures steps { result.steps ≡ [] }
    {
        let TreeBuilder {
            alloc,
            slots,
            free,
            last: _,
            way: _,
        } = self;
        MemTree::of(alloc, slots, free)
    }
}
