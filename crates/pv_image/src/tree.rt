//! Adds nodes to the tree in the order in which they are read.
ghost use Rattle.std.specs.Prelude.{◌≡◌, ◌≢◌, ◌∷◌, ◌++◌, [], Some, Ok, IfOk, IfErr, OnOk, true, false};
ghost use Rattle.std.specs.FinMap as fin;
ghost use Rattle.pv_steps.specs.Objects.{IsObject};
ghost use Rattle.pv_image.specs.declared.version.Version.{Version};
ghost use Rattle.pv_image.specs.Images.{is_root, judged};
ghost use Rattle.pv_image.specs.Images.{Node as NodeLine, InNodes};
ghost use Rattle.pv_image.specs.Progress.{IsLastPath, Refuses};

use crate::image_fault::ImageFault;
use pv_path::TreePath;
use pv_steps::Object;
use pv_tree::{BuildFault, TreeBuilder};
use std::alloc::Global;

/// Adds a node to the tree that is being built, if it may come after the nodes before it.
pub(crate) fn add_node(
    tree: &mut TreeBuilder,
    number: u64,
    path: TreePath,
    object: Object,
) -> Result<(), ImageFault>
    requires object { IsObject object }
    requires last { IsLastPath tree.old.files tree.old.last }
    ensures added { let nodes = fin.entries tree.new.files in
        OnOk result (nodes ≡ fin.entries tree.old.files ++ (path, object) ∷ []) }
    ensures last { OnOk result (tree.new.last ≡ path) }
    ensures judged { (version : Version) → let nodes = fin.entries tree.old.files in
        OnOk result (judged number (InNodes version nodes) (NodeLine version (path, object))
        ≡ Some (Ok (InNodes version (nodes ++ (path, object) ∷ [])))) }
    ensures refused { (version : Version) → let nodes = fin.entries tree.old.files in
        IfErr result (Refuses number (InNodes version nodes) (NodeLine version (path, object))) }
{
    match tree.add(path, object) {
        Ok(()) => Ok(()),
        Err(BuildFault::OutOfOrder) => Err(ImageFault::OutOfOrder(number)),
        Err(BuildFault::NoParent) => Err(ImageFault::NoParent(number)),
        Err(BuildFault::Memory) => Err(ImageFault::Memory),
    }
}

/// Begins the tree with its first node, which must be the root directory.
pub(crate) fn root_tree(
    alloc: Global,
    number: u64,
    path: &TreePath,
    object: Object,
) -> Result<TreeBuilder, ImageFault>
    requires { IsObject object }
    ensures root { IfOk result (λ tree. fin.entries tree.files ≡ (path.now, object) ∷ []) }
    ensures last { IfOk result (λ tree. tree.last ≡ []) }
    ensures is_root { OnOk result (is_root (path.now, object) ≡ true) }
    ensures refused { IfErr result (λ f. f ≢ ImageFault.Memory →
        (is_root (path.now, object) ≡ false) × (f ≡ ImageFault.NoParent number)) }
{
    let Object { node, payload: _ } = object;
    if !path.is_empty() || !node.kind.is_directory() {
        return Err(ImageFault::NoParent(number));
    }
    Ok(TreeBuilder::new(alloc, node)?)
}
