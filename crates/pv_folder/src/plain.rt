//! Real objects of which a manifest says nothing.
ghost use Rattle.std.specs.Prelude.{◌≡◌, [], IfOk};
ghost use Rattle.pv_steps.specs.declared.node.Kind.TheVariants.{Directory};
ghost use Rattle.pv_folder.specs.Merge.{plain, plain_mode, plained};

use crate::growing::add_at;
use pv_path::Bytes;
use pv_steps::{Kind, Node, Object};
use pv_tree::{MemTree, TreeBuilder};
use std::alloc::{AllocError, Global};

/// Returns the mode of a real object of which the manifest says nothing.
fn plain_mode(kind: Kind) -> u16
    ensures { result ≡ plain_mode kind }
{
    match kind {
        Kind::Directory => 0o755,
        Kind::Link => 0o777,
        Kind::File | Kind::Fifo | Kind::CharDevice | Kind::BlockDevice => 0o644,
    }
}

/// Returns a real object of which the manifest says nothing, with a copy of its bytes.
fn plain(alloc: Global, node: &Node, payload: &[u8]) -> Result<Object, AllocError>
    ensures { IfOk result (λ object. object ≡ plain (record { node = node.now; payload = payload.now })) }
{
    let payload = Bytes::copy_of(alloc, payload)?;
    let mode = plain_mode(node.kind);
    Ok(Object::fresh(alloc, node.kind, mode, payload, node.major, node.minor, 0))
}

/// Copies a tree as if the manifest said nothing of it.
pub(crate) fn plain_copy(alloc: Global, tree: &MemTree) -> Result<MemTree, AllocError>
    ensures files { IfOk result (λ copy. copy.files ≡ plained tree.now.files) }
    ensures steps { IfOk result (λ copy. copy.steps ≡ []) }
{
    let mut walk = tree.walk(alloc)?;
    let Some(first) = walk.place() else {
        unreachable!()
    };
    let root = plain(alloc, first.node, first.payload)?;
    let mut builder = TreeBuilder::new(alloc, root.node)?;
    walk.advance()?;
    while let Some(place) = walk.place() {
        let object = plain(alloc, place.node, place.payload)?;
        add_at(alloc, &mut builder, place.names, object)?;
        walk.advance()?;
    }
    Ok(builder.finish())
}
