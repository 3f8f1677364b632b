//! Merges a manifest with real objects.
ghost use Rattle.std.specs.Prelude.{◌≡◌, [], IfOk, OnOk};
ghost use Rattle.pv_folder.specs.Merge.{IsPlain, merged};

use crate::copied_facts::copy_of;
use crate::merged_object::merge_at;
use crate::plain::plain_copy;
use pv_image::Image;
use pv_tree::MemTree;
use std::alloc::{AllocError, Global};

/// Merges the tree of a manifest into that of real objects, of which no manifest says anything yet.
fn merge_into(alloc: Global, tree: &mut MemTree, manifest: &MemTree) -> Result<(), AllocError>
    requires { IsPlain tree.old.files }
    ensures files { OnOk result (tree.new.files ≡ merged manifest.now.files tree.old.files) }
    ensures steps { tree.new.steps ≡ tree.old.steps }
{
    let mut entries = manifest.walk(alloc)?;
    while let Some(place) = entries.place() {
        merge_at(alloc, tree, place.names, place.node, place.payload)?;
        entries.advance()?;
    }
    Ok(())
}

/// Merges a manifest with the tree of real objects, which it takes over with all bytes.
pub(crate) fn merge_with(alloc: Global, manifest: Image, real: MemTree) -> Result<Image, AllocError>
    requires { IsPlain real.files }
    ensures tree { IfOk result (λ image. image.tree.files ≡ merged manifest.tree.files real.files) }
    ensures steps { IfOk result (λ image. image.tree.steps ≡ real.steps) }
    ensures facts { IfOk result (λ image. image.facts ≡ manifest.facts) }
{
    let Image {
        tree: entries,
        facts,
    } = manifest;
    let mut tree = real;
    merge_into(alloc, &mut tree, &entries)?;
    Ok(Image { tree, facts })
}

/// Merges a manifest with the real objects of a folder, and keeps the facts of the manifest. No step is recorded in
/// the tree.
///
/// Each real object keeps its bytes. It has all else from the manifest's object of its kind at its path. If there
/// is none, it belongs to root, has mode 0755 or 0644, and its timestamps are 0.
///
/// A link, a FIFO or a device of the manifest is added if nothing real is at its path and its parent is a real
/// directory. The only error is `AllocError`.
pub fn merge(alloc: Global, manifest: &Image, real: &MemTree) -> Result<Image, AllocError>
    ensures tree { IfOk result (λ image. image.tree.files ≡ merged manifest.now.tree.files real.now.files) }
    ensures steps { IfOk result (λ image. image.tree.steps ≡ []) }
    ensures facts { IfOk result (λ image. image.facts ≡ manifest.now.facts) }
{
    let facts = copy_of(alloc, &manifest.facts)?;
    let mut tree = plain_copy(alloc, real)?;
    merge_into(alloc, &mut tree, &manifest.tree)?;
    Ok(Image { tree, facts })
}
