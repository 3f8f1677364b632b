//! Closes a folder: writes its new manifest.
ghost use Rattle.std.specs.Prelude.{◌≡◌, ◌≤◌, ℕ, take, OnOk, OnErr, IfSome};
ghost use Rattle.pv_folder.specs.Content.{held, spelled};
ghost use Rattle.pv_folder.specs.Counts.{count_after};
ghost use Rattle.pv_folder.specs.Manifest.{IsManifest, manifest_of};
ghost use Rattle.pv_folder.specs.Keeping.{HasManifest, IsClosed, IsReady, IsSameButNew};
ghost use Rattle.pv_folder.specs.Made.{HasMade};
ghost use Rattle.pv_folder.specs.Moments.{closing};

use crate::folder_tree::FolderTree;
use crate::host::{Host, HostFault};
use crate::host_path::below;
use pv_image::write_emptied;
use pv_text::Facts;
use std::alloc::Global;

/// Writes a manifest as `manifest.new`, and then moves it to `manifest`.
///
/// So a loss of power leaves the old manifest or the new one, complete.
pub(crate) fn replace_manifest<H: Host>(
    alloc: Global,
    host: &mut H,
    folder: &[u8],
    text: &[u8],
) -> Result<(), HostFault>
    requires { IfSome (H.content host.old) (λ c. IsReady (spelled folder.now) (held c)) }
    ensures done { OnOk result (HasManifest (spelled folder.now) text.now (H.content host.old) (H.content host.new)) }
    ensures kept { OnErr result (IsSameButNew (spelled folder.now) (H.content host.old) (H.content host.new)) }
    ensures asked { OnOk result (HasMade (closing (spelled folder.now) text.now)
        (H.content host.old) (H.content host.new) (H.changes host.old) (H.changes host.new)) }
    ensures part { OnErr result ((k : ℕ) × ((k ≤ 1) × HasMade (take k (closing (spelled folder.now) text.now))
        (H.content host.old) (H.content host.new) (H.changes host.old) (H.changes host.new))) }
    ensures ready { IfSome (H.content host.new) (λ c. IsReady (spelled folder.now) (held c)) }
    ensures never_falls { H.faults host.old ≤ H.faults host.new }
    ensures count { H.faults host.new ≡ count_after result (H.faults host.old) }
{
    let new = below(alloc, folder, b"manifest.new")?;
    let manifest = below(alloc, folder, b"manifest")?;
    host.write_file(&new, text)?;
    host.replace_file(&new, &manifest)
}

/// Writes the manifest of a folder: the image of these facts and the tree in memory, with every file empty.
///
/// It is written as `manifest.new`, which then replaces `manifest`. These two are the only changes that the host makes.
/// The call may be made at any time, even after a step that failed or ran out of memory.
///
/// The errors are those of the host: `Failed` or `Memory`. If the content of the host is known, then after an error
/// everything except `manifest.new` is as before, so the old manifest is there. On a machine the content is not known.
/// There an error may come after the rename, and then the new manifest is there (see `Host::replace_file`). The tree in
/// memory and the path of the folder do not change.
pub fn close_folder<H: Host>(
    alloc: Global,
    tree: &mut FolderTree<'_, H>,
    facts: &Facts,
) -> Result<(), HostFault>
    ensures done { OnOk result (IsClosed (spelled tree.old.folder.items) facts.now tree.old.tree.files
        (H.content tree.old.host.now) (H.content tree.new.host.now)) }
    ensures image { OnOk result (IsManifest facts.now tree.old.tree.files) }
    ensures kept { OnErr result (IsSameButNew (spelled tree.old.folder.items)
        (H.content tree.old.host.now) (H.content tree.new.host.now)) }

    // The host has made the two changes that close the folder and no others. After an error it has made none of them
    // or the first.
    ensures asked { OnOk result (HasMade (closing (spelled tree.old.folder.items) (manifest_of facts.now tree.old.tree.files))
        (H.content tree.old.host.now) (H.content tree.new.host.now) (H.changes tree.old.host.now) (H.changes tree.new.host.now)) }
    ensures part { OnErr result ((k : ℕ) × ((k ≤ 1) × HasMade (take k (closing (spelled tree.old.folder.items) (manifest_of facts.now tree.old.tree.files)))
        (H.content tree.old.host.now) (H.content tree.new.host.now) (H.changes tree.old.host.now) (H.changes tree.new.host.now))) }
    ensures never_falls { H.faults tree.old.host.now ≤ H.faults tree.new.host.now }
    ensures count { H.faults tree.new.host.now ≡ count_after result (H.faults tree.old.host.now) }
    ensures host { tree.new.host.ghost_name ≡ tree.old.host.ghost_name }
    ensures folder { tree.new.folder ≡ tree.old.folder }
    ensures tree { tree.new.tree ≡ tree.old.tree }
    ensures pending { tree.new.pending ≡ tree.old.pending }
{
    let text = write_emptied(alloc, tree.tree(), facts)?;
    tree.replace_manifest(alloc, &text)
}
