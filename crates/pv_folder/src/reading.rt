//! Opens a folder of a host.
ghost use Rattle.std.specs.Prelude.{◌≡◌, ◌≤◌, ◌⊎◌, [], true, false, is_some, IfOk, IfErr, IfSome, IsErrOf, Err};
ghost use Rattle.pv_io.specs.Faults.{HasRisen};
ghost use Rattle.std.specs.FinMap as fin;
ghost use Rattle.pv_steps.specs.declared.node.Kind.TheVariants as node;
ghost use Rattle.pv_steps.specs.Objects.{fresh};
ghost use Rattle.pv_tree.specs.Held.{root_alone};
ghost use Rattle.pv_folder.specs.Content.{IsContent, held, spelled};
ghost use Rattle.pv_folder.specs.declared.open_fault.OpenFault.TheVariants.{HostFailed, Memory};
ghost use Rattle.pv_folder.specs.declared.open_fault.OpenFault.{OpenFault as Fault};
ghost use Rattle.pv_folder.specs.Folders.{IsPrepared, manifest_path};
ghost use Rattle.pv_folder.specs.Opening.{IsOpened, IsRefused, IsUnsaid, Says, SaysRead, is_outer};
ghost use Rattle.pv_folder.specs.Reading.{is_free, kind_named, lists_prepared};

use crate::host::Host;
use crate::host_path::below;
use crate::item::{HostItem, HostKind};
use crate::looking::bytes_at;
use crate::merging::merge_with;
use crate::open_fault::OpenFault;
use crate::reading_tree::read_tree;
use pv_image::{Image, read_image};
use pv_path::Bytes;
use pv_steps::{Kind, Object};
use pv_text::Facts;
use pv_tree::TreeBuilder;
use std::alloc::{AllocError, Global};

/// Returns the kind that a listing has for a name, if it has the name.
fn kind_named(items: &[HostItem], name: &[u8]) -> Option<HostKind>
    ensures { result ≡ kind_named name.now items.now }
{
    for item in items {
        if item.name.as_slice() == name {
            return Some(item.kind);
        }
    }
    None
}

/// Returns whether a file may be written where there is an object of this kind, or nothing.
fn is_free(kind: Option<HostKind>) -> bool
    ensures { result ≡ is_free kind }
{
    matches!(kind, None | Some(HostKind::File))
}

/// Returns whether a folder with this listing is prepared: it has the directory `tree`, and each of `manifest` and
/// `manifest.new` is a file or absent.
fn is_prepared(items: &[HostItem]) -> bool
    ensures { result ≡ lists_prepared items.now }
{
    kind_named(items, b"tree") == Some(HostKind::Directory)
        && is_free(kind_named(items, b"manifest"))
        && is_free(kind_named(items, b"manifest.new"))
}

/// Returns whether a folder has a manifest. If the folder is not prepared, this is an error.
fn has_manifest<H: Host>(alloc: Global, host: &mut H, folder: &[u8]) -> Result<bool, OpenFault>
    ensures prepared { IfOk result (λ _. IfSome (H.content host.old) (λ c. IsPrepared (spelled folder.now) (held c))) }
    ensures there { IfOk result (λ there. IfSome (H.content host.old) (λ c.
        there ≡ is_some (held c (manifest_path (spelled folder.now))))) }
    ensures content { IfSome (H.content host.old) (λ c. IsContent (held c)) }
    ensures refused { IfErr result (λ fault. is_outer fault ≡ false → IfSome (H.content host.old) (λ c.
        IsRefused (spelled folder.now) c fault)) }
    ensures kept { H.content host.new ≡ H.content host.old }
    ensures unasked { H.changes host.new ≡ H.changes host.old }
    ensures cause { IsErrOf result HostFailed → HasRisen (H.faults host.old) (H.faults host.new) }
    ensures never_falls { H.faults host.old ≤ H.faults host.new }
{
    let Some(items) = host.list(alloc, folder)? else {
        return Err(OpenFault::NotPrepared);
    };
    if !is_prepared(items.as_slice()) {
        return Err(OpenFault::NotPrepared);
    }
    Ok(kind_named(items.as_slice(), b"manifest").is_some())
}

/// Returns the facts and the tree of a manifest that was listed and then read.
///
/// If it was gone by then, it is an odd object. It does not count as absent, so that no run writes over a manifest
/// that it has not read.
fn manifest_from(alloc: Global, read: Option<Bytes>) -> Result<Image, OpenFault>
    ensures says { IfOk result (λ image. SaysRead read image.facts image.tree.files) }
    ensures unsaid { IfErr result (λ fault. IsUnsaid read fault) }
    ensures own { IsErrOf result HostFailed → ⊥ }
{
    match read {
        Some(bytes) => Ok(read_image(alloc, bytes.as_slice())?),
        None => Err(OpenFault::OddObject(Bytes::copy_of(alloc, b"/manifest")?)),
    }
}

/// Reads the facts and the tree of the manifest of a folder, which is there.
fn read_manifest<H: Host>(alloc: Global, host: &mut H, folder: &[u8]) -> Result<Image, OpenFault>
    requires prepared { IfSome (H.content host.old) (λ c. IsPrepared (spelled folder.now) (held c)) }
    requires there { IfSome (H.content host.old) (λ c. is_some (held c (manifest_path (spelled folder.now))) ≡ true) }
    ensures says { IfOk result (λ image. IfSome (H.content host.old) (λ c.
        Says (spelled folder.now) c image.facts image.tree.files)) }
    ensures refused { IfErr result (λ fault. is_outer fault ≡ false → IfSome (H.content host.old) (λ c.
        IsRefused (spelled folder.now) c fault)) }
    ensures kept { H.content host.new ≡ H.content host.old }
    ensures unasked { H.changes host.new ≡ H.changes host.old }
    ensures cause { IsErrOf result HostFailed → HasRisen (H.faults host.old) (H.faults host.new) }
    ensures never_falls { H.faults host.old ≤ H.faults host.new }
{
    let place = below(alloc, folder, b"manifest")?;
    let read = bytes_at(alloc, host, place.as_slice())?;
    manifest_from(alloc, read)
}

/// Returns what an absent manifest says: no facts and only a root.
fn no_manifest(alloc: Global) -> Result<Image, AllocError>
    ensures facts { IfOk result (λ image. image.facts ≡ fin.empty) }
    ensures tree { IfOk result (λ image. image.tree.files ≡ root_alone (fresh node.Directory 0o755 [] 0 0 0).node) }
{
    let root = Object::fresh(alloc, Kind::Directory, 0o755, Bytes::new(alloc), 0, 0, 0);
    Ok(Image {
        tree: TreeBuilder::new(alloc, root.node)?.finish(),
        facts: Facts::new(alloc),
    })
}

/// Reads the facts and the tree of the manifest of a folder, which must be prepared.
fn manifest_in<H: Host>(alloc: Global, host: &mut H, folder: &[u8]) -> Result<Image, OpenFault>
    ensures prepared { IfOk result (λ _. IfSome (H.content host.old) (λ c. IsPrepared (spelled folder.now) (held c))) }
    ensures content { IfSome (H.content host.old) (λ c. IsContent (held c)) }
    ensures says { IfOk result (λ image. IfSome (H.content host.old) (λ c.
        Says (spelled folder.now) c image.facts image.tree.files)) }
    ensures refused { IfErr result (λ fault. is_outer fault ≡ false → IfSome (H.content host.old) (λ c.
        IsRefused (spelled folder.now) c fault)) }
    ensures kept { H.content host.new ≡ H.content host.old }
    ensures unasked { H.changes host.new ≡ H.changes host.old }
    ensures cause { IsErrOf result HostFailed → HasRisen (H.faults host.old) (H.faults host.new) }
    ensures never_falls { H.faults host.old ≤ H.faults host.new }
{
    if has_manifest(alloc, host, folder)? {
        read_manifest(alloc, host, folder)
    } else {
        Ok(no_manifest(alloc)?)
    }
}

/// Opens a folder of a host: returns the facts of its manifest, and the manifest's tree merged with the real
/// objects in `tree`.
///
/// `folder` is the path of the folder on the host, with slashes between the names. No step is recorded in the tree, and
/// nothing on the host is changed. An absent manifest counts as one with no facts and only a root. `merge` says how the
/// two are merged.
///
/// The folder is listed first, then its manifest is read, then `tree` is read in the order of the paths. The first
/// defect that is met is the error: see `OpenFault`. If the host fails or memory runs out before that, the error is
/// `HostFailed` or `Memory`. One of the defects is `TooLarge`: the limits are 1,000,000 objects below `tree`, and 64
/// MiB for the files together.
pub fn read_folder<H: Host>(alloc: Global, host: &mut H, folder: &[u8]) -> Result<Image, OpenFault>
    ensures opened { IfOk result (λ image. IfSome (H.content host.old) (λ c.
        IsOpened (spelled folder.now) c image.facts image.tree.files)) }
    ensures steps { IfOk result (λ image. image.tree.steps ≡ []) }

    // The error of a defective folder is its defect, `HostFailed` or `Memory`.
    ensures refused { IfErr result (λ fault. is_outer fault ≡ false → IfSome (H.content host.old) (λ c.
        IsRefused (spelled folder.now) c fault)) }
    ensures refuses { (fault : Fault) → IfSome (H.content host.old) (λ c. IsRefused (spelled folder.now) c fault →
        (result ≡ Err fault) ⊎ IsErrOf result HostFailed ⊎ IsErrOf result Memory) }
    ensures content { IfSome (H.content host.old) (λ c. IsContent (held c)) }
    ensures kept { H.content host.new ≡ H.content host.old }
    ensures unasked { H.changes host.new ≡ H.changes host.old }
    ensures cause { IsErrOf result HostFailed → HasRisen (H.faults host.old) (H.faults host.new) }
    ensures never_falls { H.faults host.old ≤ H.faults host.new }
{
    let manifest = manifest_in(alloc, host, folder)?;
    let real = read_tree(alloc, host, folder)?;
    Ok(merge_with(alloc, manifest, real)?)
}
