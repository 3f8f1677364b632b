//! Reads objects of a folder.
ghost use Rattle.std.specs.Prelude.{◌≡◌, ◌≢◌, ◌≤◌, ◌∷◌, ◌++◌, [], true, false, option_map, IfOk, IfErr, IfSome, IsErrOf};
ghost use Rattle.pv_io.specs.Faults.{HasRisen};
ghost use Rattle.pv_path.specs.Names.{is_name};
ghost use Rattle.pv_folder.specs.declared.item.HostKind.TheVariants as kind;
ghost use Rattle.pv_folder.specs.Content.{IsContent, bytes_of, held, kind_at, listing, spelled};
ghost use Rattle.pv_folder.specs.declared.open_fault.OpenFault.TheVariants.{HostFailed, TooLarge};
ghost use Rattle.pv_folder.specs.Folders.{tree_path};
ghost use Rattle.pv_folder.specs.Opening.{IsLonger, is_outer, odd};
ghost use Rattle.pv_folder.specs.Reading.{Shows, path_of};

use crate::found::{Found, Seen, odd};
use crate::host::{FileBytes, Host};
use crate::host_path::host_path;
use crate::item::{HostKind, HostList};
use crate::open_fault::OpenFault;
use pv_path::{Bytes, TreePath};
use std::alloc::Global;

/// Lists a directory of the tree of a folder. The answer is `None` if the path is not a directory.
pub(crate) fn items_at<H: Host>(
    alloc: Global,
    host: &mut H,
    folder: &[u8],
    path: &TreePath,
) -> Result<Option<HostList>, OpenFault>
    ensures from_content { IfOk result (λ items. IfSome (H.content host.old) (λ c.
        items ≡ listing c (tree_path (spelled folder.now) ++ path.now))) }
    ensures content { IfOk result (λ _. IfSome (H.content host.old) (λ c. IsContent (held c))) }
    ensures outer { IfErr result (λ fault. is_outer fault ≡ true) }
    ensures kept { H.content host.new ≡ H.content host.old }
    ensures unasked { H.changes host.new ≡ H.changes host.old }
    ensures cause { IsErrOf result HostFailed → HasRisen (H.faults host.old) (H.faults host.new) }
    ensures never_falls { H.faults host.old ≤ H.faults host.new }
{
    let place = host_path(alloc, folder, path)?;
    Ok(host.list(alloc, place.as_slice())?)
}

/// Reads the bytes of a file of a host. The answer is `None` if the path is not a file.
pub(crate) fn bytes_at<H: Host>(
    alloc: Global,
    host: &mut H,
    place: &[u8],
) -> Result<Option<Bytes>, OpenFault>
    ensures from_content { IfOk result (λ bytes. IfSome (H.content host.old) (λ c. bytes ≡ bytes_of (held c (spelled place.now)))) }
    ensures outer { IfErr result (λ fault. is_outer fault ≡ true) }
    ensures kept { H.content host.new ≡ H.content host.old }
    ensures unasked { H.changes host.new ≡ H.changes host.old }
    ensures cause { IsErrOf result HostFailed → HasRisen (H.faults host.old) (H.faults host.new) }
    ensures never_falls { H.faults host.old ≤ H.faults host.new }
{
    match host.read_file(alloc, place)? {
        Some(bytes) => Ok(Some(without_room(bytes))),
        None => Ok(None),
    }
}

/// Returns bytes without unused capacity, which would be kept as long as they are.
fn without_room(bytes: Vec<u8>) -> Bytes
    ensures { result ≡ bytes.items }
{
    let mut bytes = bytes;
    bytes.shrink_to_fit();
    Bytes::from_vec(bytes)
}

/// Reads the bytes of a file of a host. The answer is `None` if the path is not a file, and an error if the file
/// has more than `room` bytes.
fn file_at<H: Host>(
    alloc: Global,
    host: &mut H,
    place: &[u8],
    room: usize,
) -> Result<Option<Bytes>, OpenFault>
    ensures from_content { IfOk result (λ bytes. IfSome (H.content host.old) (λ c. bytes ≡ bytes_of (held c (spelled place.now)))) }
    ensures fault { IfErr result (λ fault. is_outer fault ≡ false → fault ≡ TooLarge) }
    ensures large { IsErrOf result TooLarge → IfSome (H.content host.old) (λ c. IsLonger room (bytes_of (held c (spelled place.now)))) }
    ensures kept { H.content host.new ≡ H.content host.old }
    ensures unasked { H.changes host.new ≡ H.changes host.old }
    ensures cause { IsErrOf result HostFailed → HasRisen (H.faults host.old) (H.faults host.new) }
    ensures never_falls { H.faults host.old ≤ H.faults host.new }
{
    match host.read_within(alloc, place, room)? {
        Some(FileBytes::Whole(bytes)) => Ok(Some(without_room(bytes))),
        Some(FileBytes::Longer) => Err(OpenFault::TooLarge),
        None => Ok(None),
    }
}

/// Reads an object of the tree of a folder, which was listed before, at its path.
///
/// It is an odd object if it is not what the listing says. The folder is too large if the object is a file with
/// more than `room` bytes.
pub(crate) fn look<H: Host>(
    alloc: Global,
    host: &mut H,
    folder: &[u8],
    found: &Found,
    path: &TreePath,
    room: usize,
) -> Result<Seen, OpenFault>
    requires kind { found.now.kind ≢ kind.Other }
    requires path { path.now ≡ path_of found.now }
    ensures from_content { IfOk result (λ seen. IfSome (H.content host.old) (λ c. Shows c (tree_path (spelled folder.now) ++ path.now) seen)) }
    ensures odd { IfErr result (λ fault. is_outer fault ≡ false → fault ≢ TooLarge → fault ≡ odd path.now) }
    ensures other { IfErr result (λ fault. is_outer fault ≡ false → fault ≢ TooLarge → IfSome (H.content host.old) (λ c.
        kind_at (held c) (tree_path (spelled folder.now) ++ path.now) ≢ Some found.now.kind)) }
    ensures large { IsErrOf result TooLarge → IfSome (H.content host.old) (λ c.
        IsLonger room (bytes_of (held c (tree_path (spelled folder.now) ++ path.now)))) }
    ensures kept { H.content host.new ≡ H.content host.old }
    ensures unasked { H.changes host.new ≡ H.changes host.old }
    ensures cause { IsErrOf result HostFailed → HasRisen (H.faults host.old) (H.faults host.new) }
    ensures never_falls { H.faults host.old ≤ H.faults host.new }
{
    match found.kind {
        HostKind::Directory => {
            if let Some(items) = items_at(alloc, host, folder, path)? {
                return Ok(Seen::Directory(items));
            }
        }
        HostKind::File => {
            let place = host_path(alloc, folder, path)?;
            if let Some(bytes) = file_at(alloc, host, place.as_slice(), room)? {
                return Ok(Seen::File(bytes));
            }
        }
        HostKind::Other => unreachable!(),
    }
    Err(odd(alloc, &found.directory, found.name.as_slice())?)
}
