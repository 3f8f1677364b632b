//! Objects that a listing of a host names, and what is then read of them.
ghost use Rattle.std.specs.Prelude.{◌≡◌, ◌∷◌, ◌++◌, [], true, reverse, map, IfOk, OnOk};
ghost use Rattle.pv_folder.specs.Lists.{is_ordered};
ghost use Rattle.pv_folder.specs.Opening.{odd};
ghost use Rattle.pv_folder.specs.Reading.{found_in};

use crate::item::{HostItem, HostKind, HostList};
use crate::open_fault::OpenFault;
use pv_path::{Bytes, TreePath, add_printed, child, is_name, print_path};
use std::alloc::{AllocError, Global};

/// An object that a listing names, with the directory that it is in.
#[derive(Drop)]
pub(crate) struct Found {
    pub(crate) directory: TreePath,
    pub(crate) name: Bytes,
    pub(crate) kind: HostKind,
}

/// What was read of an object: the list of a directory, or the bytes of a file.
#[derive(Drop)]
pub(crate) enum Seen {
    Directory(HostList),
    File(Bytes),
}

/// Returns the object that an item of a listing of a directory names.
fn found_in(alloc: Global, directory: &TreePath, item: &HostItem) -> Result<Found, AllocError>
    ensures { IfOk result (λ found. found ≡ found_in directory.now item.now) }
{
    Ok(Found {
        directory: directory.copy()?,
        name: Bytes::copy_of(alloc, item.name.as_slice())?,
        kind: item.kind,
    })
}

/// Adds what a listing of a directory names to what is still to be read. The next one to be read is the last.
pub(crate) fn push_found(
    alloc: Global,
    pending: &mut Vec<Found>,
    directory: &TreePath,
    items: &HostList,
) -> Result<(), AllocError>
    ensures pushed { OnOk result (pending.new.items ≡ pending.old.items ++ reverse (map (found_in directory.now) items.now)) }
    ensures ordered { is_ordered items.now ≡ true }
{
    for item in items.as_slice().iter().rev() {
        pending.push(found_in(alloc, directory, item)?)?;
    }
    Ok(())
}

/// Returns the error for an odd object in a directory of the tree of a folder.
pub(crate) fn odd(alloc: Global, directory: &TreePath, name: &[u8]) -> Result<OpenFault, AllocError>
    ensures { IfOk result (λ fault. fault ≡ odd (directory.now ++ name.now ∷ [])) }
{
    let tree = child(alloc, &TreePath::root(alloc), b"tree")?;
    let mut text = print_path(alloc, &tree.followed_by(directory.names())?)?;
    text.push(b'/')?;
    add_printed(&mut text, name)?;
    Ok(OpenFault::OddObject(Bytes::from_vec(text)))
}
