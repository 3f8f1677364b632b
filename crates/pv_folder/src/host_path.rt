//! Paths of a host as bytes.
ghost use Rattle.std.specs.Prelude.{◌≡◌, ◌∷◌, ◌++◌, [], true, IfOk, OnOk};
ghost use Rattle.pv_path.specs.Names.{is_name};
ghost use Rattle.pv_folder.specs.Content.{spelled};
ghost use Rattle.pv_folder.specs.Folders.{tree_path};

use pv_path::TreePath;
use std::alloc::{AllocError, Global};

/// Appends a slash and a name to a path of a host.
fn add_name(path: &mut Vec<u8>, name: &[u8]) -> Result<(), AllocError>
    requires { is_name name.now ≡ true }
    ensures { OnOk result (spelled path.new.items ≡ spelled path.old.items ++ name.now ∷ []) }
{
    path.push(b'/')?;
    path.extend_from_slice(name)?;
    Ok(())
}

/// The capacity in bytes that a path has at first, which is enough for most paths.
const USUAL_LENGTH: usize = 256;

/// Returns the path of a name in a folder of a host.
pub(crate) fn below(alloc: Global, folder: &[u8], name: &[u8]) -> Result<Vec<u8>, AllocError>
    requires { is_name name.now ≡ true }
    ensures { IfOk result (λ bytes. spelled bytes.items ≡ spelled folder.now ++ name.now ∷ []) }
{
    let mut path = Vec::with_capacity(alloc, USUAL_LENGTH)?;
    path.extend_from_slice(folder)?;
    add_name(&mut path, name)?;
    Ok(path)
}

/// Returns the path at which a folder of a host has the object at a path of a tree.
pub(crate) fn host_path(
    alloc: Global,
    folder: &[u8],
    path: &TreePath,
) -> Result<Vec<u8>, AllocError>
    ensures { IfOk result (λ bytes. spelled bytes.items ≡ tree_path (spelled folder.now) ++ path.now) }
{
    let mut bytes = below(alloc, folder, b"tree")?;
    for name in path.names() {
        add_name(&mut bytes, name.bytes())?;
    }
    Ok(bytes)
}
