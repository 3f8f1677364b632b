//! The paths of the account files.
ghost use Rattle.std.specs.Prelude.{◌≡◌, true, IfOk, ◌∷◌, ◌++◌, []};
ghost use Rattle.pv_path.specs.Names.{is_name};
ghost use Rattle.pv_layers.specs.Places.{etc};
ghost use Rattle.pv_sysusers.specs.FileWriting.{account_paths};

use pv_layers::etc_path;
use pv_path::{Name, TreePath};
use std::alloc::{AllocError, Global};

/// Returns the path of the file of this name in `/etc`.
pub(crate) fn file_path(alloc: Global, name: &[u8]) -> Result<TreePath, AllocError>
    requires { is_name name.now ≡ true }
    ensures { IfOk result (λ path. path ≡ etc ++ name.now ∷ []) }
{
    let mut path = etc_path(alloc)?;
    path.push(Name::of(alloc, name)?)?;
    Ok(path)
}

/// Returns the paths of the account files, in the order in which they are staged and renamed into place.
pub(crate) fn account_paths(alloc: Global) -> Result<Vec<TreePath>, AllocError>
    ensures { IfOk result (λ paths. paths.items ≡ account_paths) }
{
    let mut paths = Vec::new(alloc);
    paths.push(file_path(alloc, b"group")?)?;
    paths.push(file_path(alloc, b"gshadow")?)?;
    paths.push(file_path(alloc, b"shadow")?)?;
    paths.push(file_path(alloc, b"passwd")?)?;
    Ok(paths)
}
