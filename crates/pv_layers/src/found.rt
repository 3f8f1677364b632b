//! What is found where a configuration file is looked for: a file, a mask, something else, or nothing.
ghost use Rattle.std.specs.Prelude.{◌≡◌, ◌∷◌, ◌++◌, [], true, IfOk};
ghost use Rattle.pv_path.specs.Names.{is_name, same_bytes};
ghost use Rattle.pv_layers.specs.Folders.{found_at, found_in, mask_target};

use pv_path::{PathList, TreePath, child};
use pv_steps::{Kind, Tree};
use std::alloc::{AllocError, Global};

/// What is found at the path where a configuration file is looked for.
#[derive(Drop)]
pub(crate) enum Found {
    /// There is no object.
    Missing,
    /// A link whose target is exactly `/dev/null`.
    Masked,
    /// An object that is neither a regular file nor a mask.
    Odd(TreePath),
    /// A regular file.
    Regular(TreePath),
}

/// Looks up what is at a path.
pub(crate) fn found_at<T: Tree>(tree: &T, path: TreePath) -> Found
    ensures { result ≡ found_at (T.state tree.now) path }
{
    let kind = match tree.look(&path) {
        Some(node) => node.kind,
        None => return Found::Missing,
    };
    match kind {
        Kind::File => Found::Regular(path),
        Kind::Link if is_mask(tree.target(&path)) => Found::Masked,
        _ => Found::Odd(path),
    }
}

/// Looks up a name in some folders. The first folder that has the name decides.
pub(crate) fn found_in<T: Tree>(
    alloc: Global,
    tree: &T,
    folders: &PathList,
    name: &[u8],
) -> Result<Found, AllocError>
    requires { is_name name.now ≡ true }
    ensures { IfOk result (λ found. found ≡ found_in (T.state tree.now) folders.now name.now) }
{
    for folder in folders.as_slice() {
        match found_at(tree, child(alloc, folder, name)?) {
            Found::Missing => {}
            found => return Ok(found),
        }
    }
    Ok(Found::Missing)
}

/// Returns whether a link with this target masks its name.
fn is_mask(target: &[u8]) -> bool
    ensures { result ≡ same_bytes target.now mask_target }
{
    target == b"/dev/null".as_slice()
}
