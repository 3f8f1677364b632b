//! Relations between paths: parent, child, prefix and staging path, and the new path of an object that is moved.
ghost use Rattle.std.specs.Prelude.{◌≡◌, ◌≢◌, ℕ, List, ◌≤◌, [], ◌∷◌, ◌++◌, true, length, Some, map, IsNone, IfSome, IfOk, ◌↔◌};
ghost use Rattle.std.specs.Option.{option_map};
ghost use Rattle.pv_path.specs.Names.{is_name};
ghost use Rattle.pv_path.specs.Paths.{is_prefix, rest_under, parent_of, last_name, has_staging, staging_of};

use crate::name::{Name, is_staging};
use crate::path::TreePath;
use std::alloc::{AllocError, Global};

/// Returns the path without its last name, which is the path of the directory that holds the object.
///
/// It is `None` exactly for the root. The only error is `AllocError`.
pub fn parent(alloc: Global, path: &TreePath) -> Result<Option<TreePath>, AllocError>
    ensures root { IfOk result (λ up. IsNone up ↔ (path.now ≡ [])) }
    ensures above { IfOk result (λ up. IfSome up (λ dir. dir ≡ parent_of path.now)) }
{
    match path.names() {
        [] => Ok(None),
        [names @ .., _] => Ok(Some(TreePath::of(alloc, names)?)),
    }
}

/// Returns the path of the entry `name` in the directory at `path`.
///
/// `name` must be a name, as `is_name` tests. It may be a staging name. The only error is `AllocError`. For example,
/// the child `passwd` of `/etc` is `/etc/passwd`.
pub fn child(alloc: Global, path: &TreePath, name: &[u8]) -> Result<TreePath, AllocError>
    requires { is_name name.now ≡ true }
    ensures { IfOk result (λ below. below ≡ path.now ++ name.now ∷ []) }
{
    path.join(Name::of(alloc, name)?)
}

/// Returns whether path `a` is a prefix of path `b`: the names of `b` begin with all names of `a`.
///
/// Each path is a prefix of itself, and the root is a prefix of every path. `/a` is not a prefix of `/ab`. The call
/// does not allocate.
pub fn is_prefix(a: &TreePath, b: &TreePath) -> bool
    ensures { result ≡ is_prefix a.now b.now }
{
    names_under(a.names(), b.names()).is_some()
}

/// Returns the names of `path` that follow `prefix`, or `None` if `path` does not begin with `prefix`.
///
/// The slice is empty if both are the same. The call does not allocate.
pub fn names_under<'a>(prefix: &[Name], path: &'a [Name]) -> Option<&'a [Name]>
    ensures { option_map (λ s. s.now) result ≡ rest_under prefix.now path.now }
{
    match prefix {
        [] => Some(path),
        [name, prefix @ ..] => match path {
            [other, path @ ..] => {
                if name == other {
                    names_under(prefix, path)
                } else {
                    None
                }
            }
            [] => None,
        },
    }
}

/// Returns whether at least one name of the path is a staging name. The call does not allocate.
pub fn has_staging(path: &TreePath) -> bool
    ensures { result ≡ has_staging path.now }
{
    path.names().iter().any(|name| is_staging(name.bytes()))
}

/// Returns the path at which a new object is made before it is renamed to `path` (rename(2)).
///
/// It is `path` with its last name replaced by the staging name for it, so it is in the same directory. `path` must not
/// be the root, and its last name must have at most 250 bytes. The only error is `AllocError`. For example, the staging
/// path of `/etc/motd` is `/etc/.#tf-motd`.
pub fn staging(alloc: Global, path: &TreePath) -> Result<TreePath, AllocError>
    requires short { (n : List ℕ) → last_name path.now ≡ Some n → length n ≤ 250 }
    requires not_root { path.now ≢ [] }
    ensures { IfOk result (λ stage. stage ≡ staging_of path.now) }
{
    match path.names() {
        [] => unreachable!(),
        [names @ .., name] => TreePath::ending(alloc, names, name.staging(alloc)?),
    }
}

/// Returns where the object at `path` is after the directory at `from` was moved to `to`.
///
/// It is `to` followed by the names of `path` after `from`. `from` must be a prefix of `path`. The only error is
/// `AllocError`. For example, `/a/b/c` with `/a/b` moved to `/d` is `/d/c`.
pub fn rebase(
    alloc: Global,
    path: &TreePath,
    from: &TreePath,
    to: &TreePath,
) -> Result<TreePath, AllocError>
    requires { is_prefix from.now path.now ≡ true }
    ensures { IfOk result (λ moved. option_map (λ r. to.now ++ r) (rest_under from.now path.now) ≡ Some moved) }
{
    match names_under(from.names(), path.names()) {
        Some(names) => to.followed_by(names),
        None => unreachable!(),
    }
}
