//! The owners of the objects at the paths of lines.
ghost use Rattle.std.specs.Prelude.{◌≡◌, ◌<◌, ◌^◌, length, map, option_map, IfOk};
ghost use Rattle.std.specs.List.{AllByRecursion};
ghost use Rattle.pv_steps.specs.Trees.{places};
ghost use Rattle.pv_requests.specs.Paths.{HasFewNames, number_path};
ghost use Rattle.pv_sysusers.specs.Accounted.{ids_at, ids_of};

use crate::path_ids::{PathId, PathIds};
use pv_path::TreePath;
use pv_requests::{GroupId, Request, RequestList, UserId};
use pv_steps::Tree;
use pv_walk::{Walked, walk};
use std::alloc::{AllocError, Global};

/// Returns for each line the owners of the object at its path. An item is `None` if the line has no path, or if the
/// path is absent or not safe to walk.
pub(crate) fn owners<T: Tree>(
    alloc: Global,
    tree: &T,
    requests: &RequestList,
) -> Result<PathIds, AllocError>
    requires { AllByRecursion HasFewNames requests.now }
    ensures { IfOk result (λ taken. taken ≡ map (ids_of (places (T.state tree.now))) requests.now) }
{
    let mut taken = PathIds::new(alloc);
    for request in requests.as_slice() {
        taken.push(ids_of(alloc, tree, request)?)?;
    }
    Ok(taken)
}

/// Returns the owners of the object at the path of a line, or `None`.
fn ids_of<T: Tree>(alloc: Global, tree: &T, request: &Request) -> Result<Option<PathId>, AllocError>
    requires { HasFewNames request.now }
    ensures { IfOk result (λ ids. ids ≡ ids_of (places (T.state tree.now)) request.now) }
{
    match number_path(request) {
        Some(path) => ids_at(alloc, tree, path),
        None => Ok(None),
    }
}

/// Returns the path whose object gives the numbers of a line, or `None` if the line has none.
fn number_path(request: &Request) -> Option<&TreePath>
    ensures { option_map (λ path. path.now) result ≡ number_path request.now }
{
    match request {
        Request::User { id, .. } => match id {
            UserId::Path(path) => Some(path),
            UserId::Auto => None,
            UserId::Number(_) => None,
            UserId::Primary { .. } => None,
        },
        Request::Group { id, .. } => match id {
            GroupId::Path(path) => Some(path),
            GroupId::Auto => None,
            GroupId::Number(_) => None,
        },
        Request::Member { .. } => None,
        Request::Range { .. } => None,
    }
}

/// Returns the owners of the object at a path, or `None` if the path is absent or not safe to walk.
fn ids_at<T: Tree>(alloc: Global, tree: &T, path: &TreePath) -> Result<Option<PathId>, AllocError>
    requires { length path.now < 2 ^ 32 }
    ensures { IfOk result (λ ids. ids ≡ ids_at (places (T.state tree.now)) path.now) }
{
    match walk(alloc, tree, path, 0)? {
        Walked::Refused(_, _) => Ok(None),
        Walked::Present | Walked::Absent(_) => Ok(owners_at(tree, path)),
    }
}

/// Returns the owners of the object at a path, or `None` if the path is absent.
fn owners_at<T: Tree>(tree: &T, path: &TreePath) -> Option<PathId>
    ensures { result ≡ option_map (λ o. record { uid = o.node.uid; gid = o.node.gid }) (places (T.state tree.now) path.now) }
{
    match tree.look(path) {
        Some(node) => Some(PathId {
            uid: node.uid,
            gid: node.gid,
        }),
        None => None,
    }
}
