//! Reads from a tree: the kind and the node of the object at a path. Links are not followed.
ghost use Rattle.std.specs.Prelude.{◌≡◌, ◌↔◌, IsTrue, Some, is_some};
ghost use Rattle.pv_steps.specs.declared.node.Kind.TheVariants.{Directory};
ghost use Rattle.pv_steps.specs.Trees.{places, kind_of, node_at, IsKind, IsPresent, IsTree};

use crate::node::{Kind, Node};
use crate::tree::Tree;
use pv_path::TreePath;

/// Returns the kind of the object at a path, or `None` if the path is absent. The call does not follow links, and does
/// not allocate.
pub fn kind_at<T: Tree>(tree: &T, path: &TreePath) -> Option<Kind>
    ensures kind { result ≡ kind_of (places (T.state tree.now) path.now) }
    ensures tree { IsTree (T.state tree.now) }
{
    match tree.look(path) {
        Some(node) => Some(node.kind),
        None => None,
    }
}

/// Returns the node at a path, at which there must be an object. The call does not allocate.
pub fn node_of<'a, T: Tree>(tree: &'a T, path: &TreePath) -> &'a Node
    requires { IsPresent (T.state tree.now) path.now }
    ensures node { Some result.now ≡ node_at (T.state tree.now) path.now }
    ensures tree { IsTree (T.state tree.now) }
{
    match tree.look(path) {
        Some(node) => node,
        None => unreachable!(),
    }
}

/// Returns whether there is an object of any kind at a path. The call does not allocate.
pub fn is_present<T: Tree>(tree: &T, path: &TreePath) -> bool
    ensures present { result ≡ is_some (places (T.state tree.now) path.now) }
    ensures tree { IsTree (T.state tree.now) }
{
    kind_at(tree, path).is_some()
}

/// Returns whether there is a directory at a path; for a link to a directory the answer is `false`. The call does not
/// allocate.
pub fn is_directory<T: Tree>(tree: &T, path: &TreePath) -> bool
    ensures kind { IsTrue result ↔ IsKind Directory (T.state tree.now) path.now }
    ensures tree { IsTree (T.state tree.now) }
{
    matches!(kind_at(tree, path), Some(Kind::Directory))
}
