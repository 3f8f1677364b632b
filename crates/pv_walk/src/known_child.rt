//! What the name of a child says of a path without a look at the tree.
ghost use Rattle.std.specs.Prelude.{◌≡◌, ◌↔◌, [], ◌∷◌, ◌++◌, true, is_some, IsTrue, IfSome};
ghost use Rattle.std.specs.Option.{option_copied};
ghost use Rattle.pv_steps.specs.declared.node.Kind.TheVariants.{Directory};
ghost use Rattle.pv_steps.specs.Trees.{places, child_name, IsKind, IsTree};

use pv_path::{Name, TreePath};
use pv_steps::{Tree, is_directory};

/// Returns the name of the second path in the directory at the first, if it is directly there.
pub(crate) fn name_below<'a>(path: &TreePath, other: &'a TreePath) -> Option<&'a Name>
    ensures { option_copied result ≡ child_name path.now other.now }
{
    match other.names() {
        [above @ .., name] => {
            if path.names() == above {
                Some(name)
            } else {
                None
            }
        }
        [] => None,
    }
}

/// Returns whether there is a directory at a path. If the name of a child is given, the call does not look.
pub(crate) fn is_directory_with<T: Tree>(tree: &T, path: &TreePath, child: Option<&Name>) -> bool
    requires { IfSome child (λ name. is_some (places (T.state tree.now) (path.now ++ name.now ∷ [])) ≡ true) }
    ensures kind { IsTrue result ↔ IsKind Directory (T.state tree.now) path.now }
    ensures tree { IsTree (T.state tree.now) }
{
    match child {
        Some(_) => true,
        None => is_directory(tree, path),
    }
}

/// Returns whether there is a directory at a path. If another path, which must be present, is directly below it, the
/// call does not look.
pub(crate) fn is_directory_above<T: Tree>(
    tree: &T,
    path: &TreePath,
    other: Option<&TreePath>,
) -> bool
    requires { IfSome other (λ q. is_some (places (T.state tree.now) q.now) ≡ true) }
    ensures kind { IsTrue result ↔ IsKind Directory (T.state tree.now) path.now }
    ensures tree { IsTree (T.state tree.now) }
{
    match other {
        Some(other) => is_directory_with(tree, path, name_below(path, other)),
        None => is_directory(tree, path),
    }
}
