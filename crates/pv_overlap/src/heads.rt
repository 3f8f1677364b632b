//! The heads of patterns: the paths with which everything that they match begins.
ghost use Rattle.std.specs.Prelude.{◌≡◌, ℕ, List, [], ◌∷◌, ◌++◌, true, Option, Some, None, IfOk, take};
ghost use Rattle.pv_path.specs.Names.{is_name};
ghost use Rattle.pv_overlap.specs.Heads.{common, common_with, head_of, head_of_all};

use pv_glob::{Component, Pattern, Plain, written};
use pv_path::{Name, TreePath, is_name};
use std::alloc::{AllocError, Global};

/// Returns the head of a pattern without braces, for its components.
fn head_of(alloc: Global, components: &[Component]) -> Result<TreePath, AllocError>
    ensures { IfOk result (λ head. head ≡ head_of components.now) }
{
    let mut head = TreePath::root(alloc);
    for component in components {
        match written(alloc, component)? {
            Some(bytes) if is_name(bytes.as_slice()) => head.push(Name::of(
                alloc,
                bytes.as_slice(),
            )?)?,
            _ => return Ok(head),
        }
    }
    Ok(head)
}

/// Returns the longest path that is a prefix of both.
fn common(alloc: Global, a: &TreePath, b: &TreePath) -> Result<TreePath, AllocError>
    ensures { IfOk result (λ path. path ≡ common a.now b.now) }
{
    let others = b.names();
    let mut path = TreePath::root(alloc);
    for (i, name) in a.names().iter().enumerate() {
        if i >= others.len() || *name != others[i] {
            return Ok(path);
        }
        path.push(name.copy()?)?;
    }
    Ok(path)
}

/// Returns the longest path that is a prefix of a path and of the heads of some patterns without braces.
fn common_with(alloc: Global, path: TreePath, plains: &[Plain]) -> Result<TreePath, AllocError>
    ensures { IfOk result (λ head. head ≡ common_with path plains.now) }
{
    let mut head = path;
    for plain in plains {
        let other = head_of(alloc, plain.components())?;
        head = common(alloc, &head, &other)?;
    }
    Ok(head)
}

/// Returns the head of a pattern: the longest path that is a prefix of the head of each expansion (glob(7)).
///
/// The head of a pattern without braces has the leading components that match one name alone. It ends before the first
/// component with a wildcard, and before one whose bytes are not a name. For a pattern that matches one path alone, the
/// head is this path.
///
/// For example, the head of `/var/log/*.log` is `/var/log`, and that of `/a/{b,c}` is `/a`. The only error is
/// `AllocError`.
pub fn head(alloc: Global, pattern: &Pattern) -> Result<TreePath, AllocError>
    ensures { IfOk result (λ head. head ≡ head_of_all pattern.now) }
{
    match pattern.plains() {
        [] => Ok(TreePath::root(alloc)),
        [plain, plains @ ..] => common_with(alloc, head_of(alloc, plain.components())?, plains),
    }
}
