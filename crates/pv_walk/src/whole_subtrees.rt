//! Which of some paths can be removed, each with everything below it.
ghost use Rattle.std.specs.Prelude.{◌≡◌, ◌||◌, ◌&&◌, ◌==◌, not, [], ◌∷◌, ◌++◌, ℕ, length, reverse, true, is_some, IfOk, IfSome, OnOk};
ghost use Rattle.std.specs.List.{list_all};
ghost use Rattle.std.specs.List.Sorted.{IsNonDecreasingBy, IsStrictlySortedBy};
ghost use Rattle.std.specs.declared.cmp.Ordering.TheVariants.{Less};
ghost use Rattle.pv_path.specs.Paths.{Path, path_cmp, same_path};
ghost use Rattle.pv_steps.specs.Trees.{places, names_below, IsTree};
ghost use Rattle.pv_walk.specs.Listing.{times};
ghost use Rattle.pv_walk.specs.Removal.{is_one_of};
ghost use Rattle.pv_walk.specs.Whole.{goes_whole, AreDeepestFirst};

use crate::known_child::{is_directory_with, name_below};
use crate::order::in_order;
use crate::path_set::PathSet;
use pv_path::{Name, TreePath, child};
use pv_steps::Tree;
use std::alloc::{AllocError, Global};

/// Returns those of the given paths below which nothing is missing: every object below them is among the given paths
/// too. The root is left out.
///
/// All paths must be present. A path that is given twice counts once, and the call lists each directory among the paths
/// once. The only error is `AllocError`.
pub fn whole_of<T: Tree>(
    alloc: Global,
    tree: &T,
    paths: Vec<TreePath>,
) -> Result<PathSet, AllocError>
    requires { (q : Path) → is_one_of paths.items q ≡ true → is_some (places (T.state tree.now) q) ≡ true }
    ensures { IfOk result (λ whole. (q : Path) → is_one_of whole q ≡ goes_whole (is_one_of paths.items) (T.state tree.now) q) }
{
    let mut left = in_order(paths);
    let mut whole = PathSet::new(alloc);
    while let Some(path) = left.pop() {
        add_whole(alloc, tree, path, &mut whole)?;
    }
    Ok(whole)
}

/// Adds a path other than the root, if everything directly below it was added before. All paths that were added before
/// must be present, and must come after the path in byte order.
fn add_whole<T: Tree>(
    alloc: Global,
    tree: &T,
    path: TreePath,
    whole: &mut PathSet,
) -> Result<(), AllocError>
    requires present { (q : Path) → is_one_of whole.old q ≡ true → is_some (places (T.state tree.now) q) ≡ true }
    requires first { (q : Path) → is_one_of whole.old q ≡ true → path_cmp path q ≡ Less }
    ensures added { OnOk result ((q : Path) → is_one_of whole.new q ≡ (is_one_of whole.old q
        || (same_path path q && (not (length path == 0)
        && list_all (λ n. is_one_of whole.old (path ++ n ∷ [])) (names_below (T.state tree.now) path))))) }
    ensures tree { IsTree (T.state tree.now) }
{
    if has_children_in(alloc, tree, &path, whole)? && !path.is_empty() {
        whole.add_first(path)?;
    }
    Ok(())
}

/// Returns whether everything directly below a path is among some paths, which must be present.
fn has_children_in<T: Tree>(
    alloc: Global,
    tree: &T,
    path: &TreePath,
    whole: &PathSet,
) -> Result<bool, AllocError>
    requires { (q : Path) → is_one_of whole.now q ≡ true → is_some (places (T.state tree.now) q) ≡ true }
    ensures all { IfOk result (λ all. all
        ≡ list_all (λ n. is_one_of whole.now (path.now ++ n ∷ [])) (names_below (T.state tree.now) path.now)) }
    ensures tree { IsTree (T.state tree.now) }
{
    let known = first_name(whole, path);
    if !is_directory_with(tree, path, known) {
        return Ok(true);
    }
    let names = tree.list(alloc, path)?;
    are_children_in(alloc, path, names.as_slice(), known, whole)
}

/// Returns the name of the first of some paths, if this path is directly below another path.
fn first_name<'a>(paths: &'a PathSet, path: &TreePath) -> Option<&'a Name>
    ensures { IfSome result (λ name. is_one_of paths.now (path.now ++ name.now ∷ []) ≡ true) }
{
    name_below(path, paths.first()?)
}

/// Returns whether the children of some names are among some paths. One name may be known to be that of such a child.
fn are_children_in(
    alloc: Global,
    path: &TreePath,
    names: &[Name],
    known: Option<&Name>,
    whole: &PathSet,
) -> Result<bool, AllocError>
    requires { IfSome known (λ name. is_one_of whole.now (path.now ++ name.now ∷ []) ≡ true) }
    ensures { IfOk result (λ all. all ≡ list_all (λ n. is_one_of whole.now (path.now ++ n ∷ [])) names.now) }
{
    for name in names {
        if !is_child_in(alloc, path, name, known, whole)? {
            return Ok(false);
        }
    }
    Ok(true)
}

/// Returns whether the child of a name is among some paths. One name may be known to be that of such a child.
fn is_child_in(
    alloc: Global,
    path: &TreePath,
    name: &Name,
    known: Option<&Name>,
    whole: &PathSet,
) -> Result<bool, AllocError>
    requires { IfSome known (λ name. is_one_of whole.now (path.now ++ name.now ∷ []) ≡ true) }
    ensures { IfOk result (λ is_in. is_in ≡ is_one_of whole.now (path.now ++ name.now ∷ [])) }
{
    match known {
        Some(first) if first == name => Ok(true),
        _ => Ok(whole.contains(&child(alloc, path, name.bytes())?)),
    }
}

/// Sorts paths so that they can be removed from the end of the list: the deepest paths come last.
///
/// Read from its end, the list has paths of one depth in byte order. The only error is `AllocError`.
pub fn deepest_last(paths: PathSet) -> Result<Vec<TreePath>, AllocError>
    ensures members { IfOk result (λ ordered. (q : Path) → times q ordered.items ≡ times q paths) }
    ensures deepest { IfOk result (λ ordered. IsNonDecreasingBy (λ path. length path) ordered.items) }
    ensures order { IfOk result (λ ordered. AreDeepestFirst (reverse ordered.items)) }
    ensures once { IsStrictlySortedBy path_cmp paths }
{
    let mut ordered = paths.into_last_first();
    ordered.sort_by_key(|path| path.len())?;
    Ok(ordered)
}
