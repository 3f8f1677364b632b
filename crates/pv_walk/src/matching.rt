//! Finds the present paths that a pattern matches.
ghost use Rattle.std.specs.Prelude.{◌≡◌, ◌&&◌, ◌||◌, [], ◌∷◌, ◌++◌, List, ℕ, true, is_some, if◌then◌else◌, filter, map, IfOk, OnOk, IfSome};
ghost use Rattle.std.specs.List.{list_any};
ghost use Rattle.std.specs.FinMap as fin;
ghost use Rattle.pv_path.specs.Paths.{Path};
ghost use Rattle.pv_glob.specs.declared.element.Element.TheVariants.{Byte};
ghost use Rattle.pv_glob.specs.Matching.{matches, some_matches};
ghost use Rattle.pv_steps.specs.Trees.{places, names_below};
ghost use Rattle.pv_walk.specs.Finding.{extends};
ghost use Rattle.pv_walk.specs.Removal.{is_one_of};

use crate::order::in_order;
use pv_glob::{Component, Element, Pattern, Plain};
use pv_path::{Name, TreePath, child, is_name, is_staging};
use pv_steps::{Tree, is_directory, is_present};
use std::alloc::{AllocError, Global};
use std::slice;

/// Returns the present paths that a pattern matches, in byte order, each once (glob(7)).
///
/// For example, `/run/*/log` gives the path `log` in each directory in `/run` that has it.
///
/// The call goes down the tree component by component. For a component without wildcards it looks up one name, and for
/// another one it lists the directory. The only error is `AllocError`.
pub fn matching_paths<T: Tree>(
    alloc: Global,
    tree: &T,
    pattern: &Pattern,
) -> Result<Vec<TreePath>, AllocError>
    ensures { IfOk result (λ paths. paths.items ≡ filter (some_matches pattern.now) (fin.keys (T.state tree.now))) }
{
    let paths = all_matching(alloc, tree, pattern.plains())?;
    Ok(in_order(paths))
}

/// Returns the present paths that at least one of some patterns without braces matches, in no order.
fn all_matching<T: Tree>(
    alloc: Global,
    tree: &T,
    plains: &[Plain],
) -> Result<Vec<TreePath>, AllocError>
    ensures { IfOk result (λ paths. (q : Path) → is_one_of paths.items q
        ≡ (is_some (places (T.state tree.now) q) && some_matches plains.now q)) }
{
    let mut paths = Vec::new(alloc);
    for plain in plains {
        let mut more = plain_paths(alloc, tree, plain)?;
        paths.append(&mut more)?;
    }
    Ok(paths)
}

/// Returns the present paths that a pattern without braces matches.
fn plain_paths<T: Tree>(alloc: Global, tree: &T, plain: &Plain) -> Result<Vec<TreePath>, AllocError>
    ensures { IfOk result (λ paths. (q : Path) → is_one_of paths.items q
        ≡ (is_some (places (T.state tree.now) q) && matches plain.now q)) }
{
    let mut paths = Vec::new(alloc);
    let root = TreePath::root(alloc);
    if !is_present(tree, &root) {
        return Ok(paths);
    }
    paths.push(root)?;
    for component in plain.components() {
        paths = next_paths(alloc, tree, &paths, component)?;
    }
    Ok(paths)
}

/// Returns the present paths that lie directly below one of some paths and have a name that a component matches.
fn next_paths<T: Tree>(
    alloc: Global,
    tree: &T,
    paths: &[TreePath],
    component: &Component,
) -> Result<Vec<TreePath>, AllocError>
    ensures { IfOk result (λ next. (q : Path) → is_one_of next.items q
        ≡ list_any (λ p. extends (T.state tree.now) (component.now ∷ []) p q) paths.now) }
{
    let plain = alone(alloc, component)?;
    match written_name(alloc, component)? {
        Some(name) => next_written(alloc, tree, paths, &plain, &name),
        None => next_listed(alloc, tree, paths, &plain),
    }
}

/// Returns the pattern that has this one component.
fn alone(alloc: Global, component: &Component) -> Result<Plain, AllocError>
    ensures { IfOk result (λ plain. plain ≡ component.now ∷ []) }
{
    let mut plain = Plain::root(alloc);
    plain.push(copied(component)?)?;
    Ok(plain)
}

/// Returns a copy of the component.
fn copied(component: &Component) -> Result<Component, AllocError>
    ensures { IfOk result (λ copy. copy ≡ component.now) }
{
    component.clone()
}

/// Returns the bytes of a component, if it has no wildcards.
fn written(alloc: Global, component: &Component) -> Result<Option<Vec<u8>>, AllocError>
    ensures { IfOk result (λ found. IfSome found (λ bytes. component.now ≡ map (λ b. Byte b) bytes.items)) }
{
    let mut bytes = Vec::new(alloc);
    for element in component.as_slice() {
        match element {
            Element::Byte(byte) => bytes.push(*byte)?,
            _ => return Ok(None),
        }
    }
    Ok(Some(bytes))
}

/// Returns the one name that a component without wildcards matches.
fn written_name(alloc: Global, component: &Component) -> Result<Option<Name>, AllocError>
    ensures { IfOk result (λ found. IfSome found (λ name. (n : List ℕ) → matches (component.now ∷ []) (n ∷ []) ≡ true → n ≡ name)) }
{
    match written(alloc, component)? {
        Some(bytes) if is_name(&bytes) && !is_staging(&bytes) => Ok(Some(Name::of(alloc, &bytes)?)),
        _ => Ok(None),
    }
}

/// Returns the present paths that lie directly below one of some paths and have this name, the only one that the
/// pattern matches.
fn next_written<T: Tree>(
    alloc: Global,
    tree: &T,
    paths: &[TreePath],
    plain: &Plain,
    name: &Name,
) -> Result<Vec<TreePath>, AllocError>
    requires { (n : List ℕ) → matches plain.now (n ∷ []) ≡ true → n ≡ name.now }
    ensures { IfOk result (λ next. (q : Path) → is_one_of next.items q
        ≡ list_any (λ p. extends (T.state tree.now) plain.now p q) paths.now) }
{
    let mut next = Vec::new(alloc);
    if !plain.matches(slice::from_ref(name)) {
        return Ok(next);
    }
    for path in paths {
        add_present(alloc, tree, path, name, &mut next)?;
    }
    Ok(next)
}

/// Appends the path of a name in a directory, if there is an object.
fn add_present<T: Tree>(
    alloc: Global,
    tree: &T,
    path: &TreePath,
    name: &Name,
    found: &mut Vec<TreePath>,
) -> Result<(), AllocError>
    ensures { OnOk result (found.new.items ≡ found.old.items
        ++ (if is_some (places (T.state tree.now) (path.now ++ name.now ∷ [])) then (path.now ++ name.now ∷ []) ∷ [] else [])) }
{
    let below = child(alloc, path, name.bytes())?;
    if is_present(tree, &below) {
        found.push(below)?;
    }
    Ok(())
}

/// Returns the present paths that lie directly below one of some paths and have a name that a pattern of one
/// component matches.
fn next_listed<T: Tree>(
    alloc: Global,
    tree: &T,
    paths: &[TreePath],
    plain: &Plain,
) -> Result<Vec<TreePath>, AllocError>
    ensures { IfOk result (λ next. (q : Path) → is_one_of next.items q
        ≡ list_any (λ p. extends (T.state tree.now) plain.now p q) paths.now) }
{
    let mut next = Vec::new(alloc);
    for path in paths {
        add_listed(alloc, tree, path, plain, &mut next)?;
    }
    Ok(next)
}

/// Appends the paths of what is in a directory and has a name that a pattern of one component matches.
fn add_listed<T: Tree>(
    alloc: Global,
    tree: &T,
    path: &TreePath,
    plain: &Plain,
    found: &mut Vec<TreePath>,
) -> Result<(), AllocError>
    ensures { OnOk result (found.new.items ≡ found.old.items
        ++ map (λ n. path.now ++ n ∷ []) (filter (λ n. matches plain.now (n ∷ [])) (names_below (T.state tree.now) path.now))) }
{
    if !is_directory(tree, path) {
        return Ok(());
    }
    let names = tree.list(alloc, path)?;
    for name in names.as_slice() {
        add_matched(alloc, path, name, plain, found)?;
    }
    Ok(())
}

/// Appends the path of a name in a directory, if a pattern of one component matches the name.
fn add_matched(
    alloc: Global,
    path: &TreePath,
    name: &Name,
    plain: &Plain,
    found: &mut Vec<TreePath>,
) -> Result<(), AllocError>
    ensures { OnOk result (found.new.items ≡ found.old.items
        ++ (if matches plain.now (name.now ∷ []) then (path.now ++ name.now ∷ []) ∷ [] else [])) }
{
    if plain.matches(slice::from_ref(name)) {
        found.push(child(alloc, path, name.bytes())?)?;
    }
    Ok(())
}
