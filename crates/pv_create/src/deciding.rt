//! The decision what a line does at a path, by the object there.
ghost use Rattle.std.specs.Prelude.{◌≡◌, ◌≢◌, ◌&&◌, not, ◌||◌, true, Some, IfOk};
ghost use Rattle.std.specs.List.{list_all};
ghost use Rattle.std.specs.Option.{option_map_or};
ghost use Rattle.std.specs.Str.{bytes_eq};
ghost use Rattle.pv_path.specs.Names.{is_staging};
ghost use Rattle.pv_walk.specs.Nodes.{object_state_of, is_link, same_substance};
ghost use Rattle.pv_walk.specs.Operations.{stays};
ghost use Rattle.pv_steps.specs.declared.node.Kind.TheVariants.{Directory};
ghost use Rattle.pv_steps.specs.declared.object.Object.{Object as ObjectValue};
ghost use Rattle.pv_steps.specs.Objects.{is_directory};
ghost use Rattle.pv_steps.specs.Trees.{places, kind_of, node_at, IsKind, IsTree};
ghost use Rattle.pv_table.specs.declared.action.Action.TheVariants.{Create, Copy, Adjust, Idle};
ghost use Rattle.pv_table.specs.Turns.{view_of, is_childless, decide};
ghost use Rattle.pv_walk.specs.Staging.{new_object};
ghost use Rattle.pv_create.specs.Deciding.{meant, kept_turn, kept_copy};

use pv_path::{Name, TreePath, is_staging};
use pv_steps::{Kind, Node, Tree, kind_at};
use pv_table::{Action, Adjustment, Copying, Making};
use pv_walk::{NewFile, admits};
use std::alloc::{AllocError, Global};

/// What a line does at a path.
#[derive(Clone, Copy)]
pub(crate) enum Turn {
    /// Nothing is done.
    Nothing,
    /// The object there is of this kind, and it is left as it is.
    Left(Kind),
    /// What the line makes or copies is put there, in place of the old object.
    Put,
    /// The object there is adjusted.
    Become,
}

/// Decides what a line does at a path at which it is not refused (tmpfiles.d(5)).
pub(crate) fn decide<T: Tree>(
    alloc: Global,
    tree: &T,
    action: &Action,
    path: &TreePath,
) -> Result<Turn, AllocError>
    ensures turn { IfOk result (λ turn. meant action.now (view_of (T.state tree.now)) turn
        ≡ decide action.now (view_of (T.state tree.now)) path.now) }
    ensures tree { action.now ≢ Idle → IsTree (T.state tree.now) }
{
    match action {
        Action::Create(making) => Ok(making_turn(tree, path, making)),
        Action::Copy(copying) => copying_turn(alloc, tree, path, copying),
        Action::Adjust(adjustment) => Ok(adjustment_turn(tree, path, adjustment)),
        Action::Idle => Ok(Turn::Nothing),
    }
}

// ---- lines that adjust

/// Decides for a line that only adjusts: an object of a kind that the line does not want is left.
fn adjustment_turn<T: Tree>(tree: &T, path: &TreePath, adjustment: &Adjustment) -> Turn
    ensures turn { meant (Adjust adjustment.now) (view_of (T.state tree.now)) result
        ≡ decide (Adjust adjustment.now) (view_of (T.state tree.now)) path.now }
    ensures tree { IsTree (T.state tree.now) }
{
    match kind_at(tree, path) {
        None => Turn::Nothing,
        Some(kind) if admits(adjustment.wanted, kind) => Turn::Become,
        Some(kind) => Turn::Left(kind),
    }
}

// ---- lines that make something

/// Decides for a line that makes an object.
fn making_turn<T: Tree>(tree: &T, path: &TreePath, making: &Making) -> Turn
    ensures turn { meant (Create making.now) (view_of (T.state tree.now)) result
        ≡ decide (Create making.now) (view_of (T.state tree.now)) path.now }
    ensures tree { IsTree (T.state tree.now) }
{
    match tree.look(path) {
        None => Turn::Put,
        Some(node) => making_over(tree, path, node, making),
    }
}

/// Decides for a line that makes an object at a path where an object is.
fn making_over<T: Tree>(tree: &T, path: &TreePath, node: &Node, making: &Making) -> Turn
    requires node { Some node.now ≡ node_at (T.state tree.now) path.now }
    ensures { meant (Create making.now) (view_of (T.state tree.now)) result
        ≡ decide (Create making.now) (view_of (T.state tree.now)) path.now }
{
    if stays(tree, path, node, making) {
        kept_turn(making.new.what.kind(), node.kind)
    } else {
        Turn::Put
    }
}

/// Decides what is done with an object that stays: it is adjusted if it has the wanted kind, and otherwise left.
fn kept_turn(wanted: Kind, kind: Kind) -> Turn
    ensures { result ≡ kept_turn wanted kind }
{
    if wanted == kind {
        Turn::Become
    } else {
        Turn::Left(kind)
    }
}

/// Returns whether the object at a path stays.
fn stays<T: Tree>(tree: &T, path: &TreePath, node: &Node, making: &Making) -> bool
    requires node { Some node.now ≡ node_at (T.state tree.now) path.now }
    ensures { (o : ObjectValue) → places (T.state tree.now) path.now ≡ Some o → result
        ≡ option_map_or (λ test. stays test (object_state_of (new_object making.now.new 0)).body (object_state_of o).body)
        making.now.renew true }
{
    match making.renew {
        None => true,
        Some(test) => {
            (making.new.what.kind() == node.kind
                && (!test.exact || has_substance(tree, path, node, &making.new)))
                || (test.spares_directories && node.kind.is_directory())
        }
    }
}

/// Returns whether the object at a path has the link target and the device numbers of a new object.
fn has_substance<T: Tree>(tree: &T, path: &TreePath, node: &Node, new: &NewFile) -> bool
    requires node { Some node.now ≡ node_at (T.state tree.now) path.now }
    ensures { (o : ObjectValue) → places (T.state tree.now) path.now ≡ Some o
        → result ≡ same_substance (object_state_of (new_object new.now 0)).body (object_state_of o).body }
{
    let (major, minor) = new.what.numbers();
    has_target(tree, path, node.kind, new.what.payload())
        && major == node.major
        && minor == node.minor
}

/// Returns whether a link at a path has this target. The answer is `true` for an object that is not a link.
fn has_target<T: Tree>(tree: &T, path: &TreePath, kind: Kind, target: &[u8]) -> bool
    requires kind { Some kind ≡ kind_of (places (T.state tree.now) path.now) }
    ensures { (o : ObjectValue) → places (T.state tree.now) path.now ≡ Some o
        → result ≡ (not (is_link o.node.kind) || bytes_eq target.now o.payload) }
{
    match kind {
        Kind::Link => target == tree.target(path),
        _ => true,
    }
}

// ---- lines that copy

/// Decides for a line that copies: a copied directory replaces an empty one.
fn copying_turn<T: Tree>(
    alloc: Global,
    tree: &T,
    path: &TreePath,
    copying: &Copying,
) -> Result<Turn, AllocError>
    ensures turn { IfOk result (λ turn. meant (Copy copying.now) (view_of (T.state tree.now)) turn
        ≡ decide (Copy copying.now) (view_of (T.state tree.now)) path.now) }
    ensures tree { IsTree (T.state tree.now) }
{
    match kind_at(tree, &copying.source) {
        None => Ok(Turn::Nothing),
        Some(kind) => match kind_at(tree, path) {
            None => Ok(Turn::Put),
            Some(there) => {
                let empty = gives_way(alloc, tree, path, kind, there)?;
                Ok(kept_copy(copying, kind, there, empty))
            }
        },
    }
}

/// Decides for a line that copies to a path where an object is.
fn kept_copy(copying: &Copying, kind: Kind, there: Kind, empty: bool) -> Turn
    ensures { result ≡ kept_copy copying.now kind there empty }
{
    if kind == there {
        if empty { Turn::Put } else { Turn::Become }
    } else if copying.renews {
        Turn::Put
    } else {
        Turn::Left(there)
    }
}

/// Returns whether a copied directory replaces the object at a path, which it does if this is an empty directory.
fn gives_way<T: Tree>(
    alloc: Global,
    tree: &T,
    path: &TreePath,
    kind: Kind,
    there: Kind,
) -> Result<bool, AllocError>
    requires { kind_of (places (T.state tree.now) path.now) ≡ Some there }
    ensures { IfOk result (λ empty. empty ≡ (is_directory kind && (is_directory there
        && is_childless (view_of (T.state tree.now)) path.now))) }
{
    if kind.is_directory() && there.is_directory() {
        is_childless(alloc, tree, path)
    } else {
        Ok(false)
    }
}

/// Returns whether a directory is empty, except for staging names.
fn is_childless<T: Tree>(alloc: Global, tree: &T, path: &TreePath) -> Result<bool, AllocError>
    requires { IsKind Directory (T.state tree.now) path.now }
    ensures { IfOk result (λ b. b ≡ is_childless (view_of (T.state tree.now)) path.now) }
{
    let names = tree.list(alloc, path)?;
    Ok(are_staging(names.as_slice()))
}

/// Returns whether all names are staging names.
fn are_staging(names: &[Name]) -> bool
    ensures { result ≡ list_all is_staging names.now }
{
    names.iter().all(|name| is_staging(name.bytes()))
}
