//! Whether an object already has what a line sets.
ghost use Rattle.std.specs.Prelude.{◌≡◌, IsTrue, true, Some, IfOk, unwrap_or, if◌then◌else◌};
ghost use Rattle.pv_acl.specs.Applying.{acl_after};
ghost use Rattle.pv_acl.specs.Parts.{base_of, special_of, with_mode};
ghost use Rattle.pv_walk.specs.declared.operation.Change.TheVariants.{Write};
ghost use Rattle.pv_walk.specs.Changing.{SameBase};
ghost use Rattle.pv_walk.specs.Masks.{masked_special, with_masked};
ghost use Rattle.pv_walk.specs.Nodes.{object_state_of};
ghost use Rattle.pv_walk.specs.Operations.{changed, done, run};
ghost use Rattle.pv_steps.specs.declared.object.Object.{Object as ObjectValue};
ghost use Rattle.pv_steps.specs.Objects.{is_directory};
ghost use Rattle.pv_steps.specs.Trees.{places, kind_of, node_at};

use pv_acl::{AclLine, How, Part, apply_entries};
use pv_path::{Bytes, TreePath};
use pv_steps::{Kind, Node, Tree, special_bits};
use pv_walk::{Change, Operation, admits, is_same_base, masked_special, set_masked_base};
use std::alloc::{AllocError, Global};

/// Returns `true` only if all that is set leaves the object at a path as it is. Appended bytes, extended attributes and
/// file attribute flags are not compared: they count as a change.
pub(crate) fn are_kept<T: Tree>(
    alloc: Global,
    tree: &T,
    path: &TreePath,
    node: &Node,
    sets: &[Operation],
) -> Result<bool, AllocError>
    requires node { Some node.now ≡ node_at (T.state tree.now) path.now }
    ensures { IfOk result (λ kept. kept ≡ true → (o : ObjectValue) → places (T.state tree.now) path.now ≡ Some o
        → run sets.now (Some (object_state_of o)) ≡ Some (object_state_of o)) }
{
    for operation in sets {
        if !is_kept(alloc, tree, path, node, operation)? {
            return Ok(false);
        }
    }
    Ok(true)
}

/// Returns `true` only if one operation leaves the object at a path as it is.
fn is_kept<T: Tree>(
    alloc: Global,
    tree: &T,
    path: &TreePath,
    node: &Node,
    operation: &Operation,
) -> Result<bool, AllocError>
    requires node { Some node.now ≡ node_at (T.state tree.now) path.now }
    ensures { IfOk result (λ kept. kept ≡ true → (o : ObjectValue) → places (T.state tree.now) path.now ≡ Some o
        → done operation.now (Some (object_state_of o)) ≡ Some (object_state_of o)) }
{
    match operation {
        Operation::Apply { guard, change } => {
            if admits(*guard, node.kind) {
                keeps(alloc, tree, path, node, change)
            } else {
                Ok(true)
            }
        }
        Operation::Make(_) | Operation::Renew { .. } | Operation::Erase => Ok(false),
    }
}

/// Returns `true` only if a change leaves the object at a path as it is.
fn keeps<T: Tree>(
    alloc: Global,
    tree: &T,
    path: &TreePath,
    node: &Node,
    change: &Change,
) -> Result<bool, AllocError>
    requires node { Some node.now ≡ node_at (T.state tree.now) path.now }
    ensures { IfOk result (λ kept. kept ≡ true → (o : ObjectValue) → places (T.state tree.now) path.now ≡ Some o
        → changed o.node.kind change.now (object_state_of o) ≡ object_state_of o) }
{
    match change {
        Change::Write(bytes) => Ok(holds(tree, path, node.kind, bytes)),
        Change::Owner { uid, gid } => Ok(has_owners(node, *uid, *gid)),
        Change::Mode { mode, masked } => Ok(has_mode(alloc, node, *mode, *masked)),
        Change::Entries { line, how } => has_entries(alloc, node, line, *how),
        Change::Append(_) | Change::Attrs(_) | Change::Letters { .. } => Ok(false),
    }
}

/// Returns `true` only if a file at a path has these bytes, or if the object is not a file.
fn holds<T: Tree>(tree: &T, path: &TreePath, kind: Kind, bytes: &Bytes) -> bool
    requires kind { Some kind ≡ kind_of (places (T.state tree.now) path.now) }
    ensures { IsTrue result → (o : ObjectValue) → places (T.state tree.now) path.now ≡ Some o
        → changed o.node.kind (Write bytes.now) (object_state_of o) ≡ object_state_of o }
{
    match kind {
        Kind::File => is_same(bytes.as_slice(), tree.bytes(path)),
        _ => true,
    }
}

/// Returns whether two byte strings are equal.
fn is_same(a: &[u8], b: &[u8]) -> bool
    ensures { IsTrue result → a.now ≡ b.now }
{
    a == b
}

/// Returns whether an object has this owner and this owning group, each if it is given.
fn has_owners(node: &Node, uid: Option<u32>, gid: Option<u32>) -> bool
    ensures { IsTrue result → (unwrap_or uid node.now.uid ≡ node.now.uid) × (unwrap_or gid node.now.gid ≡ node.now.gid) }
{
    uid.unwrap_or(node.uid) == node.uid && gid.unwrap_or(node.gid) == node.gid
}

/// Returns whether an object has this mode, masked or not.
fn has_mode(alloc: Global, node: &Node, mode: u16, masked: bool) -> bool
    ensures special { IsTrue result → (if masked then masked_special node.now.kind mode else special_of mode) ≡ node.now.special }
    ensures base { IsTrue result → SameBase
        (if masked then with_masked mode (base_of node.now.acl.access) else with_mode mode (base_of node.now.acl.access)) node.now.acl.access }
{
    let special = if masked {
        masked_special(node.kind, mode)
    } else {
        special_bits(mode)
    };
    let base = base_after(alloc, &node.acl.access, mode, masked);
    special == node.special && is_same_base(&base, &node.acl.access)
}

/// Returns the base entries of a part of an ACL after a mode is set, masked or not.
fn base_after(alloc: Global, part: &Part, mode: u16, masked: bool) -> Part
    ensures { result ≡ (if masked then with_masked mode (base_of part.now) else with_mode mode (base_of part.now)) }
{
    let mut base = part.base(alloc);
    if masked {
        set_masked_base(&mut base, mode);
    } else {
        base.set_base(mode);
    }
    base
}

/// Returns whether the entries of a line leave the ACL of an object as it is.
fn has_entries(alloc: Global, node: &Node, line: &AclLine, how: How) -> Result<bool, AllocError>
    ensures { IfOk result (λ kept. kept ≡ true → acl_after node.now.acl line.now how (is_directory node.now.kind) ≡ node.now.acl) }
{
    let acl = apply_entries(alloc, &node.acl, line, how, node.kind.is_directory())?;
    let same = acl == node.acl;
    Ok(same)
}
