//! What an object is to have after it is adjusted.
ghost use Rattle.std.specs.Prelude.{◌≡◌, Some, IfOk, IfSome, IfNone};
ghost use Rattle.pv_steps.specs.declared.object.Object.{Object as ObjectValue};
ghost use Rattle.pv_steps.specs.Trees.{places, node_at, IsPresent, IsTree};
ghost use Rattle.pv_walk.specs.Nodes.{object_state_of};
ghost use Rattle.pv_walk.specs.Operations.{run};
ghost use Rattle.pv_walk.specs.Reasons.{is_adjusting};
ghost use Rattle.pv_create.specs.Sets.{is_writing, writes, AreSets};
ghost use Rattle.pv_create.specs.Adjusting.{IsWanted};

use crate::kept::are_kept;
use pv_path::{Bytes, TreePath};
use pv_steps::{Kind, Node, Tree, node_of};
use pv_walk::{Change, Metadata, ObjectState, Operation, run_operations};
use std::alloc::{AllocError, Global};

/// What an object is to have after it is adjusted.
#[derive(Drop)]
pub(crate) struct Wanted {
    /// The bytes of a file, if the line sets bytes.
    pub bytes: Option<Bytes>,
    /// Owners, mode, ACL, extended attributes and file attribute flags.
    pub metadata: Metadata,
}

/// Returns what the object at a path is to have, or `None`. It is `None` only if all that the line sets leaves the
/// object as it is.
///
/// The call asks the tree for the node once. The bytes of a file are read only if the line sets bytes.
pub(crate) fn wanted_at<T: Tree>(
    alloc: Global,
    tree: &T,
    path: &TreePath,
    sets: &[Operation],
) -> Result<Option<Wanted>, AllocError>
    requires present { IsPresent (T.state tree.now) path.now }
    requires sets { AreSets sets.now }
    ensures wanted { IfOk result (λ wanted. IfSome wanted (λ wanted. (o : ObjectValue)
        → places (T.state tree.now) path.now ≡ Some o → IsWanted sets.now o wanted)) }
    ensures kept { IfOk result (λ wanted. IfNone wanted ((o : ObjectValue)
        → places (T.state tree.now) path.now ≡ Some o
        → run sets.now (Some (object_state_of o)) ≡ Some (object_state_of o))) }
    ensures tree { IsTree (T.state tree.now) }
{
    let node = node_of(tree, path);
    if are_kept(alloc, tree, path, node, sets)? {
        return Ok(None);
    }
    let wanted = wanted_of(alloc, tree, path, node, sets)?;
    Ok(Some(wanted))
}

/// Returns what the object at a path is to have. The caller gives its node.
fn wanted_of<T: Tree>(
    alloc: Global,
    tree: &T,
    path: &TreePath,
    node: &Node,
    sets: &[Operation],
) -> Result<Wanted, AllocError>
    requires node { Some node.now ≡ node_at (T.state tree.now) path.now }
    requires sets { AreSets sets.now }
    ensures { IfOk result (λ wanted. (o : ObjectValue) → places (T.state tree.now) path.now ≡ Some o
        → IsWanted sets.now o wanted) }
{
    if node.kind == Kind::File && writes(sets) {
        let new = after(alloc, sets, ObjectState::of(alloc, node, tree.bytes(path))?)?;
        return Ok(Wanted {
            bytes: Some(new.body.payload),
            metadata: new.metadata,
        });
    }
    let new = after(alloc, sets, ObjectState::of(alloc, node, b"")?)?;
    Ok(Wanted {
        bytes: None,
        metadata: new.metadata,
    })
}

/// Returns what the sets make of an object.
fn after(alloc: Global, sets: &[Operation], old: ObjectState) -> Result<ObjectState, AllocError>
    requires { AreSets sets.now }
    ensures { IfOk result (λ new. run sets.now (Some old) ≡ Some new) }
{
    match run_operations(alloc, sets, Some(old))? {
        Some(new) => Ok(new),
        None => unreachable!(),
    }
}

/// Returns whether bytes of a file are among what is set.
fn writes(sets: &[Operation]) -> bool
    ensures { result ≡ writes sets.now }
{
    sets.iter().any(is_writing)
}

/// Returns whether an operation sets or appends bytes of a file.
fn is_writing(operation: &Operation) -> bool
    ensures { result ≡ is_adjusting is_writing operation.now }
{
    matches!(
        operation,
        Operation::Apply {
            change: Change::Write(_) | Change::Append(_),
            ..
        }
    )
}
