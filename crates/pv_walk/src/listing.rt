//! Lists what there is to copy as pieces of work, before the first of them is done.
ghost use Rattle.std.specs.Prelude.{◌≡◌, ◌≤◌, ◌*◌, ◌++◌, ◌∷◌, [], map, Some, IfOk, OnOk};
ghost use Rattle.pv_walk.specs.Nodes.{object_states_of};
ghost use Rattle.pv_steps.specs.Trees.{places, node_at, payload_at, IsTree};
ghost use Rattle.pv_walk.specs.Copying.{copy_from, copied_count, topped, IsTopNode};
ghost use Rattle.pv_walk.specs.Pieces.{IsPlan, made_of, cost_of, what_of, names_at, pieces_now, tasks_left};
ghost use Rattle.pv_walk.specs.Staging.{most_staged};
ghost use Rattle.pv_walk.specs.declared.listing.Piece.TheVariants.{Make, Give};
ghost use Rattle.pv_walk.specs.declared.listing.Task.TheVariants.{Open, Close};

use crate::copying::TopNode;
use crate::new_file::NewKind;
use crate::object_state::{Body, Metadata, ObjectState};
use pv_path::{TreePath, child, has_staging};
use pv_steps::{Kind, Node, Tree, is_directory, special_bits};
use std::alloc::{AllocError, Global};

/// A piece of work for one object of a copy. Its path is relative to the top.
#[derive(Drop)]
pub(crate) enum Piece {
    /// The object is made, with its content or target.
    Make(TreePath, NewKind),
    /// The object gets its metadata.
    Give(TreePath, Metadata),
}

/// What is still to be listed.
#[derive(Drop)]
enum Task {
    /// The object at a path relative to the top, with everything below it.
    Open(TreePath),
    /// One piece.
    Close(Piece),
}

/// The state while a copy is listed.
#[derive(Drop)]
struct Listing {
    /// What is still to be listed.
    work: Vec<Task>,
    /// The pieces that were listed so far.
    pieces: Vec<Piece>,
}

/// Returns the pieces of work of a copy, the last one first.
///
/// Each object is made before what is in it, and gets its metadata after that.
pub(crate) fn pieces_of<T: Tree>(
    alloc: Global,
    tree: &T,
    source: &TreePath,
    top: &TopNode,
) -> Result<Vec<Piece>, AllocError>
    requires top { IsTopNode top.now }
    ensures plan { IfOk result (λ pieces. IsPlan pieces.items) }
    ensures all { IfOk result (λ pieces. made_of pieces.items
        ≡ copy_from (topped top.now) source.now (object_states_of (places (T.state tree.now)))) }
    ensures few { IfOk result (λ pieces. cost_of pieces.items ≤ most_staged
        * copied_count (copy_from (topped top.now) source.now (object_states_of (places (T.state tree.now)))) source.now
        (T.state tree.now)) }
    ensures tree { IsTree (T.state tree.now) }
{
    let mut listing = Listing {
        work: Vec::new(alloc),
        pieces: Vec::new(alloc),
    };
    listing.work.push(Task::Open(TreePath::root(alloc)))?;
    while let Some(task) = listing.work.pop() {
        list_next(alloc, tree, source, top, task, &mut listing)?;
    }
    Ok(listing.pieces)
}

/// Lists the last pieces of a task, and leaves tasks for those before them.
fn list_next<T: Tree>(
    alloc: Global,
    tree: &T,
    source: &TreePath,
    top: &TopNode,
    task: Task,
    listing: &mut Listing,
) -> Result<(), AllocError>
    requires top { IsTopNode top.now }
    ensures left { OnOk result (listing.new.work.items ≡ listing.old.work.items ++ tasks_left
        (copy_from (topped top.now) source.now (object_states_of (places (T.state tree.now))))
        (names_at source.now (T.state tree.now)) task) }
    ensures listed { OnOk result (listing.new.pieces.items ≡ listing.old.pieces.items ++ pieces_now
        (copy_from (topped top.now) source.now (object_states_of (places (T.state tree.now)))) task) }
{
    match task {
        Task::Open(rest) => open(alloc, tree, source, top, &rest, listing),
        Task::Close(piece) => Ok(listing.pieces.push(piece)?),
    }
}

/// Opens an object: lists its last piece, and leaves tasks for what is in it and for its first piece.
fn open<T: Tree>(
    alloc: Global,
    tree: &T,
    source: &TreePath,
    top: &TopNode,
    rest: &TreePath,
    listing: &mut Listing,
) -> Result<(), AllocError>
    requires top { IsTopNode top.now }
    ensures left { OnOk result (listing.new.work.items ≡ listing.old.work.items ++ tasks_left
        (copy_from (topped top.now) source.now (object_states_of (places (T.state tree.now))))
        (names_at source.now (T.state tree.now)) (Open rest.now)) }
    ensures listed { OnOk result (listing.new.pieces.items ≡ listing.old.pieces.items ++ pieces_now
        (copy_from (topped top.now) source.now (object_states_of (places (T.state tree.now)))) (Open rest.now)) }
{
    match object_at(alloc, tree, source, top, rest)? {
        None => Ok(()),
        Some(object) => {
            add_object(rest, object, listing)?;
            open_children(alloc, tree, source, rest, &mut listing.work)
        }
    }
}

/// Adds the pieces of one object: the last one to those that are listed, the first one to what is left.
fn add_object(rest: &TreePath, object: ObjectState, listing: &mut Listing) -> Result<(), AllocError>
    ensures left { OnOk result (listing.new.work.items
        ≡ listing.old.work.items ++ Close (Make rest.now (what_of object.body)) ∷ []) }
    ensures listed { OnOk result (listing.new.pieces.items
        ≡ listing.old.pieces.items ++ Give rest.now object.metadata ∷ []) }
{
    listing.work.push(Task::Close(Piece::Make(rest.copy()?, what_of(object.body))))?;
    listing
        .pieces
        .push(Piece::Give(rest.copy()?, object.metadata))?;
    Ok(())
}

/// Returns the kind of an object together with its content, target or device numbers.
fn what_of(body: Body) -> NewKind
    ensures { result ≡ what_of body }
{
    match body.kind {
        Kind::Directory => NewKind::Directory,
        Kind::File => NewKind::File(body.payload),
        Kind::Link => NewKind::Link(body.payload),
        Kind::Fifo => NewKind::Fifo,
        Kind::CharDevice => NewKind::Device {
            block: false,
            major: body.major,
            minor: body.minor,
        },
        Kind::BlockDevice => NewKind::Device {
            block: true,
            major: body.major,
            minor: body.minor,
        },
    }
}

/// Leaves tasks for what is in a directory, in byte order.
fn open_children<T: Tree>(
    alloc: Global,
    tree: &T,
    source: &TreePath,
    rest: &TreePath,
    work: &mut Vec<Task>,
) -> Result<(), AllocError>
    ensures left { OnOk result (work.new.items ≡ work.old.items
        ++ map (λ name. Open (rest.now ++ name ∷ []))
        (names_at source.now (T.state tree.now) rest.now)) }
{
    let at = source.followed_by(rest.names())?;
    if !is_directory(tree, &at) {
        return Ok(());
    }
    let names = tree.list(alloc, &at)?;
    for name in names.as_slice() {
        work.push(Task::Open(child(alloc, rest, name.bytes())?))?;
    }
    Ok(())
}

/// Returns the object of a copy at a path relative to the top, if there is one.
fn object_at<T: Tree>(
    alloc: Global,
    tree: &T,
    source: &TreePath,
    top: &TopNode,
    rest: &TreePath,
) -> Result<Option<ObjectState>, AllocError>
    ensures object { IfOk result (λ object. object
        ≡ copy_from (topped top.now) source.now (object_states_of (places (T.state tree.now))) rest.now) }
    ensures tree { IsTree (T.state tree.now) }
{
    if rest.is_empty() {
        return top_at(alloc, tree, source, top);
    }
    if has_staging(rest) {
        return Ok(None);
    }
    object_state_at(alloc, tree, &source.followed_by(rest.names())?)
}

/// Returns the top of a copy, if there is one.
fn top_at<T: Tree>(
    alloc: Global,
    tree: &T,
    source: &TreePath,
    top: &TopNode,
) -> Result<Option<ObjectState>, AllocError>
    ensures { IfOk result (λ object. object
        ≡ copy_from (topped top.now) source.now (object_states_of (places (T.state tree.now))) []) }
{
    match object_state_at(alloc, tree, source)? {
        None => Ok(None),
        Some(object) => Ok(Some(topped(top, object))),
    }
}

/// Returns an object with the owners and the mode that `top` gives. A link gets only the owners, and what `top`
/// does not give stays.
pub fn topped(top: &TopNode, object: ObjectState) -> ObjectState
    ensures { result ≡ topped top.now object }
{
    let mut new = object;
    if let Some(uid) = top.uid {
        new.metadata.uid = uid;
    }
    if let Some(gid) = top.gid {
        new.metadata.gid = gid;
    }
    if let Some(mode) = top.mode {
        if new.body.kind != Kind::Link {
            new.metadata.special = special_bits(mode);
            new.metadata.acl.access.set_base(mode);
        }
    }
    new
}

/// Returns the object at a path without its timestamps, or `None` if the path is absent. The only error is
/// `AllocError`.
pub fn object_state_at<T: Tree>(
    alloc: Global,
    tree: &T,
    path: &TreePath,
) -> Result<Option<ObjectState>, AllocError>
    ensures { IfOk result (λ object. object ≡ object_states_of (places (T.state tree.now)) path.now) }
{
    match tree.look(path) {
        None => Ok(None),
        Some(node) => Ok(Some(ObjectState::of(alloc, node, payload_of(tree, path, node))?)),
    }
}

/// Returns the bytes of a file or the target of a link; empty for other kinds.
fn payload_of<'a, T: Tree>(tree: &'a T, path: &TreePath, node: &Node) -> &'a [u8]
    requires tree { IsTree (T.state tree.now) }
    requires node { Some node.now ≡ node_at (T.state tree.now) path.now }
    ensures { Some result.now ≡ payload_at (T.state tree.now) path.now }
{
    match node.kind {
        Kind::File => tree.bytes(path),
        Kind::Link => tree.target(path),
        _ => b"",
    }
}
