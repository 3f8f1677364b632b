//! The tree as a list of paths with their objects in the order of the paths: the plain program beside which the tree
//! in memory is tried.
ghost use Rattle.std.specs.Prelude.{◌≡◌, ◌<◌, [], length};
ghost use Rattle.pv_steps.specs.declared.node.Kind.TheVariants.{Directory};
ghost use Rattle.pv_steps.specs.Objects.{fresh};

use crate::shown::add_object;
use pv_path::{Bytes, TreePath, is_prefix, parent, rebase};
use pv_steps::{Kind, Node, Object, Step, special_bits};
use pv_tree::MemTree;
use std::alloc::Global;
use std::process::Abort;
use test_sheet::plain_object;

/// A root, with mode 0755 and its timestamps at 0.
pub(crate) fn root_object(alloc: Global) -> Object
    ensures { result ≡ fresh Directory 0o755 [] 0 0 0 }
{
    plain_object(alloc, Kind::Directory, 0o755, Bytes::new(alloc), 0)
}

/// The tree of a root alone, a directory with mode 0755 and its timestamps at 0.
pub(crate) fn root_tree(rt: &impl Abort, alloc: Global) -> MemTree {
    let Object { node, payload: _ } = root_object(alloc);
    MemTree::new(alloc, node).expect(rt, "memory")
}

/// Puts an object at its place in the order of the paths.
pub(crate) fn put(
    rt: &impl Abort,
    entries: &mut Vec<(TreePath, Object)>,
    path: TreePath,
    object: Object,
) {
    let at = entries.iter().take_while(|e| e.0 < path).count();
    assert!(rt; at <= entries.len());
    entries.insert(at, (path, object)).expect(rt, "memory");
}

/// The place of the object at a path.
fn place_of(rt: &impl Abort, entries: &Vec<(TreePath, Object)>, path: &TreePath) -> usize
    ensures { result < length entries.now.items }
{
    let place = entries.iter().position(|e| e.0 == *path);
    place.expect(rt, "an object")
}

/// The object at a path.
fn object_at<'a>(
    rt: &impl Abort,
    entries: &'a mut Vec<(TreePath, Object)>,
    path: &TreePath,
) -> &'a mut Object {
    let place = place_of(rt, entries, path);
    &mut entries[place].1
}

/// Notes at the directory of a path that it gained or lost a child.
fn touch(
    rt: &impl Abort,
    alloc: Global,
    entries: &mut Vec<(TreePath, Object)>,
    path: &TreePath,
    now: u64,
) {
    let up = parent(alloc, path).expect(rt, "memory");
    let directory = object_at(rt, entries, &up.expect(rt, "a directory"));
    directory.node.stamps.change = now;
    directory.node.stamps.modify = now;
}

/// Makes an object.
fn make(
    rt: &impl Abort,
    alloc: Global,
    entries: &mut Vec<(TreePath, Object)>,
    path: &TreePath,
    object: Object,
    now: u64,
) {
    put(rt, entries, path.copy().expect(rt, "memory"), object);
    touch(rt, alloc, entries, path, now);
}

/// The object that a step makes, if it makes one.
fn made_by(rt: &impl Abort, alloc: Global, step: &Step, now: u64) -> Option<Object> {
    let none = Bytes::new(alloc);
    match step {
        Step::MakeDir { .. } => Some(plain_object(alloc, Kind::Directory, 0o700, none, now)),
        Step::MakeFile { .. } => Some(plain_object(alloc, Kind::File, 0o600, none, now)),
        Step::MakeFifo { .. } => Some(plain_object(alloc, Kind::Fifo, 0o600, none, now)),
        Step::MakeLink { target, .. } => {
            let target = target.copy().expect(rt, "memory");
            Some(plain_object(alloc, Kind::Link, 0o777, target, now))
        }
        Step::MakeDevice {
            block,
            major,
            minor,
            ..
        } => {
            let kind = if *block {
                Kind::BlockDevice
            } else {
                Kind::CharDevice
            };
            let mut object = plain_object(alloc, kind, 0o600, none, now);
            object.node.major = *major;
            object.node.minor = *minor;
            Some(object)
        }
        _ => None,
    }
}

/// Changes an object as a step says.
fn change(rt: &impl Abort, object: &mut Object, step: &Step, now: u64) {
    object.node.stamps.change = now;
    match step {
        Step::Write { content, .. } => {
            object.payload = content.copy().expect(rt, "memory");
            object.node.stamps.modify = now;
        }
        Step::SetAcl { acl, .. } => object.node.acl = acl.copy().expect(rt, "memory"),
        Step::SetAttrs { attrs, .. } => object.node.attrs = attrs.copy().expect(rt, "memory"),
        _ => set(&mut object.node, step),
    }
}

/// Sets the numbers of a node as a step says.
fn set(node: &mut Node, step: &Step) {
    match step {
        Step::SetMode { mode, .. } => {
            node.special = special_bits(*mode);
            node.acl.access.set_base(*mode);
        }
        Step::SetOwner { uid, gid, .. } => {
            node.uid = *uid;
            node.gid = *gid;
        }
        Step::SetLetters { letters, .. } => node.letters = *letters,
        Step::SetStamps { access, modify, .. } => {
            node.stamps.access = *access;
            node.stamps.modify = *modify;
        }
        _ => {}
    }
}

/// Takes the object at a path out.
fn take(
    rt: &impl Abort,
    alloc: Global,
    entries: &mut Vec<(TreePath, Object)>,
    path: &TreePath,
    now: u64,
) {
    let place = place_of(rt, entries, path);
    let _taken = entries.remove(place);
    touch(rt, alloc, entries, path, now);
}

/// Where a path lies after a rename, or nothing if the object there is replaced.
fn path_after(
    rt: &impl Abort,
    alloc: Global,
    path: TreePath,
    from: &TreePath,
    to: &TreePath,
) -> Option<TreePath> {
    if is_prefix(from, &path) {
        return Some(rebase(alloc, &path, from, to).expect(rt, "memory"));
    }
    if is_prefix(to, &path) {
        return None;
    }
    Some(path)
}

/// Renames the object at a path, with all below it.
fn rename(
    rt: &impl Abort,
    alloc: Global,
    entries: &mut Vec<(TreePath, Object)>,
    from: &TreePath,
    to: &TreePath,
    now: u64,
) {
    let mut moved = Vec::new(alloc);
    for entry in entries.iter() {
        let path = entry.0.copy().expect(rt, "memory");
        if let Some(path) = path_after(rt, alloc, path, from, to) {
            put(rt, &mut moved, path, entry.1.copy().expect(rt, "memory"));
        }
    }
    *entries = moved;
    touch(rt, alloc, entries, to, now);
    touch(rt, alloc, entries, from, now);
    object_at(rt, entries, to).node.stamps.change = now;
}

/// Does a step.
pub(crate) fn apply(
    rt: &impl Abort,
    alloc: Global,
    entries: &mut Vec<(TreePath, Object)>,
    step: &Step,
    now: u64,
) {
    match step {
        Step::MakeDir { path }
        | Step::MakeFile { path }
        | Step::MakeFifo { path }
        | Step::MakeDevice { path, .. }
        | Step::MakeLink { path, .. } => {
            let object = made_by(rt, alloc, step, now).expect(rt, "an object");
            make(rt, alloc, entries, path, object, now);
        }
        Step::Write { path, .. }
        | Step::SetMode { path, .. }
        | Step::SetOwner { path, .. }
        | Step::SetAcl { path, .. }
        | Step::SetAttrs { path, .. }
        | Step::SetLetters { path, .. }
        | Step::SetStamps { path, .. } => change(rt, object_at(rt, entries, path), step, now),
        Step::Rename { from, to } => rename(rt, alloc, entries, from, to, now),
        Step::Unlink { path } | Step::RemoveDir { path } => take(rt, alloc, entries, path, now),
    }
}

/// The list as lines of text.
pub(crate) fn entries_text(
    rt: &impl Abort,
    alloc: Global,
    entries: &Vec<(TreePath, Object)>,
) -> Vec<u8> {
    let mut text = Vec::new(alloc);
    for entry in entries {
        add_object(rt, alloc, &mut text, entry.0.names(), &entry.1);
    }
    text
}
