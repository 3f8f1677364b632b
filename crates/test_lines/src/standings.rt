//! The objects at paths, from a text and as a text: a line for each object.
use pv_acl::{print_acl, read_acl};
use pv_explain::Standing;
use pv_path::{TreePath, child, is_name, print_path};
use pv_steps::Node;
use pv_walk::ObjectState;
use std::alloc::{AllocError, Global};
use std::process::Abort;
use test_sheet::{kind_of, letter_of, plain_node};

/// The mode, the owner and the owning group that three fields spell.
fn numbers_of(rt: &impl Abort, mode: &str, uid: &str, gid: &str) -> (u16, u32, u32) {
    (
        u16::from_str_radix(mode, 8).expect(rt, "a mode"),
        uid.parse::<u32>().expect(rt, "a UID"),
        gid.parse::<u32>().expect(rt, "a GID"),
    )
}

/// The node of these fields: its kind, mode, owners and ACL.
fn node_of(
    rt: &impl Abort,
    alloc: Global,
    kind: &str,
    numbers: (u16, u32, u32),
    acl: &str,
) -> Node {
    let (mode, uid, gid) = numbers;
    let acl = read_acl(alloc, acl.as_bytes(), mode, true).expect(rt, "memory");
    let mut node = plain_node(alloc, kind_of(kind), mode);
    node.uid = uid;
    node.gid = gid;
    node.acl = acl.expect(rt, "an ACL");
    node
}

/// The object of a node with some bytes or a target, or of a node without any for a dash.
fn object_state_of(rt: &impl Abort, alloc: Global, node: &Node, payload: &str) -> ObjectState {
    let payload = if payload == "-" { "" } else { payload };
    ObjectState::of(alloc, node, payload.as_bytes()).expect(rt, "memory")
}

/// The path of a text, in which staging names may stand.
fn path_of(alloc: Global, text: &str) -> Result<TreePath, AllocError> {
    let mut path = TreePath::root(alloc);
    for name in text.as_bytes().split(|byte| *byte == b'/') {
        if is_name(name) {
            path = child(alloc, &path, name)?;
        }
    }
    Ok(path)
}

/// Puts the object of a text, `KIND PATH MODE UID GID ACL PAYLOAD`.
fn put_object(rt: &impl Abort, alloc: Global, standing: &mut Standing, object: &str) {
    let fields: Vec<&str> = object.split(' ').collect(alloc).expect(rt, "memory");
    match fields.as_slice() {
        [kind, path, mode, uid, gid, acl, payload] => {
            let node = node_of(rt, alloc, kind, numbers_of(rt, mode, uid, gid), acl);
            let object_state = object_state_of(rt, alloc, &node, payload);
            let path = path_of(alloc, path).expect(rt, "memory");
            standing.put(path, object_state).expect(rt, "memory")
        }
        _ => panic!(rt; "an object: {object}"),
    }
}

/// The objects of a text.
pub(crate) fn standing_of(rt: &impl Abort, alloc: Global, text: &str) -> Standing {
    let mut standing = Standing::new(alloc);
    for object in text.lines() {
        put_object(rt, alloc, &mut standing, object);
    }
    standing
}

/// The text of an object.
pub(crate) fn object_state_text(
    rt: &impl Abort,
    alloc: Global,
    path: &[u8],
    object_state: &ObjectState,
) -> String {
    let path = str::from_utf8(path).expect(rt, "a text");
    let kind = letter_of(object_state.body.kind);
    let metadata = &object_state.metadata;
    let mode = metadata.acl.access.mode(metadata.special % 8);
    let (uid, gid) = (metadata.uid, metadata.gid);
    let acl = print_acl(alloc, &metadata.acl).expect(rt, "memory");
    let acl = str::from_utf8(&acl).expect(rt, "a text");
    let payload = str::from_utf8(object_state.body.payload.as_slice()).expect(rt, "a text");
    let payload = if payload.is_empty() { "-" } else { payload };
    format!(in alloc; "{kind} {path} {mode:04o} {uid} {gid} {acl} {payload}\n").expect(rt, "memory")
}

/// Adds the text of the object at a path, if there is one.
fn add_object(
    rt: &impl Abort,
    alloc: Global,
    text: &mut String,
    standing: &Standing,
    path: &TreePath,
) {
    if let Some(object_state) = standing.get(path) {
        let printed = print_path(alloc, path).expect(rt, "memory");
        let line = object_state_text(rt, alloc, &printed, object_state);
        text.push_str(&line).expect(rt, "memory");
    }
}

/// The text of all that stands.
pub(crate) fn text_of(rt: &impl Abort, alloc: Global, standing: &Standing) -> String {
    let mut text = String::new(alloc);
    for path in standing.paths(alloc).expect(rt, "memory") {
        add_object(rt, alloc, &mut text, standing, &path);
    }
    text
}
