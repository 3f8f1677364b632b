//! Rows of objects without timestamps.
use crate::standings::object_state_text;
use pv_acl::read_acl;
use pv_steps::{Kind, Node};
use pv_walk::ObjectState;
use std::alloc::{AllocError, Global};
use std::process::Abort;
use test_sheet::{attrs_of, letters_of, plain_node};

/// An object, and the text that shows it.
struct Row<'a> {
    kind: Kind,
    payload: &'a [u8],
    minor: u32,
    acl: &'a [u8],
    text: &'a str,
}

const ROWS: &[Row<'_>] = &[
    Row {
        kind: Kind::File,
        payload: b"hi",
        minor: 0,
        acl: b"-",
        text: "f /x 2640 1000 4 - hi\n",
    },
    Row {
        kind: Kind::Link,
        payload: b"/t",
        minor: 0,
        acl: b"-",
        text: "l /x 2640 1000 4 - /t\n",
    },
    Row {
        kind: Kind::BlockDevice,
        payload: b"",
        minor: 1,
        acl: b"m::r--",
        text: "b /x 2640 1000 4 m::r-- -\n",
    },
    Row {
        kind: Kind::Directory,
        payload: b"",
        minor: 0,
        acl: b"u:1000:rw-,m::r--,d:u::rwx,d:g::---,d:o::---",
        text: "d /x 2640 1000 4 u:1000:rw-,m::r--,d:u::rwx,d:g::---,d:o::--- -\n",
    },
];

/// The attribute of each object.
const ATTRS: &[(&[u8], &[u8])] = &[(b"user.a", b"1")];

/// The node of a row, with an attribute, a letter and the numbers of a device.
fn node_of(rt: &impl Abort, alloc: Global, row: &Row<'_>) -> Result<Node, AllocError> {
    let acl = read_acl(alloc, row.acl, 0o640, true)?.expect(rt, "an ACL");
    let mut node = plain_node(alloc, row.kind, 0o2640);
    node.acl = acl;
    node.uid = 1000;
    node.gid = 4;
    node.major = 8;
    node.minor = row.minor;
    node.letters = letters_of(b"i");
    node.attrs = attrs_of(alloc, ATTRS).expect(rt, "memory");
    Ok(node)
}

/// A copy of what is seen of an object.
fn seen(alloc: Global, node: &Node, payload: &[u8]) -> Result<ObjectState, AllocError> {
    ObjectState::of(alloc, node, payload)?.copy()
}

/// What is seen of an object is shown by its text.
fn is_shown(rt: &impl Abort, alloc: Global, row: &Row<'_>, object_state: &ObjectState) {
    let text = object_state_text(rt, alloc, b"/x", object_state);
    assert_eq!(rt; text.as_str(), row.text);
    let numbers = (object_state.body.major, object_state.body.minor);
    assert_eq!(rt; numbers, (8, row.minor));
    assert_eq!(rt; object_state.metadata.attrs.as_slice().len(), 1);
    assert!(rt; object_state.metadata.letters.has(b'i'));
}

/// What is seen of the object of a row is shown by the text of the row.
fn holds(rt: &impl Abort, alloc: Global, row: &Row<'_>) {
    let node = node_of(rt, alloc, row).expect(rt, "memory");
    let object_state = seen(alloc, &node, row.payload).expect(rt, "memory");
    is_shown(rt, alloc, row, &object_state)
}

#[test]
fn objects_are_seen_without_stamps(rt: HostRuntime) {
    for row in ROWS {
        holds(&rt, rt.alloc(), row);
    }
}
