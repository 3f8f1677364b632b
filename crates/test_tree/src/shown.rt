//! Trees as lines of text.
use pv_acl::{Part, print_acl};
use pv_path::{Name, TreePath, add_printed};
use pv_steps::{Attr, Node, Object, Tree};
use std::alloc::Global;
use std::process::Abort;
use test_sheet::letter_of;

/// Adds a text.
fn add(rt: &impl Abort, output: &mut Vec<u8>, text: &[u8]) {
    output.extend_from_slice(text).expect(rt, "memory");
}

/// Adds a text, or a dash for none.
fn add_or_dash(rt: &impl Abort, output: &mut Vec<u8>, text: &[u8]) {
    match text {
        [] => add(rt, output, b"-"),
        text => add_printed(output, text).expect(rt, "memory"),
    }
}

/// Adds a decimal number and what stands after it.
fn add_number(rt: &impl Abort, alloc: Global, output: &mut Vec<u8>, number: u64, after: &[u8]) {
    let digits = number.to_string(alloc).expect(rt, "memory");
    add(rt, output, digits.as_bytes());
    add(rt, output, after);
}

/// Adds the names of a path, each after a slash, or a slash for none.
pub(crate) fn add_path(rt: &impl Abort, output: &mut Vec<u8>, names: &[Name]) {
    if names.is_empty() {
        add(rt, output, b"/");
    }
    for name in names {
        add(rt, output, b"/");
        add_printed(output, name.bytes()).expect(rt, "memory");
    }
}

/// The paths at and below a path, with a space after each.
pub(crate) fn paths_text<T: Tree>(
    rt: &impl Abort,
    alloc: Global,
    tree: &T,
    path: &TreePath,
) -> Vec<u8> {
    let mut text = Vec::new(alloc);
    let paths = tree.at_and_below(alloc, path).expect(rt, "memory");
    for path in &paths {
        add_path(rt, &mut text, path.names());
        add(rt, &mut text, b" ");
    }
    text
}

/// Adds the four octal digits of a mode.
fn add_mode(rt: &impl Abort, alloc: Global, output: &mut Vec<u8>, special: u8, part: &Part) {
    add_number(rt, alloc, output, u64::from(special), b"");
    add_number(rt, alloc, output, u64::from(part.owner.bits), b"");
    add_number(rt, alloc, output, u64::from(part.group.bits), b"");
    add_number(rt, alloc, output, u64::from(part.other.bits), b" ");
}

/// Adds owner, owning group, the numbers of a device, and the four timestamps.
fn add_numbers(rt: &impl Abort, alloc: Global, output: &mut Vec<u8>, node: &Node) {
    add_number(rt, alloc, output, u64::from(node.uid), b" ");
    add_number(rt, alloc, output, u64::from(node.gid), b" ");
    add_number(rt, alloc, output, u64::from(node.major), b":");
    add_number(rt, alloc, output, u64::from(node.minor), b" ");
    add_number(rt, alloc, output, node.stamps.access, b",");
    add_number(rt, alloc, output, node.stamps.birth, b",");
    add_number(rt, alloc, output, node.stamps.change, b",");
    add_number(rt, alloc, output, node.stamps.modify, b" ");
}

/// Adds attributes, each with an equals sign after its name and a comma behind it, and a space.
fn add_attrs(rt: &impl Abort, output: &mut Vec<u8>, attrs: &[Attr]) {
    if attrs.is_empty() {
        add(rt, output, b"-");
    }
    for attr in attrs {
        add(rt, output, attr.name.as_slice());
        add(rt, output, b"=");
        add(rt, output, attr.value.as_slice());
        add(rt, output, b",");
    }
    add(rt, output, b" ");
}

/// Adds ACL, attributes and letters.
fn add_worn(rt: &impl Abort, alloc: Global, output: &mut Vec<u8>, node: &Node) {
    let acl = print_acl(alloc, &node.acl).expect(rt, "memory");
    add(rt, output, acl.as_slice());
    add(rt, output, b" ");
    add_attrs(rt, output, node.attrs.as_slice());
    let letters = node.letters.letters(alloc).expect(rt, "memory");
    add_or_dash(rt, output, letters.as_slice());
    add(rt, output, b" ");
}

/// Adds the line of an object: kind, path, mode, owner, owning group, numbers, timestamps, ACL, attributes, letters
/// and payload, with one space between them.
pub(crate) fn add_object(
    rt: &impl Abort,
    alloc: Global,
    output: &mut Vec<u8>,
    names: &[Name],
    object: &Object,
) {
    add(rt, output, letter_of(object.node.kind).as_bytes());
    add(rt, output, b" ");
    add_path(rt, output, names);
    add(rt, output, b" ");
    add_mode(
        rt,
        alloc,
        output,
        object.node.special,
        &object.node.acl.access,
    );
    add_numbers(rt, alloc, output, &object.node);
    add_worn(rt, alloc, output, &object.node);
    add_or_dash(rt, output, object.payload.as_slice());
    add(rt, output, b"\n");
}
