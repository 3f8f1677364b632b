//! Paths, names and printed bytes.
use super::given::child_of;
use crate::marks::{Arguments, joined, new_messages, shown, spaced, unread};
use pv_path::{
    Bytes, TreePath, add_printed_but, has_staging, is_name, is_prefix, is_staging, parent,
    parse_path, print_bytes, print_path, rebase, staging,
};
use std::alloc::{AllocError, Global};
use std::cmp::Ordering;

/// What a call answers for arguments.
pub(crate) fn answer_to(
    alloc: Global,
    call: &str,
    arguments: &Arguments,
) -> Result<Vec<u8>, AllocError> {
    match call {
        "spelled" => path_answer(alloc, arguments.at(0)),
        "long" => name_answer(alloc, arguments.at(0)),
        "bytes" => bytes_answer(alloc, arguments.at(0)),
        "printed" => printed_answer(alloc, arguments.at(0), arguments.at(1), arguments.at(2)),
        "copied" => copy_answer(alloc, arguments.at(0), arguments.at(1)),
        "staging-name" => shown(alloc, &is_staging(arguments.at(0))),
        _ => relation_answer(alloc, call, arguments),
    }
}

/// What a call on paths answers.
fn relation_answer(
    alloc: Global,
    call: &str,
    arguments: &Arguments,
) -> Result<Vec<u8>, AllocError> {
    match call {
        "parent" => parent_answer(alloc, arguments.at(0)),
        "child" => child_answer(alloc, arguments.at(0), arguments.at(1)),
        "has-staging" => has_staging_answer(alloc, arguments.at(0), arguments.at(1)),
        "staging" => staging_answer(alloc, arguments.at(0)),
        "related" => related_answer(alloc, arguments.at(0), arguments.at(1)),
        "rebased" => rebased_answer(alloc, arguments.at(0), arguments.at(1), arguments.at(2)),
        _ => unread(alloc),
    }
}

/// How the path of a text is printed, or its fault.
fn path_answer(alloc: Global, text: &[u8]) -> Result<Vec<u8>, AllocError> {
    match parse_path(alloc, text) {
        Ok(path) => print_path(alloc, &path),
        Err(fault) => shown(alloc, &fault),
    }
}

/// Whether bytes are a name.
fn name_word(bytes: &[u8]) -> &'static str {
    if is_name(bytes) { "name" } else { "no name" }
}

/// The fault of the path of a text, or `ok`.
fn fault_word(alloc: Global, text: &[u8]) -> Result<Vec<u8>, AllocError> {
    match parse_path(alloc, text) {
        Ok(_) => new_messages(alloc, "ok"),
        Err(fault) => shown(alloc, &fault),
    }
}

/// Whether bytes are a name, and the fault of the path with this one name.
fn name_answer(alloc: Global, name: &[u8]) -> Result<Vec<u8>, AllocError> {
    let fault = fault_word(alloc, &joined(alloc, b"/", name)?)?;
    spaced(new_messages(alloc, name_word(name))?, &fault)
}

/// How bytes are printed, and whether they are a name.
fn bytes_answer(alloc: Global, bytes: &[u8]) -> Result<Vec<u8>, AllocError> {
    spaced(print_bytes(alloc, bytes)?, name_word(bytes).as_bytes())
}

/// A text with bytes printed after it, some more of them escaped.
fn printed_answer(
    alloc: Global,
    before: &[u8],
    bytes: &[u8],
    hidden: &[u8],
) -> Result<Vec<u8>, AllocError> {
    let mut text = Vec::from_slice(alloc, before)?;
    add_printed_but(&mut text, bytes, hidden)?;
    Ok(text)
}

/// Whether a copy of bytes equals them.
fn is_copied(bytes: &Bytes) -> Result<bool, AllocError> {
    Ok(bytes.copy()? == *bytes)
}

/// Whether a copy of bytes equals them, and whether they are those of another text.
fn copy_answer(alloc: Global, bytes: &[u8], other: &[u8]) -> Result<Vec<u8>, AllocError> {
    let bytes = Bytes::copy_of(alloc, bytes)?;
    let equal = is_copied(&bytes)?;
    let same = bytes.is_same(&Bytes::copy_of(alloc, other)?);
    shown(alloc, &format_args!("{equal} {same}"))
}

/// The parent of a path, printed.
fn above_answer(alloc: Global, path: &TreePath) -> Result<Vec<u8>, AllocError> {
    match parent(alloc, path)? {
        Some(above) => print_path(alloc, &above),
        None => new_messages(alloc, "none"),
    }
}

/// The parent of the path of a text, printed.
fn parent_answer(alloc: Global, path: &[u8]) -> Result<Vec<u8>, AllocError> {
    match parse_path(alloc, path) {
        Ok(path) => above_answer(alloc, &path),
        Err(fault) => shown(alloc, &fault),
    }
}

/// The path of a name in the directory of a text, printed.
fn child_answer(alloc: Global, above: &[u8], name: &[u8]) -> Result<Vec<u8>, AllocError> {
    match child_of(alloc, above, name)? {
        Some(path) => print_path(alloc, &path),
        None => new_messages(alloc, "no path or no name"),
    }
}

/// Whether the path of a name in the directory of a text has a staging name.
fn has_staging_answer(alloc: Global, above: &[u8], name: &[u8]) -> Result<Vec<u8>, AllocError> {
    match child_of(alloc, above, name)? {
        Some(path) => shown(alloc, &has_staging(&path)),
        None => new_messages(alloc, "no path or no name"),
    }
}

/// The staging path of a path, printed.
fn staged_answer(alloc: Global, path: &TreePath) -> Result<Vec<u8>, AllocError> {
    match path.name() {
        Some(name) if name.bytes().len() <= 250 => print_path(alloc, &staging(alloc, path)?),
        _ => new_messages(alloc, "no staging path"),
    }
}

/// The staging path of the path of a text, printed.
fn staging_answer(alloc: Global, path: &[u8]) -> Result<Vec<u8>, AllocError> {
    match parse_path(alloc, path) {
        Ok(path) => staged_answer(alloc, &path),
        Err(fault) => shown(alloc, &fault),
    }
}

/// An order by its name.
fn order_word(order: Ordering) -> &'static str {
    match order {
        Ordering::Less => "less",
        Ordering::Equal => "equal",
        Ordering::Greater => "greater",
    }
}

/// Whether a path is a prefix of another, and how it stands to it.
fn relation(alloc: Global, a: &TreePath, b: &TreePath) -> Result<Vec<u8>, AllocError> {
    let prefix = is_prefix(a, b);
    let order = order_word(a.order(b));
    shown(alloc, &format_args!("{prefix} {order}"))
}

/// Whether the path of a text is a prefix of that of another, and how it stands to it.
fn related_answer(alloc: Global, a: &[u8], b: &[u8]) -> Result<Vec<u8>, AllocError> {
    let Some(a) = parse_path(alloc, a).ok() else {
        return new_messages(alloc, "no path");
    };
    match parse_path(alloc, b) {
        Ok(b) => relation(alloc, &a, &b),
        Err(fault) => shown(alloc, &fault),
    }
}

/// What becomes of a path where a path above it is moved to that of a text, printed.
fn moved_answer(
    alloc: Global,
    path: &TreePath,
    from: &TreePath,
    to: &[u8],
) -> Result<Vec<u8>, AllocError> {
    if !is_prefix(from, path) {
        return new_messages(alloc, "no prefix");
    }
    match parse_path(alloc, to) {
        Ok(to) => print_path(alloc, &rebase(alloc, path, from, &to)?),
        Err(fault) => shown(alloc, &fault),
    }
}

/// What becomes of the path of a text where a path above it is moved, printed.
fn rebased_answer(
    alloc: Global,
    path: &[u8],
    from: &[u8],
    to: &[u8],
) -> Result<Vec<u8>, AllocError> {
    let Some(path) = parse_path(alloc, path).ok() else {
        return new_messages(alloc, "no path");
    };
    match parse_path(alloc, from) {
        Ok(from) => moved_answer(alloc, &path, &from, to),
        Err(fault) => shown(alloc, &fault),
    }
}
