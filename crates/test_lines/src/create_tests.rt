//! A plain program of the phase create, as the manual has it: each line at its turn, unless its path is refused.
use crate::lines::table_of;
use crate::standings::{standing_of, text_of};
use crate::things::{Thing, is_refused};
use pv_explain::{Standing, after_line};
use pv_lines::{Argument, Line, LinePath};
use pv_path::{Name, TreePath, is_prefix};
use pv_steps::Node;
use pv_table::{Table, create_order, names};
use pv_walk::ObjectState;
use std::alloc::{AllocError, Global};
use std::process::Abort;
use test_sheet::plain_node;

/// A node of the kind and the owner of an object.
fn node_of(alloc: Global, object_state: &ObjectState) -> Node {
    let mut node = plain_node(alloc, object_state.body.kind, 0);
    node.uid = object_state.metadata.uid;
    node
}

/// The kinds and owners of what stands.
fn things_in(alloc: Global, standing: &Standing) -> Result<Vec<Thing>, AllocError> {
    let mut things = Vec::new(alloc);
    for path in standing.paths(alloc)? {
        if let Some(object_state) = standing.get(&path) {
            let node = node_of(alloc, object_state);
            things.push(Thing { path, node })?;
        }
    }
    Ok(things)
}

/// What a line copies, if it is there.
fn source<'a>(line: &Line, standing: &'a Standing) -> Option<&'a ObjectState> {
    match &line.argument {
        Argument::Source(path) => standing.get(path),
        _ => None,
    }
}

/// The owner of what a line would make: its user, otherwise that of what it copies, otherwise root.
fn owner_made(line: &Line, standing: &Standing) -> u32 {
    match line.user {
        Some(user) => user.id,
        None => source(line, standing).map_or(0, |object_state| object_state.metadata.uid),
    }
}

/// Whether the last name is the staging name of the other one.
fn is_staging_of(own: &Name, name: &Name) -> bool {
    match own.bytes().strip_prefix(b".#tf-".as_slice()) {
        Some(rest) => rest == name.bytes(),
        None => false,
    }
}

/// Whether a path lies at or below a staging name along another.
fn is_staged_along(other: &TreePath, path: &TreePath) -> bool {
    for (own, name) in other.names().iter().zip(path.names()) {
        if own != name {
            return is_staging_of(own, name);
        }
    }
    false
}

/// What stands without what an earlier run has staged along a path.
fn swept(alloc: Global, standing: &Standing, path: &TreePath) -> Result<Standing, AllocError> {
    let mut left = Standing::new(alloc);
    for other in standing.paths(alloc)? {
        if !is_staged_along(&other, path) {
            put_copy(&mut left, standing, &other)?;
        }
    }
    Ok(left)
}

/// Puts what stands elsewhere at a path.
fn put_copy(to: &mut Standing, from: &Standing, path: &TreePath) -> Result<(), AllocError> {
    match from.copy_at(path)? {
        Some(object_state) => to.put(path.copy()?, object_state),
        None => Ok(()),
    }
}

/// Whether a line makes nothing: it lacks what it copies, or its path is refused.
fn makes_nothing(
    alloc: Global,
    line: &Line,
    path: &TreePath,
    standing: &Standing,
) -> Result<bool, AllocError> {
    let things = things_in(alloc, standing)?;
    let nothing = line.letter == b'C' && source(line, standing).is_none();
    Ok(nothing || is_refused(&things, path.names(), owner_made(line, standing)))
}

/// What a line that makes something leaves.
fn made(
    alloc: Global,
    line: &Line,
    path: &TreePath,
    standing: Standing,
) -> Result<Standing, AllocError> {
    if makes_nothing(alloc, line, path, &standing)? {
        return Ok(standing);
    }
    after_line(alloc, line, &swept(alloc, &standing, path)?)
}

/// What a line that adjusts leaves: what lies at and below a path where it is refused stays as it was.
fn adjusted(alloc: Global, line: &Line, standing: &Standing) -> Result<Standing, AllocError> {
    let mut left = after_line(alloc, line, standing)?;
    for path in refused_paths(alloc, line, standing)? {
        restore(alloc, &mut left, standing, &path)?;
    }
    Ok(left)
}

/// The paths that a line names and where it is refused.
fn refused_paths(
    alloc: Global,
    line: &Line,
    standing: &Standing,
) -> Result<Vec<TreePath>, AllocError> {
    let things = things_in(alloc, standing)?;
    let mut refused = Vec::new(alloc);
    for thing in &things {
        if names(line, &thing.path) && is_refused(&things, thing.path.names(), 0) {
            refused.push(thing.path.copy()?)?;
        }
    }
    Ok(refused)
}

fn restore(
    alloc: Global,
    left: &mut Standing,
    standing: &Standing,
    path: &TreePath,
) -> Result<(), AllocError> {
    for other in standing.paths(alloc)? {
        if is_prefix(path, &other) {
            put_copy(left, standing, &other)?;
        }
    }
    Ok(())
}

/// What all lines leave, each at its turn.
fn created(alloc: Global, table: &Table, start: Standing) -> Result<Standing, AllocError> {
    let order = create_order(alloc, table)?;
    let mut standing = start;
    for place in order.as_slice() {
        if let Some(line) = table.line(*place) {
            standing = after(alloc, line, standing)?;
        }
    }
    Ok(standing)
}

/// What a line leaves.
fn after(alloc: Global, line: &Line, standing: Standing) -> Result<Standing, AllocError> {
    match &line.path {
        LinePath::Literal(path) => made(alloc, line, path, standing),
        LinePath::Glob(_) => adjusted(alloc, line, &standing),
    }
}

/// The text of what all lines leave.
fn left(rt: &impl Abort, alloc: Global, lines: &str, before: &str) -> String {
    let table = table_of(rt, alloc, lines);
    let start = standing_of(rt, alloc, before);
    let after = created(alloc, &table, start).expect(rt, "memory");
    text_of(rt, alloc, &after)
}

/// A directory of a user, and in it an object of root.
const HOME: &str =
    "d / 0755 0 0 - -\nd /home 0755 0 0 - -\nd /home/u 0755 1000 0 - -\nf /home/u/x 0644 0 0 - -\n";

/// The directory of a user, with nothing in it.
const EMPTY: &str = "d / 0755 0 0 - -\nd /home 0755 0 0 - -\nd /home/u 0755 1000 0 - -\n";

/// Lines, what stands before, and what stands after.
const ROWS: &[(&str, &str, &str)] = &[
    ("f /home/u/x 0600", HOME, HOME),
    ("z /home/u/x 0600", HOME, HOME),
    ("f /home/u/x 0600", EMPTY, EMPTY),
    (
        "f /home/u/x 0600 1000 1000",
        EMPTY,
        "d / 0755 0 0 - -\nd /home 0755 0 0 - -\nd /home/u 0755 1000 0 - -\nf /home/u/x 0600 1000 1000 - -\n",
    ),
    (
        "Z /home 0700",
        HOME,
        "d / 0755 0 0 - -\nd /home 0700 0 0 - -\nd /home/u 0700 1000 0 - -\nf /home/u/x 0700 0 0 - -\n",
    ),
    (
        "d /run/app 0750",
        "d / 0755 0 0 - -\nd /.#tf-run 0700 0 0 - -\n",
        "d / 0755 0 0 - -\nd /run 0755 0 0 - -\nd /run/app 0750 0 0 - -\n",
    ),
    (
        "d /l/x;d /f/x",
        "d / 0755 0 0 - -\nf /f 0644 0 0 - -\nl /l 0777 0 0 - /t\n",
        "d / 0755 0 0 - -\nf /f 0644 0 0 - -\nl /l 0777 0 0 - /t\n",
    ),
];

#[test]
fn refused_lines_do_nothing(rt: HostRuntime) {
    for &(lines, before, after) in ROWS {
        let seen = left(&rt, rt.alloc(), lines, before);
        assert!(rt; seen.as_bytes() == after.as_bytes(), "{lines}: {seen}");
    }
}
