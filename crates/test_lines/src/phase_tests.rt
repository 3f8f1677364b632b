//! Plain programs of what goes in the phases remove and clean, as the manual has it, with small trees.
use crate::lines::table_of;
use crate::things::{Thing, at, is_refused};
use pv_lines::Line;
use pv_path::{Name, TreePath, is_prefix, parent, parse_path, print_path};
use pv_steps::{Kind, Node, Stamps};
use pv_table::{Table, is_old, names, names_first, scope_of};
use std::alloc::{AllocError, Global};
use std::process::Abort;
use test_sheet::{kind_of, plain_node};

/// The timestamps of the texts of the modification timestamp and of all others.
fn stamps_of(rt: &impl Abort, modify: &str, other: &str) -> Stamps {
    let modify = modify.parse::<u64>().expect(rt, "a timestamp");
    let stamp = other.parse::<u64>().expect(rt, "a timestamp");
    Stamps {
        access: stamp,
        birth: stamp,
        change: stamp,
        modify,
    }
}

/// The object of a kind, an owner and timestamps.
fn node_of(alloc: Global, kind: &str, uid: u32, stamps: Stamps) -> Node {
    let mut node = plain_node(alloc, kind_of(kind), 0o755);
    node.uid = uid;
    node.stamps = stamps;
    node
}

/// The object of a text, `KIND PATH UID STAMP STAMP`: the modification timestamp and then all others.
fn thing_of(rt: &impl Abort, alloc: Global, text: &str) -> Thing {
    let fields: Vec<&str> = text.split(' ').collect(alloc).expect(rt, "memory");
    match fields.as_slice() {
        [kind, path, uid, modify, other] => {
            let uid = uid.parse::<u32>().expect(rt, "a UID");
            let stamps = stamps_of(rt, modify, other);
            let path = parse_path(alloc, path.as_bytes()).expect(rt, "a path");
            let node = node_of(alloc, kind, uid, stamps);
            Thing { path, node }
        }
        _ => panic!(rt; "an object: {text}"),
    }
}

/// The objects of a text, in the order of their paths.
fn things_of(rt: &impl Abort, alloc: Global, text: &str) -> Vec<Thing> {
    let mut things = Vec::new(alloc);
    for line in text.lines() {
        things.push(thing_of(rt, alloc, line)).expect(rt, "memory");
    }
    things
}

/// The owner that a line gives.
fn owner_of(line: &Line) -> u32 {
    line.user.map_or(0, |user| user.id)
}

/// Whether a line names the first names of a path, and is not refused there.
fn is_named(line: &Line, things: &[Thing], path: &TreePath, count: usize) -> bool {
    let names = path.names();
    count <= names.len()
        && names_first(line, path, count)
        && !is_refused(things, &names[..count], owner_of(line))
}

fn is_directory(things: &[Thing], names: &[Name]) -> bool {
    at(things, names).map_or(false, |node| node.kind == Kind::Directory)
}

/// Whether a path lies directly below another.
fn is_child(path: &TreePath, other: &TreePath) -> bool {
    is_prefix(path, other) && other.len() == path.len().saturating_add(1)
}

/// Whether all that stands directly below a path is among those that go.
fn all_go(things: &[Thing], going: &[TreePath], path: &TreePath) -> bool {
    things.iter().all(|thing| !is_child(path, &thing.path) || going.contains(&thing.path))
}

/// `R` removes what it names with all below. `D` removes all below a directory that it names. `r` removes what it
/// names, if it is not a directory or nothing stays in it.
fn takes(line: &Line, things: &[Thing], going: &[TreePath], path: &TreePath) -> bool {
    let depth = path.len();
    match line.letter {
        b'R' => {
            is_named(line, things, path, depth)
                || (0..depth).any(|count| is_named(line, things, path, count))
        }
        b'D' => (0..depth).any(|count| takes_below(line, things, path, count)),
        b'r' => {
            is_named(line, things, path, depth)
                && (!is_directory(things, path.names()) || all_go(things, going, path))
        }
        _ => false,
    }
}

/// Whether a line names a directory by the first names of a path.
fn takes_below(line: &Line, things: &[Thing], path: &TreePath, count: usize) -> bool {
    let names = path.names();
    is_named(line, things, path, count)
        && count <= names.len()
        && is_directory(things, &names[..count])
}

/// What goes in the phase remove, the deepest first.
fn removed(alloc: Global, lines: &[Line], things: &[Thing]) -> Result<Vec<TreePath>, AllocError> {
    let mut going = Vec::new(alloc);
    for thing in things.iter().rev() {
        let path = &thing.path;
        if !path.is_empty() && lines.iter().any(|line| takes(line, things, &going, path)) {
            going.push(path.copy()?)?;
        }
    }
    Ok(going)
}

/// Whether an object that no line names is old by the age of its directory.
fn is_aged(alloc: Global, table: &Table, thing: &Thing, now: u64) -> Result<bool, AllocError> {
    if table.lines().iter().any(|line| names(line, &thing.path)) {
        return Ok(false);
    }
    let Some(above) = parent(alloc, &thing.path)? else {
        return Ok(false);
    };
    match scope_of(table, &above) {
        Some(scope) => {
            let spared = scope.age.spare_first && scope.own;
            Ok(!spared && is_old(&thing.node, &scope.age, now))
        }
        None => Ok(false),
    }
}

/// What goes in the phase clean: what is old, and of directories those in which nothing stays.
fn cleaned(
    alloc: Global,
    table: &Table,
    things: &[Thing],
    now: u64,
) -> Result<Vec<TreePath>, AllocError> {
    let mut going = Vec::new(alloc);
    for thing in things.iter().rev() {
        if is_aged(alloc, table, thing, now)? && all_go(things, &going, &thing.path) {
            going.push(thing.path.copy()?)?;
        }
    }
    Ok(going)
}

/// The paths that go, the first of them last.
fn text_of(alloc: Global, paths: &[TreePath]) -> Result<Vec<u8>, AllocError> {
    let mut text = Vec::new(alloc);
    for path in paths {
        add_path(alloc, &mut text, path)?;
    }
    Ok(text)
}

/// Adds a path and a space.
fn add_path(alloc: Global, text: &mut Vec<u8>, path: &TreePath) -> Result<(), AllocError> {
    let printed = print_path(alloc, path)?;
    text.extend_from_slice(&printed)?;
    text.push(b' ')?;
    Ok(())
}

const NOW: u64 = 1_000_000_000_000;

/// A directory with files and directories of two ages.
const OLD: &str = "d / 0 0 0
d /t 0 0 0
f /t/a 0 135999999999 135999999999
f /t/b 0 136000000000 135999999999
d /t/c 0 0 0
f /t/c/x 0 0 0
d /t/e 0 0 0
f /t/e/y 0 1000000000000 0
";

/// Two directories that lines name, and a file.
const SPARED: &str = "d / 0 0 0
d /tmp 0 0 0
d /tmp/k 0 0 0
f /tmp/k/o 0 0 0
d /tmp/y 0 0 0
f /tmp/y/o 0 0 0
f /tmp/z 0 0 0
";

const SPARING: &str = "d /tmp 1777 0 0 1d;x /tmp/k;X /tmp/y;R /tmp/k";

/// A directory that holds one file, and one of another user with a file of root in it.
const FULL: &str = "d / 0 0 0
d /h 1000 0 0
f /h/f 0 0 0
d /q 0 0 0
f /q/f 0 0 0
";

/// The paths that go in the phase clean by some lines, the first of them last.
fn cleaned_text(rt: &impl Abort, alloc: Global, lines: &str, objects: &str) -> Vec<u8> {
    let table = table_of(rt, alloc, lines);
    let things = things_of(rt, alloc, objects);
    let going = cleaned(alloc, &table, &things, NOW).expect(rt, "memory");
    text_of(alloc, &going).expect(rt, "memory")
}

/// The paths that go in the phase remove by some lines, the first of them last.
fn removed_text(rt: &impl Abort, alloc: Global, lines: &str, objects: &str) -> Vec<u8> {
    let table = table_of(rt, alloc, lines);
    let things = things_of(rt, alloc, objects);
    let going = removed(alloc, table.lines(), &things).expect(rt, "memory");
    text_of(alloc, &going).expect(rt, "memory")
}

/// Lines, objects, and what goes in the phase clean.
const CLEANED: &[(&str, &str, &str)] = &[
    ("d /t 1777 0 0 10d", OLD, "/t/c/x /t/c /t/a "),
    ("d /t 1777 0 0 ~10d", OLD, "/t/c/x "),
    ("d /t 1777 0 0 0", OLD, "/t/e/y /t/e /t/c/x /t/c /t/b /t/a "),
    ("d /t 1777 0 0 -", OLD, ""),
    (SPARING, SPARED, "/tmp/z /tmp/y/o "),
];

#[test]
fn old_objects_go(rt: HostRuntime) {
    for &(lines, objects, wanted) in CLEANED {
        let seen = cleaned_text(&rt, rt.alloc(), lines, objects);
        assert!(rt; seen.as_slice() == wanted.as_bytes(), "{lines}: {seen:?}");
    }
}

/// Lines, objects, and what goes in the phase remove.
const REMOVED: &[(&str, &str, &str)] = &[
    (SPARING, SPARED, "/tmp/k/o /tmp/k "),
    ("r /q", FULL, ""),
    ("r /q;r /q/*", FULL, "/q/f /q "),
    ("D /q", FULL, "/q/f "),
    ("D /q/f", FULL, ""),
    ("R /*", FULL, "/q/f /q /h/f /h "),
    ("r /h/f;r /q/f", FULL, "/q/f "),
    ("R /h/*", FULL, ""),
];

#[test]
fn named_objects_go(rt: HostRuntime) {
    for &(lines, objects, wanted) in REMOVED {
        let seen = removed_text(&rt, rt.alloc(), lines, objects);
        assert!(rt; seen.as_slice() == wanted.as_bytes(), "{lines}: {seen:?}");
    }
}
