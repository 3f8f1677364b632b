//! Rows of the tree in memory and of fuses.
ghost use Rattle.std.specs.Prelude.{◌≡◌, ℕ, ◌+◌, ◌^◌, ◌<◌, ◌≤◌, length, map};
ghost use Rattle.std.specs.Ordering.{nat_cmp};
ghost use Rattle.pv_steps.specs.Steps.{HasRoom};
ghost use Rattle.pv_steps.specs.Trees.{places};
ghost use Rattle.pv_tree.specs.Finding.{IsRising};

use crate::plain_tree::{apply, entries_text, put, root_object, root_tree};
use crate::shown::{add_object, add_path, paths_text};
use crate::step_rows::{bytes_of, can, has_room, is_kind, path_of, perform, pieces_of, step_of};
use pv_path::{Bytes, TreePath};
use pv_steps::{Kind, Object, Step, Tree};
use pv_tree::{BuildFault, Fused, MemTree, Probe, TreeBuilder, WalkEntry, find};
use std::alloc::Global;
use std::cmp::Ordering;
use std::process::Abort;
use test_sheet::{letter_of, plain_object};

/// Names of one byte beside one that is sought.
#[derive(Drop)]
struct Letters<'a> {
    names: &'a [u8],
    sought: u8,
    left: u32,
}

impl<'a> Probe for Letters<'a> {
    ghost orders = { λ p. map (λ n. nat_cmp n p.sought) p.names.now };

    ghost left = { λ p. p.left };

    fn compare(&mut self, i: usize) -> Ordering {
        self.left -= 1;
        self.names[i].cmp(&self.sought)
    }
}

/// The index of a name among others, with so many queries.
fn place_in(names: &[u8], sought: u8, left: u32) -> Option<usize>
    requires rising { IsRising (map (λ n. nat_cmp n sought) names.now) }
    requires enough { length names.now < 2 ^ left }
{
    let mut probe = Letters {
        names,
        sought,
        left,
    };
    find(&mut probe, names.len())
}

#[test]
fn finds_names_by_binary_search(rt: HostRuntime) {
    assert_eq!(rt; place_in(b"abc", b'b', 2), Some(1));
    assert_eq!(rt; place_in(b"abc", b'd', 2), None);
    assert_eq!(rt; place_in(b"", b'a', 0), None);
}

/// Does the steps of some lines.
fn run(rt: &impl Abort, alloc: Global, tree: &mut MemTree, steps: &[u8]) {
    for line in steps.split(|b| *b == b'\n') {
        if !line.is_empty() {
            assert!(rt; perform(rt, alloc, tree, line).is_ok());
        }
    }
}

/// A copy of the object of a place.
fn object_of(rt: &impl Abort, alloc: Global, place: &WalkEntry<'_>) -> Object {
    Object {
        node: place.node.copy().expect(rt, "memory"),
        payload: bytes_of(rt, alloc, place.payload),
    }
}

/// Adds the line of a place. Its object is copied before it is shown.
fn add_place(rt: &impl Abort, alloc: Global, text: &mut Vec<u8>, place: &WalkEntry<'_>) {
    let copy = object_of(rt, alloc, place).copy().expect(rt, "memory");
    add_object(rt, alloc, text, place.names, &copy);
}

/// The lines of a tree.
fn tree_text(rt: &impl Abort, alloc: Global, tree: &MemTree) -> Vec<u8> {
    let mut text = Vec::new(alloc);
    let mut walk = tree.walk(alloc).expect(rt, "memory");
    while let Some(place) = walk.place() {
        add_place(rt, alloc, &mut text, &place);
        walk.advance().expect(rt, "memory");
    }
    text
}

/// Steps, and the lines of the tree that they leave of a root alone.
const RUNS: &[(&[u8], &[u8])] = &[
    (
        b"7 mkdir /d\n8 symlink /d/l ../x\n9 mkfile /d/f\n10 mkfifo /d/p\n11 mknod /d/b b\n12 mknod /d/c c",
        b"d / 0755 0 0 0:0 0,0,7,7 - - - -\n\
        d /d 0700 0 0 0:0 7,7,12,12 - - - -\n\
        b /d/b 0600 0 0 8:17 11,11,11,11 - - - -\n\
        c /d/c 0600 0 0 8:17 12,12,12,12 - - - -\n\
        f /d/f 0600 0 0 0:0 9,9,9,9 - - - -\n\
        l /d/l 0777 0 0 0:0 8,8,8,8 - - - ../x\n\
        p /d/p 0600 0 0 0:0 10,10,10,10 - - - -\n",
    ),
    (
        b"2 mkfile /f\n3 write /f xy",
        b"d / 0755 0 0 0:0 0,0,2,2 - - - -\n\
        f /f 0600 0 0 0:0 2,2,3,3 - - - xy\n",
    ),
    (
        b"2 mkfile /f\n3 write /f xy\n4 chmod /f 4640",
        b"d / 0755 0 0 0:0 0,0,2,2 - - - -\n\
        f /f 4640 0 0 0:0 2,2,4,3 - - - xy\n",
    ),
    (
        b"2 mkfile /f\n3 write /f xy\n4 chmod /f 4640\n5 chown /f 5 6",
        b"d / 0755 0 0 0:0 0,0,2,2 - - - -\n\
        f /f 4640 5 6 0:0 2,2,5,3 - - - xy\n",
    ),
    (
        b"2 mkfile /f\n3 write /f xy\n4 chmod /f 4640\n5 chown /f 5 6\n6 utime /f 60 61",
        b"d / 0755 0 0 0:0 0,0,2,2 - - - -\n\
        f /f 4640 5 6 0:0 60,2,6,61 - - - xy\n",
    ),
    (
        b"2 mkfile /f\n3 setfattr /f user.a 1\n4 chattr /f i",
        b"d / 0755 0 0 0:0 0,0,2,2 - - - -\n\
        f /f 0600 0 0 0:0 2,2,4,2 - user.a=1, i -\n",
    ),
    (
        b"7 setfacl / 0750 u:1000:rw-,m::r--,d:u::rwx,d:u:5:r--,d:g::r-x,d:o::---",
        b"d / 0750 0 0 0:0 0,0,7,0 u:1000:rw-,m::r--,d:u::rwx,d:u:5:r--,d:g::r-x,d:o::--- - - -\n",
    ),
    (
        b"7 setfacl / 0750 u:1000:rw-,m::r--,d:u::rwx,d:u:5:r--,d:g::r-x,d:o::---\n8 chmod / 1604",
        b"d / 1604 0 0 0:0 0,0,8,0 u:1000:rw-,m::r--,d:u::rwx,d:u:5:r--,d:g::r-x,d:o::--- - - -\n",
    ),
    (
        b"7 setfacl / 0750 u:1000:rw-,m::r--,d:u::rwx,d:u:5:r--,d:g::r-x,d:o::---\n8 chmod / 1604\n9 setfacl / 0711 -",
        b"d / 1711 0 0 0:0 0,0,9,0 - - - -\n",
    ),
    (
        b"1 mkdir /b\n2 mkfile /b/a\n3 rename /b /a",
        b"d / 0755 0 0 0:0 0,0,3,3 - - - -\n\
        d /a 0700 0 0 0:0 1,1,3,2 - - - -\n\
        f /a/a 0600 0 0 0:0 2,2,2,2 - - - -\n",
    ),
    (
        b"1 mkdir /b\n2 mkfile /b/a\n3 rename /b /a\n4 unlink /a/a",
        b"d / 0755 0 0 0:0 0,0,3,3 - - - -\n\
        d /a 0700 0 0 0:0 1,1,4,4 - - - -\n",
    ),
    (
        b"1 mkdir /b\n2 mkfile /b/a\n3 rename /b /a\n4 unlink /a/a\n5 rmdir /a",
        b"d / 0755 0 0 0:0 0,0,5,5 - - - -\n",
    ),
    (
        b"1 mkdir /d\n2 mkfile /d/f\n3 write /d/f old\n4 mkfile /g\n5 write /g new\n6 rename /g /d/f",
        b"d / 0755 0 0 0:0 0,0,6,6 - - - -\n\
        d /d 0700 0 0 0:0 1,1,6,6 - - - -\n\
        f /d/f 0600 0 0 0:0 4,4,6,5 - - - new\n",
    ),
    (
        b"1 mkdir /a\n2 mkdir /b\n3 mkfile /b/f\n4 rename /b /a",
        b"d / 0755 0 0 0:0 0,0,4,4 - - - -\n\
        d /a 0700 0 0 0:0 2,2,4,3 - - - -\n\
        f /a/f 0600 0 0 0:0 3,3,3,3 - - - -\n",
    ),
    (
        b"1 mkfile /b\n2 mkfile /a\n3 mkfile /b!\n4 mkfile /Z",
        b"d / 0755 0 0 0:0 0,0,4,4 - - - -\n\
        f /Z 0600 0 0 0:0 4,4,4,4 - - - -\n\
        f /a 0600 0 0 0:0 2,2,2,2 - - - -\n\
        f /b 0600 0 0 0:0 1,1,1,1 - - - -\n\
        f /b! 0600 0 0 0:0 3,3,3,3 - - - -\n",
    ),
];

/// The lines of the tree that some steps leave of a root alone.
fn text_after(rt: &impl Abort, alloc: Global, steps: &[u8]) -> Vec<u8> {
    let mut tree = root_tree(rt, alloc);
    run(rt, alloc, &mut tree, steps);
    tree_text(rt, alloc, &tree)
}

#[test]
fn leaves_what_each_step_says(rt: HostRuntime) {
    for &(steps, lines) in RUNS {
        let text = text_after(&rt, rt.alloc(), steps);
        assert!(rt; text.as_slice() == lines, "{text:?}");
    }
}

/// Adds a directory or a file, with its timestamps as they are.
fn add(
    rt: &impl Abort,
    alloc: Global,
    builder: &mut TreeBuilder,
    is_directory: bool,
    text: &[u8],
) -> Result<(), BuildFault> {
    let path = path_of(rt, alloc, text);
    let payload = Bytes::new(alloc);
    if is_directory {
        builder.add(
            path,
            plain_object(alloc, Kind::Directory, 0o755, payload, 3),
        )
    } else {
        builder.add(path, plain_object(alloc, Kind::File, 0o644, payload, 3))
    }
}

/// The names in the root, each after a slash.
fn names_text(rt: &impl Abort, alloc: Global, tree: &MemTree) -> Vec<u8> {
    let mut text = Vec::new(alloc);
    let root = TreePath::root(alloc);
    assert!(rt; is_kind(tree, &root, Kind::Directory));
    let names = tree.names_at(alloc, &root).expect(rt, "memory");
    add_path(rt, &mut text, names.as_slice());
    text
}

/// Whether it is a directory, and the path, in the order in which they are added, each with the fault that it has.
const ADDED: &[(bool, &[u8], Option<BuildFault>)] = &[
    (false, b"/", Some(BuildFault::OutOfOrder)),
    (false, b"/a/b", Some(BuildFault::NoParent)),
    (false, b"/Z", None),
    (false, b"/Z/f", Some(BuildFault::NoParent)),
    (true, b"/a", None),
    (true, b"/a", Some(BuildFault::OutOfOrder)),
    (true, b"/a/b", None),
    (false, b"/a/b/c/d", Some(BuildFault::NoParent)),
    (true, b"/a/b/c", None),
    (false, b"/a/b/c/f", None),
    (false, b"/a/b/c/f/g", Some(BuildFault::NoParent)),
    (false, b"/a/b", Some(BuildFault::OutOfOrder)),
    (false, b"/a/b/d", None),
    (false, b"/a/a", Some(BuildFault::OutOfOrder)),
    (false, b"/a/c/f", Some(BuildFault::NoParent)),
    (false, b"/a/c", None),
    (false, b"/a!", None),
    (false, b"/a/d", Some(BuildFault::OutOfOrder)),
    (false, b"/b", None),
];

/// A builder with a root alone.
fn builder_of_root(rt: &impl Abort, alloc: Global) -> TreeBuilder {
    let Object { node, payload: _ } = root_object(alloc);
    TreeBuilder::new(alloc, node).expect(rt, "memory")
}

/// The tree to which all of them are added that can be.
fn added_in_order(rt: &impl Abort, alloc: Global) -> MemTree {
    let mut builder = builder_of_root(rt, alloc);
    for &(is_directory, text, fault) in ADDED {
        let added = add(rt, alloc, &mut builder, is_directory, text);
        assert!(rt; added.err() == fault, "{text:?}");
    }
    builder.finish()
}

/// The lines of that tree.
const IN_ORDER: &[u8] = b"d / 0755 0 0 0:0 0,0,0,0 - - - -\n\
    f /Z 0644 0 0 0:0 3,3,3,3 - - - -\n\
    d /a 0755 0 0 0:0 3,3,3,3 - - - -\n\
    d /a/b 0755 0 0 0:0 3,3,3,3 - - - -\n\
    d /a/b/c 0755 0 0 0:0 3,3,3,3 - - - -\n\
    f /a/b/c/f 0644 0 0 0:0 3,3,3,3 - - - -\n\
    f /a/b/d 0644 0 0 0:0 3,3,3,3 - - - -\n\
    f /a/c 0644 0 0 0:0 3,3,3,3 - - - -\n\
    f /a! 0644 0 0 0:0 3,3,3,3 - - - -\n\
    f /b 0644 0 0 0:0 3,3,3,3 - - - -\n";

/// Whether the names in the root of a tree are these.
fn has_names(rt: &impl Abort, alloc: Global, tree: &MemTree, names: &[u8]) -> bool {
    names_text(rt, alloc, tree).as_slice() == names
}

#[test]
fn adds_in_order_below_directories(rt: HostRuntime) {
    let tree = added_in_order(&rt, rt.alloc());
    assert!(rt; has_names(&rt, rt.alloc(), &tree, b"/Z/a/a!/b"));
    assert!(rt; tree_text(&rt, rt.alloc(), &tree).as_slice() == IN_ORDER);
    assert!(rt; tree.step_count() == 0);
}

/// The path that a text spells, at which a tree has room for an object.
fn room_of(rt: &impl Abort, alloc: Global, tree: &MemTree, text: &[u8]) -> TreePath
    ensures { HasRoom (places tree.now.files) result }
{
    let path = path_of(rt, alloc, text);
    assert!(rt; has_room(rt, alloc, tree, &path));
    path
}

/// Adds a directory to a tree, with its timestamps as they are.
fn add_directory(rt: &impl Abort, alloc: Global, tree: &mut MemTree, text: &[u8]) {
    let path = room_of(rt, alloc, tree, text);
    let made = plain_object(alloc, Kind::Directory, 0o755, Bytes::new(alloc), 3);
    tree.add(&path, made.node, b"").expect(rt, "memory");
}

/// Adds a file of two bytes.
fn add_file(rt: &impl Abort, alloc: Global, tree: &mut MemTree, text: &[u8]) {
    let path = room_of(rt, alloc, tree, text);
    let made = plain_object(alloc, Kind::File, 0o644, Bytes::new(alloc), 3);
    tree.add(&path, made.node, b"xy").expect(rt, "memory");
}

/// Adds a link.
fn add_link(rt: &impl Abort, alloc: Global, tree: &mut MemTree, text: &[u8]) {
    let path = room_of(rt, alloc, tree, text);
    let made = plain_object(alloc, Kind::Link, 0o777, Bytes::new(alloc), 3);
    tree.add(&path, made.node, b"../x").expect(rt, "memory");
}

/// A tree to which objects are added in no order, after a step.
fn added_anywhere(rt: &impl Abort, alloc: Global) -> MemTree {
    let mut tree = root_tree(rt, alloc);
    run(rt, alloc, &mut tree, b"7 mkdir /m");
    add_directory(rt, alloc, &mut tree, b"/z");
    add_file(rt, alloc, &mut tree, b"/z/f");
    add_directory(rt, alloc, &mut tree, b"/a");
    add_link(rt, alloc, &mut tree, b"/m/l");
    add_file(rt, alloc, &mut tree, b"/a/f");
    tree
}

/// The lines of that tree: no directory is touched.
const ANYWHERE: &[u8] = b"d / 0755 0 0 0:0 0,0,7,7 - - - -\n\
    d /a 0755 0 0 0:0 3,3,3,3 - - - -\n\
    f /a/f 0644 0 0 0:0 3,3,3,3 - - - xy\n\
    d /m 0700 0 0 0:0 7,7,7,7 - - - -\n\
    l /m/l 0777 0 0 0:0 3,3,3,3 - - - ../x\n\
    d /z 0755 0 0 0:0 3,3,3,3 - - - -\n\
    f /z/f 0644 0 0 0:0 3,3,3,3 - - - xy\n";

#[test]
fn adds_anywhere_and_records_nothing(rt: HostRuntime) {
    let tree = added_anywhere(&rt, rt.alloc());
    assert!(rt; tree_text(&rt, rt.alloc(), &tree).as_slice() == ANYWHERE);
    assert!(rt; tree.step_count() == 1);
}

/// Whether a tree lends these bytes of a file.
fn lends_bytes<T: Tree>(rt: &impl Abort, tree: &T, path: &TreePath, want: &[u8]) -> bool {
    assert!(rt; is_kind(tree, path, Kind::File));
    tree.bytes(path) == want
}

/// Whether a tree lends this target of a link.
fn lends_target<T: Tree>(rt: &impl Abort, tree: &T, path: &TreePath, want: &[u8]) -> bool {
    assert!(rt; is_kind(tree, path, Kind::Link));
    tree.target(path) == want
}

/// Whether a tree lends the bytes of a file and the target of a link.
fn lends_both<T: Tree>(rt: &impl Abort, alloc: Global, tree: &T) -> bool {
    let file = path_of(rt, alloc, b"/f");
    let link = path_of(rt, alloc, b"/l");
    lends_bytes(rt, tree, &file, b"xy") && lends_target(rt, tree, &link, b"../x")
}

/// A tree with a file and a link.
fn tree_to_lend(rt: &impl Abort, alloc: Global) -> MemTree {
    let mut tree = root_tree(rt, alloc);
    let steps = b"1 mkfile /f\n2 write /f xy\n3 symlink /l ../x";
    run(rt, alloc, &mut tree, steps);
    tree
}

#[test]
fn lends_payloads(rt: HostRuntime) {
    let tree = tree_to_lend(&rt, rt.alloc());
    assert!(rt; lends_both(&rt, rt.alloc(), &tree));
    let tree = Fused::new(tree, Some(0));
    assert!(rt; lends_both(&rt, rt.alloc(), &tree));
}

/// Paths in the tree of `ANYWHERE`, and the kinds of the objects along them, a letter each.
const ALONG: &[(&[u8], &[u8])] = &[
    (b"/", b"d"),
    (b"/a/f", b"ddf"),
    (b"/a/f/x", b"ddf"),
    (b"/a/q/f", b"dd"),
    (b"/m/l", b"ddl"),
    (b"/m/l/x", b"ddl"),
    (b"/q", b"d"),
];

/// Paths, the names beside them in the form of a path, and whether one of these names is in the tree of `ANYWHERE`.
const BESIDE: &[(&[u8], &[u8], bool)] = &[
    (b"/", b"/a", false),
    (b"/q", b"/a", true),
    (b"/a", b"/q", false),
    (b"/a", b"/q/f", false),
    (b"/a/q", b"/q/f", true),
    (b"/a/q/q", b"/q/f", true),
    (b"/a/q", b"/f/a", false),
    (b"/q/q", b"/f/f", false),
    (b"/q/q/q", b"/z", true),
    (b"/a/f/q", b"/q/q/f", false),
];

/// The kinds of the objects along a path, a letter each.
fn kinds_along<T: Tree>(rt: &impl Abort, alloc: Global, tree: &T, text: &[u8]) -> Vec<u8> {
    let path = path_of(rt, alloc, text);
    let mut kinds = Vec::new(alloc);
    let nodes = tree.look_along(alloc, &path).expect(rt, "memory");
    for node in &nodes {
        let letter = letter_of(node.kind).as_bytes();
        kinds.extend_from_slice(letter).expect(rt, "memory");
    }
    kinds
}

#[test]
fn looks_along_a_path(rt: HostRuntime) {
    let tree = Fused::new(added_anywhere(&rt, rt.alloc()), None);
    for &(path, kinds) in ALONG {
        let found = kinds_along(&rt, rt.alloc(), tree.inner(), path);
        assert!(rt; found.as_slice() == kinds, "{found:?}");
        let limited = kinds_along(&rt, rt.alloc(), &tree, path);
        assert!(rt; limited.as_slice() == kinds, "{limited:?}");
    }
}

#[test]
fn looks_for_names_beside_a_path(rt: HostRuntime) {
    let tree = Fused::new(added_anywhere(&rt, rt.alloc()), None);
    for &(path, names, want) in BESIDE {
        let at = path_of(&rt, rt.alloc(), path);
        let others = path_of(&rt, rt.alloc(), names);
        let has = tree.inner().has_beside(&at, others.names());
        assert!(rt; has == want, "{path:?} {names:?}");
        let limited = tree.has_beside(&at, others.names());
        assert!(rt; limited == want, "{path:?} {names:?}");
    }
}

/// Paths, and the paths at and below them in the tree of `ANYWHERE`, with a space after each.
const AT_AND_BELOW: &[(&[u8], &[u8])] = &[
    (b"/", b"/ /a /a/f /m /m/l /z /z/f "),
    (b"/a", b"/a /a/f "),
    (b"/m/l", b"/m/l "),
    (b"/a/f/x", b""),
    (b"/a/q", b""),
    (b"/q/q", b""),
    (b"/z", b"/z /z/f "),
];

#[test]
fn lists_at_and_below(rt: HostRuntime) {
    let tree = Fused::new(added_anywhere(&rt, rt.alloc()), None);
    for &(text, paths) in AT_AND_BELOW {
        let path = path_of(&rt, rt.alloc(), text);
        let found = paths_text(&rt, rt.alloc(), tree.inner(), &path);
        assert!(rt; found.as_slice() == paths, "{text:?} {found:?}");
        let limited = paths_text(&rt, rt.alloc(), &tree, &path);
        assert!(rt; limited.as_slice() == paths, "{text:?} {limited:?}");
    }
}

/// A limit, how two steps end under it, and the names in the root that are left.
const LIMITS: &[(Option<u64>, bool, bool, &[u8])] = &[
    (None, true, true, b"/a/b"),
    (Some(0), false, false, b"/"),
    (Some(1), true, false, b"/a"),
    (Some(2), true, true, b"/a/b"),
];

/// Whether a step ends well.
fn ends_well(rt: &impl Abort, alloc: Global, tree: &mut Fused<MemTree>, step: &[u8]) -> bool {
    perform(rt, alloc, tree, step).is_ok()
}

#[test]
fn stops_after_the_limit(rt: HostRuntime) {
    for &(limit, first, second, names) in LIMITS {
        let mut tree = Fused::new(root_tree(&rt, rt.alloc()), limit);
        let is_first = ends_well(&rt, rt.alloc(), &mut tree, b"1 mkdir /a") == first;
        let is_second = ends_well(&rt, rt.alloc(), &mut tree, b"2 mkdir /b") == second;
        assert!(rt;
            is_first && is_second && tree.stopped() != second,
            "{names:?}"
        );
        assert!(rt; has_names(&rt, rt.alloc(), tree.inner(), names));
        assert!(rt; has_names(&rt, rt.alloc(), &tree.into_inner(), names));
    }
}

/// Pseudo-random numbers (a linear congruential generator).
#[derive(Drop)]
struct Random {
    state: u64,
}

/// A number below a bound.
fn next(random: &mut Random, bound: u64) -> u64
    requires { 1 ≤ bound }
    ensures { result < bound }
{
    random.state = random
        .state
        .wrapping_mul(6_364_136_223_846_793_005)
        .wrapping_add(1_442_695_040_888_963_407);
    (random.state / 4_294_967_296) % bound
}

/// Adds a path of up to three names of one letter.
fn add_random_path(rt: &impl Abort, random: &mut Random, text: &mut Vec<u8>) {
    for _ in 0..1 + next(random, 3) {
        let name = b'a' + next(random, 3) as u8;
        text.push(b'/').expect(rt, "memory");
        text.push(name).expect(rt, "memory");
    }
}

/// What is done, in words, with `@` for each path.
const DEEDS: [&[u8]; 20] = [
    b"mkdir @",
    b"mkdir @",
    b"mkfile @",
    b"mkfifo @",
    b"mknod @ b",
    b"mknod @ c",
    b"symlink @ ../x",
    b"write @ one",
    b"write @ two",
    b"chmod @ 4750",
    b"chmod @ 0604",
    b"chown @ 5 6",
    b"setfacl @ 0750 u:1000:rw-,m::r--",
    b"setfacl @ 0711 d:u::rwx,d:g::r-x,d:o::---",
    b"setfattr @ user.a 1",
    b"chattr @ i",
    b"utime @ 60 61",
    b"rename @ @",
    b"unlink @",
    b"rmdir @",
];

/// The words of a step, with a pseudo-random path for each `@`.
fn random_words(rt: &impl Abort, alloc: Global, random: &mut Random, deed: &[u8]) -> Vec<u8> {
    let mut text = Vec::new(alloc);
    for byte in deed {
        match *byte {
            b'@' => add_random_path(rt, random, &mut text),
            other => text.push(other).expect(rt, "memory"),
        }
    }
    text
}

/// A pseudo-random step.
fn random_step(rt: &impl Abort, alloc: Global, random: &mut Random, action: usize) -> Step
    requires { action < 20 }
{
    let text = random_words(rt, alloc, random, DEEDS[action]);
    let words = pieces_of(rt, alloc, text.as_slice(), b' ');
    step_of(rt, alloc, words.as_slice())
}

/// Stops unless a tree and a list hold the same.
fn expect_same(rt: &impl Abort, alloc: Global, tree: &MemTree, entries: &Vec<(TreePath, Object)>) {
    let text = tree_text(rt, alloc, tree);
    assert!(rt; text.as_slice() == entries_text(rt, alloc, entries).as_slice());
}

/// The list of a root alone.
fn root_entries(rt: &impl Abort, alloc: Global) -> Vec<(TreePath, Object)> {
    let mut entries = Vec::new(alloc);
    put(rt, &mut entries, TreePath::root(alloc), root_object(alloc));
    entries
}

/// Does a step in a tree and in a list, where it may be done. Whether it was done.
fn run_beside(
    rt: &impl Abort,
    alloc: Global,
    tree: &mut MemTree,
    entries: &mut Vec<(TreePath, Object)>,
    step: &Step,
    now: u64,
) -> bool {
    let may = can(rt, alloc, tree, step);
    if may {
        assert!(rt; tree.step(step, now).is_ok());
        apply(rt, alloc, entries, step, now);
    }
    may
}

#[test]
fn runs_as_the_sorted_list(rt: HostRuntime) {
    let alloc = rt.alloc();
    let mut tree = root_tree(&rt, alloc);
    let mut entries = root_entries(&rt, alloc);
    let mut random = Random { state: 1 };
    let mut done = [0u64; 20];
    for now in 1..=12_000u64 {
        let action = next(&mut random, 20) as usize;
        let step = random_step(&rt, alloc, &mut random, action);
        if run_beside(&rt, alloc, &mut tree, &mut entries, &step, now) {
            done[action] = done[action].wrapping_add(1);
        }
        if now % 8 == 0 {
            expect_same(&rt, alloc, &tree, &entries);
        }
    }
    assert!(rt; done.iter().all(|times| *times >= 20));
    assert!(rt; tree.step_count() >= 3000);
}
