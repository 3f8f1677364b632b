//! The steps of removal, of staging and of publishing, over trees in memory.
ghost use Rattle.std.specs.Prelude.{◌≡◌, ◌≢◌, [], true, length, nat_le};
ghost use Rattle.std.specs.List.{list_all};
ghost use Rattle.pv_path.specs.Paths.{parent_of, staging_of};
ghost use Rattle.pv_steps.specs.declared.node.Kind.TheVariants.{Directory};
ghost use Rattle.pv_steps.specs.Trees.{places, IsAbsentIn, IsKindIn};
ghost use Rattle.pv_walk.specs.Staging.{HasTarget, IsNewFile, can_stage};

use crate::metadata_tests::give_metadata;
use crate::shown::paths_text;
use crate::step_rows::{acl_of, bytes_of, has_parent, path_of};
use pv_image::{read_image, write_image};
use pv_path::{Name, TreePath, staging};
use pv_steps::{Kind, Tree, Why, is_target};
use pv_text::Facts;
use pv_tree::{Fused, MemTree};
use pv_walk::{
    NewFile, NewKind, TopNode, Walked, publish, remove_below, stage_copy, stage_file, sweep, walk,
};
use std::alloc::Global;
use std::process::Abort;

const NOW: u64 = 9;

fn tree_of(rt: &impl Abort, alloc: Global, image: &[u8]) -> MemTree {
    read_image(alloc, image).expect(rt, "an image").tree
}

/// The paths of a tree, with a space after each.
fn all_paths(rt: &impl Abort, alloc: Global, tree: &MemTree) -> Vec<u8> {
    paths_text(rt, alloc, tree, &TreePath::root(alloc))
}

/// Stops unless a tree has these paths.
fn expect_paths(rt: &impl Abort, alloc: Global, tree: &MemTree, paths: &[u8]) {
    let text = all_paths(rt, alloc, tree);
    assert!(rt; text.as_slice() == paths, "{text:?}");
}

/// Whether a name leaves room for the five bytes of a staging name.
fn is_short(name: &Name) -> bool
    ensures { result ≡ nat_le (length name.now) 250 }
{
    name.bytes().len() <= 250
}

fn are_short(names: &[Name]) -> bool
    ensures { result ≡ list_all (λ name. nat_le (length name) 250) names.now }
{
    names.iter().all(|name| is_short(name))
}

/// The path that a text spells, below the root, each name of which leaves room for a staging name.
fn short_path_of(rt: &impl Abort, alloc: Global, text: &[u8]) -> TreePath
    ensures short { can_stage result ≡ true }
    ensures below { result ≢ [] }
{
    let path = path_of(rt, alloc, text);
    assert!(rt; are_short(path.names()));
    assert!(rt; !path.is_empty());
    path
}

/// The staging name of a path.
fn staging_of(rt: &impl Abort, alloc: Global, path: &TreePath) -> TreePath
    ensures { result ≡ staging_of path.now }
{
    match path.names() {
        [.., name] => assert!(rt; name.bytes().len() <= 250),
        [] => panic!(rt; "the root"),
    }
    staging(alloc, path).expect(rt, "memory")
}

/// Stops unless a new object can be staged for a path.
fn expect_room<T: Tree>(rt: &impl Abort, alloc: Global, tree: &T, path: &TreePath)
    ensures parent { IsKindIn Directory (places (T.state tree.now)) (parent_of path.now) }
    ensures free { IsAbsentIn (places (T.state tree.now)) (staging_of path.now) }
{
    assert!(rt; has_parent(rt, alloc, tree, path));
    let stage = staging_of(rt, alloc, path);
    assert!(rt; tree.look(&stage).is_none());
}

const DEEP: &[u8] = b"tree-image 1
d / 0755 0 0 0,0,0,0 - -
d /a 0755 0 0 0,0,0,0 - -
d /a/b 0755 0 0 0,0,0,0 - -
f /a/b/c 0644 0 0 0,0,0,0 - -
f /a/b/d 0644 0 0 0,0,0,0 - -
f /a/e 0644 0 0 0,0,0,0 - -
f /f 0644 0 0 0,0,0,0 - -
end
";

/// Step limits under which `/a` is removed from `DEEP`, whether all is done, and the paths that are left.
const REMOVALS: &[(u64, bool, &[u8])] = &[
    (0, false, b"/ /a /a/b /a/b/c /a/b/d /a/e /f "),
    (1, false, b"/ /a /a/b /a/b/d /a/e /f "),
    (2, false, b"/ /a /a/b /a/e /f "),
    (3, false, b"/ /a /a/e /f "),
    (4, true, b"/ /a /f "),
];

#[test]
fn children_go_in_byte_order_and_directories_last(rt: HostRuntime) {
    let path = path_of(&rt, rt.alloc(), b"/a");
    for &(limit, is_done, left) in REMOVALS {
        let mut tree = Fused::new(tree_of(&rt, rt.alloc(), DEEP), Some(limit));
        let done = remove_below(rt.alloc(), &mut tree, &path, NOW).is_ok();
        assert!(rt; done == is_done, "{limit}");
        expect_paths(&rt, rt.alloc(), tree.inner(), left);
    }
}

/// Staging names at and above a path, and one beside it.
const STAGED: &[u8] = b"tree-image 1
d / 0755 0 0 0,0,0,0 - -
d /.#tf-a 0755 0 0 0,0,0,0 - -
f /.#tf-a/x 0644 0 0 0,0,0,0 - -
f /.#tf-z 0644 0 0 0,0,0,0 - -
d /a 0755 0 0 0,0,0,0 - -
f /a/.#tf-b 0644 0 0 0,0,0,0 - -
f /a/.#tf-c 0644 0 0 0,0,0,0 - -
f /a/b 0644 0 0 0,0,0,0 - -
end
";

/// Step limits under which `/a/b` is swept in `STAGED`, whether all is done, and the paths that are left.
const SWEEPS: &[(u64, bool, &[u8])] = &[
    (1, false, b"/ /.#tf-a /.#tf-z /a /a/.#tf-b /a/.#tf-c /a/b "),
    (2, false, b"/ /.#tf-z /a /a/.#tf-b /a/.#tf-c /a/b "),
    (3, true, b"/ /.#tf-z /a /a/.#tf-c /a/b "),
];

#[test]
fn staging_names_are_swept_from_the_root(rt: HostRuntime) {
    let path = short_path_of(&rt, rt.alloc(), b"/a/b");
    for &(limit, is_done, left) in SWEEPS {
        let mut tree = Fused::new(tree_of(&rt, rt.alloc(), STAGED), Some(limit));
        let done = sweep(rt.alloc(), &mut tree, &path, NOW).is_ok();
        assert!(rt; done == is_done, "{limit}");
        expect_paths(&rt, rt.alloc(), tree.inner(), left);
    }
}

/// An image of these lines.
fn image_of(rt: &impl Abort, alloc: Global, lines: &[&[u8]]) -> Vec<u8> {
    let lines = lines.concat(alloc).expect(rt, "memory");
    [b"tree-image 2\n".as_slice(), &lines, b"end\n"]
        .concat(alloc)
        .expect(rt, "memory")
}

const ROOT: &[u8] = b"d / 0755 0 0 0,0,0,0 - - - -\n";

/// The root after a new name in it.
const TOUCHED: &[u8] = b"d / 0755 0 0 0,0,9,9 - - - -\n";

const FILE: &[u8] = b"f /.#tf-a 0644 0 0 1,1,1,1 - - - -\n";

const FULL: &[u8] = b"d /.#tf-a 0755 0 0 1,1,1,1 - - - -\nf /.#tf-a/z 0644 0 0 1,1,1,1 - - - -\n";

/// What is staged for `/a`, what is there before, the steps in which it is published, and the paths that are left.
const PUBLISHED: &[(&[u8], &[u8], u64, &[u8])] = &[
    (FILE, b"", 1, b"/ /a "),
    (FILE, b"f /a 0600 0 0 2,2,2,2 - - - -\n", 1, b"/ /a "),
    (
        FILE,
        b"d /a 0700 0 0 2,2,2,2 - - - -\nd /a/x 0700 0 0 2,2,2,2 - - - -\nf /a/x/y 0600 0 0 2,2,2,2 - - - -\n",
        4,
        b"/ /a ",
    ),
    (
        FULL,
        b"d /a 0700 0 0 2,2,2,2 - - - -\nf /a/x 0600 0 0 2,2,2,2 - - - -\n",
        2,
        b"/ /a /a/z ",
    ),
    (FULL, b"f /a 0600 0 0 2,2,2,2 - - - -\n", 2, b"/ /a /a/z "),
];

/// Publishes what is staged for `/a` in the tree of an image under a step limit. Returns the paths that are left if
/// all is done.
fn published(rt: &impl Abort, alloc: Global, image: &[u8], limit: u64) -> Option<Vec<u8>> {
    let mut tree = Fused::new(tree_of(rt, alloc, image), Some(limit));
    let path = short_path_of(rt, alloc, b"/a");
    let stage = staging_of(rt, alloc, &path);
    assert!(rt; tree.look(&stage).is_some());
    match publish(alloc, &mut tree, &path, NOW) {
        Ok(()) => Some(all_paths(rt, alloc, tree.inner())),
        Err(_) => None,
    }
}

#[test]
fn what_is_staged_comes_to_its_path(rt: HostRuntime) {
    for &(stage, old, steps, left) in PUBLISHED {
        let image = image_of(&rt, rt.alloc(), &[ROOT, stage, old]);
        let stopped = published(&rt, rt.alloc(), &image, steps.saturating_sub(1));
        assert!(rt; stopped.is_none(), "{steps}");
        let whole = published(&rt, rt.alloc(), &image, steps);
        let text = whole.expect(&rt, "published");
        assert!(rt; text.as_slice() == left, "{steps} {text:?}");
    }
}

/// A kind, a content or target, the numbers of a device, a mode, and the line of the object that is staged.
const NEW: &[(Kind, &[u8], u32, u32, u16, &[u8])] = &[
    (
        Kind::Directory,
        b"",
        0,
        0,
        0o1750,
        b"d /.#tf-x 1750 5 6 9,9,9,9 - - - -\n",
    ),
    (
        Kind::File,
        b"hi",
        0,
        0,
        0o4640,
        b"f /.#tf-x 4640 5 6 9,9,9,9 - - - aGk=\n",
    ),
    (
        Kind::Link,
        b"/t",
        0,
        0,
        0o600,
        b"l /.#tf-x 0777 5 6 9,9,9,9 - - - /t\n",
    ),
    (
        Kind::Fifo,
        b"",
        0,
        0,
        0o644,
        b"p /.#tf-x 0644 5 6 9,9,9,9 - - - -\n",
    ),
    (
        Kind::CharDevice,
        b"",
        5,
        1,
        0o666,
        b"c /.#tf-x 0666 5 6 9,9,9,9 - - - 5:1\n",
    ),
    (
        Kind::BlockDevice,
        b"",
        8,
        0,
        0o660,
        b"b /.#tf-x 0660 5 6 9,9,9,9 - - - 8:0\n",
    ),
];

/// What a new object is.
fn new_kind(
    rt: &impl Abort,
    alloc: Global,
    kind: Kind,
    payload: &[u8],
    major: u32,
    minor: u32,
) -> NewKind {
    let block = kind == Kind::BlockDevice;
    match kind {
        Kind::Directory => NewKind::Directory,
        Kind::File => NewKind::File(bytes_of(rt, alloc, payload)),
        Kind::Link => NewKind::Link(bytes_of(rt, alloc, payload)),
        Kind::Fifo => NewKind::Fifo,
        Kind::CharDevice | Kind::BlockDevice => NewKind::Device {
            block,
            major,
            minor,
        },
    }
}

/// Stops unless a target is one that a link may have.
fn expect_target(rt: &impl Abort, what: &NewKind)
    ensures { HasTarget what.now }
{
    if let NewKind::Link(target) = what {
        assert!(rt; is_target(target.as_slice()));
    }
}

/// A new object with an owner of its own.
fn new_file(rt: &impl Abort, what: NewKind, mode: u16) -> NewFile
    ensures { IsNewFile result }
{
    assert!(rt; mode <= 0o7777);
    expect_target(rt, &what);
    NewFile {
        what,
        mode,
        uid: 5,
        gid: 6,
    }
}

/// Stops unless the image of a tree has these lines.
fn expect_lines(rt: &impl Abort, alloc: Global, tree: &MemTree, lines: &[&[u8]]) {
    let image = write_image(alloc, tree, &Facts::new(alloc)).expect(rt, "memory");
    assert!(rt; image == image_of(rt, alloc, lines), "{image:?}");
}

/// The tree after a new object was staged for `/x` in an empty root.
fn staged(rt: &impl Abort, alloc: Global, what: NewKind, mode: u16) -> MemTree {
    let new = new_file(rt, what, mode);
    let mut tree = tree_of(rt, alloc, &image_of(rt, alloc, &[ROOT]));
    let path = short_path_of(rt, alloc, b"/x");
    expect_room(rt, alloc, &tree, &path);
    assert!(rt; stage_file(alloc, &mut tree, &path, &new, NOW).is_ok());
    tree
}

#[test]
fn objects_of_all_kinds_are_staged(rt: HostRuntime) {
    for &(kind, payload, major, minor, mode, line) in NEW {
        let what = new_kind(&rt, rt.alloc(), kind, payload, major, minor);
        let tree = staged(&rt, rt.alloc(), what, mode);
        expect_lines(&rt, rt.alloc(), &tree, &[TOUCHED, line]);
    }
}

/// Stages a copy of `/s` for `/x`, its top with what the source has.
fn stage_copy_of(rt: &impl Abort, alloc: Global, tree: &mut Fused<MemTree>) -> bool {
    let source = path_of(rt, alloc, b"/s");
    assert!(rt; tree.look(&source).is_some());
    let path = short_path_of(rt, alloc, b"/x");
    expect_room(rt, alloc, tree, &path);
    let top = TopNode {
        mode: None,
        uid: None,
        gid: None,
    };
    stage_copy(alloc, tree, &source, &path, &top, NOW).is_ok()
}

/// A directory of one owner with a file of another.
const SOURCE: &[u8] = b"d /s 0750 1 2 1,1,1,1 - - - -\nf /s/f 0640 3 4 1,1,1,1 - - - aGk=\n";

/// A copy of both under a staging name, before them.
const COPIED: &[u8] =
    b"d /.#tf-x 0750 1 2 9,9,9,9 - - - -\nf /.#tf-x/f 0640 3 4 9,9,9,9 - - - aGk=\nd /s 0750 1 2 1,1,1,1 - - - -\nf /s/f 0640 3 4 1,1,1,1 - - - aGk=\n";

/// The tree with `SOURCE`, under a step limit.
fn source_tree(rt: &impl Abort, alloc: Global, limit: Option<u64>) -> Fused<MemTree> {
    let image = image_of(rt, alloc, &[ROOT, SOURCE]);
    Fused::new(tree_of(rt, alloc, &image), limit)
}

#[test]
fn a_copy_is_staged_whole(rt: HostRuntime) {
    let mut tree = source_tree(&rt, rt.alloc(), None);
    assert!(rt; stage_copy_of(&rt, rt.alloc(), &mut tree));
    expect_lines(&rt, rt.alloc(), tree.inner(), &[TOUCHED, COPIED]);
}

/// Step limits, and the owner of the directory that is staged then, if it is there: mkdir, mknod, write, then the owner
/// and the mode of the file, then those of the directory.
const OWNERS: &[(u64, Option<u32>)] = &[
    (0, None),
    (1, Some(0)),
    (2, Some(0)),
    (3, Some(0)),
    (4, Some(0)),
    (5, Some(0)),
    (6, Some(1)),
    (7, Some(1)),
];

/// The owner of what is staged for `/x` when `SOURCE` is copied under a step limit, if it is there.
fn owner_under(rt: &impl Abort, alloc: Global, stage: &TreePath, limit: u64) -> Option<u32> {
    let mut tree = source_tree(rt, alloc, Some(limit));
    let done = stage_copy_of(rt, alloc, &mut tree);
    assert!(rt; done == (limit == 7), "{limit}");
    tree.look(stage).map(|node| node.uid)
}

#[test]
fn a_copied_directory_is_filled_before_it_is_given_away(rt: HostRuntime) {
    let stage = staging_of(&rt, rt.alloc(), &path_of(&rt, rt.alloc(), b"/x"));
    for &(limit, owner) in OWNERS {
        let found = owner_under(&rt, rt.alloc(), &stage, limit);
        assert!(rt; found == owner, "{limit}");
    }
}

/// Directories of another owner, a file and a link.
const OWNED: &[u8] = b"tree-image 1
d / 0755 0 0 0,0,0,0 - -
f /f 0644 0 0 0,0,0,0 - -
l /s 0777 0 0 0,0,0,0 - /u
d /u 0755 1000 0 0,0,0,0 - -
d /u/a 0755 1000 0 0,0,0,0 - -
end
";

/// Paths in that tree, the owner that is made there, and the answers.
const WALKS: &[(&[u8], u32, Walked)] = &[
    (b"/", 0, Walked::Present),
    (b"/u/a", 0, Walked::Present),
    (b"/n/m", 5, Walked::Absent(1)),
    (b"/u/x", 1000, Walked::Absent(2)),
    (b"/u/x", 0, Walked::Refused(2, Why::UnsafeOwner)),
    (b"/u/x/y", 1000, Walked::Refused(2, Why::UnsafeOwner)),
    (b"/f/x", 0, Walked::Refused(1, Why::NotDirectory)),
    (b"/s/x", 0, Walked::Refused(1, Why::Link)),
];

/// What a walk along a path finds.
fn walked(rt: &impl Abort, alloc: Global, tree: &MemTree, text: &[u8], made: u32) -> Walked {
    let path = path_of(rt, alloc, text);
    assert!(rt; path.len() < 4096);
    walk(alloc, tree, &path, made).expect(rt, "memory")
}

#[test]
fn walks_have_their_answers(rt: HostRuntime) {
    let tree = tree_of(&rt, rt.alloc(), OWNED);
    for &(text, made, wanted) in WALKS {
        let found = walked(&rt, rt.alloc(), &tree, text, made);
        assert!(rt; found == wanted, "{text:?}");
    }
}

/// A directory without metadata of its own.
const PLAIN: &[u8] = b"d /a 0755 0 0 0,0,0,0 - - - -\n";

/// An owner, an ACL and a mode that the directory gets, in how many steps, and its line after them.
const GIVEN: &[(u32, &[u8], u16, usize, &[u8])] = &[
    (0, b"-", 0o755, 0, PLAIN),
    (
        0,
        b"u:5:r--",
        0o755,
        1,
        b"d /a 0755 0 0 0,0,9,0 u:5:r-- - - -\n",
    ),
    (7, b"-", 0o700, 2, b"d /a 0700 7 0 0,0,9,0 - - - -\n"),
    (
        7,
        b"m::r--",
        0o700,
        3,
        b"d /a 0700 7 0 0,0,9,0 m::r-- - - -\n",
    ),
];

/// The tree after `PLAIN` was given an owner, an ACL and a mode.
fn given(rt: &impl Abort, alloc: Global, uid: u32, field: &[u8], mode: u16) -> MemTree {
    let mut tree = tree_of(rt, alloc, &image_of(rt, alloc, &[ROOT, PLAIN]));
    let path = path_of(rt, alloc, b"/a");
    let acl = acl_of(rt, alloc, mode, field);
    give_metadata(rt, alloc, &mut tree, &path, uid, acl);
    tree
}

#[test]
fn directories_get_the_metadata_that_they_lack(rt: HostRuntime) {
    for &(uid, field, mode, steps, line) in GIVEN {
        let tree = given(&rt, rt.alloc(), uid, field, mode);
        assert_eq!(rt; tree.step_count(), steps);
        expect_lines(&rt, rt.alloc(), &tree, &[ROOT, line]);
    }
}
