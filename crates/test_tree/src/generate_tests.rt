//! Worked lines and trees of generated runs.
use crate::step_rows::path_of;
use pv_generate::{generated_tree, node_count};
use pv_steps::Kind;
use pv_tree::MemTree;
use std::alloc::Global;
use std::process::Abort;

/// The first lines of the seed 1, of which each form is one.
const LINES: &str = "d /data/g6/d0 0700 0 0\n\
    Z /data/g6 ~0755\n\
    d /data/g1/d2 0700 0 0\n\
    w /data/g3/e1* - - - - new\n\
    f /data/g3/f4 0600 0 0 - text\n\
    Z /data/g3 ~0755\n\
    z /data/g2/e? 0640\n\
    Z /data/g3 ~0755\n\
    L /data/g4/l8 - - - - /data\n\
    a+ /data/g6/e* - - - - u:1:r\n\
    Z /data/g5 ~0755\n\
    f+ /data/g7/e11 - - - - more\n";

/// Paths of the tree of the seed 1 and 11 lines, with the kind and the bytes of the object there.
const NODES: &[(&str, Kind, &str)] = &[
    ("/", Kind::Directory, ""),
    ("/etc", Kind::Directory, ""),
    ("/etc/tmpfiles.d", Kind::Directory, ""),
    ("/data", Kind::Directory, ""),
    ("/data/g0", Kind::Directory, ""),
    ("/data/g7", Kind::Directory, ""),
    ("/data/g0/e0", Kind::File, "old"),
    ("/data/g0/e8", Kind::File, "old"),
    ("/data/g2/e10", Kind::File, "old"),
];

/// The tree of the seed 1 and so many lines.
fn tree_of(rt: &impl Abort, alloc: Global, lines: u32) -> MemTree {
    generated_tree(alloc, 1, lines).expect(rt, "memory")
}

/// The number of objects in a tree.
fn count_of(rt: &impl Abort, alloc: Global, tree: &MemTree) -> u64 {
    node_count(alloc, tree).expect(rt, "memory")
}

/// Whether an object of this kind with these bytes stands at a path.
fn stands_at(
    rt: &impl Abort,
    alloc: Global,
    tree: &MemTree,
    text: &str,
    kind: Kind,
    bytes: &str,
) -> bool {
    let path = path_of(rt, alloc, text.as_bytes());
    let found = tree.node_at(&path).map(|node| node.kind);
    found == Some(kind) && tree.payload_at(&path) == Some(bytes.as_bytes())
}

#[test]
fn puts_each_node(rt: HostRuntime) {
    let tree = tree_of(&rt, rt.alloc(), 11);
    assert!(rt; count_of(&rt, rt.alloc(), &tree) == 24);
    for &(text, kind, bytes) in NODES {
        assert!(rt;
            stands_at(&rt, rt.alloc(), &tree, text, kind, bytes),
            "at {text}"
        );
    }
}

#[test]
fn writes_one_configuration(rt: HostRuntime) {
    let tree = tree_of(&rt, rt.alloc(), 12);
    let path = path_of(&rt, rt.alloc(), b"/etc/tmpfiles.d/gen.conf");
    assert!(rt; tree.payload_at(&path) == Some(LINES.as_bytes()));
}

#[test]
fn puts_fewer_nodes(rt: HostRuntime) {
    let tree = tree_of(&rt, rt.alloc(), 3);
    assert!(rt; count_of(&rt, rt.alloc(), &tree) == 16);
}
