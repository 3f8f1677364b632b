//! Rows of ACLs that metadata gives.
ghost use Rattle.std.specs.Prelude.{◌≡◌, true};
ghost use Rattle.pv_acl.specs.Parts.{is_acl};

use crate::plain_tree::root_tree;
use crate::step_rows::{acl_of, is_kind};
use pv_acl::Acl;
use pv_path::TreePath;
use pv_steps::{AttrList, Kind, LetterSet};
use pv_tree::MemTree;
use pv_walk::{Metadata, set_metadata};
use std::alloc::Global;
use std::process::Abort;

/// Gives the directory at a path an owner, a mode and an ACL.
pub(crate) fn give_metadata(
    rt: &impl Abort,
    alloc: Global,
    tree: &mut MemTree,
    path: &TreePath,
    uid: u32,
    acl: Acl,
)
    requires { is_acl acl ≡ true }
{
    assert!(rt; is_kind(tree, path, Kind::Directory));
    assert!(rt; uid < u32::MAX);
    let new = Metadata {
        uid,
        gid: 0,
        special: 0,
        acl,
        attrs: AttrList::new(alloc),
        letters: LetterSet::new(),
    };
    assert!(rt; set_metadata(tree, path, &new, 9).is_ok());
}

/// A mode and an ACL that a root with the mode 0750 and the ACL `u:1000:rw-,m::r--` gets, and in how many steps.
const ACLS: &[(u16, &[u8], usize)] = &[
    (0o750, b"u:1000:rw-,m::r--", 0),
    (0o751, b"u:1000:rw-,m::r--", 1),
    (0o740, b"u:1000:rw-,m::r--", 1),
    (0o750, b"u:1000:rwx,m::r--", 1),
    (0o750, b"u:1000:rw-,m::r-x", 1),
    (0o750, b"u:1000:rw-", 1),
    (0o750, b"u:1000:rw-,m::r--,d:u::rwx,d:g::r-x,d:o::---", 1),
    (0o750, b"-", 1),
];

/// The number of steps in which such a root gets a mode and an ACL.
fn steps_to(rt: &impl Abort, alloc: Global, mode: u16, field: &[u8]) -> usize {
    let root = TreePath::root(alloc);
    let mut tree = root_tree(rt, alloc);
    let old = acl_of(rt, alloc, 0o750, b"u:1000:rw-,m::r--");
    give_metadata(rt, alloc, &mut tree, &root, 0, old);
    let before = tree.step_count();
    let new = acl_of(rt, alloc, mode, field);
    give_metadata(rt, alloc, &mut tree, &root, 0, new);
    tree.step_count().abs_diff(before)
}

#[test]
fn acls_are_compared_whole(rt: HostRuntime) {
    for &(mode, field, steps) in ACLS {
        assert_eq!(rt; steps_to(&rt, rt.alloc(), mode, field), steps);
    }
}
