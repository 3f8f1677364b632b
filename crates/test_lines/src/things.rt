//! Objects at their paths, and whether the walk along a path is refused among them (tmpfiles.d(5)).
use pv_path::{Name, TreePath};
use pv_steps::{Kind, Node};

/// An object at its path.
#[derive(Drop)]
pub(crate) struct Thing {
    pub(crate) path: TreePath,
    pub(crate) node: Node,
}

/// The object at the path of some names.
pub(crate) fn at<'a>(things: &'a [Thing], names: &[Name]) -> Option<&'a Node> {
    match things.iter().find(|thing| thing.path.names() == names) {
        Some(thing) => Some(&thing.node),
        None => None,
    }
}

/// Whether a component above the last one can be passed: it is absent or a directory.
fn is_passed(here: Option<&Node>) -> bool {
    match here {
        Some(node) => node.kind == Kind::Directory,
        None => true,
    }
}

fn owner_of(here: Option<&Node>, made: u32) -> u32 {
    match here {
        Some(node) => node.uid,
        None => made,
    }
}

/// Whether one component of a path is refused. It is above the last one and not a directory, or it lies in a directory
/// of a user other than root and belongs to another. `made` is the owner that it counts as if it is absent.
fn is_refused_at(things: &[Thing], up: &[Name], names: &[Name], last: bool, made: u32) -> bool {
    let here = at(things, names);
    let owner = owner_of(at(things, up), 0);
    let is_unsafe = owner != 0 && owner != owner_of(here, made);
    is_unsafe || !last && !is_passed(here)
}

/// Whether the walk along a path is refused; `made` is the owner of what a line would make there.
pub(crate) fn is_refused(things: &[Thing], names: &[Name], made: u32) -> bool {
    for count in 1..=names.len() {
        let last = count == names.len();
        let owner = if last { made } else { 0 };
        if is_refused_at(things, &names[..count - 1], &names[..count], last, owner) {
            return true;
        }
    }
    false
}
