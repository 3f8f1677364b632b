//! The owners of the objects at the paths of requests.
use pv_path::Sequence;

/// The owner and the owning group of an object (inode(7)).
#[derive(Clone, Copy, PartialEq, Eq)]
pub struct PathId {
    /// The UID of the owner.
    pub uid: u32,
    /// The GID of the owning group.
    pub gid: u32,
}

/// For each request in order, the owners of the object at its path.
///
/// An item is `None` if the request has no path, if the path is absent, or if it is not safe to walk. In contracts, a
/// value is the list of these items.
pub type PathIds = Sequence<Option<PathId>>;
