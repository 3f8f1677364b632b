//! Nodes: everything that a tree keeps of an object besides its payload.
ghost use Rattle.std.specs.Prelude.{◌≡◌, IfOk};
ghost use Rattle.pv_acl.specs.Parts.{special_of};
ghost use Rattle.pv_steps.specs.Objects.{is_directory};

use crate::attr::AttrList;
use crate::letters::LetterSet;
use pv_acl::Acl;
use std::alloc::AllocError;

/// The file type of an object (inode(7)). There are no sockets.
#[derive(Clone, Copy, Debug, PartialEq, Eq)]
pub enum Kind {
    /// A directory.
    Directory,
    /// A regular file.
    File,
    /// A symbolic link.
    Link,
    /// A named pipe.
    Fifo,
    /// A character device.
    CharDevice,
    /// A block device.
    BlockDevice,
}

impl Kind {
    /// Returns whether the kind is `Directory`. The call does not allocate.
    pub fn is_directory(self) -> bool
        ensures { result ≡ is_directory self }
    {
        matches!(self, Kind::Directory)
    }
}

/// Returns the special bits of a mode: 4 for set-user-ID, 2 for set-group-ID and 1 for the sticky bit, added up
/// (inode(7)).
///
/// `mode` is the 12 bits of chmod(2). For example, `special_bits(0o4755)` is 4.
pub fn special_bits(mode: u16) -> u8
    ensures { result ≡ special_of mode }
{
    (mode / 512) as u8
}

/// The four timestamps of an object, each in microseconds since 1970-01-01 UTC (inode(7)).
#[derive(Clone, Copy)]
pub struct Stamps {
    /// The time of the last access (atime).
    pub access: u64,
    /// The time at which the object was made (btime).
    pub birth: u64,
    /// The time of the last change of the object, its metadata included (ctime).
    pub change: u64,
    /// The time of the last change of the content (mtime).
    pub modify: u64,
}

/// Everything that a tree keeps of an object besides its payload (inode(7)).
#[derive(Drop)]
pub struct Node {
    /// The file type.
    pub kind: Kind,
    /// The special bits: 4 for set-user-ID, 2 for set-group-ID and 1 for the sticky bit, added up. The other bits
    /// of the mode are in `acl`.
    pub special: u8,
    /// The file attribute flags, which only files and directories have (chattr(1)).
    pub letters: LetterSet,
    /// The user ID of the owner.
    pub uid: u32,
    /// The ID of the owning group.
    pub gid: u32,
    /// The major number of a device; 0 for other kinds.
    pub major: u32,
    /// The minor number of a device; 0 for other kinds.
    pub minor: u32,
    /// The permissions: the base entries of the mode with all named entries, the mask and the default ACL (acl(5)).
    pub acl: Acl,
    /// The extended attributes (xattr(7)). A symbolic link has none.
    pub attrs: AttrList,
    /// The four timestamps.
    pub stamps: Stamps,
}

impl Node {
    /// Copies the node. The only error is `AllocError`.
    pub fn copy(&self) -> Result<Node, AllocError>
        ensures { IfOk result (λ node. node ≡ self.now) }
    {
        Ok(Node {
            acl: self.acl.copy()?,
            attrs: self.attrs.copy()?,
            ..*self
        })
    }
}
