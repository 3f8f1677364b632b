//! Steps: the atomic changes of a tree, each of which does what one system call does.
ghost use Rattle.std.specs.Prelude.{◌≡◌, IfOk};

use crate::attr::AttrList;
use crate::letters::LetterSet;
use pv_acl::Acl;
use pv_path::{Bytes, TreePath};
use std::alloc::AllocError;

/// One atomic change of a tree, as one system call makes it.
///
/// The definition `Can` says when a step is possible, and `after` says what it leaves (both in specs/Steps.antt). No
/// step follows a link. Each step sets the change timestamp of the objects that it changes.
///
/// A step that makes an object, removes one or moves one also sets the modification and change timestamps of the
/// directories that gain or lose a name.
#[derive(Clone, Drop)]
pub enum Step {
    /// Makes an empty directory with mode 0700 that belongs to root, at an absent path in a directory (mkdir(2)).
    MakeDir {
        path: TreePath,
    },
    /// Makes an empty file with mode 0600 that belongs to root, at an absent path in a directory (mknod(2)).
    MakeFile {
        path: TreePath,
    },
    /// Makes a named pipe with mode 0600 that belongs to root, at an absent path in a directory (mknod(2)).
    MakeFifo {
        path: TreePath,
    },
    /// Makes a device with mode 0600 that belongs to root, at an absent path in a directory (mknod(2)): a block
    /// device if `block`, otherwise a character device.
    MakeDevice {
        path: TreePath,
        block: bool,
        major: u32,
        minor: u32,
    },
    /// Makes a symbolic link that belongs to root, at an absent path in a directory (symlink(2)). The target has 1
    /// to 4095 bytes without NUL.
    MakeLink {
        path: TreePath,
        target: Bytes,
    },
    /// Replaces the bytes of the file at a path.
    Write {
        path: TreePath,
        content: Bytes,
    },
    /// Sets the special bits and the base entries of the ACL of an object that is not a link. `mode` is the 12 bits
    /// of chmod(2).
    ///
    /// Named entries, the mask and the default ACL stay as they are. In this the step differs from chmod(2), which
    /// changes the mask.
    SetMode {
        path: TreePath,
        mode: u16,
    },
    /// Sets the user ID and the group ID of the object at a path (lchown(2)). Both are at most 4294967294.
    SetOwner {
        path: TreePath,
        uid: u32,
        gid: u32,
    },
    /// Replaces the whole ACL of an object that is not a link. Only a directory can have a default ACL (acl(5)).
    SetAcl {
        path: TreePath,
        acl: Acl,
    },
    /// Replaces all extended attributes of an object that is not a link (setxattr(2)).
    SetAttrs {
        path: TreePath,
        attrs: AttrList,
    },
    /// Replaces all file attribute flags of a file or a directory (chattr(1)).
    SetLetters {
        path: TreePath,
        letters: LetterSet,
    },
    /// Sets the timestamps of the last access and of the last modification, in microseconds since 1970-01-01 UTC
    /// (utimensat(2)).
    SetStamps {
        path: TreePath,
        access: u64,
        modify: u64,
    },
    /// Moves the object at `from`, with everything below it, to `to` (rename(2)).
    ///
    /// `from` is present and not the root, `to` is not at or below `from`, and the parent of `to` is a directory. A
    /// directory may replace an empty directory, and any other object may replace one that is not a directory.
    Rename {
        from: TreePath,
        to: TreePath,
    },
    /// Removes the object at a path, which must not be a directory (unlink(2)).
    Unlink {
        path: TreePath,
    },
    /// Removes the empty directory at a path, which must not be the root (rmdir(2)).
    RemoveDir {
        path: TreePath,
    },
}

impl Step {
    /// Copies the step. The only error is `AllocError`.
    pub fn copy(&self) -> Result<Step, AllocError>
        ensures { IfOk result (λ step. step ≡ self.now) }
    {
        self.clone()
    }
}
