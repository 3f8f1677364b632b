//! The ACL entries of a configuration line (tmpfiles.d(5), types `a` and `A`).
ghost use Rattle.std.specs.Prelude.{◌≡◌, IfOk};

use crate::perm::{Named, Perm};
use pv_path::Sequence;
use std::alloc::AllocError;

/// One entry of a configuration line: a base entry, a named entry or the mask (acl(5)).
#[derive(Clone, Copy, PartialEq, Eq)]
pub enum Entry {
    /// The permissions of the owner.
    Owner(Perm),
    /// The permissions of the owning group.
    Group(Perm),
    /// The permissions of all others.
    Other(Perm),
    /// The permissions of one more user or group.
    Named(Named),
    /// The mask: the most that the owning group and the named entries are granted.
    Mask(Perm),
}

/// The entries of a configuration line, in the order in which they are written.
pub type EntryList = Sequence<Entry>;

/// The entries of a configuration line: a list for the access part, and a list for the default part.
#[derive(Clone, Drop)]
pub struct AclLine {
    /// The entries without `default:`, for the object itself.
    pub access: EntryList,
    /// The entries with `default:`, for new objects in a directory.
    pub default_part: EntryList,
}

impl AclLine {
    /// Returns a copy of the line. The only error is `AllocError`.
    pub fn copy(&self) -> Result<AclLine, AllocError>
        ensures { IfOk result (λ line. line ≡ self.now) }
    {
        self.clone()
    }
}

/// What happens to the old named entries and the old mask of a part for which a line has entries.
#[derive(Clone, Copy, PartialEq, Eq)]
pub enum How {
    /// They are removed, so that only those of the line remain (type `a`).
    Replace,
    /// They stay, unless the line has an entry for the same user or group, or a mask (type `a+`).
    Add,
}
