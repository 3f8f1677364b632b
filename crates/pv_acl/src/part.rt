//! The parts of an ACL: base entries, named entries and mask (acl(5)), and the mode of an object with these parts.
ghost use Rattle.std.specs.Prelude.{◌≡◌, ◌≤◌, ◌/◌, ◌%◌, true, OnOk, OnErr, IfOk};
ghost use Rattle.pv_acl.specs.Parts.{part_mask, is_part, mode_of, with_mode, base_of, part_of_mode};
ghost use Rattle.pv_acl.specs.Parts.{acl_of_mode, is_acl, is_minimal};
ghost use Rattle.pv_acl.specs.Applying.{put_entry};

use crate::line::Entry;
use crate::list::NamedList;
use crate::perm::Perm;
use std::alloc::{AllocError, Global};

/// One part of an ACL (acl(5)): the base entries, the named entries, and the mask if there is one.
#[derive(Clone, Drop, PartialEq, Eq)]
pub struct Part {
    /// The permissions of the owner.
    pub owner: Perm,
    /// The permissions of the owning group.
    pub group: Perm,
    /// The permissions of all others.
    pub other: Perm,
    /// The explicit mask, if there is one. See `effective_mask`.
    pub mask: Option<Perm>,
    /// The permissions of further users and groups.
    pub named: NamedList,
}

/// An ACL (acl(5)): an access part, and perhaps a default part.
#[derive(Clone, Drop, PartialEq, Eq)]
pub struct Acl {
    /// The permissions on the object itself.
    pub access: Part,
    /// The part with which new objects in the directory begin. Only a directory has one.
    pub default_part: Option<Part>,
}

impl Part {
    /// Returns the part with the base entries of a mode (inode(7)), without named entries and mask.
    ///
    /// Only the 9 permission bits of `mode` count. For example, 0o750 gives `rwx`, `r-x` and `---`. The call does not
    /// allocate.
    pub fn of_mode(alloc: Global, mode: u16) -> Part
        ensures { result ≡ part_of_mode mode }
    {
        Part {
            owner: Perm::digit_of(mode / 64),
            group: Perm::digit_of(mode / 8),
            other: Perm::digit_of(mode),
            mask: None,
            named: NamedList::new(alloc),
        }
    }

    /// Returns a part with the same base entries, without named entries and mask. The call does not allocate.
    pub fn base(&self, alloc: Global) -> Part
        ensures { result ≡ base_of self.now }
    {
        Part {
            owner: self.owner,
            group: self.group,
            other: self.other,
            mask: None,
            named: NamedList::new(alloc),
        }
    }

    /// Sets the base entries to the 9 permission bits of a mode.
    ///
    /// Named entries and mask stay. With chmod(2), the group bits would change the mask instead, if there is one.
    pub fn set_base(&mut self, mode: u16)
        ensures { self.new ≡ with_mode mode self.old }
    {
        self.owner = Perm::digit_of(mode / 64);
        self.group = Perm::digit_of(mode / 8);
        self.other = Perm::digit_of(mode);
    }

    /// Returns the mode of an object with this access part, as the 12 bits of chmod(2).
    ///
    /// `special` has the special bits: 4 is set-user-ID, 2 is set-group-ID, 1 is sticky. The other 9 bits are the base
    /// entries. Even if there is a mask, the group bits are those of the owning group, and not the mask as in acl(5).
    pub fn mode(&self, special: u8) -> u16
        requires { special ≤ 7 }
        ensures value { result ≡ mode_of special self.now }
        ensures range { result ≤ 4095 }
    {
        512 * u16::from(special) + self.owner.times(64) + self.group.times(8) + self.other.times(1)
    }

    /// Sets one entry: it replaces the base entry, the mask, or the named entry for the same user or group.
    ///
    /// If there is no such entry yet, it is added. The only error is `AllocError`, and then the part is unchanged.
    pub fn put(&mut self, entry: Entry) -> Result<(), AllocError>
        ensures ok { OnOk result (self.new ≡ put_entry self.old entry) }
        ensures err { OnErr result (self.new ≡ self.old) }
    {
        match entry {
            Entry::Owner(perm) => self.owner = perm,
            Entry::Group(perm) => self.group = perm,
            Entry::Other(perm) => self.other = perm,
            Entry::Named(named) => self.named.put(named)?,
            Entry::Mask(perm) => self.mask = Some(perm),
        }
        Ok(())
    }

    /// Returns a copy of the part. The only error is `AllocError`.
    pub fn copy(&self) -> Result<Part, AllocError>
        ensures { IfOk result (λ copy. copy ≡ self.now) }
    {
        self.clone()
    }
}

impl Acl {
    /// Returns the ACL that a mode alone gives: its base entries, without named entries, mask and default part.
    ///
    /// Only the 9 permission bits of `mode` count. The call does not allocate.
    pub fn of_mode(alloc: Global, mode: u16) -> Acl
        ensures { result ≡ acl_of_mode mode }
    {
        Acl {
            access: Part::of_mode(alloc, mode),
            default_part: None,
        }
    }

    /// Returns whether the ACL says no more than a mode: it has no named entries, no explicit mask and no default
    /// part.
    pub fn is_minimal(&self) -> bool
        ensures { result ≡ is_minimal self.now }
    {
        self.access.named.is_empty() && self.access.mask.is_none() && self.default_part.is_none()
    }

    /// Returns a copy of the ACL. The only error is `AllocError`.
    pub fn copy(&self) -> Result<Acl, AllocError>
        ensures { IfOk result (λ copy. copy ≡ self.now) }
    {
        self.clone()
    }
}

/// Returns the mask that applies to a part (acl(5)).
///
/// It is the explicit mask if there is one. Otherwise it is the union of the permissions of the owning group and of
/// all named entries.
pub fn effective_mask(part: &Part) -> Perm
    ensures { result ≡ part_mask part.now }
{
    match part.mask {
        Some(mask) => mask,
        None => part
            .named
            .as_slice()
            .iter()
            .fold(part.group, |all, named| all.union(named.perm)),
    }
}
