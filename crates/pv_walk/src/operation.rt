//! What lines of configuration ask of the object at one path.
use crate::object_state::ObjectState;
use pv_acl::{AclLine, How};
use pv_path::Bytes;
use pv_steps::{AttrList, Kind, LetterHow, LetterSet};

/// Which objects a change is for.
#[derive(Clone, Copy, PartialEq, Eq)]
pub enum Guard {
    /// Any object.
    Every,
    /// Any object except a symbolic link.
    NoLink,
    /// Objects of one kind.
    Only(Kind),
}

/// A change of a present object.
#[derive(Drop)]
pub enum Change {
    /// Replaces the bytes of a file. It does nothing to other objects.
    Write(Bytes),
    /// Appends bytes to a file. It does nothing to other objects.
    Append(Bytes),
    /// Sets the owner and the owning group, each if it is given.
    Owner { uid: Option<u32>, gid: Option<u32> },
    /// Sets the mode, the 12 bits of chmod(2). A masked mode (`~`) keeps only what the old base entries grant to
    /// somebody, and special bits only for a directory.
    Mode { mode: u16, masked: bool },
    /// Changes the ACL by the entries of a line (tmpfiles.d(5), types `a` and `A`).
    Entries { line: AclLine, how: How },
    /// Sets extended attributes of an object that is not a link. Each replaces one of the same name, and all others
    /// stay.
    Attrs(AttrList),
    /// Changes the file attribute flags of a file or a directory, as the operators of chattr(1) do.
    Letters { how: LetterHow, letters: LetterSet },
}

/// Which present objects stay if a new object is wanted: those of the same kind, with two more rules.
///
/// An object that does not stay is replaced.
#[derive(Clone, Copy, PartialEq, Eq)]
pub struct Test {
    /// If this is set, a link stays only with the new target, and a device only with the new numbers.
    pub exact: bool,
    /// If this is set, a directory stays, whatever is wanted.
    pub spares_directories: bool,
}

/// What a line of configuration asks of the object at one path.
#[derive(Drop)]
pub enum Operation {
    /// Makes this object if nothing is there. A present object stays.
    Make(ObjectState),
    /// Makes this object if nothing is there, or in place of an object that fails the test.
    Renew { test: Test, new: ObjectState },
    /// Removes the object.
    Erase,
    /// Changes a present object that the guard admits.
    Apply { guard: Guard, change: Change },
}
