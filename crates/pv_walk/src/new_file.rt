//! New objects, as a caller asks for them.
ghost use Rattle.std.specs.Prelude.{◌≡◌, IfOk};
ghost use Rattle.pv_walk.specs.Nodes.{object_state_of};
ghost use Rattle.pv_walk.specs.Making.{new_metadata};
ghost use Rattle.pv_walk.specs.Staging.{new_kind, new_payload, new_major, new_minor, new_mode, new_object};

use crate::object_state::{Body, Metadata, ObjectState};
use pv_acl::Acl;
use pv_path::Bytes;
use pv_steps::{AttrList, Kind, LetterSet, special_bits};
use std::alloc::{AllocError, Global};

/// A new object of any kind, with its mode and its owners. It has neither named ACL entries, nor extended
/// attributes, nor file attribute flags.
#[derive(Drop)]
pub struct NewFile {
    /// The kind, with the content, target or device numbers.
    pub what: NewKind,
    /// The mode as the 12 bits of chmod(2), at most 07777. It is not used for a link, whose mode is always 0777.
    pub mode: u16,
    /// The user ID of the owner, at most 4294967294.
    pub uid: u32,
    /// The ID of the owning group, at most 4294967294.
    pub gid: u32,
}

/// The kind of a new object, with its content, target or device numbers.
#[derive(Clone, Drop)]
pub enum NewKind {
    /// An empty directory.
    Directory,
    /// A regular file with these bytes.
    File(Bytes),
    /// A symbolic link with this target.
    Link(Bytes),
    /// A named pipe.
    Fifo,
    /// A device with its major and minor number: a block device if `block`, otherwise a character device.
    Device { block: bool, major: u32, minor: u32 },
}

impl NewKind {
    /// Copies the value.
    pub(crate) fn copy(&self) -> Result<NewKind, AllocError>
        ensures { IfOk result (λ what. what ≡ self.now) }
    {
        self.clone()
    }

    /// Returns the kind of the new object.
    pub fn kind(&self) -> Kind
        ensures { result ≡ new_kind self.now }
    {
        match self {
            NewKind::Directory => Kind::Directory,
            NewKind::File(_) => Kind::File,
            NewKind::Link(_) => Kind::Link,
            NewKind::Fifo => Kind::Fifo,
            NewKind::Device { block: true, .. } => Kind::BlockDevice,
            NewKind::Device { block: false, .. } => Kind::CharDevice,
        }
    }

    /// Returns the bytes of a file or the target of a link; empty for other kinds.
    pub fn payload(&self) -> &[u8]
        ensures { result.now ≡ new_payload self.now }
    {
        match self {
            NewKind::File(content) => content.as_slice(),
            NewKind::Link(target) => target.as_slice(),
            _ => &[],
        }
    }

    /// Returns the major and the minor number of a device; both are 0 for other kinds.
    pub fn numbers(&self) -> (u32, u32)
        ensures major { result.0 ≡ new_major self.now }
        ensures minor { result.1 ≡ new_minor self.now }
    {
        match self {
            NewKind::Device { major, minor, .. } => (*major, *minor),
            _ => (0, 0),
        }
    }
}

/// Returns the new object as a tree will have it, without its timestamps. The only error is `AllocError`.
pub fn new_object_state(alloc: Global, new: &NewFile) -> Result<ObjectState, AllocError>
    ensures { IfOk result (λ object_state. object_state ≡ object_state_of (new_object new.now 0)) }
{
    let (major, minor) = new.what.numbers();
    Ok(ObjectState {
        body: Body {
            kind: new.what.kind(),
            payload: Bytes::copy_of(alloc, new.what.payload())?,
            major,
            minor,
        },
        metadata: metadata_of(alloc, new),
    })
}

/// Returns the metadata of a new object: an ACL with only the base entries of its mode, no extended attributes and no
/// flags.
pub(crate) fn metadata_of(alloc: Global, new: &NewFile) -> Metadata
    ensures { result ≡ new_metadata new.now }
{
    let mode = mode_of(&new.what, new.mode);
    Metadata {
        uid: new.uid,
        gid: new.gid,
        special: special_bits(mode),
        acl: Acl::of_mode(alloc, mode),
        attrs: AttrList::new(alloc),
        letters: LetterSet::new(),
    }
}

/// Returns the mode of a new object, which is always 0777 for a link.
fn mode_of(what: &NewKind, mode: u16) -> u16
    ensures { result ≡ new_mode what.now mode }
{
    match what {
        NewKind::Link(_) => 0o777,
        NewKind::Directory => mode,
        NewKind::File(_) => mode,
        NewKind::Fifo => mode,
        NewKind::Device { .. } => mode,
    }
}
