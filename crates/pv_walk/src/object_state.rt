//! Objects without their timestamps: kind and content, and metadata.
ghost use Rattle.std.specs.Prelude.{◌≡◌, [], IfOk};
ghost use Rattle.pv_walk.specs.Nodes.{object_state_of};

use pv_acl::Acl;
use pv_path::Bytes;
use pv_steps::{AttrList, Kind, LetterSet, Node};
use std::alloc::{AllocError, Global};

/// The kind of an object and its content, target or device numbers.
#[derive(Drop)]
pub struct Body {
    /// The kind of the object.
    pub kind: Kind,
    /// The bytes of a file or the target of a link; empty for other kinds.
    pub payload: Bytes,
    /// The major number of a device; 0 for other kinds.
    pub major: u32,
    /// The minor number of a device; 0 for other kinds.
    pub minor: u32,
}

/// The metadata of an object: owner, owning group, mode, ACL, extended attributes and file attribute flags.
#[derive(Drop)]
pub struct Metadata {
    /// The user ID of the owner.
    pub uid: u32,
    /// The ID of the owning group.
    pub gid: u32,
    /// The special bits of the mode: 4 for set-user-ID, 2 for set-group-ID and 1 for the sticky bit, added up.
    pub special: u8,
    /// The ACL: the access part, whose base entries are the rest of the mode, and the default part of a directory
    /// (acl(5)).
    pub acl: Acl,
    /// The extended attributes (xattr(7)).
    pub attrs: AttrList,
    /// The file attribute flags (chattr(1)).
    pub letters: LetterSet,
}

/// An object without its timestamps.
#[derive(Drop)]
pub struct ObjectState {
    /// The kind, with the content, target or device numbers.
    pub body: Body,
    /// Owner, owning group, mode, ACL, extended attributes and file attribute flags.
    pub metadata: Metadata,
}

impl Body {
    /// Copies the body. The only error is `AllocError`.
    pub fn copy(&self) -> Result<Body, AllocError>
        ensures { IfOk result (λ body. body ≡ self.now) }
    {
        Ok(Body {
            payload: self.payload.copy()?,
            ..*self
        })
    }
}

impl Metadata {
    /// Copies the metadata of a node: all that it has besides kind, device numbers and timestamps (inode(7)). The only
    /// error is `AllocError`.
    pub fn of(node: &Node) -> Result<Metadata, AllocError>
        ensures { IfOk result (λ metadata. metadata ≡ (object_state_of (record { node = node.now; payload = [] })).metadata) }
    {
        Ok(Metadata {
            uid: node.uid,
            gid: node.gid,
            special: node.special,
            acl: node.acl.copy()?,
            attrs: node.attrs.copy()?,
            letters: node.letters,
        })
    }

    /// Copies the metadata. The only error is `AllocError`.
    pub fn copy(&self) -> Result<Metadata, AllocError>
        ensures { IfOk result (λ metadata. metadata ≡ self.now) }
    {
        Ok(Metadata {
            acl: self.acl.copy()?,
            attrs: self.attrs.copy()?,
            ..*self
        })
    }
}

impl ObjectState {
    /// Returns the object that has this node and this payload, without its timestamps. The only error is `AllocError`.
    pub fn of(alloc: Global, node: &Node, payload: &[u8]) -> Result<ObjectState, AllocError>
        ensures { IfOk result (λ object_state. object_state ≡ object_state_of (record { node = node.now; payload = payload.now })) }
    {
        Ok(ObjectState {
            body: Body {
                kind: node.kind,
                payload: Bytes::copy_of(alloc, payload)?,
                major: node.major,
                minor: node.minor,
            },
            metadata: Metadata::of(node)?,
        })
    }

    /// Copies the object. The only error is `AllocError`.
    pub fn copy(&self) -> Result<ObjectState, AllocError>
        ensures { IfOk result (λ object_state. object_state ≡ self.now) }
    {
        Ok(ObjectState {
            body: self.body.copy()?,
            metadata: self.metadata.copy()?,
        })
    }
}
