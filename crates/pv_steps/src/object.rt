//! Objects of a tree: a node together with its payload.
ghost use Rattle.std.specs.Prelude.{◌≡◌, ◌↔◌, IsTrue, IfOk};
ghost use Rattle.pv_steps.specs.Objects.{fresh, IsTarget};

use crate::attr::{AttrList, has_no_nul};
use crate::letters::LetterSet;
use crate::node::{Kind, Node, Stamps, special_bits};
use pv_acl::Acl;
use pv_path::Bytes;
use std::alloc::{AllocError, Global};

/// An object of a tree: its node and its payload.
#[derive(Drop)]
pub struct Object {
    /// Kind, owner, permissions, timestamps and everything else besides the payload.
    pub node: Node,
    /// The bytes of a file, or the target of a link. For each other kind this is empty.
    pub payload: Bytes,
}

impl Object {
    /// Returns a new object that belongs to root (user 0 and group 0), with all four timestamps at `now`. The call does
    /// not allocate.
    ///
    /// The object has no extended attributes and no file attribute flags.
    ///
    /// - `mode`: the 12 bits of chmod(2), from which the special bits and the base entries of the ACL come. There
    ///   are no named entries.
    /// - `payload`: the bytes of a file, or the target of a link. For each other kind pass an empty list: a tree takes
    ///   no other. The call does not check this.
    /// - `major` and `minor`: the numbers of a device. For each other kind pass 0. The call does not check this.
    /// - `now`: microseconds since 1970-01-01 UTC.
    pub fn fresh(
        alloc: Global,
        kind: Kind,
        mode: u16,
        payload: Bytes,
        major: u32,
        minor: u32,
        now: u64,
    ) -> Object
        ensures { result ≡ fresh kind mode payload major minor now }
    {
        Object {
            node: Node {
                kind,
                special: special_bits(mode),
                uid: 0,
                gid: 0,
                acl: Acl::of_mode(alloc, mode),
                stamps: Stamps {
                    access: now,
                    birth: now,
                    change: now,
                    modify: now,
                },
                major,
                minor,
                attrs: AttrList::new(alloc),
                letters: LetterSet::new(),
            },
            payload,
        }
    }

    /// Copies the object. The only error is `AllocError`.
    pub fn copy(&self) -> Result<Object, AllocError>
        ensures { IfOk result (λ object. object ≡ self.now) }
    {
        Ok(Object {
            node: self.node.copy()?,
            payload: self.payload.copy()?,
        })
    }
}

/// Returns whether bytes can be the target of a symbolic link: 1 to 4095 bytes without NUL (symlink(7)). The call does
/// not allocate.
pub fn is_target(bytes: &[u8]) -> bool
    ensures { IsTrue result ↔ IsTarget bytes.now }
{
    let without_nul = has_no_nul(bytes);
    !bytes.is_empty() && bytes.len() <= 4095 && without_nul
}
