//! Reads nodes from their lines.
ghost use Rattle.std.specs.Prelude.{◌≡◌, ◌≤◌, Some, IfOk, option_map};
ghost use Rattle.pv_path.specs.Paths.{Path};
ghost use Rattle.pv_path.specs.Printing.{printed_path};
ghost use Rattle.pv_acl.specs.Texts.{acl_text};
ghost use Rattle.pv_image.specs.Spelling.{HasNames, IsEntry, columns, node_text};
ghost use Rattle.pv_image.specs.Nodes.{IsAclOf, IsPlain, all_columns, object_of, plain_columns, plain_texts};
ghost use Rattle.pv_image.specs.Reading.{Reads, texts};

use crate::column::{read_id, read_kind, read_mode, read_stamps};
use crate::cut::cut_into;
use crate::extras::{Extras, read_extras};
use crate::name::read_path;
use crate::payload::{Payload, is_dash, read_payload};
use crate::version::Version;
use pv_acl::{Acl, read_acl};
use pv_path::TreePath;
use pv_steps::{Kind, Node, Object, Stamps, special_bits};
use std::alloc::{AllocError, Global};

/// The number of columns of a node in version 2, which has the most.
const MOST_COLUMNS: usize = 10;

/// The texts of the columns of a node line.
#[derive(Clone, Copy)]
pub struct LineTexts<'a, 'b> {
    /// The kind of the object.
    pub kind: &'a [u8],
    /// The path of the object.
    pub path: &'a [u8],
    /// The mode, in octal.
    pub mode: &'a [u8],
    /// The user ID of the owner.
    pub uid: &'a [u8],
    /// The ID of the owning group.
    pub gid: &'a [u8],
    /// The four timestamps.
    pub stamps: &'a [u8],
    /// The ACL.
    pub acl: &'a [u8],
    /// The columns that only version 2 has. In version 1 the slice is empty.
    pub extras: &'a [&'b [u8]],
    /// The payload: the bytes of a file, the target of a link, or the numbers of a device.
    pub payload: &'a [u8],
}

/// The columns of a node that are read without an allocation: kind, mode, owner, owning group and timestamps.
#[derive(Clone, Copy)]
pub struct Plain {
    /// The kind of the object.
    pub kind: Kind,
    /// The mode: the 12 bits of chmod(2).
    pub mode: u16,
    /// The user ID of the owner, 0 to 4294967294.
    pub uid: u32,
    /// The ID of the owning group, 0 to 4294967294.
    pub gid: u32,
    /// The four timestamps, in microseconds since 1970-01-01 UTC.
    pub stamps: Stamps,
}

/// Reads the columns that are read without an allocation: kind, mode, owner, owning group and timestamps.
fn read_plain(line: &LineTexts<'_, '_>) -> Option<Plain>
    ensures { Reads plain_texts IsPlain (plain_columns line.now) result }
{
    Some(Plain {
        kind: read_kind(line.kind)?,
        mode: read_mode(line.mode)?,
        uid: read_id(line.uid)?,
        gid: read_id(line.gid)?,
        stamps: read_stamps(line.stamps)?,
    })
}

/// Reads the ACL of a link, which has no more than the mode 0777.
fn link_acl(alloc: Global, mode: u16, text: &[u8]) -> Option<Acl>
    requires { mode ≤ 4095 }
    ensures { Reads acl_text (IsAclOf Kind.Link mode) text.now result }
{
    if mode == 0o777 && is_dash(text) {
        Some(Acl::of_mode(alloc, mode))
    } else {
        None
    }
}

/// Reads the ACL that a text spells for an object of a kind with a mode.
fn read_acl_of(alloc: Global, kind: Kind, mode: u16, text: &[u8]) -> Result<Option<Acl>, AllocError>
    requires { mode ≤ 4095 }
    ensures { IfOk result (Reads acl_text (IsAclOf kind mode) text.now) }
{
    match kind {
        Kind::Link => Ok(link_acl(alloc, mode, text)),
        Kind::Directory => read_acl(alloc, text, mode, true),
        _ => read_acl(alloc, text, mode, false),
    }
}

/// Returns the object that has what the columns spell.
fn object_of(plain: Plain, acl: Acl, extras: Extras, payload: Payload) -> Object
    ensures { result ≡ object_of plain acl extras payload }
{
    let Extras { attrs, letters } = extras;
    let Payload {
        bytes,
        major,
        minor,
    } = payload;
    Object {
        node: Node {
            kind: plain.kind,
            special: special_bits(plain.mode),
            uid: plain.uid,
            gid: plain.gid,
            acl,
            stamps: plain.stamps,
            major,
            minor,
            attrs,
            letters,
        },
        payload: bytes,
    }
}

/// Reads the object of a line whose plain columns are already read.
fn object_with(
    alloc: Global,
    version: Version,
    plain: Plain,
    line: &LineTexts<'_, '_>,
) -> Result<Option<Object>, AllocError>
    requires mode { plain.mode ≤ 4095 }
    requires plain { Reads plain_texts IsPlain (plain_columns line.now) (Some plain) }
    ensures { (names : Path) → Reads printed_path HasNames line.now.path.now (Some names) →
        IfOk result (λ object. Reads (columns version) (IsEntry version) (all_columns line.now) (option_map (λ o. (names, o)) object)) }
{
    let Some(acl) = read_acl_of(alloc, plain.kind, plain.mode, line.acl)? else {
        return Ok(None);
    };
    let Some(extras) = read_extras(alloc, version, plain.kind, line.extras)? else {
        return Ok(None);
    };
    let Some(payload) = read_payload(alloc, plain.kind, line.payload)? else {
        return Ok(None);
    };
    Ok(Some(object_of(plain, acl, extras, payload)))
}

/// Reads the path and the object that the columns of a line spell.
fn entry_with(
    alloc: Global,
    version: Version,
    line: &LineTexts<'_, '_>,
) -> Result<Option<(TreePath, Object)>, AllocError>
    ensures { IfOk result (Reads (columns version) (IsEntry version) (all_columns line.now)) }
{
    let Some(plain) = read_plain(line) else {
        return Ok(None);
    };
    let Some(path) = read_path(alloc, line.path)? else {
        return Ok(None);
    };
    let Some(object) = object_with(alloc, version, plain, line)? else {
        return Ok(None);
    };
    Ok(Some((path, object)))
}

/// Reads the path and the object that the pieces of a line spell in a version.
fn entry_of(
    alloc: Global,
    version: Version,
    pieces: &[&[u8]],
) -> Result<Option<(TreePath, Object)>, AllocError>
    ensures { IfOk result (Reads (columns version) (IsEntry version) (texts pieces.now)) }
{
    match pieces {
        [
            kind,
            path,
            mode,
            uid,
            gid,
            stamps,
            acl,
            extras @ ..,
            payload,
        ] => {
            let line = LineTexts {
                kind,
                path,
                mode,
                uid,
                gid,
                stamps,
                acl,
                extras,
                payload,
            };
            entry_with(alloc, version, &line)
        }
        _ => Ok(None),
    }
}

/// Reads the path and the object that a line spells in a version.
pub(crate) fn read_node(
    alloc: Global,
    version: Version,
    text: &[u8],
) -> Result<Option<(TreePath, Object)>, AllocError>
    ensures { IfOk result (Reads (node_text version) (IsEntry version) text.now) }
{
    let mut pieces = [text; MOST_COLUMNS];
    match cut_into(text, b' ', &mut pieces) {
        Some(count) => entry_of(alloc, version, &pieces[..count]),
        None => Ok(None),
    }
}
