//! Compares the objects at a path before and after a line.
ghost use Rattle.std.specs.Prelude.{◌≡◌, ◌&&◌, ◌==◌, Some};
ghost use Rattle.std.specs.Cmp.Lexicographic.{pointwise};
ghost use Rattle.std.specs.Option.{option_copied};
ghost use Rattle.pv_table.specs.Effects.{same_attr, same_object_state};
ghost use Rattle.pv_explain.specs.Acts.{act_between, object_state_in};
ghost use Rattle.pv_explain.specs.Comparing.{same_body, same_metadata};

use crate::explained::Act;
use pv_path::Bytes;
use pv_steps::{AttrList, LetterSet, Node, Stamps};
use pv_walk::{Body, Metadata, ObjectState};

/// Returns what a line does, for the objects at a path before and after it, or `None` if they are the same.
pub(crate) fn act_between(before: Option<&ObjectState>, after: Option<&ObjectState>) -> Option<Act>
    ensures { result ≡ act_between (option_copied before.entry) (option_copied after.entry) }
{
    match (before, after) {
        (None, None) => None,
        (None, Some(_)) => Some(Act::Makes),
        (Some(_), None) => Some(Act::Removes),
        (Some(old), Some(new)) => changed(old, new),
    }
}

/// Returns what a line does if there is an object before and after it, or `None` if both are the same.
fn changed(old: &ObjectState, new: &ObjectState) -> Option<Act>
    ensures { result ≡ act_between (Some old.now) (Some new.now) }
{
    if is_same(old, new) {
        None
    } else {
        Some(Act::Changes)
    }
}

/// Returns whether two objects are the same.
fn is_same(a: &ObjectState, b: &ObjectState) -> bool
    ensures { result ≡ same_object_state a.now b.now }
{
    is_same_body(&a.body, &b.body) && is_same_metadata(&a.metadata, &b.metadata)
}

/// Returns whether two objects have the same kind, payload and device numbers.
fn is_same_body(a: &Body, b: &Body) -> bool
    ensures { result ≡ same_body a.now b.now }
{
    a.kind == b.kind && a.payload.is_same(&b.payload) && a.major == b.major && a.minor == b.minor
}

/// Returns whether two objects have the same owners, mode, ACL, extended attributes and file attribute flags.
fn is_same_metadata(a: &Metadata, b: &Metadata) -> bool
    ensures { result ≡ same_metadata a.now b.now }
{
    has_same_owners(a, b)
        && a.acl == b.acl
        && are_same_attrs(&a.attrs, &b.attrs)
        && are_same_letters(a.letters, b.letters)
}

/// Returns whether two objects have the same owners and the same set-ID and sticky bits.
fn has_same_owners(a: &Metadata, b: &Metadata) -> bool
    ensures { result ≡ (a.now.uid == b.now.uid && a.now.gid == b.now.gid && a.now.special == b.now.special) }
{
    a.uid == b.uid && a.gid == b.gid && a.special == b.special
}

/// Returns whether extended attributes are the same.
fn are_same_attrs(a: &AttrList, b: &AttrList) -> bool
    ensures { result ≡ pointwise same_attr a.now b.now }
{
    a.is_same(b)
}

/// Returns whether file attribute flags are the same.
fn are_same_letters(a: LetterSet, b: LetterSet) -> bool
    ensures { result ≡ (a == b) }
{
    a.is_same(b)
}

/// Returns a node and its payload. The timestamps of the node are 0.
pub(crate) fn node_and_payload(object_state: ObjectState) -> (Node, Bytes)
    ensures { object_state_in result ≡ object_state }
{
    let ObjectState { body, metadata } = object_state;
    let node = Node {
        kind: body.kind,
        special: metadata.special,
        uid: metadata.uid,
        gid: metadata.gid,
        acl: metadata.acl,
        stamps: Stamps {
            access: 0,
            birth: 0,
            change: 0,
            modify: 0,
        },
        major: body.major,
        minor: body.minor,
        attrs: metadata.attrs,
        letters: metadata.letters,
    };
    (node, body.payload)
}
