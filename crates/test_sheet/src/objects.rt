//! What rows are given: objects, their kinds, attributes and letters.
ghost use Rattle.std.specs.Prelude.{◌≡◌, IfOk};
ghost use Rattle.pv_steps.specs.Objects.{fresh};

use pv_path::Bytes;
use pv_steps::{Attr, AttrList, Kind, LetterSet, Node, Object, is_attr};
use std::alloc::{AllocError, Global};

/// A new object that root owns, with these bytes of a file or this target of a link.
pub fn plain_object(alloc: Global, kind: Kind, mode: u16, payload: Bytes, now: u64) -> Object
    ensures { result ≡ fresh kind mode payload 0 0 now }
{
    Object::fresh(alloc, kind, mode, payload, 0, 0, now)
}

/// The node of a new object that root owns.
pub fn plain_node(alloc: Global, kind: Kind, mode: u16) -> Node {
    let Object { node, payload: _ } = plain_object(alloc, kind, mode, Bytes::new(alloc), 0);
    node
}

/// The letter of a kind.
pub fn letter_of(kind: Kind) -> &'static str {
    match kind {
        Kind::Directory => "d",
        Kind::File => "f",
        Kind::Link => "l",
        Kind::Fifo => "p",
        Kind::CharDevice => "c",
        Kind::BlockDevice => "b",
    }
}

/// The kind of a letter; other letters are files.
pub fn kind_of(letter: &str) -> Kind {
    match letter {
        "d" => Kind::Directory,
        "l" => Kind::Link,
        "p" => Kind::Fifo,
        "c" => Kind::CharDevice,
        "b" => Kind::BlockDevice,
        _ => Kind::File,
    }
}

/// The attribute of a name and a value.
pub fn attr_of(alloc: Global, name: &[u8], value: &[u8]) -> Result<Attr, AllocError>
    ensures { IfOk result (λ attr. attr ≡ record { name = name.now; value = value.now }) }
{
    Ok(Attr {
        name: Bytes::copy_of(alloc, name)?,
        value: Bytes::copy_of(alloc, value)?,
    })
}

/// The list of some attributes, put in turn, of which those that are not allowed are left out.
pub fn attrs_of(alloc: Global, rows: &[(&[u8], &[u8])]) -> Result<AttrList, AllocError> {
    let mut attrs = AttrList::new(alloc);
    for (name, value) in rows {
        if is_attr(*name, *value) {
            attrs.put(attr_of(alloc, *name, *value)?)?;
        }
    }
    Ok(attrs)
}

/// The set of some letters, of which those that are none are left out.
pub fn letters_of(bytes: &[u8]) -> LetterSet {
    let mut letters = LetterSet::new();
    for byte in bytes {
        if let Some(one) = LetterSet::of(*byte) {
            letters = letters.union(one);
        }
    }
    letters
}
