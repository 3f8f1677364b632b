//! The column of extended attributes (xattr(7)).
ghost use Rattle.std.specs.Prelude.{◌≡◌, [], ◌∷◌, map, IfOk};
ghost use Rattle.pv_path.specs.Printing.{printed_by};
ghost use Rattle.pv_steps.specs.Attributes.{all_before, comes_before};
ghost use Rattle.pv_image.specs.Spelling.{attr_text, attr_texts, attrs_text, is_plain_in_attr};
ghost use Rattle.pv_image.specs.Reading.{AreAttrs, IsAttr, IsByteText, Reads, texts};

use crate::payload::is_dash;
use crate::printed::read_printed_but;
use pv_path::{Bytes, pieces_of};
use pv_steps::{Attr, AttrList, is_attr};
use std::alloc::{AllocError, Global};

/// Reads the name or the value of an attribute.
fn read_part(alloc: Global, text: &[u8]) -> Result<Option<Bytes>, AllocError>
    ensures { IfOk result (Reads (printed_by is_plain_in_attr) IsByteText text.now) }
{
    read_printed_but(alloc, text, b",=")
}

/// Reads the attribute whose name and value two texts print.
fn attr_with(alloc: Global, name: &[u8], value: &[u8]) -> Result<Option<Attr>, AllocError>
    ensures { let texts = name.now ∷ value.now ∷ [] in
        IfOk result (Reads attr_texts IsAttr texts) }
{
    let Some(name) = read_part(alloc, name)? else {
        return Ok(None);
    };
    let Some(value) = read_part(alloc, value)? else {
        return Ok(None);
    };
    if !is_attr(name.as_slice(), value.as_slice()) {
        return Ok(None);
    }
    Ok(Some(Attr { name, value }))
}

/// Reads the attribute that the pieces of a text spell.
fn attr_of(alloc: Global, pieces: &[&[u8]]) -> Result<Option<Attr>, AllocError>
    ensures { IfOk result (Reads attr_texts IsAttr (texts pieces.now)) }
{
    match pieces {
        [name, value] => attr_with(alloc, name, value),
        _ => Ok(None),
    }
}

/// Reads the attribute that a text spells.
fn read_attr(alloc: Global, text: &[u8]) -> Result<Option<Attr>, AllocError>
    ensures { IfOk result (Reads attr_text IsAttr text.now) }
{
    let pieces = pieces_of(alloc, text, b'=')?;
    attr_of(alloc, pieces.as_slice())
}

/// Returns whether the name of an attribute comes before that of another.
fn is_before(x: &Attr, y: &Attr) -> bool
    ensures { result ≡ comes_before x.now y.now }
{
    x.name.as_slice().cmp(y.name.as_slice()).is_lt()
}

/// Returns whether the name of an attribute comes after all names of a list.
fn comes_last(attrs: &AttrList, attr: &Attr) -> bool
    ensures { result ≡ all_before attrs.now attr.now }
{
    match attrs.as_slice().last() {
        Some(last) => is_before(last, attr),
        None => true,
    }
}

/// Reads the attributes that texts spell, one each.
fn attrs_of(alloc: Global, pieces: &[&[u8]]) -> Result<Option<AttrList>, AllocError>
    ensures { IfOk result (Reads (map attr_text) AreAttrs (texts pieces.now)) }
{
    let mut attrs = AttrList::new(alloc);
    for piece in pieces {
        let Some(attr) = read_attr(alloc, piece)? else {
            return Ok(None);
        };
        if !comes_last(&attrs, &attr) {
            return Ok(None);
        }
        attrs.push(attr)?;
    }
    Ok(Some(attrs))
}

/// Reads the attributes that a text spells.
pub(crate) fn read_attrs(alloc: Global, text: &[u8]) -> Result<Option<AttrList>, AllocError>
    ensures { IfOk result (Reads attrs_text AreAttrs text.now) }
{
    if is_dash(text) {
        return Ok(Some(AttrList::new(alloc)));
    }
    let pieces = pieces_of(alloc, text, b',')?;
    attrs_of(alloc, pieces.as_slice())
}
