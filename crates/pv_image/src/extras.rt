//! The columns that only version 2 has: extended attributes and file attribute flags. What they may be depends on
//! the kind.
ghost use Rattle.std.specs.Prelude.{◌≡◌, [], ◌∷◌, IfOk};
ghost use Rattle.pv_steps.specs.declared.node.Kind.{Kind as KindValue};
ghost use Rattle.pv_steps.specs.Objects.{AttrsFit, LettersFit};
ghost use Rattle.pv_image.specs.Spelling.{IsExtras, attrs_text, extra_texts, letters_text};
ghost use Rattle.pv_image.specs.Reading.{Reads, texts};

use crate::attrs::read_attrs;
use crate::letters::read_letters;
use crate::payload::is_dash;
use crate::version::Version;
use pv_steps::{AttrList, Kind, LetterSet};
use std::alloc::{AllocError, Global};

/// The extended attributes and the file attribute flags of an object.
#[derive(Drop)]
pub struct Extras {
    /// The extended attributes (xattr(7)).
    pub attrs: AttrList,
    /// The file attribute flags (chattr(1)).
    pub letters: LetterSet,
}

/// Reads the empty list of attributes, which is spelled as a dash.
fn no_attrs(alloc: Global, text: &[u8]) -> Option<AttrList>
    ensures { Reads attrs_text (λ attrs. attrs ≡ []) text.now result }
{
    if is_dash(text) {
        Some(AttrList::new(alloc))
    } else {
        None
    }
}

/// Reads the attributes that a text spells for an object of a kind.
fn read_attrs_of(alloc: Global, kind: Kind, text: &[u8]) -> Result<Option<AttrList>, AllocError>
    ensures { IfOk result (Reads attrs_text (AttrsFit kind) text.now) }
{
    match kind {
        Kind::Link => Ok(no_attrs(alloc, text)),
        _ => read_attrs(alloc, text),
    }
}

/// Reads the empty set of flags, which is spelled as a dash.
fn no_letters(text: &[u8]) -> Option<LetterSet>
    ensures { Reads letters_text (λ letters. letters ≡ 0) text.now result }
{
    if is_dash(text) {
        Some(LetterSet::new())
    } else {
        None
    }
}

/// Reads the flags that a text spells for an object of a kind.
fn read_letters_of(alloc: Global, kind: Kind, text: &[u8]) -> Result<Option<LetterSet>, AllocError>
    ensures { IfOk result (Reads letters_text (LettersFit kind) text.now) }
{
    match kind {
        Kind::Directory | Kind::File => read_letters(alloc, text),
        _ => Ok(no_letters(text)),
    }
}

/// Reads the attributes and the flags that two texts spell for an object of a kind.
fn extras_with(
    alloc: Global,
    kind: Kind,
    attrs: &[u8],
    letters: &[u8],
) -> Result<Option<Extras>, AllocError>
    ensures { let texts = attrs.now ∷ letters.now ∷ [] in
        IfOk result (Reads (extra_texts Version.Two) (IsExtras Version.Two kind) texts) }
{
    let Some(attrs) = read_attrs_of(alloc, kind, attrs)? else {
        return Ok(None);
    };
    let Some(letters) = read_letters_of(alloc, kind, letters)? else {
        return Ok(None);
    };
    Ok(Some(Extras { attrs, letters }))
}

/// Reads the attributes and the flags that the columns of version 2 spell for an object of a kind.
fn extras_of(alloc: Global, kind: Kind, pieces: &[&[u8]]) -> Result<Option<Extras>, AllocError>
    ensures { IfOk result (Reads (extra_texts Version.Two) (IsExtras Version.Two kind) (texts pieces.now)) }
{
    match pieces {
        [attrs, letters] => extras_with(alloc, kind, attrs, letters),
        _ => Ok(None),
    }
}

/// Returns no attributes and no flags, as version 1 has no columns for them.
fn no_extras(alloc: Global, pieces: &[&[u8]]) -> Option<Extras>
    ensures { (kind : KindValue) → Reads (extra_texts Version.One) (IsExtras Version.One kind) (texts pieces.now) result }
{
    match pieces {
        [] => Some(Extras {
            attrs: AttrList::new(alloc),
            letters: LetterSet::new(),
        }),
        _ => None,
    }
}

/// Reads the attributes and the flags of an object of a kind from the columns that a version has for them.
pub(crate) fn read_extras(
    alloc: Global,
    version: Version,
    kind: Kind,
    pieces: &[&[u8]],
) -> Result<Option<Extras>, AllocError>
    ensures { IfOk result (Reads (extra_texts version) (IsExtras version kind) (texts pieces.now)) }
{
    match version {
        Version::One => Ok(no_extras(alloc, pieces)),
        Version::Two => extras_of(alloc, kind, pieces),
    }
}
