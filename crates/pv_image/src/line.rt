//! Lines, and the lines of an image that do not hold a node.
ghost use Rattle.std.specs.Prelude.{◌≡◌, ◌↔◌, true, ◌∷◌, [], IsTrue, IfNone, IfSome, IfOk, codes};
ghost use Rattle.pv_path.specs.Printing.{printed};
ghost use Rattle.pv_image.specs.Spelling.{fact_text, fact_texts, header_text, end_text};
ghost use Rattle.pv_image.specs.Images.{IsByteFact, IsCut, is_note};
ghost use Rattle.pv_text.specs.Lines.{is_line};
ghost use Rattle.pv_text.specs.Facts.{is_fact_letter, is_fact_value};
ghost use Rattle.pv_image.specs.Reading.{IsFactValue, Reads, texts};

use crate::cut::cut_at;
use crate::printed::read_printed;
use crate::version::Version;
use pv_path::{Bytes, pieces_of};
use pv_text::FACT_LETTERS;
use std::alloc::{AllocError, Global};

/// Returns the first line of bytes without its line feed, and what is after it, or `None` if there is no line feed.
pub(crate) fn first_line(bytes: &[u8]) -> Option<(&[u8], &[u8])>
    ensures some { IfSome result (λ cut. IsCut bytes.now cut.0.now cut.1.now) }
    ensures none { IfNone result (is_line bytes.now ≡ true) }
{
    cut_at(bytes, b'\n')
}

/// Returns whether a line is a note, which reading skips.
pub(crate) fn is_note(text: &[u8]) -> bool
    ensures { result ≡ is_note text.now }
{
    text.starts_with(b": ")
}

/// Returns the header of a version, without its line feed.
pub(crate) fn header(version: Version) -> &'static [u8]
    ensures { result.now ≡ header_text version }
{
    match version {
        Version::One => b"tree-image 1",
        Version::Two => b"tree-image 2",
    }
}

/// Returns whether a line is the header of a version.
fn is_header(text: &[u8], version: Version) -> bool
    ensures { IsTrue result ↔ (text.now ≡ header_text version) }
{
    text == header(version)
}

/// Reads the version that a header names.
pub(crate) fn read_version(text: &[u8]) -> Option<Version>
    ensures { Reads header_text (λ _. Unit {0}) text.now result }
{
    if is_header(text, Version::One) {
        return Some(Version::One);
    }
    if is_header(text, Version::Two) {
        return Some(Version::Two);
    }
    None
}

/// Returns whether a line is the last line of an image.
pub(crate) fn is_end(text: &[u8]) -> bool
    ensures { IsTrue result ↔ (text.now ≡ end_text) }
{
    text == b"end".as_slice()
}

/// Reads the letter of a fact that a text spells.
fn read_letter(text: &[u8]) -> Option<u8>
    ensures { Reads (λ letter. letter ∷ []) (λ letter. is_fact_letter letter ≡ true) text.now result }
{
    match text {
        [letter] if FACT_LETTERS.contains(letter) => Some(*letter),
        _ => None,
    }
}

/// Returns whether a fact can have this value.
fn is_value(value: &[u8]) -> bool
    ensures { result ≡ is_fact_value value.now }
{
    !value.is_empty() && value.len() <= 255
}

/// Reads the value of a fact that a text prints.
fn read_value(alloc: Global, text: &[u8]) -> Result<Option<Bytes>, AllocError>
    ensures { IfOk result (Reads printed IsFactValue text.now) }
{
    let Some(value) = read_printed(alloc, text)? else {
        return Ok(None);
    };
    if !is_value(value.as_slice()) {
        return Ok(None);
    }
    Ok(Some(value))
}

fn is_fact_word(text: &[u8]) -> bool
    ensures { IsTrue result ↔ (text.now ≡ codes "fact") }
{
    text == b"fact".as_slice()
}

/// Reads the fact that three texts spell.
fn fact_with(
    alloc: Global,
    word: &[u8],
    letter: &[u8],
    value: &[u8],
) -> Result<Option<(u8, Bytes)>, AllocError>
    ensures { let texts = word.now ∷ letter.now ∷ value.now ∷ [] in
        IfOk result (Reads fact_texts IsByteFact texts) }
{
    if !is_fact_word(word) {
        return Ok(None);
    }
    let Some(letter) = read_letter(letter) else {
        return Ok(None);
    };
    let Some(value) = read_value(alloc, value)? else {
        return Ok(None);
    };
    Ok(Some((letter, value)))
}

/// Reads the fact that the pieces of a line spell.
fn fact_of(alloc: Global, pieces: &[&[u8]]) -> Result<Option<(u8, Bytes)>, AllocError>
    ensures { IfOk result (Reads fact_texts IsByteFact (texts pieces.now)) }
{
    match pieces {
        [word, letter, value] => fact_with(alloc, word, letter, value),
        _ => Ok(None),
    }
}

/// Reads the fact that a line spells.
pub(crate) fn read_fact(alloc: Global, text: &[u8]) -> Result<Option<(u8, Bytes)>, AllocError>
    ensures { IfOk result (Reads fact_text IsByteFact text.now) }
{
    let pieces = pieces_of(alloc, text, b' ')?;
    fact_of(alloc, pieces.as_slice())
}
