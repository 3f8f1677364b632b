//! The last column of a node: the bytes of a file, the target of a link, or the numbers of a device.
ghost use Rattle.std.specs.Prelude.{◌≡◌, ◌↔◌, [], codes, IsTrue, IfOk, option_map};
ghost use Rattle.base64.specs.GeneralPurpose.{encode_of};
ghost use Rattle.base64.specs.Engines.{standard};
ghost use Rattle.pv_path.specs.Printing.{printed};
ghost use Rattle.pv_image.specs.Spelling.{IsPayload, content_text, number_texts, numbers_text, payload_text};
ghost use Rattle.pv_image.specs.Reading.{AreNumbers, IsByteTarget, IsByteText, Reads, of_bytes, of_numbers, texts};

use crate::column::read_up_to;
use crate::printed::read_printed;
use base64::DecodeAllocError;
use base64::engine::general_purpose::STANDARD;
use pv_path::{Bytes, pieces_of};
use pv_steps::{Kind, is_target};
use std::alloc::{AllocError, Global};

/// What the last column of a node spells: the bytes of a file, the target of a link, or the numbers of a device.
#[derive(Drop)]
pub struct Payload {
    /// The bytes of a file or the target of a link; empty for other kinds.
    pub bytes: Bytes,
    /// The major number of a device; 0 for other kinds.
    pub major: u32,
    /// The minor number of a device; 0 for other kinds.
    pub minor: u32,
}

/// Decodes the Base64 of a text.
fn decode(alloc: Global, text: &[u8]) -> Result<Option<Bytes>, AllocError>
    ensures { IfOk result (Reads (encode_of standard) IsByteText text.now) }
{
    match STANDARD.decode(alloc, text) {
        Ok(bytes) => Ok(Some(Bytes::from_vec(bytes))),
        Err(DecodeAllocError::OutOfMemory) => Err(AllocError),
        Err(DecodeAllocError::DecodeError(_)) => Ok(None),
    }
}

/// Returns whether a text is a single dash.
pub(crate) fn is_dash(text: &[u8]) -> bool
    ensures { IsTrue result ↔ (text.now ≡ codes "-") }
{
    matches!(text, [b'-'])
}

/// Reads the bytes of a file that a text spells.
fn read_content(alloc: Global, text: &[u8]) -> Result<Option<Bytes>, AllocError>
    ensures { IfOk result (Reads content_text IsByteText text.now) }
{
    if text.is_empty() {
        return Ok(None);
    }
    if is_dash(text) {
        return Ok(Some(Bytes::new(alloc)));
    }
    decode(alloc, text)
}

/// Reads the target of a link that a text prints.
fn read_target(alloc: Global, text: &[u8]) -> Result<Option<Bytes>, AllocError>
    ensures { IfOk result (Reads printed IsByteTarget text.now) }
{
    let Some(bytes) = read_printed(alloc, text)? else {
        return Ok(None);
    };
    if !is_target(bytes.as_slice()) {
        return Ok(None);
    }
    Ok(Some(bytes))
}

/// Reads the two numbers that texts spell.
fn numbers_of(pieces: &[&[u8]]) -> Option<(u32, u32)>
    ensures { Reads number_texts AreNumbers (texts pieces.now) result }
{
    match pieces {
        [major, minor] => Some((read_up_to(u32::MAX, major)?, read_up_to(u32::MAX, minor)?)),
        _ => None,
    }
}

/// Reads the numbers of a device that a text spells.
fn read_numbers(alloc: Global, text: &[u8]) -> Result<Option<(u32, u32)>, AllocError>
    ensures { IfOk result (Reads numbers_text AreNumbers text.now) }
{
    let pieces = pieces_of(alloc, text, b':')?;
    Ok(numbers_of(pieces.as_slice()))
}

fn of_bytes(bytes: Option<Bytes>) -> Option<Payload>
    ensures { result ≡ option_map of_bytes bytes }
{
    Some(Payload {
        bytes: bytes?,
        major: 0,
        minor: 0,
    })
}

fn of_numbers(alloc: Global, numbers: Option<(u32, u32)>) -> Option<Payload>
    ensures { result ≡ option_map of_numbers numbers }
{
    let (major, minor) = numbers?;
    Some(Payload {
        bytes: Bytes::new(alloc),
        major,
        minor,
    })
}

/// Reads a dash as no bytes.
fn read_nothing(alloc: Global, text: &[u8]) -> Option<Bytes>
    ensures { Reads (λ _. codes "-") (λ bytes. bytes ≡ []) text.now result }
{
    if is_dash(text) {
        Some(Bytes::new(alloc))
    } else {
        None
    }
}

/// Reads the payload that a text spells for an object of a kind.
pub(crate) fn read_payload(
    alloc: Global,
    kind: Kind,
    text: &[u8],
) -> Result<Option<Payload>, AllocError>
    ensures { IfOk result (Reads (payload_text kind) (IsPayload kind) text.now) }
{
    match kind {
        Kind::File => Ok(of_bytes(read_content(alloc, text)?)),
        Kind::Link => Ok(of_bytes(read_target(alloc, text)?)),
        Kind::CharDevice | Kind::BlockDevice => Ok(of_numbers(alloc, read_numbers(alloc, text)?)),
        Kind::Directory | Kind::Fifo => Ok(of_bytes(read_nothing(alloc, text))),
    }
}
