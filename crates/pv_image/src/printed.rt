//! Reads printed bytes.
ghost use Rattle.std.specs.Prelude.{◌≡◌, ◌<◌, ◌∷◌, [], IfOk, option_map};
ghost use Rattle.pv_path.specs.Printing.{hex_digit, is_plain_but, printed, printed_by};
ghost use Rattle.pv_image.specs.Reading.{IsByteText, IsEscaped, BeginsWithByte, Reads, byte_and_rest, hex_digits, printed_with_rest};

use pv_path::{Bytes, add_plain, is_plain};
use std::alloc::{AllocError, Global};

/// Returns the number that a lower case hexadecimal digit spells.
fn read_hex(byte: u8) -> Option<u8>
    ensures { Reads hex_digit (λ d. d < 16) byte result }
{
    match byte {
        b'0'..=b'9' => Some(byte - b'0'),
        b'a'..=b'f' => Some(byte - b'a' + 10),
        _ => None,
    }
}

/// Returns the byte that two hexadecimal digits spell, if it is one that has to be escaped.
fn read_escaped(high: u8, low: u8, hidden: &[u8]) -> Option<u8>
    ensures { Reads hex_digits (IsEscaped hidden.now) (high ∷ low ∷ []) result }
{
    let byte = read_hex(high)? * 16 + read_hex(low)?;
    if is_plain(byte, hidden) {
        return None;
    }
    Some(byte)
}

/// Returns the byte that a printed text begins with, and what is after it.
fn next_byte<'a>(text: &'a [u8], hidden: &[u8]) -> Option<(u8, &'a [u8])>
    ensures { Reads (printed_with_rest hidden.now) BeginsWithByte text.now (option_map byte_and_rest result) }
{
    match text {
        [b'\\', b'x', high, low, rest @ ..] => Some((read_escaped(*high, *low, hidden)?, rest)),
        [byte, rest @ ..] if is_plain(*byte, hidden) => Some((*byte, rest)),
        _ => None,
    }
}

/// Reads the bytes that a text prints, if the bytes of `hidden` have to be escaped too. Gives `None` if the text is
/// not a spelling.
pub(crate) fn read_printed_but(
    alloc: Global,
    text: &[u8],
    hidden: &[u8],
) -> Result<Option<Bytes>, AllocError>
    ensures { IfOk result (Reads (printed_by (is_plain_but hidden.now)) IsByteText text.now) }
{
    let mut bytes = Vec::with_capacity(alloc, text.len())?;
    let mut rest = text;
    while !rest.is_empty() {
        match next_byte(rest, hidden) {
            Some((byte, after)) => {
                bytes.push(byte)?;
                rest = add_plain(&mut bytes, after, hidden)?;
            }
            None => return Ok(None),
        }
    }
    Ok(Some(Bytes::from_vec(bytes)))
}

/// Reads the bytes that a text prints, or gives `None` if the text is not a spelling.
pub(crate) fn read_printed(alloc: Global, text: &[u8]) -> Result<Option<Bytes>, AllocError>
    ensures { IfOk result (Reads printed IsByteText text.now) }
{
    read_printed_but(alloc, text, b"")
}
