//! Cuts texts at a byte. This does not allocate.
ghost use Rattle.std.specs.Prelude.{◌≡◌, ◌≤◌, ◌<◌, ◌==◌, true, take, length, IfNone, IfSome};
ghost use Rattle.std.specs.List.{slice_split};
ghost use Rattle.pv_text.specs.Lines.{lacks};
ghost use Rattle.pv_image.specs.Reading.{IsCutAt, texts};

use memchr::memchr;

/// Cuts a text at the first such byte: gives what is before it and what is after it, or `None` if the text does not
/// have this byte.
pub(crate) fn cut_at(text: &[u8], byte: u8) -> Option<(&[u8], &[u8])>
    ensures some { IfSome result (λ cut. IsCutAt byte text.now cut.0.now cut.1.now) }
    ensures none { IfNone result (lacks byte text.now ≡ true) }
{
    let at = memchr(byte, text)?;
    Some((&text[..at], &text[at + 1..]))
}

/// Splits a text at a byte, puts the pieces into the first items of `pieces`, and gives their number.
///
/// The answer is `None` if there are more pieces than `pieces` has items.
pub(crate) fn cut_into<'a>(text: &'a [u8], byte: u8, pieces: &mut [&'a [u8]]) -> Option<usize>
    ensures within { IfSome result (λ count. count ≤ length pieces.new) }
    ensures some { IfSome result (λ count. texts (take count pieces.new) ≡ slice_split (λ b. b == byte) text.now) }
    ensures none { IfNone result (length pieces.old < length (slice_split (λ b. b == byte) text.now)) }
{
    let mut rest = text;
    let mut count = 0;
    while count < pieces.len() {
        let Some((piece, after)) = cut_at(rest, byte) else {
            pieces[count] = rest;
            return Some(count + 1);
        };
        pieces[count] = piece;
        count += 1;
        rest = after;
    }
    None
}
