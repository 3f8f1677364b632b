//! Splits texts at a byte.
ghost use Rattle.std.specs.Prelude.{◌≡◌, ◌<◌, ◌≤◌, ◌==◌, [], ◌∷◌, not, length, MatchOption, IfSome};
ghost use Rattle.std.specs.List.{prefix_len, slice_split};
ghost use Rattle.pv_accounts.specs.Entries.{HasMore};

/// Splits a text at the first occurrence of a byte.
///
/// The answer is what is before this byte and what is after it, without the byte itself. It is `None` if the text
/// does not have the byte. For example, `cut(b"a:b:c", b':')` gives `a` and `b:c`. The call does not allocate.
pub fn cut(text: &[u8], byte: u8) -> Option<(&[u8], &[u8])>
    ensures parts { let pieces = slice_split (λ b. b == byte) text.now in
        MatchOption result (pieces ≡ text.now ∷ [])
        (λ parts. pieces ≡ parts.0.now ∷ slice_split (λ b. b == byte) parts.1.now) }
    ensures shorter { IfSome result (λ parts. length parts.1.now < length text.now) }
{
    let at = place_of(text, byte);
    if at < text.len() {
        Some((&text[..at], &text[at + 1..]))
    } else {
        None
    }
}

/// Returns the text itself if `byte` does not occur in it, otherwise `None`. The call does not allocate.
pub fn uncut(text: &[u8], byte: u8) -> Option<&[u8]>
    ensures { let pieces = slice_split (λ b. b == byte) text.now in
        MatchOption result (HasMore pieces) (λ whole. pieces ≡ whole.now ∷ []) }
{
    match cut(text, byte) {
        Some(_) => None,
        None => Some(text),
    }
}

/// Counts the bytes before the first occurrence of a byte.
fn place_of(text: &[u8], byte: u8) -> usize
    ensures place { result ≡ prefix_len (λ b. not (b == byte)) text.now }
    ensures within { result ≤ length text.now }
{
    text.iter().take_while(|b| **b != byte).count()
}
