//! Splits the content of a file into lines.
ghost use Rattle.std.specs.Prelude.{◌≡◌, ◌==◌, ◌<◌, ◌≤◌, ◌∷◌, length};
ghost use Rattle.std.specs.List.{position_or_len};
ghost use Rattle.pv_read_config.specs.Configuration.{is_skipped, lines_in};

use pv_text::is_blank;

/// Returns whether a line is skipped: it is a comment, or has only blanks.
pub(crate) fn is_skipped(line: &[u8]) -> bool
    ensures { result ≡ is_skipped line.now }
{
    for byte in line {
        if !is_blank(*byte) {
            return *byte == b'#';
        }
    }
    true
}

/// Returns the index of the first line feed, or the length of the text if there is none.
fn line_end(text: &[u8]) -> usize
    ensures value { result ≡ position_or_len (λ b. b == 10) text.now }
    ensures within { result ≤ length text.now }
{
    text.iter().take_while(|byte| **byte != b'\n').count()
}

/// Splits a content into its first line and what follows the line feed.
pub(crate) fn first_line(text: &[u8]) -> (&[u8], &[u8])
    requires { 0 < length text.now }
    ensures cut { lines_in text.now ≡ result.0.now ∷ lines_in result.1.now }
    ensures shorter { length result.1.now < length text.now }
{
    let end = line_end(text);
    if end == text.len() {
        (text, b"")
    } else {
        (&text[..end], &text[end + 1..])
    }
}
