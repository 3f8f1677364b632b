//! Splits a text at each occurrence of a byte.
ghost use Rattle.std.specs.Prelude.{◌≡◌, ◌==◌, map, IfOk};
ghost use Rattle.std.specs.List.{slice_split};

use std::alloc::{AllocError, Global};

/// Splits a text at each occurrence of `byte`, and returns the pieces in order, without that byte.
///
/// Pieces may be empty. The number of pieces is one more than the number of times that `byte` occurs, so the empty text
/// gives one empty piece. For example, `b"/a//b"` cut at `b'/'` gives four pieces: an empty one, `a`, an empty one and
/// `b`. They borrow from `text`. The only error is `AllocError`.
pub fn pieces_of(alloc: Global, text: &[u8], byte: u8) -> Result<Vec<&[u8]>, AllocError>
    ensures { IfOk result (λ pieces. map (λ s. s.now) pieces.items ≡ slice_split (λ b. b == byte) text.now) }
{
    let mut pieces = Vec::with_capacity(alloc, 12)?;
    pieces.extend(text.split(|b| *b == byte))?;
    Ok(pieces)
}
