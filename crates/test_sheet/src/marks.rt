//! Words in which marks stand for bytes.
use crate::images::spelled;
use std::alloc::{AllocError, Global};

/// The value of two hexadecimal digits.
fn value_of(high: u8, low: u8) -> Option<u8> {
    let high = char::from(high).to_digit(16)?;
    let low = char::from(low).to_digit(16)?;
    u8::try_from(high * 16 + low).ok()
}

/// The byte of a mark `hh`, or of `hh×n`, and how many times it stands there.
fn mark_of(mark: &str) -> Option<(u8, usize)> {
    let (digits, count) = match mark.split_once('×') {
        Some((digits, count)) => (digits, count.parse::<usize>().ok()?),
        None => (mark, 1),
    };
    match digits.as_bytes() {
        [high, low] => Some((value_of(*high, *low)?, count)),
        _ => None,
    }
}

/// Adds the bytes of a mark and what follows it; what is no mark is nothing.
fn add_piece(alloc: Global, bytes: &mut Vec<u8>, piece: &str) -> Result<(), AllocError> {
    let Some((mark, rest)) = piece.split_once('⟩') else {
        return bytes.extend_from_slice(piece.as_bytes());
    };
    if let Some((byte, count)) = mark_of(mark) {
        bytes.extend_from_slice(&vec![in alloc; byte; count]?)?;
    }
    bytes.extend_from_slice(rest.as_bytes())
}

/// The bytes that a text spells. `⟨hh⟩` stands for a byte by its two hexadecimal digits, `⟨hh×n⟩` for so many of them,
/// and `∅` for nothing. The signs of lines are as they are there.
pub fn bytes_of(alloc: Global, text: &str) -> Result<Vec<u8>, AllocError> {
    let text = text.replace(alloc, '∅', "")?;
    let text = spelled(alloc, &text)?;
    let mut bytes = Vec::new(alloc);
    for piece in text.split('⟨') {
        add_piece(alloc, &mut bytes, piece)?;
    }
    Ok(bytes)
}

/// The words of a text that has a blank between two of them, as the program gets them; `∅` stands for a word without a letter.
pub fn words_of(alloc: Global, words: &str) -> Result<Vec<String>, AllocError> {
    let mut all = Vec::new(alloc);
    if words.is_empty() {
        return Ok(all);
    }
    for word in words.split(' ') {
        let word = word.replace(alloc, '∅', "")?;
        all.push(spelled(alloc, &word)?)?;
    }
    Ok(all)
}
