//! Escapes in the fields of configuration lines, and the bytes that they stand for.
ghost use Rattle.std.specs.Prelude.{◌≡◌, ◌+◌, ◌^◌, ◌<◌, ◌≤◌, length, IfOk, IfSome, None};
ghost use Rattle.pv_text.specs.Escapes.{HasGoodEscapes, bad_escape, digits_escape, escape_of, hex_escape, named_escape, numbered, octal_escape, unescaped, unit_of};

use std::alloc::{AllocError, Global};

/// Returns the byte for which a backslash and one letter stand.
fn named_escape(letter: u8) -> Option<u8>
    ensures { result ≡ named_escape letter }
{
    match letter {
        b'a' => Some(7),
        b'b' => Some(8),
        b'f' => Some(12),
        b'n' => Some(b'\n'),
        b'r' => Some(b'\r'),
        b't' => Some(b'\t'),
        b'v' => Some(11),
        b'\\' | b'"' | b'\'' => Some(letter),
        b's' => Some(b' '),
        _ => None,
    }
}

/// Returns the byte with a number from 1 to 255.
fn numbered(number: u32) -> Option<u8>
    ensures { result ≡ numbered number }
{
    if 1 <= number && number <= 255 {
        Some(number as u8)
    } else {
        None
    }
}

/// Returns the byte for which `\x` and two hexadecimal digits stand.
fn hex_escape(high: u8, low: u8) -> Option<u8>
    ensures { result ≡ hex_escape high low }
{
    let high = char::from(high).to_digit(16)?;
    let low = char::from(low).to_digit(16)?;
    numbered(high * 16 + low)
}

/// Returns the byte for which a backslash and three octal digits stand.
fn octal_escape(first: u8, second: u8, third: u8) -> Option<u8>
    ensures { result ≡ octal_escape first second third }
{
    let first = char::from(first).to_digit(8)?;
    let second = char::from(second).to_digit(8)?;
    let third = char::from(third).to_digit(8)?;
    numbered((first * 8 + second) * 8 + third)
}

/// Returns the byte for which an escape of digits stands, and 3, the number of its bytes after the backslash.
fn digits_escape(after: &[u8]) -> Option<(u8, usize)>
    ensures value { result ≡ digits_escape after.now }
    ensures within { IfSome result (λ e. e.1 ≤ length after.now) }
{
    let [first, second, third, ..] = after else {
        return None;
    };
    let byte = if *first == b'x' {
        hex_escape(*second, *third)?
    } else {
        octal_escape(*first, *second, *third)?
    };
    Some((byte, 3))
}

/// Returns the byte for which an escape stands, and how many bytes it has after its backslash.
fn escape_of(after: &[u8]) -> Option<(u8, usize)>
    ensures value { result ≡ escape_of after.now }
    ensures within { IfSome result (λ e. e.1 ≤ length after.now) }
{
    let letter = after.first()?;
    match named_escape(*letter) {
        Some(byte) => Some((byte, 1)),
        None => digits_escape(after),
    }
}

/// Returns the byte for which the beginning of a text stands, and how many bytes of `after` belong to it.
fn unit_of(byte: u8, after: &[u8]) -> Option<(u8, usize)>
    ensures value { result ≡ unit_of byte after.now }
    ensures within { IfSome result (λ u. u.1 ≤ length after.now) }
{
    if byte == b'\\' {
        escape_of(after)
    } else {
        Some((byte, 0))
    }
}

/// Returns the index of the first backslash that begins no escape. Indices count from `at`, that of the first byte
/// of `text`.
pub(crate) fn bad_escape(at: usize, text: &[u8]) -> Option<usize>
    requires { at + length text.now < 2 ^ 64 }
    ensures { result ≡ bad_escape 0 at text.now }
{
    let mut rest = text;
    while let [byte, after @ ..] = rest {
        match unit_of(*byte, after) {
            Some((_, taken)) => rest = &after[taken..],
            None => return Some(at + (text.len() - rest.len())),
        }
    }
    None
}

/// Returns the bytes for which a field stands, with each escape replaced by its byte (tmpfiles.d(5)).
///
/// An escape is a backslash and one of these:
///
/// - `a`, `b`, `f`, `n`, `r`, `t` or `v`, as in C;
/// - `s`, for a space;
/// - a backslash, `"` or `'`, for itself;
/// - `x` and two hexadecimal digits, or three octal digits, for a byte from 1 to 255.
///
/// Each backslash in the text must begin an escape. Each field that `fields` gives is such a text. The only error is
/// `AllocError`. For example, `a\x20b` gives `a b`.
pub fn unescape(alloc: Global, raw: &[u8]) -> Result<Vec<u8>, AllocError>
    requires { HasGoodEscapes raw.now }
    ensures { IfOk result (λ text. text.items ≡ unescaped raw.now) }
{
    let mut text = Vec::new(alloc);
    let mut rest = raw;
    while let [byte, after @ ..] = rest {
        let Some((byte, taken)) = unit_of(*byte, after) else {
            unreachable!()
        };
        text.push(byte)?;
        rest = &after[taken..];
    }
    Ok(text)
}
