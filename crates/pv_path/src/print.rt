//! Prints bytes and paths as tree images and messages have them.
ghost use Rattle.std.specs.Prelude.{◌≡◌, ℕ, ◌<◌, ◌≤◌, ◌++◌, length, take, drop, OnOk, IfOk};
ghost use Rattle.std.specs.List.{prefix_len};
ghost use Rattle.pv_path.specs.Printing.{hex_digit, is_plain_but, printed, printed_by, printed_byte_by, printed_path};

use crate::path::TreePath;
use std::alloc::{AllocError, Global};

/// Prints a path as tree images and messages have it: a slash and the printed name for each name, or `/` for the
/// root.
///
/// Names are printed as `print_bytes` does. For example, a name `a b` below the root gives `/a\x20b`. The only
/// error is `AllocError`.
pub fn print_path(alloc: Global, path: &TreePath) -> Result<Vec<u8>, AllocError>
    ensures { IfOk result (λ text. text.items ≡ printed_path path.now) }
{
    let mut text = Vec::new(alloc);
    for name in path.names() {
        text.push(b'/')?;
        add_printed(&mut text, name.bytes())?;
    }
    if path.is_empty() {
        text.push(b'/')?;
    }
    Ok(text)
}

/// Prints bytes as tree images and messages have them.
///
/// Bytes from 0x21 to 0x7E other than the backslash are printed as themselves. Every other byte, including a space, is
/// printed as `\x` and two lower-case hexadecimal digits. The only error is `AllocError`.
pub fn print_bytes(alloc: Global, bytes: &[u8]) -> Result<Vec<u8>, AllocError>
    ensures { IfOk result (λ text. text.items ≡ printed bytes.now) }
{
    let mut text = Vec::new(alloc);
    add_printed(&mut text, bytes)?;
    Ok(text)
}

/// Appends bytes to a text, printed as `print_bytes` does.
///
/// The only error is `AllocError`. What `text` holds after an error is not specified.
pub fn add_printed(text: &mut Vec<u8>, bytes: &[u8]) -> Result<(), AllocError>
    ensures { OnOk result (text.new.items ≡ text.old.items ++ printed bytes.now) }
{
    add_printed_but(text, bytes, b"")
}

/// Appends bytes to a text as `print_bytes` prints them, except that each byte in `hidden` is printed as `\x` and
/// two digits.
///
/// The only error is `AllocError`. What `text` holds after an error is not specified.
pub fn add_printed_but(text: &mut Vec<u8>, bytes: &[u8], hidden: &[u8]) -> Result<(), AllocError>
    ensures { OnOk result (text.new.items ≡ text.old.items ++ printed_by (is_plain_but hidden.now) bytes.now) }
{
    let mut rest = bytes;
    while let [byte, after @ ..] = rest {
        add_printed_byte(text, *byte, hidden)?;
        rest = add_plain(text, after, hidden)?;
    }
    Ok(())
}

/// Appends the longest prefix of `bytes` in which each byte is printed as itself, and returns the bytes after it.
///
/// A byte is printed as itself if `is_plain` holds for it with the same `hidden` bytes. The only error is `AllocError`.
/// What `text` holds after an error is not specified.
pub fn add_plain<'a>(
    text: &mut Vec<u8>,
    bytes: &'a [u8],
    hidden: &[u8],
) -> Result<&'a [u8], AllocError>
    ensures added { let count = prefix_len (is_plain_but hidden.now) bytes.now in
        OnOk result (text.new.items ≡ text.old.items ++ take count bytes.now) }
    ensures rest { let count = prefix_len (is_plain_but hidden.now) bytes.now in
        IfOk result (λ rest. rest.now ≡ drop count bytes.now) }
{
    let count = plain_count(bytes, hidden);
    text.extend_from_slice(&bytes[..count])?;
    Ok(&bytes[count..])
}

/// Returns the length of the longest prefix in which each byte is printed as itself.
fn plain_count(bytes: &[u8], hidden: &[u8]) -> usize
    ensures count { result ≡ prefix_len (is_plain_but hidden.now) bytes.now }
    ensures within { result ≤ length bytes.now }
{
    bytes.iter().take_while(|b| is_plain(**b, hidden)).count()
}

/// Returns whether a byte is printed as itself: it is 0x21 to 0x7E, not a backslash, and not one of the bytes in
/// `hidden`.
///
/// The call does not allocate.
pub fn is_plain(byte: u8, hidden: &[u8]) -> bool
    ensures { result ≡ is_plain_but hidden.now byte }
{
    matches!(byte, 0x21..=0x7e) && byte != b'\\' && !hidden.contains(&byte)
}

/// Appends one printed byte to a text.
fn add_printed_byte(text: &mut Vec<u8>, byte: u8, hidden: &[u8]) -> Result<(), AllocError>
    ensures { OnOk result (text.new.items ≡ text.old.items ++ printed_byte_by (is_plain_but hidden.now) byte) }
{
    if is_plain(byte, hidden) {
        text.push(byte)?;
    } else {
        text.extend_from_slice(&[b'\\', b'x', hex_digit(byte / 16), hex_digit(byte % 16)])?;
    }
    Ok(())
}

/// Returns the lower-case hexadecimal digit of a number below 16.
fn hex_digit(digit: u8) -> u8
    requires { digit < 16 }
    ensures { result ≡ hex_digit digit }
{
    if digit < 10 {
        b'0' + digit
    } else {
        b'a' + (digit - 10)
    }
}
