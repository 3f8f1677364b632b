//! Reads brackets.
ghost use Rattle.std.specs.Prelude.{◌≡◌, ℕ, ◌+◌, ◌<◌, ◌≤◌, ◌++◌, length, take, drop, slice_index, IfSome, IfOk, OnOk, unwrap_or};
ghost use Rattle.std.specs.List.{flat_map, list_any};
ghost use Rattle.std.specs.Option.{option_map};
ghost use Rattle.pv_glob.specs.Elements.{body_length, body_of, class_at, class_named, has_sign, is_bad_class, is_bad_range, is_range, item_length, item_ranges, items_of, length_to_mark, opens_class, sign_length, token_length};

use crate::class::class_named;
use crate::element::ByteRange;
use pv_path::Sequence;
use std::alloc::{AllocError, Global};

/// Returns a text without its first `count` bytes.
pub(crate) fn behind(text: &[u8], count: usize) -> &[u8]
    ensures { result.now ≡ drop count text.now }
{
    if count < text.len() {
        &text[count..]
    } else {
        &[]
    }
}

/// Returns the byte at an index, or NUL past the end.
pub(crate) fn byte_at(text: &[u8], i: usize) -> u8
    ensures { result ≡ slice_index text.now i }
{
    text.get(i).copied().unwrap_or(0)
}

/// Returns whether a text begins with a class.
fn opens_class(text: &[u8]) -> bool
    ensures { result ≡ opens_class text.now }
{
    match text {
        [] | [_] => false,
        [first, mark, ..] => *first == b'[' && (*mark == b':' || *mark == b'.' || *mark == b'='),
    }
}

/// Returns how many bytes come before a mark and `]`.
fn length_to_mark(mark: u8, text: &[u8]) -> Option<usize>
    ensures value { result ≡ length_to_mark mark text.now }
    ensures within { IfSome result (λ n. n + 2 ≤ length text.now) }
{
    for (i, byte) in text.iter().enumerate() {
        if *byte == mark && i + 1 < text.len() && text[i + 1] == b']' {
            return Some(i);
        }
    }
    None
}

/// Returns how many bytes the class or the single byte at the beginning has, or `None` for a class without its end.
fn token_length(text: &[u8]) -> Option<usize>
    requires { 0 < length text.now }
    ensures value { result ≡ token_length text.now }
    ensures within { IfSome result (λ n. (0 < n) × (n ≤ length text.now)) }
{
    if opens_class(text) {
        let name = length_to_mark(byte_at(text, 1), behind(text, 2))?;
        Some(name + 4)
    } else {
        Some(1)
    }
}

/// Returns how many bytes a bracket has between its sign and its end, or `None` if it has no end.
fn body_length(text: &[u8]) -> Option<usize>
    ensures value { result ≡ body_length text.now }
    ensures within { IfSome result (λ n. n < length text.now) }
{
    if text.is_empty() {
        return None;
    }
    let mut length = token_length(text)?;
    let mut rest = behind(text, length);
    while !rest.is_empty() {
        if rest[0] == b']' {
            return Some(length);
        }
        let token = token_length(rest)?;
        length += token;
        rest = behind(rest, token);
    }
    None
}

/// Returns whether a bracket is negated.
pub(crate) fn has_sign(text: &[u8]) -> bool
    ensures { result ≡ has_sign text.now }
{
    match text {
        [] => false,
        [first, ..] => *first == b'!' || *first == b'^',
    }
}

/// Returns how many bytes the sign of negation has.
pub(crate) fn sign_length(text: &[u8]) -> usize
    ensures value { result ≡ sign_length text.now }
    ensures small { result ≤ 1 }
{
    if has_sign(text) { 1 } else { 0 }
}

/// Returns what is inside a bracket, from the text after its `[`, or `None` if it has no end.
pub(crate) fn body_of(text: &[u8]) -> Option<&[u8]>
    ensures { option_map (λ s. s.now) result ≡ body_of text.now }
{
    let inner = behind(text, sign_length(text));
    let length = body_length(inner)?;
    Some(&inner[..length])
}

/// Returns whether a text begins with a byte, `-` and something else.
fn is_range(place: &[u8]) -> bool
    ensures { result ≡ is_range place.now }
{
    !opens_class(place) && place.len() > 2 && place[1] == b'-'
}

/// Returns how many bytes the class, range or single byte at the beginning has.
fn item_length(place: &[u8]) -> usize
    requires { 0 < length place.now }
    ensures value { result ≡ item_length place.now }
    ensures positive { 0 < result }
{
    if opens_class(place) {
        token_length(place).unwrap_or(1)
    } else if is_range(place) {
        2 + token_length(behind(place, 2)).unwrap_or(1)
    } else {
        1
    }
}

/// Returns whether a text begins with a range that ends below its start or at a class.
fn is_bad_range(place: &[u8]) -> bool
    ensures { result ≡ is_bad_range place.now }
{
    is_range(place) && (opens_class(behind(place, 2)) || byte_at(place, 2) < byte_at(place, 0))
}

/// Returns the ranges of the class at the beginning, or `None` if there is no such class.
fn class_at(place: &[u8]) -> Option<&'static [ByteRange]>
    requires { 0 < length place.now }
    ensures { option_map (λ s. s.now) result ≡ class_at place.now }
{
    if byte_at(place, 1) == b':' {
        let name = behind(place, 2);
        class_named(front(name, item_length(place).saturating_sub(4)))
    } else {
        None
    }
}

/// Returns the first `count` bytes of a text, or all of them if there are fewer.
fn front(text: &[u8], count: usize) -> &[u8]
    ensures { result.now ≡ take count text.now }
{
    if count < text.len() {
        &text[..count]
    } else {
        text
    }
}

/// Returns whether a text begins with a class that does not exist.
fn is_bad_class(place: &[u8]) -> bool
    requires { 0 < length place.now }
    ensures { result ≡ is_bad_class place.now }
{
    opens_class(place) && class_at(place).is_none()
}

/// Returns whether a range inside a bracket ends below its start or at a class.
pub(crate) fn has_bad_range(body: &[u8]) -> bool
    ensures { result ≡ list_any is_bad_range (items_of body.now) }
{
    let mut rest = body;
    while !rest.is_empty() {
        if is_bad_range(rest) {
            return true;
        }
        rest = behind(rest, item_length(rest));
    }
    false
}

/// Returns whether a class inside a bracket does not exist.
pub(crate) fn has_bad_class(body: &[u8]) -> bool
    ensures { result ≡ list_any is_bad_class (items_of body.now) }
{
    let mut rest = body;
    while !rest.is_empty() {
        if is_bad_class(rest) {
            return true;
        }
        rest = behind(rest, item_length(rest));
    }
    false
}

/// Adds the ranges `more` at the end.
fn add_all(ranges: &mut Sequence<ByteRange>, more: &[ByteRange]) -> Result<(), AllocError>
    ensures { OnOk result (ranges.new ≡ ranges.old ++ more.now) }
{
    for range in more {
        ranges.push(*range)?;
    }
    Ok(())
}

/// Adds the ranges of the class, range or single byte at the beginning of `place`.
fn add_item(ranges: &mut Sequence<ByteRange>, place: &[u8]) -> Result<(), AllocError>
    requires { 0 < length place.now }
    ensures { OnOk result (ranges.new ≡ ranges.old ++ item_ranges place.now) }
{
    let low = byte_at(place, 0);
    if opens_class(place) {
        if let Some(class) = class_at(place) {
            add_all(ranges, class)?;
        }
    } else if is_range(place) {
        let high = byte_at(place, 2);
        ranges.push(ByteRange { low, high })?;
    } else {
        ranges.push(ByteRange { low, high: low })?;
    }
    Ok(())
}

/// Returns the bytes inside a bracket as ranges.
pub(crate) fn ranges_of(alloc: Global, body: &[u8]) -> Result<Sequence<ByteRange>, AllocError>
    ensures { IfOk result (λ ranges. ranges ≡ flat_map item_ranges (items_of body.now)) }
{
    let mut ranges = Sequence::new(alloc);
    let mut rest = body;
    while !rest.is_empty() {
        add_item(&mut ranges, rest)?;
        rest = behind(rest, item_length(rest));
    }
    Ok(ranges)
}
