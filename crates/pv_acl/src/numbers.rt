//! Reads decimal numbers and IDs. Each number has exactly one spelling.
ghost use Rattle.std.specs.Prelude.{◌≡◌, ◌<◌, ◌≤◌, length, IfSome, IfNone};
ghost use Rattle.std.specs.Char.{digit_value};
ghost use Rattle.std.specs.Str.Parse.{digits_value, IsNumeral};
ghost use Rattle.pv_acl.specs.Numbers.{number_of, odd_start, written_id};

use std::str;

/// Reads a number below 2^64 that is written in decimal digits alone.
///
/// Returns `None` for every other text: an empty one, a sign, a leading zero before another digit, another byte, or
/// a number from 2^64 on. For example, `b"0"` gives 0 and `b"07"` gives `None`.
pub fn number(text: &[u8]) -> Option<u64>
    ensures { result ≡ number_of text.now }
{
    if has_odd_start(text) {
        return None;
    }
    if text.len() <= 19 {
        return short_number(text);
    }
    match str::from_utf8(text) {
        Ok(text) => text.parse::<u64>().ok(),
        Err(_) => None,
    }
}

/// Reads a text of at most 19 bytes that consists of one or more digits. Its number is below 2^64.
fn short_number(text: &[u8]) -> Option<u64>
    requires { length text.now ≤ 19 }
    ensures some { IfSome result (λ n. IsNumeral 10 text.now × (n ≡ digits_value 10 text.now)) }
    ensures none { IfNone result (IsNumeral 10 text.now → ⊥) }
{
    if text.is_empty() {
        return None;
    }
    let mut value: u64 = 0;
    for byte in text {
        let digit = digit_of(*byte)?;
        value = value * 10 + digit;
    }
    Some(value)
}

/// Returns the value of a decimal digit, or `None` for another byte.
fn digit_of(byte: u8) -> Option<u64>
    ensures some { IfSome result (λ digit. (digit ≡ digit_value byte) × (digit < 10)) }
    ensures none { IfNone result (digit_value byte < 10 → ⊥) }
{
    match byte {
        b'0'..=b'9' => Some(u64::from(byte - b'0')),
        _ => None,
    }
}

/// Returns whether a text begins with a plus sign, or with a zero that is not its only byte.
fn has_odd_start(text: &[u8]) -> bool
    ensures { result ≡ odd_start text.now }
{
    matches!(text, [b'+', ..] | [b'0', _, ..])
}

/// Reads the ID of a user or a group from a configuration line: 0 to 4294967294 without 65535.
///
/// The text is a number as `number` reads it. Returns `None` for every other text. The numbers 65535 and 4294967295
/// are not IDs: they are -1 in 16 and 32 bits, which means no ID (chown(2)).
pub fn written_id(text: &[u8]) -> Option<u32>
    ensures value { result ≡ written_id text.now }
    ensures small { IfSome result (λ id. id ≤ 4294967294) }
{
    match number(text) {
        Some(n) if n <= 4294967294 && n != 65535 => Some(n as u32),
        _ => None,
    }
}
