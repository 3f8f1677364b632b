//! Reads the values of options: paths, decimal numbers and times.
ghost use Rattle.std.specs.Prelude.{◌≡◌, true};
ghost use Rattle.std.specs.Option.{option_map};
ghost use Rattle.std.specs.Str.{all_ascii_digits};
ghost use Rattle.pv_words.specs.Answered.{Answers};
ghost use Rattle.pv_words.specs.Values.{decimal_value, micros_of, moment_value, optional, path_value, timestamp_value};

use crate::words_fault::WordsFault;
use jiff::Timestamp;
use pv_path::{PathFault, TreePath, parse_path};
use std::alloc::Global;
use std::str;

/// Reads the path that a value spells, if there is a value.
pub(crate) fn path_in(alloc: Global, value: Option<&[u8]>) -> Result<Option<TreePath>, WordsFault>
    ensures { Answers result (optional path_value (option_map (λ v. v.now) value.entry)) }
{
    match value {
        None => Ok(None),
        Some(text) => Ok(Some(path_value(alloc, text)?)),
    }
}

/// Reads the path that a text spells.
fn path_value(alloc: Global, text: &[u8]) -> Result<TreePath, WordsFault>
    ensures { Answers result (path_value text.now) }
{
    match parse_path(alloc, text) {
        Ok(path) => Ok(path),
        Err(PathFault::Memory) => Err(WordsFault::Memory),
        Err(_) => Err(WordsFault::Usage),
    }
}

/// Reads the decimal number that a value spells, if there is a value.
pub(crate) fn decimal_in(value: Option<&[u8]>) -> Result<Option<u64>, WordsFault>
    ensures { Answers result (optional decimal_value (option_map (λ v. v.now) value.entry)) }
{
    match value {
        None => Ok(None),
        Some(text) => Ok(Some(decimal_value(text).ok_or(WordsFault::Usage)?)),
    }
}

/// Reads a number below 2^64 from one or more decimal digits.
pub(crate) fn decimal_value(text: &[u8]) -> Option<u64>
    ensures { result ≡ decimal_value text.now }
{
    if is_digits(text) {
        number_of(str::from_utf8(text).unwrap())
    } else {
        None
    }
}

/// Returns whether all bytes are decimal digits.
fn is_digits(text: &[u8]) -> bool
    ensures { result ≡ all_ascii_digits text.now }
{
    for b in text {
        if !b.is_ascii_digit() {
            return false;
        }
    }
    true
}

/// Reads a number below 2^64 from decimal digits, if there are any.
fn number_of(digits: &str) -> Option<u64>
    requires { all_ascii_digits digits.now ≡ true }
    ensures { result ≡ decimal_value digits.now }
{
    digits.parse().ok()
}

/// Reads the time that a value spells, in microseconds since 1970-01-01 UTC, if there is a value.
pub(crate) fn moment_in(value: Option<&[u8]>) -> Result<Option<u64>, WordsFault>
    ensures { Answers result (optional moment_value (option_map (λ v. v.now) value.entry)) }
{
    match value {
        None => Ok(None),
        Some(text) => Ok(Some(moment_value(text).ok_or(WordsFault::Usage)?)),
    }
}

/// Reads the time that a text spells, in microseconds since 1970-01-01 UTC.
fn moment_value(text: &[u8]) -> Option<u64>
    ensures { result ≡ moment_value text.now }
{
    match str::from_utf8(text) {
        Ok(text) => timestamp_value(text),
        Err(_) => None,
    }
}

/// Reads the time that a text of UTF-8 spells, in microseconds since 1970-01-01 UTC.
fn timestamp_value(text: &str) -> Option<u64>
    ensures { result ≡ timestamp_value text.now }
{
    match text.parse::<Timestamp>() {
        Ok(moment) => micros_of(moment.as_nanosecond()),
        Err(_) => None,
    }
}

/// Returns nanoseconds as whole microseconds, rounded down, if they are not negative and fit into 64 bits.
fn micros_of(nanos: i128) -> Option<u64>
    ensures { result ≡ micros_of nanos }
{
    if nanos < 0 {
        return None;
    }
    u64::try_from(nanos / 1000).ok()
}
