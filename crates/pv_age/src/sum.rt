//! Sums of numbers with units, in microseconds.
ghost use Rattle.std.specs.Prelude.{◌≡◌, ◌<◌, ◌≤◌, ◌+◌, ◌*◌, true, drop, length, take, IfOk, MatchResult, Ok, Err};
ghost use Rattle.std.specs.Char.{is_ascii_alphabetic, is_ascii_digit};
ghost use Rattle.std.specs.List.{prefix_len};
ghost use Rattle.std.specs.Str.{all_ascii_digits};
ghost use Rattle.std.specs.Str.Parse.{digits_value};
ghost use Rattle.pv_age.specs.Sums.{fitting, micros_of, pair_length, pair_micros};

use crate::age_fault::AgeFault;
use crate::unit::unit_micros;
use std::str;

/// A number with its unit at the beginning of a text: its microseconds, and how many bytes it has.
#[derive(Clone, Copy)]
struct Pair {
    micros: u64,
    length: usize,
}

/// Adds up one or more numbers with units, in microseconds.
pub(crate) fn micros_of(text: &[u8]) -> Result<u64, AgeFault>
    ensures { result ≡ micros_of text.now }
{
    if text.is_empty() {
        return Err(AgeFault::BadNumber);
    }
    let mut total: u64 = 0;
    let mut rest = text;
    while !rest.is_empty() {
        let pair = first_pair(rest)?;
        total = sum(total, pair.micros)?;
        rest = behind(rest, pair.length);
    }
    Ok(total)
}

/// Reads the number and the unit that a text begins with.
fn first_pair(text: &[u8]) -> Result<Pair, AgeFault>
    ensures value { MatchResult result (λ p. pair_micros text.now ≡ Ok p.micros)
        (λ fault. pair_micros text.now ≡ Err fault) }
    ensures length { IfOk result (λ p. p.length ≡ pair_length text.now) }
    ensures within { IfOk result (λ p. (0 < p.length) × (p.length ≤ length text.now)) }
{
    let digits = digit_count(text);
    if digits == 0 {
        return Err(AgeFault::BadNumber);
    }
    let after = behind(text, digits);
    let letters = letter_count(after);
    let unit = unit_micros(&after[..letters]).ok_or(AgeFault::BadUnit)?;
    let micros = product(number_of(&text[..digits])?, unit)?;
    Ok(Pair {
        micros,
        length: digits + letters,
    })
}

/// Counts the digits that a text begins with.
fn digit_count(text: &[u8]) -> usize
    ensures value { result ≡ prefix_len is_ascii_digit text.now }
    ensures within { result ≤ length text.now }
{
    text.iter().take_while(|byte| byte.is_ascii_digit()).count()
}

/// Counts the letters that a text begins with.
fn letter_count(text: &[u8]) -> usize
    ensures value { result ≡ prefix_len is_ascii_alphabetic text.now }
    ensures within { result ≤ length text.now }
{
    text.iter()
        .take_while(|byte| byte.is_ascii_alphabetic())
        .count()
}

/// Returns what follows the first `count` bytes of a text.
fn behind(text: &[u8], count: usize) -> &[u8]
    requires { count ≤ length text.now }
    ensures { result.now ≡ drop count text.now }
{
    &text[count..]
}

/// Reads a decimal number, which may begin with zeros. A number of 2^64 or more is an `Overflow`.
fn number_of(digits: &[u8]) -> Result<u64, AgeFault>
    requires digits { all_ascii_digits digits.now ≡ true }
    requires some { 0 < length digits.now }
    ensures { result ≡ fitting (digits_value 10 digits.now) }
{
    parsed(str::from_utf8(digits).unwrap())
}

fn parsed(digits: &str) -> Result<u64, AgeFault>
    requires digits { all_ascii_digits digits.now ≡ true }
    requires some { 0 < length digits.now }
    ensures { result ≡ fitting (digits_value 10 digits.now) }
{
    match digits.parse() {
        Ok(number) => Ok(number),
        Err(_) => Err(AgeFault::Overflow),
    }
}

fn product(number: u64, unit: u64) -> Result<u64, AgeFault>
    ensures { result ≡ fitting (number * unit) }
{
    number.checked_mul(unit).ok_or(AgeFault::Overflow)
}

fn sum(total: u64, micros: u64) -> Result<u64, AgeFault>
    ensures { result ≡ fitting (total + micros) }
{
    total.checked_add(micros).ok_or(AgeFault::Overflow)
}
