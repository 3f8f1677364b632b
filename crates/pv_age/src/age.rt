//! From a text to the age that it spells, or its first fault (tmpfiles.d(5)).
ghost use Rattle.std.specs.Prelude.{◌≡◌, ◌<◌, ◌==◌, length, position, IfSome};
ghost use Rattle.pv_age.specs.Ages.{age_of, age_with};

use crate::age_fault::AgeFault;
use crate::stamps::{StampSet, stamps_of};
use crate::sum::micros_of;

/// The timestamp letters of an age that lists none: all but `C`, the change time of directories.
const DEFAULT_LETTERS: &[u8] = b"abcmABM";

/// An age by which objects are cleaned up (tmpfiles.d(5), "Age").
#[derive(Clone, Copy, PartialEq, Eq)]
pub struct Age {
    /// The time span in microseconds. By the age 0 every object is old, whatever its timestamps are.
    pub micros: u64,
    /// The timestamps that decide: an object is old if each of them is older than the time span.
    pub by: StampSet,
    /// Whether the mark `~` was given: what is directly in the directory is spared, and only what is deeper is
    /// cleaned.
    pub spare_first: bool,
}

/// Reads an age (tmpfiles.d(5), "Age"), such as `10d`, `~1w` or `mC:12h30min`.
///
/// The text has these parts, in this order:
/// - An optional `~`, which spares the first level: what is directly in the directory.
/// - An optional list of timestamp letters (`a`, `b`, `c`, `m`, `A`, `B`, `C`, `M`), ended by the first `:`. Without
///   a list the letters are `abcmABM`.
/// - One or more decimal numbers, each with its unit. They are added. A number without a unit counts seconds.
///
/// The units are `us`, `usec`, `ms`, `msec`, `s`, `sec`, `second`, `seconds`, `m`, `min`, `minute`, `minutes`, `h`,
/// `hr`, `hour`, `hours`, `d`, `day`, `days`, `w`, `week` and `weeks`.
///
/// The list of letters is checked first. Then each number is checked, its unit and the sum so far. The answer is the
/// age, or the first error:
/// - `BadStampLetter`: the list before the `:` is empty, or a byte in it is not one of the letters.
/// - `BadNumber`: where a number must begin, there is no digit. A text without any number gives this error too.
/// - `BadUnit`: the letters after a number are not a unit.
/// - `Overflow`: a number with its unit, or the sum so far, is 2^64 microseconds or more.
///
/// For example, `parse_age(b"~10d")` gives 864,000,000,000 microseconds, the timestamps `abcmABM`, and `spare_first`.
pub fn parse_age(text: &[u8]) -> Result<Age, AgeFault>
    ensures { result ≡ age_of text.now }
{
    match text {
        [b'~', rest @ ..] => age_with(true, rest),
        _ => age_with(false, text),
    }
}

/// Reads an age whose mark `~` was already read, or is absent.
fn age_with(spare_first: bool, text: &[u8]) -> Result<Age, AgeFault>
    ensures { result ≡ age_with spare_first text.now }
{
    let (list, sum) = match colon_at(text) {
        Some(at) => (&text[..at], &text[at + 1..]),
        None => (DEFAULT_LETTERS, text),
    };
    let by = stamps_of(list)?;
    let micros = micros_of(sum)?;
    Ok(Age {
        micros,
        by,
        spare_first,
    })
}

/// Returns the index of the first colon, if there is one.
fn colon_at(text: &[u8]) -> Option<usize>
    ensures place { result ≡ position (λ b. b == 58) text.now }
    ensures within { IfSome result (λ at. at < length text.now) }
{
    text.iter().position(|b| *b == b':')
}
