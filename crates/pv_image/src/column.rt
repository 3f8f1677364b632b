//! The columns of a node that are read without an allocation: kind, mode, owner, owning group and timestamps.
ghost use Rattle.std.specs.Prelude.{◌≡◌, ◌+◌, ◌≤◌, ◌<◌, ◌^◌, [], ◌∷◌};
ghost use Rattle.std.specs.Fmt.{decimal};
ghost use Rattle.pv_steps.specs.Objects.{StampsFit, IsId};
ghost use Rattle.pv_image.specs.Spelling.{kind_text, mode_text, stamp_texts, stamps_text};
ghost use Rattle.pv_image.specs.Reading.{Reads, texts};

use crate::cut::cut_into;
use pv_acl::number;
use pv_steps::{Kind, Stamps};

/// Reads the kind that a text spells.
pub(crate) fn read_kind(text: &[u8]) -> Option<Kind>
    ensures { Reads kind_text (λ _. Unit {0}) text.now result }
{
    match text {
        [b'd'] => Some(Kind::Directory),
        [b'f'] => Some(Kind::File),
        [b'l'] => Some(Kind::Link),
        [b'p'] => Some(Kind::Fifo),
        [b'c'] => Some(Kind::CharDevice),
        [b'b'] => Some(Kind::BlockDevice),
        _ => None,
    }
}

/// Returns the number that an octal digit spells.
fn read_octal(byte: u8) -> Option<u16>
    ensures { Reads (λ digit. 48 + digit) (λ digit. digit < 8) byte result }
{
    match byte {
        b'0'..=b'7' => Some(u16::from(byte - b'0')),
        _ => None,
    }
}

/// Returns the mode that four octal digits spell.
fn mode_of(first: u8, second: u8, third: u8, last: u8) -> Option<u16>
    ensures { Reads mode_text (λ mode. mode ≤ 4095) (first ∷ second ∷ third ∷ last ∷ []) result }
{
    let high = read_octal(first)? * 8 + read_octal(second)?;
    let low = read_octal(third)? * 8 + read_octal(last)?;
    Some(high * 64 + low)
}

/// Reads the mode that a text spells in four octal digits.
pub(crate) fn read_mode(text: &[u8]) -> Option<u16>
    ensures { Reads mode_text (λ mode. mode ≤ 4095) text.now result }
{
    match text {
        [first, second, third, last] => mode_of(*first, *second, *third, *last),
        _ => None,
    }
}

/// Returns the number that a decimal digit spells.
fn digit_of(byte: u8) -> Option<u64>
    ensures { Reads (λ digit. (48 + digit) ∷ []) (λ digit. digit < 10) (byte ∷ []) result }
{
    match byte {
        b'0'..=b'9' => Some(u64::from(byte - b'0')),
        _ => None,
    }
}

/// Reads the number that a text of one decimal digit spells.
fn read_digit(text: &[u8]) -> Option<u64>
    ensures { Reads (λ digit. (48 + digit) ∷ []) (λ digit. digit < 10) text.now result }
{
    match text {
        [byte] => digit_of(*byte),
        _ => None,
    }
}

/// Reads the number below 2^64 that a text spells in decimal. A text of one digit, as most in the manifest of a
/// folder, is read at once.
pub(crate) fn read_number(text: &[u8]) -> Option<u64>
    ensures { Reads decimal (λ n. n < 2 ^ 64) text.now result }
{
    match read_digit(text) {
        Some(n) => Some(n),
        None => number(text),
    }
}

/// Reads the number that a text spells in decimal, if it is at most `most`.
pub(crate) fn read_up_to(most: u32, text: &[u8]) -> Option<u32>
    ensures { Reads decimal (λ n. n ≤ most) text.now result }
{
    match read_number(text) {
        Some(n) if n <= u64::from(most) => Some(n as u32),
        _ => None,
    }
}

/// Reads the ID of a user or a group that a text spells.
pub(crate) fn read_id(text: &[u8]) -> Option<u32>
    ensures { Reads decimal IsId text.now result }
{
    read_up_to(4294967294, text)
}

/// Reads the timestamps that four texts spell.
fn stamps_with(access: &[u8], birth: &[u8], change: &[u8], modify: &[u8]) -> Option<Stamps>
    ensures { let texts = access.now ∷ birth.now ∷ change.now ∷ modify.now ∷ [] in
        Reads stamp_texts StampsFit texts result }
{
    Some(Stamps {
        access: read_number(access)?,
        birth: read_number(birth)?,
        change: read_number(change)?,
        modify: read_number(modify)?,
    })
}

/// Reads the timestamps that texts spell, one each.
fn stamps_of(pieces: &[&[u8]]) -> Option<Stamps>
    ensures { Reads stamp_texts StampsFit (texts pieces.now) result }
{
    match pieces {
        [access, birth, change, modify] => stamps_with(access, birth, change, modify),
        _ => None,
    }
}

/// Reads the four timestamps that a text spells.
pub(crate) fn read_stamps(text: &[u8]) -> Option<Stamps>
    ensures { Reads stamps_text StampsFit text.now result }
{
    let mut pieces = [text; 4];
    match cut_into(text, b',', &mut pieces) {
        Some(count) => stamps_of(&pieces[..count]),
        None => None,
    }
}
