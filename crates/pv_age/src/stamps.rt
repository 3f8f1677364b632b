//! The timestamps that an age looks at, by their letters.
ghost use Rattle.std.specs.Prelude.{⊤, ◌≡◌, ◌==◌, [], ◌∷◌, codes, option_map};
ghost use Rattle.std.specs.Int.RustNames.{bit_and};
ghost use Rattle.pv_age.specs.Stamps.{letter_bit, stamps_of, stamps_with};

use crate::age_fault::AgeFault;
use bitflags::{Flag, Flags, bitflag_items};

/// A set of the timestamps that an age looks at, one for each letter (tmpfiles.d(5), "Age").
///
/// The letters are `a` (access), `b` (birth), `c` (change) and `m` (modify). A lower case letter is for objects that
/// are not directories, an upper case letter for directories.
#[derive(Clone, Copy, PartialEq, Eq)]
pub struct StampSet(u8);

bitflag_items! {
    impl StampSet: u8 {
        const a = 1;
        const A = 2;
        const b = 4;
        const B = 8;
        const c = 16;
        const C = 32;
        const m = 64;
        const M = 128;
    }
}

impl Flags for StampSet {
    type Bits = u8;

    ghost exact = { ⊤ };

    ghost table = { (codes "a", 1) ∷ (codes "A", 2) ∷ (codes "b", 4) ∷ (codes "B", 8) ∷ (codes "c", 16) ∷ (codes "C", 32) ∷ (codes "m", 64) ∷ (codes "M", 128) ∷ [] };

    ghost set_of = { λ s. s.0 };

    fn flags<'a>() -> &'a [Flag<StampSet>] {
        StampSet::FLAGS
    }

    fn bits(&self) -> u8 {
        self.0
    }

    fn from_bits_retain(bits: u8) -> StampSet {
        StampSet(bits)
    }
}

/// Reads a list of timestamp letters as a set. A repeated letter has no further effect.
///
/// The error is `BadStampLetter` if the list is empty or has a byte that is not such a letter.
pub(crate) fn stamps_of(list: &[u8]) -> Result<StampSet, AgeFault>
    ensures { result ≡ stamps_of list.now }
{
    if list.is_empty() {
        return Err(AgeFault::BadStampLetter);
    }
    let mut stamps = StampSet(0);
    for letter in list {
        let stamp = stamp_of(*letter).ok_or(AgeFault::BadStampLetter)?;
        stamps.insert(stamp);
    }
    Ok(stamps)
}

/// Returns the timestamp of a letter, if the letter has one.
fn stamp_of(letter: u8) -> Option<StampSet>
    ensures { option_map (λ s. s.0) result ≡ letter_bit letter }
{
    match letter {
        b'a' => Some(StampSet::a),
        b'A' => Some(StampSet::A),
        b'b' => Some(StampSet::b),
        b'B' => Some(StampSet::B),
        b'c' => Some(StampSet::c),
        b'C' => Some(StampSet::C),
        b'm' => Some(StampSet::m),
        b'M' => Some(StampSet::M),
        _ => None,
    }
}
