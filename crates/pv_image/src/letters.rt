//! The column of file attribute flags (chattr(1)).
ghost use Rattle.std.specs.Prelude.{◌≡◌, ◌↔◌, ℕ, ◌<◌, ◌^◌, bit_or, IsTrue, IfOk, if◌then◌else◌};
ghost use Rattle.std.specs.Option.{option_map_or};
ghost use Rattle.pv_steps.specs.Letters.{letter_bit, letters_of};
ghost use Rattle.pv_image.specs.Spelling.{letters_text};
ghost use Rattle.pv_image.specs.Reading.{IsLetters, Reads};

use crate::payload::is_dash;
use pv_steps::LetterSet;
use std::alloc::{AllocError, Global};

/// Returns a set with the flag of one more letter, if that is wanted.
fn with_letter(set: LetterSet, letter: u8, wanted: bool) -> LetterSet
    ensures { result ≡ option_map_or (λ bit. if wanted then bit_or set bit else set) (letter_bit letter) set }
{
    match LetterSet::of(letter) {
        Some(one) => { if wanted { set.union(one) } else { set } }
        None => set,
    }
}

/// Returns the set of the flags whose letters are in a text.
fn letters_in(text: &[u8]) -> LetterSet
    ensures { (s : ℕ) → s < 2 ^ 15 → letters_of s ≡ text.now → result ≡ s }
{
    let mut set = LetterSet::new();
    for letter in b"ACDPSTacdeijstu" {
        set = with_letter(set, *letter, text.contains(letter));
    }
    set
}

/// Returns whether a text has exactly the letters of a set, in byte order.
fn are_letters(alloc: Global, set: LetterSet, text: &[u8]) -> Result<bool, AllocError>
    ensures { IfOk result (λ same. IsTrue same ↔ (letters_of set ≡ text.now)) }
{
    let letters = set.letters(alloc)?;
    Ok(letters.as_slice() == text)
}

/// Reads the set of flags that a text spells, or gives `None` if it does not spell one.
pub(crate) fn read_letters(alloc: Global, text: &[u8]) -> Result<Option<LetterSet>, AllocError>
    ensures { IfOk result (Reads letters_text IsLetters text.now) }
{
    if is_dash(text) {
        return Ok(Some(LetterSet::new()));
    }
    if text.is_empty() {
        return Ok(None);
    }
    let set = letters_in(text);
    let _range = set.bits();
    if !are_letters(alloc, set, text)? {
        return Ok(None);
    }
    Ok(Some(set))
}
