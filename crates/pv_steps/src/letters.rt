//! File attribute flags of files and directories, written as letters (chattr(1)).
ghost use Rattle.std.specs.Prelude.{⊤, ◌≡◌, ◌<◌, ◌^◌, ◌↔◌, IsTrue, IfOk, [], ◌∷◌, codes, filter, option_map};
ghost use Rattle.std.specs.Int.RustNames.{bit_and, bit_or};
ghost use Rattle.pv_steps.specs.Letters.{letter_bit, has_letter, letters_of, without_letters, letters_after};

use bitflags::{Flag, Flags, bitflag_items};
use pv_path::Bytes;
use std::alloc::{AllocError, Global};
use std::marker::Model;

/// One bit for each letter, in byte order of the letters.
#[derive(Clone, Copy, PartialEq, Eq)]
struct Letters(u16);

bitflag_items! {
    impl Letters: u16 {
        const A = 1;
        const C = 2;
        const D = 4;
        const P = 8;
        const S = 16;
        const T = 32;
        const a = 64;
        const c = 128;
        const d = 256;
        const e = 512;
        const i = 1024;
        const j = 2048;
        const s = 4096;
        const t = 8192;
        const u = 16384;
    }
}

impl Flags for Letters {
    type Bits = u16;

    ghost exact = { ⊤ };

    ghost table = { (codes "A", 1) ∷ (codes "C", 2) ∷ (codes "D", 4) ∷ (codes "P", 8) ∷ (codes "S", 16) ∷ (codes "T", 32) ∷ (codes "a", 64) ∷ (codes "c", 128) ∷ (codes "d", 256) ∷ (codes "e", 512) ∷ (codes "i", 1024) ∷ (codes "j", 2048) ∷ (codes "s", 4096) ∷ (codes "t", 8192) ∷ (codes "u", 16384) ∷ [] };

    ghost set_of = { λ s. s.0 };

    fn flags<'a>() -> &'a [Flag<Letters>] {
        Letters::FLAGS
    }

    fn bits(&self) -> u16 {
        self.0
    }

    fn from_bits_retain(bits: u16) -> Letters {
        Letters(bits)
    }
}

/// A set of file attribute flags, out of those with the letters `aAcCdDeijPsStTu` (chattr(1)). Only files and
/// directories have such flags.
///
/// In contracts, a value is a number below 2^15. Bit 0 is that of the first letter in byte order, `A`, and bit 14
/// that of the last one, `u`.
#[derive(Clone, Copy)]
pub struct LetterSet {
    flags: Letters,
}

impl Model for LetterSet {
    ghost use Rattle.std.specs.Prelude.{ℕ, ◌<◌, ◌^◌};

    ghost Value = { ℕ };

    ghost view = { λ s. s.flags.0 };

    ghost invariant = { λ s. s.flags.0 < 2 ^ 15 };

    ghost inverse = { λ bits. record { flags = record { 0 = bits } } };
}

/// How flags change a set: the operators `+`, `-` and `=` of chattr(1).
#[derive(Clone, Copy, PartialEq, Eq)]
pub enum LetterHow {
    /// They are added to the set (`+`).
    Add,
    /// They are removed from the set (`-`).
    Take,
    /// They replace the set (`=`).
    Put,
}

impl LetterSet {
    /// Returns the empty set.
    pub fn new() -> LetterSet
        ensures { result ≡ 0 }
    {
        LetterSet { flags: Letters(0) }
    }

    /// Returns the set of the one flag that has this letter, or `None` if the byte is not one of the letters
    /// `aAcCdDeijPsStTu`.
    pub fn of(letter: u8) -> Option<LetterSet>
        ensures { result ≡ letter_bit letter }
    {
        let flags = flag_of(letter)?;
        Some(LetterSet { flags })
    }

    /// Returns whether the flag with this letter is in the set. For a byte that is not a letter of a flag the answer is
    /// `false`.
    pub fn has(self, letter: u8) -> bool
        ensures { result ≡ has_letter self letter }
    {
        match flag_of(letter) {
            Some(flag) => self.flags.contains(flag),
            None => false,
        }
    }

    /// Returns whether no flag is in the set.
    pub fn is_empty(self) -> bool
        ensures { IsTrue result ↔ (self ≡ 0) }
    {
        self.flags.0 == 0
    }

    /// Returns the set as a number below 2^15: bit 0 stands for the first letter in byte order, `A`, and bit 14 for
    /// the last one, `u`.
    pub fn bits(self) -> u16
        ensures value { result ≡ self }
        ensures range { self < 2 ^ 15 }
    {
        self.flags.0
    }

    /// Returns whether two sets have the same flags.
    pub fn is_same(self, other: LetterSet) -> bool
        ensures { IsTrue result ↔ (self ≡ other) }
    {
        self.flags.0 == other.flags.0
    }

    /// Returns the flags that are in at least one of two sets.
    pub fn union(self, other: LetterSet) -> LetterSet
        ensures { result ≡ bit_or self other }
    {
        LetterSet {
            flags: self.flags.union(other.flags),
        }
    }

    /// Returns the flags of the set that are not in `other`.
    pub fn without(self, other: LetterSet) -> LetterSet
        ensures { result ≡ without_letters self other }
    {
        LetterSet {
            flags: Letters(self.flags.0 & (32767 - other.flags.0)),
        }
    }

    /// Returns the set that the operator `how` makes of this set and `letters`, as chattr(1) does.
    pub fn after(self, how: LetterHow, letters: LetterSet) -> LetterSet
        ensures { result ≡ letters_after how letters self }
    {
        match how {
            LetterHow::Add => self.union(letters),
            LetterHow::Take => self.without(letters),
            LetterHow::Put => letters,
        }
    }

    /// Returns the letters of the flags in the set, in byte order. The only error is `AllocError`.
    pub fn letters(self, alloc: Global) -> Result<Bytes, AllocError>
        ensures { IfOk result (λ letters. letters ≡ letters_of self) }
    {
        Ok(Bytes::from_vec(letters_in(alloc, self, b"ACDPSTacdeijstu")?))
    }
}

/// Returns those of the given letters whose flags are in the set.
fn letters_in(alloc: Global, set: LetterSet, letters: &[u8]) -> Result<Vec<u8>, AllocError>
    ensures { IfOk result (λ chosen. chosen.items ≡ filter (has_letter set) letters.now) }
{
    letters
        .iter()
        .copied()
        .filter(|letter| set.has(*letter))
        .collect(alloc)
}

/// Returns the flag with this letter, or `None` if there is none.
fn flag_of(letter: u8) -> Option<Letters>
    ensures { option_map (λ s. s.0) result ≡ letter_bit letter }
{
    match letter {
        b'A' => Some(Letters::A),
        b'C' => Some(Letters::C),
        b'D' => Some(Letters::D),
        b'P' => Some(Letters::P),
        b'S' => Some(Letters::S),
        b'T' => Some(Letters::T),
        b'a' => Some(Letters::a),
        b'c' => Some(Letters::c),
        b'd' => Some(Letters::d),
        b'e' => Some(Letters::e),
        b'i' => Some(Letters::i),
        b'j' => Some(Letters::j),
        b's' => Some(Letters::s),
        b't' => Some(Letters::t),
        b'u' => Some(Letters::u),
        _ => None,
    }
}
