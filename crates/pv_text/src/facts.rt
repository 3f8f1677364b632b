//! What an image says about its system: the values of specifiers such as `%b`, by their letters.
ghost use Rattle.std.specs.Prelude.{◌≡◌, ℕ, List, true, None, OnOk, OnErr};
ghost use Rattle.std.specs.Option.{option_copied};
ghost use Rattle.std.specs.Ordering.{nat_cmp};
ghost use Rattle.std.specs.FinMap as map;
ghost use Rattle.std.specs.Coded.{coded_ℕ, coded_list};
ghost use Rattle.pv_text.specs.Facts.{is_fact, are_facts, HasFactsAlone};

use pv_path::Bytes;
use std::alloc::{AllocError, Global};
use std::collections::BTreeMap;
use std::marker::Model;

/// The letters of the specifiers whose values are facts, in byte order (tmpfiles.d(5)).
pub const FACT_LETTERS: [u8; 12] = *b"ABHMWablmovw";

/// The facts of an image: values of some of the specifiers in `FACT_LETTERS`, each of 1 to 255 bytes.
///
/// For example, the letter `b` has the boot ID. In contracts, a value is the finite map from letters to values.
#[derive(Drop)]
pub struct Facts {
    values: BTreeMap<u8, Bytes>,
    alloc: Global,
}

impl Model for Facts {
    ghost Value = { map.FinMap nat_cmp (List ℕ) };

    ghost coded = { map.code coded_ℕ (coded_list coded_ℕ) };

    ghost view = { λ f. map.from_entries f.values.entries };

    ghost invariant = { λ f. are_facts f.values.entries ≡ true };
}

impl Facts {
    /// Returns a value without any fact. The call does not allocate.
    pub fn new(alloc: Global) -> Facts
        ensures { result ≡ map.empty }
    {
        Facts {
            values: BTreeMap::new(alloc),
            alloc,
        }
    }

    /// Adds a fact: the value of the specifier with this letter.
    ///
    /// The letter must be one of `FACT_LETTERS` and must have no value yet, and `value` must have 1 to 255 bytes. The
    /// only error is `AllocError`, and then the facts are unchanged.
    pub fn put(&mut self, letter: u8, value: &[u8]) -> Result<(), AllocError>
        requires fact { is_fact letter value.now ≡ true }
        requires new { map.get self.old letter ≡ None }
        ensures ok { OnOk result (self.new ≡ map.insert self.old letter value.now) }
        ensures err { OnErr result (self.new ≡ self.old) }
    {
        let value = Bytes::copy_of(self.alloc, value)?;
        let _replaced = self.values.insert(letter, value)?;
        Ok(())
    }

    /// Returns the value of the specifier with this letter, or `None` if there is no such fact. The call does not
    /// allocate.
    pub fn get(&self, letter: u8) -> Option<&[u8]>
        ensures value { option_copied result ≡ map.get self.now letter }
        ensures facts { HasFactsAlone self.now }
    {
        match self.values.get(&letter) {
            Some(value) => Some(value.as_slice()),
            None => None,
        }
    }
}
