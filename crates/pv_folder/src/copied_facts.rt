//! Copies facts.
ghost use Rattle.std.specs.Prelude.{◌≡◌, ◌==◌, ℕ, None, IfOk, OnOk, if◌then◌else◌};
ghost use Rattle.std.specs.FinMap as fin;

use pv_text::{FACT_LETTERS, Facts};
use std::alloc::{AllocError, Global};

/// Gives a letter the value that it has among other facts, if it has one.
fn copy_fact(copy: &mut Facts, facts: &Facts, letter: u8) -> Result<(), AllocError>
    requires { fin.get copy.old letter ≡ None }
    ensures { OnOk result ((l : ℕ) →
        fin.get copy.new l ≡ (if letter == l then fin.get facts.now l else fin.get copy.old l)) }
{
    match facts.get(letter) {
        Some(value) => copy.put(letter, value),
        None => Ok(()),
    }
}

/// Copies the facts.
pub(crate) fn copy_of(alloc: Global, facts: &Facts) -> Result<Facts, AllocError>
    ensures { IfOk result (λ copy. copy ≡ facts.now) }
{
    let _alone = facts.get(b'A');
    let mut copy = Facts::new(alloc);
    for letter in &FACT_LETTERS {
        copy_fact(&mut copy, facts, *letter)?;
    }
    Ok(copy)
}
