//! Words of elements, among which braces choose.
ghost use Rattle.std.specs.Prelude.{◌≡◌, [], ◌∷◌, ◌++◌, map, IfOk, OnOk};
ghost use Rattle.pv_glob.specs.Braces.{joined};

use crate::element::{Component, Element};
use pv_path::Sequence;
use std::alloc::{AllocError, Global};

/// Words of elements, in the order of the alternatives that they choose.
pub(crate) type Words = Sequence<Component>;

/// Adds copies of the elements `more` at the end of a word.
fn append(word: &mut Component, more: &[Element]) -> Result<(), AllocError>
    ensures { OnOk result (word.new ≡ word.old ++ more.now) }
{
    for element in more {
        word.push(element.copy()?)?;
    }
    Ok(())
}

/// Returns one word followed by another.
fn chained(alloc: Global, first: &[Element], second: &[Element]) -> Result<Component, AllocError>
    ensures { IfOk result (λ word. word ≡ first.now ++ second.now) }
{
    let mut word = Component::new(alloc);
    append(&mut word, first)?;
    append(&mut word, second)?;
    Ok(word)
}

/// Adds one word followed by each of the words `seconds`.
fn add_joined(
    alloc: Global,
    words: &mut Words,
    first: &[Element],
    seconds: &[Component],
) -> Result<(), AllocError>
    ensures { OnOk result (words.new ≡ words.old ++ map (λ second. first.now ++ second) seconds.now) }
{
    for second in seconds {
        words.push(chained(alloc, first, second.as_slice())?)?;
    }
    Ok(())
}

/// Returns copies of each of the first words followed by each of the second.
fn product(alloc: Global, firsts: &[Component], seconds: &[Component]) -> Result<Words, AllocError>
    ensures { IfOk result (λ words. words ≡ joined firsts.now seconds.now) }
{
    let mut words = Words::new(alloc);
    for first in firsts {
        add_joined(alloc, &mut words, first.as_slice(), seconds)?;
    }
    Ok(words)
}

/// Returns the words, each followed by these elements.
pub(crate) fn lengthened(words: Words, more: &[Element]) -> Result<Words, AllocError>
    ensures { IfOk result (λ longer. longer ≡ map (λ word. word ++ more.now) words) }
{
    let mut words = words.into_vec();
    for word in words.iter_mut() {
        append(word, more)?;
    }
    Ok(Words::from_vec(words))
}

/// Returns each of the first words followed by each of the second. If there is one second word, the first are not
/// copied.
pub(crate) fn joined(
    alloc: Global,
    firsts: Words,
    seconds: &[Component],
) -> Result<Words, AllocError>
    ensures { IfOk result (λ words. words ≡ joined firsts seconds.now) }
{
    match seconds {
        [only] => lengthened(firsts, only.as_slice()),
        _ => product(alloc, firsts.as_slice(), seconds),
    }
}

/// Returns the words of two lists, one list after the other.
pub(crate) fn together(words: Words, more: Words) -> Result<Words, AllocError>
    ensures { IfOk result (λ all. all ≡ words ++ more) }
{
    let mut all = words.into_vec();
    all.append(&mut more.into_vec())?;
    Ok(Words::from_vec(all))
}

/// Returns the list of one word, which has no elements.
pub(crate) fn empty_word(alloc: Global) -> Result<Words, AllocError>
    ensures { IfOk result (λ words. words ≡ [] ∷ []) }
{
    let mut words = Words::new(alloc);
    words.push(Component::new(alloc))?;
    Ok(words)
}
