//! Which elements of a component may take the next byte of a name.
ghost use Rattle.std.specs.Prelude.{◌≡◌, ◌+◌, ◌<◌, ◌≤◌, ◌∷◌, ◌++◌, [], All, length, drop, IfOk, if◌then◌else◌};
ghost use Rattle.pv_glob.specs.Pairs.{behind, element_at, is_many, past_stars, stars, takers, takes};

use crate::element::Element;
use std::alloc::{AllocError, Global};

/// Returns whether an element takes a byte. `first` says whether it is the first byte of a name.
fn takes(element: &Element, first: bool, byte: u8) -> bool
    ensures { result ≡ takes element.now first byte }
{
    let hiding = first && byte == b'.';
    match element {
        Element::Byte(wanted) => byte == *wanted,
        Element::Any | Element::Many => !hiding,
        Element::OneOf(set) => !hiding && set.has(byte),
    }
}

/// Returns whether an element is `*`.
pub(crate) fn is_many(element: &Element) -> bool
    ensures { result ≡ is_many element.now }
{
    matches!(element, Element::Many)
}

/// Returns whether the element at an index takes a byte.
pub(crate) fn takes_at(elements: &[Element], at: usize, first: bool, byte: u8) -> bool
    requires { at < length elements.now }
    ensures { result ≡ takes (element_at elements.now at) first byte }
{
    takes(&elements[at], first, byte)
}

/// Returns the index at which a component goes on after the element at `at` took a byte.
pub(crate) fn behind(elements: &[Element], at: usize) -> usize
    requires { at < length elements.now }
    ensures value { result ≡ behind elements.now at }
    ensures inside { result ≤ length elements.now }
{
    if is_many(&elements[at]) { at } else { at + 1 }
}

/// Returns how many `*` the elements begin with.
fn stars(elements: &[Element]) -> usize
    ensures value { result ≡ stars elements.now }
    ensures inside { result ≤ length elements.now }
{
    elements
        .iter()
        .take_while(|element| is_many(element))
        .count()
}

/// Returns the first index from `at` on whose element is not `*`, or the length.
pub(crate) fn past_stars(elements: &[Element], at: usize) -> usize
    requires { at ≤ length elements.now }
    ensures value { result ≡ past_stars elements.now at }
    ensures inside { result ≤ length elements.now }
{
    at + stars(&elements[at..])
}

/// Returns the indices of the elements that may take the next byte.
pub(crate) fn takers(
    alloc: Global,
    elements: &[Element],
    at: usize,
) -> Result<Vec<usize>, AllocError>
    requires { at ≤ length elements.now }
    ensures value { IfOk result (λ places. places.items ≡ takers elements.now at) }
    ensures inside { IfOk result (λ places. All (λ place. place < length elements.now) places.items) }
{
    let mut places = Vec::new(alloc);
    if at < elements.len() && is_many(&elements[at]) {
        places.push(at)?;
    }
    let place = past_stars(elements, at);
    if place < elements.len() {
        places.push(place)?;
    }
    Ok(places)
}
