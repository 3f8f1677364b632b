//! Which reaches are surely equal.
ghost use Rattle.std.specs.Prelude.{◌≡◌, ℕ, ◌<◌, ◌^◌, ◌++◌, ◌∷◌, [], true, length, map, IfOk, OnOk};
ghost use Rattle.pv_overlap.specs.Alike.{byte_for, spelled, spelling_of, AreFirsts};
ghost use Rattle.pv_overlap.specs.Subjects.{reach_at};

use pv_glob::{Component, Element, Plain, Reach};
use std::alloc::{AllocError, Global};
use std::collections::HashMap;

/// Returns the byte by which an element is spelled. Some elements have the same byte.
fn byte_for(element: &Element) -> u8
    ensures { result ≡ byte_for element.now }
{
    match element {
        Element::Byte(byte) => *byte,
        Element::Any => b'?',
        Element::Many => b'*',
        Element::OneOf(_) => b'[',
    }
}

/// Adds a slash and the bytes of a component to a text.
fn add_spelled(text: &mut Vec<u8>, component: &[Element]) -> Result<(), AllocError>
    ensures { OnOk result (text.new.items ≡ text.old.items ++ 47 ∷ map byte_for component.now) }
{
    text.push(b'/')?;
    for element in component {
        text.push(byte_for(element))?;
    }
    Ok(())
}

/// Returns the spelling of components. Different components may have the same one.
fn spelled(alloc: Global, components: &[Component]) -> Result<Vec<u8>, AllocError>
    ensures { IfOk result (λ text. text.items ≡ spelled components.now) }
{
    let mut text = Vec::new(alloc);
    for component in components {
        add_spelled(&mut text, component.as_slice())?;
    }
    Ok(text)
}

/// Returns `true` only if two elements are equal. Brackets are not compared.
fn are_same(a: &Element, b: &Element) -> bool
    ensures { result ≡ true → a.now ≡ b.now }
{
    match (a, b) {
        (Element::Byte(x), Element::Byte(y)) => x == y,
        (Element::Any, Element::Any) => true,
        (Element::Many, Element::Many) => true,
        _ => false,
    }
}

/// Returns `true` only if two components are equal.
fn are_same_component(a: &[Element], b: &[Element]) -> bool
    ensures { result ≡ true → a.now ≡ b.now }
{
    for (i, element) in a.iter().enumerate() {
        if i >= b.len() || !are_same(element, &b[i]) {
            return false;
        }
    }
    a.len() == b.len()
}

/// Returns `true` only if the components of two patterns are equal.
fn are_same_components(a: &[Component], b: &[Component]) -> bool
    ensures { result ≡ true → a.now ≡ b.now }
{
    for (i, component) in a.iter().enumerate() {
        if i >= b.len() || !are_same_component(component.as_slice(), b[i].as_slice()) {
            return false;
        }
    }
    a.len() == b.len()
}

/// Returns `true` only if two patterns are equal. Patterns with braces are not compared.
fn are_same_plains(a: &[Plain], b: &[Plain]) -> bool
    ensures { result ≡ true → a.now ≡ b.now }
{
    match (a, b) {
        ([x], [y]) => are_same_components(x.components(), y.components()),
        _ => false,
    }
}

/// Returns `true` only if two reaches are equal. Those of patterns with braces or brackets are not compared.
fn are_same_reaches(a: &Reach, b: &Reach) -> bool
    ensures { result ≡ true → a.now ≡ b.now }
{
    a.below == b.below && are_same_plains(a.pattern.plains(), b.pattern.plains())
}

/// Returns the index of an earlier reach if that is surely equal to the one at an index. Otherwise, it returns this
/// index.
fn first_for(reaches: &[Reach], earlier: u32, at: u32) -> u32
    requires { at < length reaches.now }
    ensures inside { result < length reaches.now }
    ensures same { reach_at reaches.now result ≡ reach_at reaches.now at }
{
    if (earlier as usize) < reaches.len()
        && are_same_reaches(&reaches[earlier as usize], &reaches[at as usize])
    {
        earlier
    } else {
        at
    }
}

/// Returns the spelling of a reach without braces.
fn spelling_of(alloc: Global, reach: &Reach) -> Result<Vec<u8>, AllocError>
    ensures { IfOk result (λ text. text.items ≡ spelling_of reach.now) }
{
    match reach.pattern.plains() {
        [plain] => spelled(alloc, plain.components()),
        _ => Ok(Vec::new(alloc)),
    }
}

/// Returns for each reach the index of an equal one. Of reaches with one spelling this is mostly the first.
pub(crate) fn firsts_of(alloc: Global, reaches: &[Reach]) -> Result<Vec<u32>, AllocError>
    requires few { length reaches.now < 2 ^ 32 }
    ensures { IfOk result (λ firsts. AreFirsts reaches.now firsts.items) }
{
    let mut known: HashMap<Vec<u8>, u32> = HashMap::new(alloc);
    let mut firsts = Vec::new(alloc);
    for (i, reach) in reaches.iter().enumerate() {
        let spelling = spelling_of(alloc, reach)?;
        let earlier = known.get(&spelling).copied().unwrap_or(i as u32);
        let first = first_for(reaches, earlier, i as u32);
        known.insert(spelling, first)?;
        firsts.push(first)?;
    }
    Ok(firsts)
}
