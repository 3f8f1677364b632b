//! Which names and paths elements match.
ghost use Rattle.std.specs.Prelude.{◌≡◌, ◌∷◌, true, false, length};
ghost use Rattle.std.specs.Cmp.Lexicographic.{pointwise};
ghost use Rattle.pv_glob.specs.Matching.{byte_matches, component_matches, matches, name_matches};
ghost use Rattle.pv_path.specs.Paths.{has_staging};

use crate::element::{Component, Element};
use pv_path::{Name, is_staging};

/// Returns whether an element for one byte matches this byte, which is not a period at the beginning of a name.
fn byte_matches(element: &Element, byte: u8) -> bool
    ensures { result ≡ byte_matches element.now false byte }
{
    match element {
        Element::Byte(wanted) => byte == *wanted,
        Element::Any => true,
        Element::Many => false,
        Element::OneOf(set) => set.has(byte),
    }
}

/// Returns whether elements match the rest of a name, or a name that does not begin with a period.
///
/// If a match fails, only the last `*` needs to take one byte more.
fn rest_matches(elements: &[Element], name: &[u8]) -> bool
    ensures { result ≡ name_matches elements.now false name.now }
{
    let mut rest = elements;
    let mut left = name;
    let mut last_many: Option<(&[Element], &[u8])> = None;
    loop {
        match (rest, left) {
            ([Element::Many, behind @ ..], _) => {
                last_many = Some((behind, left));
                rest = behind;
            }
            ([element, behind @ ..], [byte, more @ ..]) if byte_matches(element, *byte) => {
                rest = behind;
                left = more;
            }
            ([], []) => return true,
            _ => match last_many {
                Some((behind, [_, more @ ..])) => {
                    last_many = Some((behind, more));
                    rest = behind;
                    left = more;
                }
                _ => return false,
            },
        }
    }
}

/// Returns whether elements match the name of a period and then these bytes.
fn hidden_matches(elements: &[Element], left: &[u8]) -> bool
    ensures { result ≡ name_matches elements.now true (46 ∷ left.now) }
{
    for (i, element) in elements.iter().enumerate() {
        match element {
            Element::Many => {}
            Element::Byte(wanted) => return *wanted == b'.'
                && rest_matches(&elements[i + 1..], left),
            _ => return false,
        }
    }
    false
}

/// Returns whether a component matches a whole name.
fn component_matches(elements: &[Element], name: &[u8]) -> bool
    ensures { result ≡ component_matches elements.now name.now }
{
    match name {
        [] => rest_matches(elements, name),
        [first, left @ ..] => {
            if *first == b'.' {
                hidden_matches(elements, left)
            } else {
                rest_matches(elements, name)
            }
        }
    }
}

/// Returns whether each component matches the name at the same index.
fn all_match(components: &[Component], names: &[Name]) -> bool
    requires { length components.now ≡ length names.now }
    ensures { result ≡ pointwise component_matches components.now names.now }
{
    components.iter().zip(names).all(|(component, name)| component_matches(
        component.as_slice(),
        name.bytes(),
    ))
}

/// Returns whether at least one name is a staging name.
fn has_staging(names: &[Name]) -> bool
    ensures { result ≡ has_staging names.now }
{
    names.iter().any(|name| is_staging(name.bytes()))
}

/// Returns whether there are as many components as names, each matches its name, and no name is a staging name.
pub(crate) fn names_match(components: &[Component], names: &[Name]) -> bool
    ensures { result ≡ matches components.now names.now }
{
    if components.len() != names.len() {
        return false;
    }
    !has_staging(names) && all_match(components, names)
}
