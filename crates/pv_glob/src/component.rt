//! Reads the elements of a component, and finds their faults.
ghost use Rattle.std.specs.Prelude.{◌≡◌, [], ◌∷◌, ◌<◌, find, length, IfOk};
ghost use Rattle.std.specs.List.{list_any};
ghost use Rattle.pv_glob.specs.declared.pattern_fault.PatternFault.TheVariants.{UnclosedBracket, BadRange, BadClass, Brace};
ghost use Rattle.pv_glob.specs.Elements.{element_at, element_length, elements_of, has_fault_at, set_of};
ghost use Rattle.pv_glob.specs.Parsing.{name_fault};

use crate::bracket::{
    behind, body_of, byte_at, has_bad_class, has_bad_range, has_sign, ranges_of, sign_length,
};
use crate::element::{ByteSet, Element};
use crate::pattern_fault::PatternFault;
use pv_path::is_staging;
use std::alloc::{AllocError, Global};

/// Returns how many bytes the element at the beginning of `place` has.
pub(crate) fn element_length(place: &[u8]) -> usize
    requires { 0 < length place.now }
    ensures value { result ≡ element_length place.now }
    ensures positive { 0 < result }
{
    let text = behind(place, 1);
    match place[0] {
        b'\\' => 2,
        b'[' => match body_of(text) {
            Some(body) => sign_length(text) + body.len() + 2,
            None => text.len() + 1,
        },
        _ => 1,
    }
}

/// Returns the set of a bracket, from the text after its `[`.
fn set_of(alloc: Global, text: &[u8]) -> Result<ByteSet, AllocError>
    ensures { IfOk result (λ set. set ≡ set_of text.now) }
{
    let body = body_of(text).unwrap_or(&[]);
    Ok(ByteSet {
        negated: has_sign(text),
        ranges: ranges_of(alloc, body)?,
    })
}

/// Returns the element at the beginning of `place`.
pub(crate) fn element_at(alloc: Global, place: &[u8]) -> Result<Element, AllocError>
    requires { 0 < length place.now }
    ensures { IfOk result (λ element. element ≡ element_at place.now) }
{
    Ok(match place[0] {
        b'\\' => Element::Byte(byte_at(place, 1)),
        b'*' => Element::Many,
        b'?' => Element::Any,
        b'[' => Element::OneOf(set_of(alloc, behind(place, 1))?),
        byte => Element::Byte(byte),
    })
}

/// Returns whether the element at the beginning of `place` has this fault.
fn has_fault_at(place: &[u8], fault: PatternFault) -> bool
    requires { 0 < length place.now }
    ensures { result ≡ has_fault_at fault place.now }
{
    let text = behind(place, 1);
    let first = place[0];
    match fault {
        PatternFault::UnclosedBracket => first == b'[' && body_of(text).is_none(),
        PatternFault::BadRange => first == b'[' && has_bad_range(body_of(text).unwrap_or(&[])),
        PatternFault::BadClass => first == b'[' && has_bad_class(body_of(text).unwrap_or(&[])),
        PatternFault::Brace => first == b'{' && byte_at(text, 0) == b'}',
        PatternFault::TrailingBackslash => first == b'\\' && text.is_empty(),
        _ => false,
    }
}

/// Returns whether an element of a component has this fault.
pub(crate) fn has_fault(component: &[u8], fault: PatternFault) -> bool
    ensures { result ≡ list_any (has_fault_at fault) (elements_of component.now) }
{
    let mut rest = component;
    while !rest.is_empty() {
        if has_fault_at(rest, fault) {
            return true;
        }
        rest = behind(rest, element_length(rest));
    }
    false
}

/// Returns the first fault that the elements of a component have before its braces are paired.
pub(crate) fn early_fault(component: &[u8]) -> Option<PatternFault>
    ensures { result ≡ find (λ f. list_any (has_fault_at f) (elements_of component.now)) (UnclosedBracket ∷ BadRange ∷ BadClass ∷ Brace ∷ []) }
{
    if has_fault(component, PatternFault::UnclosedBracket) {
        Some(PatternFault::UnclosedBracket)
    } else if has_fault(component, PatternFault::BadRange) {
        Some(PatternFault::BadRange)
    } else if has_fault(component, PatternFault::BadClass) {
        Some(PatternFault::BadClass)
    } else if has_fault(component, PatternFault::Brace) {
        Some(PatternFault::Brace)
    } else {
        None
    }
}

/// Returns what is wrong with a component as a name of a path, or `None` if nothing is.
pub(crate) fn name_fault(component: &[u8]) -> Option<PatternFault>
    ensures { result ≡ name_fault component.now }
{
    if matches!(component, b"." | b"..") {
        Some(PatternFault::DotComponent)
    } else if is_staging(component) {
        Some(PatternFault::StagingName)
    } else {
        None
    }
}
