//! Reads a pattern from a text.
ghost use Rattle.std.specs.Prelude.{◌≡◌, ◌<◌, length, map, IfOk};
ghost use Rattle.pv_glob.specs.Parsing.{Gives, component_of, components_of, first_fault, name_fault, pattern_of, pattern_with};

use crate::braces::expansions_within;
use crate::component::{early_fault, has_fault, name_fault};
use crate::pattern::Pattern;
use crate::pattern_fault::PatternFault;
use crate::plain::Plain;
use crate::words::Words;
use std::alloc::{AllocError, Global};

/// The longest text that may spell a pattern, in bytes.
const MOST_TEXT_BYTES: usize = 4095;

/// The most expansions that a pattern may have.
const MOST_EXPANSIONS: usize = 256;

/// Reads a pattern of absolute paths from a text (glob(7), and for the braces bash(1)).
///
/// Slashes in a row count as one, and slashes at the end are dropped. Each component matches one name of a path:
///
/// - `*` matches any number of bytes, including none, and `?` matches one byte.
/// - `[..]` matches one byte of a set, such as `[a-c]`, `[!a-c]` or `[[:digit:]]`.
/// - `{..,..}` stands for any one of its alternatives. Pairs of braces may be nested, and may not contain a slash.
/// - A backslash and another byte match that byte, and every other byte matches itself.
/// - A period at the beginning of a name is matched only by that byte in the pattern, not by a wildcard or a
///   bracket.
///
/// The length of a single component has no limit of its own. For example, `/var/{log,cache}/*.tmp` matches
/// `/var/log/a.tmp`.
///
/// An error is the first of these that applies:
///
/// - `NotAbsolute`, `BadByte` or `PathTooLong`, which are faults of the whole text;
/// - `DotComponent` or `StagingName`, of the first component from the left that has one of them;
/// - `UnclosedBracket`, `BadRange`, `BadClass`, `Brace` or `TrailingBackslash`, of the first component that has one
///   of them.
///
/// `Memory` may come instead if an allocation fails.
pub fn parse_pattern(alloc: Global, text: &[u8]) -> Result<Pattern, PatternFault>
    ensures { Gives result (pattern_of text.now) }
{
    if text.first() != Some(&b'/') {
        return Err(PatternFault::NotAbsolute);
    }
    if text.contains(&0) {
        return Err(PatternFault::BadByte);
    }
    if text.len() > MOST_TEXT_BYTES {
        return Err(PatternFault::PathTooLong);
    }
    let components = components_of(alloc, text)?;
    pattern_with(alloc, components.as_slice())
}

/// Returns what is between the slashes of a text, without empty components.
fn components_of(alloc: Global, text: &[u8]) -> Result<Vec<&[u8]>, AllocError>
    ensures { IfOk result (λ v. map (λ s. s.now) v.items ≡ components_of text.now) }
{
    text.split(|b| *b == b'/')
        .filter(|component| component.len() > 0)
        .collect(alloc)
}

/// Returns the first fault of a component as a name of a path.
fn first_name_fault(components: &[&[u8]]) -> Option<PatternFault>
    ensures { result ≡ first_fault name_fault (map (λ s. s.now) components.now) }
{
    for component in components {
        if let Some(fault) = name_fault(component) {
            return Some(fault);
        }
    }
    None
}

/// Returns the expansions of a component, or its fault. The components before it have `before` expansions together.
fn component_of(alloc: Global, component: &[u8], before: usize) -> Result<Words, PatternFault>
    requires { 0 < before }
    ensures value { Gives result (component_of before component.now) }
    ensures some { IfOk result (λ words. 0 < length words) }
{
    if let Some(fault) = early_fault(component) {
        return Err(fault);
    }
    let Some(words) = expansions_within(alloc, component, MOST_EXPANSIONS / before)? else {
        return Err(PatternFault::Brace);
    };
    if has_fault(component, PatternFault::TrailingBackslash) {
        return Err(PatternFault::TrailingBackslash);
    }
    Ok(words)
}

/// Returns the pattern of these components, or their first fault.
fn pattern_with(alloc: Global, components: &[&[u8]]) -> Result<Pattern, PatternFault>
    ensures { Gives result (pattern_with (map (λ s. s.now) components.now)) }
{
    if let Some(fault) = first_name_fault(components) {
        return Err(fault);
    }
    let mut pattern = Pattern::of(alloc, Plain::root(alloc))?;
    for component in components {
        let words = component_of(alloc, component, pattern.plains().len())?;
        pattern = pattern.followed(alloc, words.as_slice())?;
    }
    Ok(pattern)
}
