//! Specifiers and their expansion (tmpfiles.d(5), sysusers.d(5)).
ghost use Rattle.std.specs.Prelude.{◌≡◌, Ok, Err, IfOk, IfErr, MatchResult};
ghost use Rattle.std.specs.Option.{option_map};
ghost use Rattle.pv_text.specs.Specifiers.{fixed_for_both, fixed_for_tmpfiles, from_facts, meaning_of, expanded, FailsSo};

use crate::facts::Facts;
use crate::text_fault::ExpandFault;
use crate::tool::Tool;
use std::alloc::Global;

/// Returns the value of a specifier that is the same for both tools.
fn fixed_for_both(letter: u8) -> Option<&'static [u8]>
    ensures { option_map (λ text. text.now) result ≡ fixed_for_both letter }
{
    match letter {
        b'%' => Some(b"%"),
        b'T' => Some(b"/tmp"),
        b'V' => Some(b"/var/tmp"),
        _ => None,
    }
}

/// Returns the value of a specifier that has a fixed value for `systemd-tmpfiles` alone.
fn fixed_for_tmpfiles(letter: u8) -> Option<&'static [u8]>
    ensures { option_map (λ text. text.now) result ≡ fixed_for_tmpfiles letter }
{
    match letter {
        b'C' => Some(b"/var/cache"),
        b'L' => Some(b"/var/log"),
        b'S' => Some(b"/var/lib"),
        b't' => Some(b"/run"),
        b'g' | b'u' => Some(b"root"),
        b'G' | b'U' => Some(b"0"),
        b'h' => Some(b"/root"),
        _ => None,
    }
}

/// Returns the value of a specifier that is a fact. Without that fact it is an error for some letters, and empty
/// for others.
fn from_facts(letter: u8, facts: &Facts) -> Result<&[u8], ExpandFault>
    ensures { let meant = from_facts facts.now letter in
        MatchResult result (λ text. meant ≡ Ok text.now) (λ e. meant ≡ Err e) }
{
    match letter {
        b'a' | b'b' | b'H' | b'l' | b'm' | b'v' => {
            facts.get(letter).ok_or(ExpandFault::MissingFact)
        }
        b'A' | b'B' | b'M' | b'o' | b'w' | b'W' => Ok(facts.get(letter).unwrap_or(b"")),
        _ => Err(ExpandFault::UnknownSpecifier),
    }
}

/// Returns the value of the specifier with a letter.
fn meaning_of(letter: u8, facts: &Facts, tool: Tool) -> Result<&[u8], ExpandFault>
    ensures { let meant = meaning_of tool facts.now letter in
        MatchResult result (λ text. meant ≡ Ok text.now) (λ e. meant ≡ Err e) }
{
    if let Some(text) = fixed_for_both(letter) {
        return Ok(text);
    }
    if tool == Tool::Tmpfiles {
        if let Some(text) = fixed_for_tmpfiles(letter) {
            return Ok(text);
        }
    }
    from_facts(letter, facts)
}

/// Replaces each specifier in a text by its value (tmpfiles.d(5), sysusers.d(5)). A value is not expanded again.
///
/// A specifier is a percent sign and the byte after it:
///
/// - `%%` is a percent sign, `%T` is `/tmp` and `%V` is `/var/tmp`.
/// - For `systemd-tmpfiles`, `%C` is `/var/cache`, `%L` is `/var/log`, `%S` is `/var/lib`, `%t` is `/run` and `%h`
///   is `/root`.
/// - For `systemd-tmpfiles`, `%g` and `%u` are `root`, and `%G` and `%U` are `0`.
/// - `%a`, `%b`, `%H`, `%l`, `%m` and `%v` are facts. Without that fact the error is `MissingFact`.
/// - `%A`, `%B`, `%M`, `%o`, `%w` and `%W` are facts. Without that fact the value is empty.
///
/// Every other specifier, and a percent sign at the end, is `UnknownSpecifier`. An error is that of the first
/// faulty specifier from the left. `Memory` may come instead if an allocation fails.
pub fn expand(alloc: Global, text: &[u8], facts: &Facts, tool: Tool) -> Result<Vec<u8>, ExpandFault>
    ensures ok { IfOk result (λ v. expanded tool facts.now text.now ≡ Ok v.items) }
    ensures fault { IfErr result (λ e. FailsSo e (expanded tool facts.now text.now)) }
{
    let mut written = Vec::new(alloc);
    let mut rest = text;
    while let [byte, after @ ..] = rest {
        rest = after;
        if *byte != b'%' {
            written.push(*byte)?;
            continue;
        }
        let [letter, after @ ..] = after else {
            return Err(ExpandFault::UnknownSpecifier);
        };
        written.extend_from_slice(meaning_of(*letter, facts, tool)?)?;
        rest = after;
    }
    Ok(written)
}
