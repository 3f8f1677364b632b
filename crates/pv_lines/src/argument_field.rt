//! The field Argument, by what the type takes.
ghost use Rattle.std.specs.Prelude.{◌≡◌, ◌==◌, map, IfOk, IfSome};
ghost use Rattle.std.specs.List.{slice_split};
ghost use Rattle.std.specs.Option.{option_map};
ghost use Rattle.pv_lines.specs.ArgumentField.{Lookup, argument_of, bytes_of, checked_target, content_of, device_in, device_of, entries_of, factory, filled, filled_text, needed_text, number_32, source_of, target_of, text_or_factory, written_of};
ghost use Rattle.pv_lines.specs.Lines.{IsArgument};
ghost use Rattle.pv_lines.specs.Faults.{Gives};

use crate::attributes::{attrs_of, letters_of};
use crate::line::{Argument, LinePath};
use crate::line_fault::LineFault;
use crate::path_field::expansion;
use crate::type_field::Typed;
use crate::types::Wanted;
use base64::DecodeAllocError;
use base64::engine::general_purpose::STANDARD;
use pv_acl::{Names, number, parse_acl};
use pv_path::{Bytes, PathFault, TreePath, parse_path};
use pv_text::Facts;
use std::alloc::{AllocError, Global};

/// Returns the bytes of an argument: decoded from Base64, or with its specifiers expanded.
fn bytes_of(alloc: Global, text: &[u8], facts: &Facts, encoded: bool) -> Result<Bytes, LineFault>
    ensures { Gives result (bytes_of facts.now encoded text.now) }
{
    if !encoded {
        return expansion(alloc, text, facts);
    }
    match STANDARD.decode(alloc, text) {
        Ok(bytes) => Ok(Bytes::from_vec(bytes)),
        Err(DecodeAllocError::OutOfMemory) => Err(LineFault::Memory),
        Err(DecodeAllocError::DecodeError(_)) => Err(LineFault::BadBase64),
    }
}

/// Returns the path of the line below `/usr/share/factory`.
fn factory(alloc: Global, path: &LinePath) -> Result<Bytes, AllocError>
    ensures { IfOk result (λ text. text ≡ factory path.now) }
{
    let LinePath::Literal(path) = path else {
        return Ok(Bytes::new(alloc));
    };
    let mut text = Vec::from_slice(alloc, b"/usr/share/factory")?;
    for name in path.names() {
        text.push(b'/')?;
        text.extend_from_slice(name.bytes())?;
    }
    Ok(Bytes::from_vec(text))
}

/// Returns the text of a target or of a source. If it is omitted, it is the path below `/usr/share/factory`.
fn text_or_factory(
    alloc: Global,
    field: Option<&[u8]>,
    facts: &Facts,
    path: &LinePath,
) -> Result<Bytes, LineFault>
    ensures { Gives result (text_or_factory facts.now path.now (option_map (λ s. s.now) field.entry)) }
{
    match field {
        Some(text) => expansion(alloc, text, facts),
        None => Ok(factory(alloc, path)?),
    }
}

/// Checks that a text may be the target of a link.
fn checked_target(text: Bytes) -> Result<Bytes, LineFault>
    ensures { result ≡ checked_target text }
{
    if text.is_empty() {
        Err(LineFault::ArgumentNeeded)
    } else if text.as_slice().contains(&0) {
        Err(LineFault::Path(PathFault::BadByte))
    } else if text.len() > 4095 {
        Err(LineFault::Path(PathFault::PathTooLong))
    } else {
        Ok(text)
    }
}

/// Reads a decimal number of 32 bits, or gives nothing.
fn number_32(text: &[u8]) -> Option<u32>
    ensures { result ≡ number_32 text.now }
{
    match number(text) {
        Some(number) if number <= 4_294_967_295 => Some(number as u32),
        _ => None,
    }
}

/// Splits a text at its colons.
fn parts_of(alloc: Global, text: &[u8]) -> Result<Vec<&[u8]>, AllocError>
    ensures { IfOk result (λ parts. map (λ part. part.now) parts.items ≡ slice_split (λ b. b == 58) text.now) }
{
    text.split(|byte| *byte == b':').collect(alloc)
}

/// Returns the device of some parts, if they are two numbers.
fn device_in(parts: &[&[u8]]) -> Option<Argument>
    ensures fits { IfSome result (IsArgument Wanted.Device) }
    ensures value { result ≡ device_in (map (λ part. part.now) parts.now) }
{
    let [major, minor] = parts else {
        return None;
    };
    Some(Argument::Device {
        major: number_32(major)?,
        minor: number_32(minor)?,
    })
}

/// Reads a device, `MAJOR:MINOR`, or gives the error.
fn device_of(alloc: Global, text: &[u8]) -> Result<Argument, LineFault>
    ensures read { Gives result (device_of text.now) }
    ensures fits { IfOk result (IsArgument Wanted.Device) }
{
    let parts = parts_of(alloc, text)?;
    match device_in(parts.as_slice()) {
        Some(device) => Ok(device),
        None => Err(LineFault::BadDevice),
    }
}

/// Expands the specifiers of an argument that the type needs.
fn expanded_argument(alloc: Global, field: Option<&[u8]>, facts: &Facts) -> Result<Bytes, LineFault>
    ensures { Gives result (needed_text facts.now (option_map (λ s. s.now) field.entry)) }
{
    match field {
        Some(text) => expansion(alloc, text, facts),
        None => Err(LineFault::ArgumentNeeded),
    }
}

/// Returns the text of an argument, or the error if it is empty.
fn filled(text: Bytes) -> Result<Bytes, LineFault>
    ensures { result ≡ filled text }
{
    if text.is_empty() {
        Err(LineFault::ArgumentNeeded)
    } else {
        Ok(text)
    }
}

/// Expands the specifiers of an argument that the type needs, or gives the error if it is empty then.
fn filled_argument(alloc: Global, field: Option<&[u8]>, facts: &Facts) -> Result<Bytes, LineFault>
    ensures { Gives result (filled_text facts.now (option_map (λ s. s.now) field.entry)) }
{
    filled(expanded_argument(alloc, field, facts)?)
}

/// Reads the content of a file, which may be omitted.
fn content_of(
    alloc: Global,
    field: Option<&[u8]>,
    facts: &Facts,
    encoded: bool,
) -> Result<Argument, LineFault>
    ensures read { Gives result (content_of facts.now encoded (option_map (λ s. s.now) field.entry)) }
    ensures fits { IfOk result (IsArgument Wanted.Content) }
{
    match field {
        Some(text) => {
            let bytes = bytes_of(alloc, text, facts, encoded)?;
            Ok(Argument::FileBytes(Some(bytes)))
        }
        None => Ok(Argument::FileBytes(None)),
    }
}

/// Reads the bytes that are written.
fn written_of(
    alloc: Global,
    field: Option<&[u8]>,
    facts: &Facts,
    encoded: bool,
) -> Result<Argument, LineFault>
    ensures read { Gives result (written_of facts.now encoded (option_map (λ s. s.now) field.entry)) }
    ensures fits { IfOk result (IsArgument Wanted.Bytes) }
{
    match field {
        Some(text) => {
            let bytes = bytes_of(alloc, text, facts, encoded)?;
            Ok(Argument::WriteBytes(bytes))
        }
        None => Err(LineFault::ArgumentNeeded),
    }
}

/// Reads the target of a link.
fn target_of(
    alloc: Global,
    field: Option<&[u8]>,
    facts: &Facts,
    path: &LinePath,
) -> Result<Argument, LineFault>
    ensures read { Gives result (target_of facts.now path.now (option_map (λ s. s.now) field.entry)) }
    ensures fits { IfOk result (IsArgument Wanted.Target) }
{
    let text = text_or_factory(alloc, field, facts, path)?;
    Ok(Argument::Target(checked_target(text)?))
}

/// Reads the path that is copied.
fn source_of(
    alloc: Global,
    field: Option<&[u8]>,
    facts: &Facts,
    path: &LinePath,
) -> Result<Argument, LineFault>
    ensures read { Gives result (source_of facts.now path.now (option_map (λ s. s.now) field.entry)) }
    ensures fits { IfOk result (IsArgument Wanted.Source) }
{
    let text = text_or_factory(alloc, field, facts, path)?;
    Ok(Argument::Source(parse_path(alloc, text.as_slice())?))
}

/// Reads ACL entries.
fn entries_of<N: Names>(
    alloc: Global,
    field: Option<&[u8]>,
    facts: &Facts,
    names: &N,
) -> Result<Argument, LineFault>
    ensures read { Gives result (entries_of facts.now
        (record { uid_named = N.uid_named names.now; gid_named = N.gid_named names.now })
        (option_map (λ s. s.now) field.entry)) }
    ensures fits { IfOk result (IsArgument Wanted.Entries) }
{
    let text = expanded_argument(alloc, field, facts)?;
    Ok(Argument::Entries(parse_acl(alloc, text.as_slice(), names)?))
}

/// Reads the field Argument as the type wants it, or gives its first error.
pub(crate) fn argument_of<N: Names>(
    alloc: Global,
    field: Option<&[u8]>,
    facts: &Facts,
    names: &N,
    path: &LinePath,
    typed: Typed,
) -> Result<Argument, LineFault>
    ensures read { Gives result (argument_of facts.now
        (record { uid_named = N.uid_named names.now; gid_named = N.gid_named names.now })
        path.now typed.encoded typed.row.wanted (option_map (λ s. s.now) field.entry)) }
    ensures fits { IfOk result (IsArgument typed.row.wanted) }
{
    match typed.row.wanted {
        Wanted::Content => content_of(alloc, field, facts, typed.encoded),
        Wanted::Bytes => written_of(alloc, field, facts, typed.encoded),
        Wanted::Target => target_of(alloc, field, facts, path),
        Wanted::Source => source_of(alloc, field, facts, path),
        Wanted::Device => device_of(alloc, expanded_argument(alloc, field, facts)?.as_slice()),
        Wanted::Entries => entries_of(alloc, field, facts, names),
        Wanted::Attrs => attrs_of(alloc, filled_argument(alloc, field, facts)?.as_slice()),
        Wanted::Letters => letters_of(filled_argument(alloc, field, facts)?.as_slice()),
        Wanted::Nothing => Ok(Argument::Ignored),
    }
}
