//! The fields Mode, User, Group and Age.
ghost use Rattle.std.specs.Prelude.{◌≡◌, ◌≤◌, ◌<◌, ◌^◌, length, true, IfOk, IfSome, if◌then◌else◌};
ghost use Rattle.std.specs.Char.{is_digit};
ghost use Rattle.std.specs.List.{list_all};
ghost use Rattle.std.specs.Option.{option_map};
ghost use Rattle.std.specs.Str.Parse.{digits_value};
ghost use Rattle.pv_acl.specs.Entries.{id_or_name};
ghost use Rattle.pv_lines.specs.declared.line_fault.LineFault.TheVariants.{UnknownGroup, UnknownUser};
ghost use Rattle.pv_lines.specs.ModeField.{is_mode_text, line_age_of, mode_after, mode_of, owner_of, without_colon};
ghost use Rattle.pv_lines.specs.Lines.{AreIds};

use crate::line::{LineId, LineMode};
use crate::line_fault::LineFault;
use crate::types::Row;
use pv_acl::{Names, written_id};
use pv_age::{Age, parse_age};

/// Returns whether all bytes are octal digits.
fn are_octal(text: &[u8]) -> bool
    ensures { result ≡ list_all (λ b. is_digit b 8) text.now }
{
    text.iter().all(|byte| char::from(*byte).is_digit(8))
}

/// Reads the number that at most five octal digits write.
fn octal_value(text: &[u8]) -> u16
    requires digits { list_all (λ b. is_digit b 8) text.now ≡ true }
    requires short { length text.now ≤ 5 }
    ensures { result ≡ digits_value 8 text.now }
{
    let mut value = 0;
    for byte in text {
        value = value * 8 + u16::from(*byte - b'0');
    }
    value
}

/// Reads a mode of one to five octal digits, or gives nothing.
fn mode_value(text: &[u8]) -> Option<u16>
    ensures { result ≡ (if is_mode_text text.now then Some (digits_value 8 text.now) else None) }
{
    if text.is_empty() || text.len() > 5 || !are_octal(text) {
        return None;
    }
    let value = octal_value(text);
    if value <= 0o7777 { Some(value) } else { None }
}

/// Reads a mode with the prefixes `~` and `:`, of which some may have been read already.
fn mode_after(masked: bool, new_only: bool, text: &[u8]) -> Option<LineMode>
    ensures { result ≡ mode_after masked new_only text.now }
{
    match text {
        [b'~', after @ ..] if !masked => mode_after(true, new_only, after),
        [b':', after @ ..] if !new_only => mode_after(masked, true, after),
        _ => mode_value(text).map(|value| LineMode {
            value,
            masked,
            new_only,
        }),
    }
}

/// Reads the field Mode, or gives its error. The call does not allocate.
pub(crate) fn mode_of(field: Option<&[u8]>) -> Result<Option<LineMode>, LineFault>
    ensures { result ≡ mode_of (option_map (λ s. s.now) field.entry) }
{
    let Some(text) = field else {
        return Ok(None);
    };
    match mode_after(false, false, text) {
        Some(mode) => Ok(Some(mode)),
        None => Err(LineFault::BadMode),
    }
}

/// Reads a UID, or looks up the user of a name.
fn uid_in<N: Names>(names: &N, text: &[u8]) -> Option<u32>
    ensures value { result ≡ id_or_name (N.uid_named names.now) text.now }
    ensures small { IfSome result (λ id. id ≤ 4294967294) }
{
    written_id(text).or_else(|| names.uid_of(text))
}

/// Reads a GID, or looks up the group of a name.
fn gid_in<N: Names>(names: &N, text: &[u8]) -> Option<u32>
    ensures value { result ≡ id_or_name (N.gid_named names.now) text.now }
    ensures small { IfSome result (λ id. id ≤ 4294967294) }
{
    written_id(text).or_else(|| names.gid_of(text))
}

/// Returns what follows the prefix `:`, and whether the prefix was given.
fn without_colon(text: &[u8]) -> (&[u8], bool)
    ensures { (result.0.now, result.1) ≡ without_colon text.now }
{
    match text {
        [b':', after @ ..] => (after, true),
        _ => (text, false),
    }
}

/// Reads the field User, or gives its error. The call does not allocate.
pub(crate) fn user_of<N: Names>(
    names: &N,
    field: Option<&[u8]>,
) -> Result<Option<LineId>, LineFault>
    ensures value { result ≡ owner_of UnknownUser (N.uid_named names.now) (option_map (λ s. s.now) field.entry) }
    ensures small { IfOk result AreIds }
{
    let Some(text) = field else {
        return Ok(None);
    };
    let (text, new_only) = without_colon(text);
    match uid_in(names, text) {
        Some(id) => Ok(Some(LineId { id, new_only })),
        None => Err(LineFault::UnknownUser),
    }
}

/// Reads the field Group, or gives its error. The call does not allocate.
pub(crate) fn group_of<N: Names>(
    names: &N,
    field: Option<&[u8]>,
) -> Result<Option<LineId>, LineFault>
    ensures value { result ≡ owner_of UnknownGroup (N.gid_named names.now) (option_map (λ s. s.now) field.entry) }
    ensures small { IfOk result AreIds }
{
    let Some(text) = field else {
        return Ok(None);
    };
    let (text, new_only) = without_colon(text);
    match gid_in(names, text) {
        Some(id) => Ok(Some(LineId { id, new_only })),
        None => Err(LineFault::UnknownGroup),
    }
}

/// Reads the field Age if the type uses one, or gives its error. The call does not allocate.
pub(crate) fn age_of(row: Row, field: Option<&[u8]>) -> Result<Option<Age>, LineFault>
    ensures { result ≡ line_age_of row (option_map (λ s. s.now) field.entry) }
{
    if !row.ages {
        return Ok(None);
    }
    let Some(text) = field else {
        return Ok(None);
    };
    match parse_age(text) {
        Ok(age) => Ok(Some(age)),
        Err(fault) => Err(LineFault::Age(fault)),
    }
}
