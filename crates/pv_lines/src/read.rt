//! Reads a line from its bytes, or gives its first error.
ghost use Rattle.std.specs.Prelude.{◌≡◌, map, Ok, Err, IfOk, IfErr, slice_get};
ghost use Rattle.std.specs.Option.{option_map};
ghost use Rattle.pv_text.specs.Escapes.{unescaped};
ghost use Rattle.pv_text.specs.Facts.{Values};
ghost use Rattle.pv_text.specs.Fields.{text_at};
ghost use Rattle.pv_text.specs.declared.place.Place.{Place};
ghost use Rattle.pv_lines.specs.Faults.{Gives};
ghost use Rattle.pv_lines.specs.Lines.{AreIds, IsLine, given, line_of, line_with, text};
ghost use Rattle.pv_lines.specs.ModeField.{line_age_of, mode_of, owner_of};
ghost use Rattle.pv_lines.specs.PathField.{named_of};
ghost use Rattle.pv_lines.specs.TypeField.{typed_of};
ghost use Rattle.pv_lines.specs.declared.line_fault.LineFault.TheVariants.{UnknownGroup, UnknownUser};
ghost use Rattle.pv_lines.specs.declared.path_field.Named.{Named};

use crate::argument_field::argument_of;
use crate::line::{Line, LineId, LineMode};
use crate::line_fault::LineFault;
use crate::mode_field::{age_of, group_of, mode_of, user_of};
use crate::path_field::named_of;
use crate::type_field::{Typed, typed_of};
use pv_acl::Names;
use pv_age::Age;
use pv_path::Bytes;
use pv_text::{Facts, Fields, Place, fields, unescape};
use std::alloc::{AllocError, Global};

/// The fields between the path and the argument of a line.
#[derive(Clone, Copy)]
struct Settings {
    mode: Option<LineMode>,
    user: Option<LineId>,
    group: Option<LineId>,
    age: Option<Age>,
}

/// Returns the fields of a line, with their escapes undone.
fn texts_of(alloc: Global, fields: &Fields<'_>) -> Result<Vec<Bytes>, AllocError>
    ensures { IfOk result (λ texts. texts.items ≡ map (λ span. unescaped (text_at fields.now.line span)) fields.now.spans) }
{
    let mut texts = Vec::new(alloc);
    while let Some(raw) = fields.field(texts.len()) {
        texts.push(Bytes::from_vec(unescape(alloc, raw)?))?;
    }
    Ok(texts)
}

/// Returns the text of a field that the line must have. A field that is not there counts as empty.
fn text(texts: &[Bytes], i: usize) -> &[u8]
    ensures { result.now ≡ text texts.now i }
{
    match texts.get(i) {
        Some(text) => text.as_slice(),
        None => b"",
    }
}

/// Returns the text of a field, or nothing if the field is omitted: not there, or a dash.
fn given(texts: &[Bytes], i: usize) -> Option<&[u8]>
    ensures { option_map (λ s. s.now) result ≡ given texts.now i }
{
    match texts.get(i) {
        Some(text) if text.as_slice() != b"-".as_slice() => Some(text.as_slice()),
        _ => None,
    }
}

/// Reads the fields Mode, User, Group and Age, or gives their first error. It is the error of the line if the fields
/// before have none.
fn settings_of<N: Names>(names: &N, typed: Typed, texts: &[Bytes]) -> Result<Settings, LineFault>
    ensures read { IfOk result (λ settings.
        (mode_of (given texts.now 2) ≡ Ok settings.mode)
        × (owner_of UnknownUser (N.uid_named names.now) (given texts.now 3) ≡ Ok settings.user)
        × (owner_of UnknownGroup (N.gid_named names.now) (given texts.now 4) ≡ Ok settings.group)
        × (line_age_of typed.row (given texts.now 5) ≡ Ok settings.age)) }
    ensures small { IfOk result (λ settings. AreIds settings.user × AreIds settings.group) }
    ensures fault { (facts : Values) (place : Place) (named : Named) → typed_of (text texts.now 0) ≡ Ok typed → named_of facts typed (text texts.now 1) ≡ Ok named
        → IfErr result (λ fault. Gives (Err fault) (line_with facts
        (record { uid_named = N.uid_named names.now; gid_named = N.gid_named names.now })
        place texts.now)) }
{
    Ok(Settings {
        mode: mode_of(given(texts, 2))?,
        user: user_of(names, given(texts, 3))?,
        group: group_of(names, given(texts, 4))?,
        age: age_of(typed.row, given(texts, 5))?,
    })
}

/// Reads the line of these texts, or gives its first error.
fn line_with<N: Names>(
    alloc: Global,
    texts: &[Bytes],
    place: Place,
    facts: &Facts,
    names: &N,
) -> Result<Line, LineFault>
    ensures read { Gives result (line_with facts.now
        (record { uid_named = N.uid_named names.now; gid_named = N.gid_named names.now })
        place texts.now) }
    ensures whole { IfOk result IsLine }
{
    let typed = typed_of(text(texts, 0))?;
    let named = named_of(alloc, text(texts, 1), facts, typed)?;
    let settings = settings_of(names, typed, texts)?;
    let argument = argument_of(alloc, given(texts, 6), facts, names, &named.path, typed)?;
    Ok(Line {
        letter: typed.row.letter,
        plus: typed.plus,
        boot: typed.boot,
        minus: typed.minus,
        replace: typed.replace,
        encoded: typed.encoded,
        purge: typed.purge,
        path: named.path,
        path_text: named.text,
        moved: named.moved,
        mode: settings.mode,
        user: settings.user,
        group: settings.group,
        age: settings.age,
        argument,
        place,
    })
}

/// Reads one line of a configuration, field by field from the left (tmpfiles.d(5)).
///
/// - `line` is the line without its line feed: Type, Path, Mode, User, Group, Age, Argument. A field after Path that is
///   not there, or is a dash, counts as omitted.
/// - `place` is the location of the line, which the answer keeps.
/// - `facts` has the values of specifiers such as `%m`.
/// - `names` looks up the users and groups that the line names. For account files this is `FileNames` of pv_accounts.
///
/// The answer is the line, or the first error in this order:
/// 1. `Field`, if the line cannot be split into fields.
/// 2. Type: `UnknownType`, `BadModifier`.
/// 3. Path: `Expand`, then `Path` or `Pattern`, then `RootPath`.
/// 4. `BadMode`, `UnknownUser`, `UnknownGroup` and `Age`, in this order.
/// 5. Argument: one of `ArgumentNeeded`, `Expand`, `BadBase64`, `Path`, `BadDevice`, `Acl`, `BadAttribute` and
///    `BadLetter`, by what the type takes.
///
/// An age or an argument that the type does not take has no effect. It can only be the cause of the error `Field`.
/// `Memory` comes if memory runs out, and then says nothing about the line.
///
/// ```text
/// let place = Place { file: OneLine::copy_of(alloc, b"app.conf")?, number: 1 };
/// let names = FileNames { passwd: passwd_view(b""), group: group_view(b"") };
/// let line = read_line(alloc, b"d /run/app 0750 7 8 10d", place, &Facts::new(alloc), &names)?;
/// ```
pub fn read_line<N: Names>(
    alloc: Global,
    line: &[u8],
    place: Place,
    facts: &Facts,
    names: &N,
) -> Result<Line, LineFault>
    ensures read { Gives result (line_of facts.now
        (record { uid_named = N.uid_named names.now; gid_named = N.gid_named names.now })
        place line.now) }
    ensures whole { IfOk result IsLine }
{
    match fields(line) {
        Ok(fields) => line_with(alloc, &texts_of(alloc, &fields)?, place, facts, names),
        Err(fault) => Err(LineFault::Field(fault)),
    }
}
