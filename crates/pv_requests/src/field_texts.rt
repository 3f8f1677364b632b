//! The texts of the fields of a line. Fields are counted from 0.
ghost use Rattle.std.specs.Prelude.{◌≡◌, IfOk};
ghost use Rattle.pv_text.specs.Escapes.{HasGoodEscapes};
ghost use Rattle.pv_requests.specs.Faults.{Gives};
ghost use Rattle.pv_requests.specs.FieldTexts.{given, has_more, is_dash, raw_text, text, written};

use crate::request_fault::RequestFault;
use pv_path::Bytes;
use pv_text::{Facts, Fields, Tool, expand, unescape};
use std::alloc::{AllocError, Global};

/// The index of the field GECOS.
pub(crate) const GECOS: usize = 3;

/// The index of the field Home.
pub(crate) const HOME: usize = 4;

/// The index of the field Shell.
pub(crate) const SHELL: usize = 5;

/// Returns whether a text is a dash, which stands for an omitted field.
pub(crate) fn is_dash(text: &[u8]) -> bool
    ensures { result ≡ is_dash text.now }
{
    text == b"-".as_slice()
}

/// Returns the text of a field as it is written. A field that is not there counts as a dash.
fn raw_text<'a>(fields: &Fields<'a>, i: usize) -> &'a [u8]
    ensures value { result.now ≡ raw_text fields.now i }
    ensures checked { HasGoodEscapes result.now }
{
    match fields.field(i) {
        Some(raw) => raw,
        None => b"-",
    }
}

/// Returns the text of a field with its escapes undone.
pub(crate) fn text(alloc: Global, fields: &Fields<'_>, i: usize) -> Result<Bytes, AllocError>
    ensures { IfOk result (λ read. read ≡ text fields.now i) }
{
    Ok(Bytes::from_vec(unescape(alloc, raw_text(fields, i))?))
}

/// Returns whether there is a field after Shell.
pub(crate) fn has_more(fields: &Fields<'_>) -> bool
    ensures { result ≡ has_more fields.now }
{
    fields.span(6).is_some()
}

/// Returns the text of a field with its specifiers expanded.
pub(crate) fn written(
    alloc: Global,
    facts: &Facts,
    fields: &Fields<'_>,
    i: usize,
) -> Result<Bytes, RequestFault>
    ensures { Gives result (written facts.now fields.now i) }
{
    let text = text(alloc, fields, i)?;
    Ok(Bytes::from_vec(expand(alloc, text.as_slice(), facts, Tool::Sysusers)?))
}

/// Returns the text of a field with its specifiers expanded, or nothing if the field is omitted.
pub(crate) fn given(
    alloc: Global,
    facts: &Facts,
    fields: &Fields<'_>,
    i: usize,
) -> Result<Option<Bytes>, RequestFault>
    ensures { Gives result (given facts.now fields.now i) }
{
    let text = text(alloc, fields, i)?;
    if is_dash(text.as_slice()) {
        return Ok(None);
    }
    Ok(Some(written(alloc, facts, fields, i)?))
}
