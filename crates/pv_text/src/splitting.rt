//! Splits a configuration line into fields: blanks, quotes, escapes, and the Argument at its end.
ghost use Rattle.std.specs.Prelude.{◌≡◌, ℕ, ◌==◌, ◌+◌, ◌-◌, ◌^◌, ◌<◌, ◌≤◌, false, IsTrue, ◌↔◌, List, [], ◌∷◌, ◌++◌, drop, length, IfOk, IfErr, IfSome, Ok, Err, MatchResult};
ghost use Rattle.std.specs.List.{prefix_len, suffix_len, position, position_or_len, AllByRecursion};
ghost use Rattle.pv_text.specs.Fields.{is_blank, is_quote, text_at, closing, escaped, is_ended, bare_at, quoted_at, field_at, next_place, argument_at, fields_from, enough, fields_of, after_spans, IsChecked};

use crate::escapes::bad_escape;
use crate::lent_fields::Fields;
use crate::spans::Spans;
use crate::text_fault::FieldFault;

/// Returns whether a byte separates fields: a space, a tab or a carriage return.
pub fn is_blank(byte: u8) -> bool
    ensures { result ≡ is_blank byte }
{
    matches!(byte, b' ' | b'\t' | b'\r')
}

/// Returns the index of the next byte from `at` on that is not a blank, or the length of the line.
fn next_place(line: &[u8], at: usize) -> usize
    requires { at ≤ length line.now }
    ensures value { result ≡ next_place line.now at }
    ensures within { result ≤ length line.now }
{
    at + leading_blanks(&line[at..])
}

/// Returns how many blanks a text begins with.
fn leading_blanks(text: &[u8]) -> usize
    ensures value { result ≡ prefix_len is_blank text.now }
    ensures within { result ≤ length text.now }
{
    text.iter().take_while(|byte| is_blank(**byte)).count()
}

/// Returns how many bytes a text has before its first blank.
fn bare_length(text: &[u8]) -> usize
    ensures value { result ≡ position_or_len is_blank text.now }
    ensures within { result ≤ length text.now }
{
    text.iter().take_while(|byte| !is_blank(**byte)).count()
}

/// Returns the length of a text without the blanks at its end.
fn kept_length(text: &[u8]) -> usize
    ensures value { result ≡ length text.now - suffix_len is_blank text.now }
    ensures within { result ≤ length text.now }
{
    let mut end = text.len();
    while end > 0 && is_blank(text[end - 1]) {
        end -= 1;
    }
    end
}

/// Returns the index of the closing quote. Indices count from `at`, that of the first byte of `text`.
fn closing(quote: u8, at: usize, text: &[u8]) -> Option<usize>
    requires { at + length text.now < 2 ^ 64 }
    ensures value { result ≡ closing quote at text.now }
    ensures within { IfSome result (λ close. (at ≤ close) × (close < at + length text.now)) }
{
    let mut hidden = false;
    for (i, byte) in text.iter().enumerate() {
        if hidden {
            hidden = false;
        } else if *byte == quote {
            return Some(at + i);
        } else {
            hidden = *byte == b'\\';
        }
    }
    None
}

/// Returns the span if each backslash in it begins an escape.
fn escaped(line: &[u8], start: usize, end: usize) -> Result<(usize, usize), FieldFault>
    requires order { start ≤ end }
    requires within { end ≤ length line.now }
    ensures value { result ≡ escaped line.now (start, end) }
    ensures checked { IfOk result (λ span. (span ≡ (start, end)) × IsChecked line.now span) }
{
    match bad_escape(start, &line[start..end]) {
        Some(place) => Err(FieldFault::BadEscape(place)),
        None => Ok((start, end)),
    }
}

/// Returns whether a field may end before this text: it is empty, or begins with a blank.
fn is_ended(text: &[u8]) -> bool
    ensures { result ≡ is_ended text.now }
{
    match text {
        [] => true,
        [byte, ..] => is_blank(*byte),
    }
}

/// Reads a field that does not begin with a quote. Returns its span, and the index after it.
fn bare_at(line: &[u8], at: usize) -> Result<((usize, usize), usize), FieldFault>
    requires { at ≤ length line.now }
    ensures value { result ≡ bare_at line.now at }
    ensures within { IfOk result (λ field. IsChecked line.now field.0 × (field.1 ≤ length line.now)) }
{
    let span = escaped(line, at, at + bare_length(&line[at..]))?;
    Ok((span, span.1))
}

/// Reads a field that begins with a quote. Returns its span, and the index after its closing quote.
fn quoted_at(line: &[u8], at: usize, quote: u8) -> Result<((usize, usize), usize), FieldFault>
    requires { at < length line.now }
    ensures value { result ≡ quoted_at line.now at (closing quote (at + 1) (drop (at + 1) line.now)) }
    ensures within { IfOk result (λ field. IsChecked line.now field.0 × (field.1 ≤ length line.now)) }
{
    let Some(close) = closing(quote, at + 1, &line[at + 1..]) else {
        return Err(FieldFault::OpenQuote(at));
    };
    let span = escaped(line, at + 1, close)?;
    if !is_ended(&line[close + 1..]) {
        return Err(FieldFault::GluedQuote(close + 1));
    }
    Ok((span, close + 1))
}

/// Reads the field that begins at an index. Returns its span, and the index after it.
#[tactic(auto, unfolding(crate::specs::Fields::field_at))]
fn field_at(line: &[u8], at: usize) -> Result<((usize, usize), usize), FieldFault>
    requires { at < length line.now }
    ensures value { result ≡ field_at line.now at }
    ensures within { IfOk result (λ field. IsChecked line.now field.0 × (field.1 ≤ length line.now)) }
{
    let first = line[at];
    if matches!(first, b'"' | b'\'') {
        quoted_at(line, at, first)
    } else {
        bare_at(line, at)
    }
}

/// Returns the span of the Argument that begins at an index.
fn argument_at(line: &[u8], at: usize) -> Result<(usize, usize), FieldFault>
    requires { at ≤ length line.now }
    ensures value { result ≡ argument_at line.now at }
    ensures checked { IfOk result (λ span. IsChecked line.now span) }
{
    escaped(line, at, at + kept_length(&line[at..]))
}

/// Reads the fields before the Argument. Returns their spans, and the index after them.
fn leading(line: &[u8]) -> Result<(Spans, usize), FieldFault>
    ensures ok { IfOk result (λ r. after_spans r.0 (fields_from 0 line.now r.1) ≡ fields_from 6 line.now 0) }
    ensures within { IfOk result (λ r. (length r.0 ≤ 6) × (r.1 ≤ length line.now)
        × AllByRecursion (IsChecked line.now) r.0) }
    ensures err { IfErr result (λ e. fields_from 6 line.now 0 ≡ Err e) }
{
    let mut spans = Spans::new();
    let mut at = 0;
    for _ in 0..6usize {
        let start = next_place(line, at);
        if start == line.len() {
            return Ok((spans, line.len()));
        }
        let (span, after) = field_at(line, start)?;
        spans.push(span);
        at = after;
    }
    Ok((spans, at))
}

/// Reads all fields of a line without NUL bytes.
fn all_spans(line: &[u8]) -> Result<Spans, FieldFault>
    ensures ok { IfOk result (λ spans. fields_from 6 line.now 0 ≡ Ok spans) }
    ensures checked { IfOk result (λ spans. AllByRecursion (IsChecked line.now) spans) }
    ensures err { IfErr result (λ e. fields_from 6 line.now 0 ≡ Err e) }
{
    let (mut spans, at) = leading(line)?;
    let start = next_place(line, at);
    if start == line.len() {
        return Ok(spans);
    }
    spans.push(argument_at(line, start)?);
    Ok(spans)
}

/// Returns the index of the first NUL byte.
fn nul_place(line: &[u8]) -> Option<usize>
    ensures { result ≡ position (λ b. b == 0) line.now }
{
    line.iter().position(|byte| *byte == 0)
}

/// Splits a configuration line into its fields (tmpfiles.d(5)). The call does not allocate.
///
/// Fields are separated by blanks (see `is_blank`). A field that begins with `"` or `'` runs to the next quote of the
/// same kind that is not escaped. In such a field, a backslash escapes the byte after it. The seventh field, the
/// Argument, is the rest of the line without the blanks at its end. Quotes in it are kept as they are, and escapes in
/// it must be valid too. For example, `d /run/app 0755 root root 10d` has six fields.
///
/// If the answer is `Ok`, there are 2 to 7 fields, and each backslash in them begins an escape. An error is the
/// first fault of the line: `BadByte` if there is a NUL byte, otherwise the first of the other faults from the
/// left, and last `TooFew`.
#[tactic(auto, unfolding(crate::specs::Fields::fields_of))]
pub fn fields(line: &[u8]) -> Result<Fields<'_>, FieldFault>
    ensures ok { IfOk result (λ f. (f.line ≡ line.now) × (fields_of line.now ≡ Ok f.spans)) }
    ensures fault { IfErr result (λ e. fields_of line.now ≡ Err e) }
    ensures count { IfOk result (λ f. (2 ≤ length f.spans) × (length f.spans ≤ 7)) }
{
    if let Some(at) = nul_place(line) {
        return Err(FieldFault::BadByte(at));
    }
    let spans = all_spans(line)?;
    if spans.len() < 2 {
        return Err(FieldFault::TooFew);
    }
    Ok(Fields::of(line, spans))
}
