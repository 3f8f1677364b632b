//! The messages of a report.
ghost use Rattle.std.specs.Prelude.{◌≡◌, ◌↔◌, ◌++◌, ◌∷◌, [], codes, map, true, unwrap_or, slice_get, IfOk, OnOk};
ghost use Rattle.std.specs.Fmt.{decimal};
ghost use Rattle.pv_text.specs.Lines.{is_line};
ghost use Rattle.pv_text.specs.GivenMessages.{MessagesPart};
ghost use Rattle.pv_table.specs.Repeatable.{IsRepeatable};
ghost use Rattle.pv_overlap.specs.Reporting.{ListsReasons};
ghost use Rattle.pv_overlap.specs.GivenMessages.{line_text, overlap_text, reason_text, report_messages, SaysRepeatable, shared_text, standing_text, unrepeatable_text, verdict};

use crate::listing::{Report, Unrepeatable};
use crate::pair::Pair;
use pv_lines::{Line, LineList};
use pv_path::{TreePath, print_path};
use pv_table::Reason;
use pv_text::{Messages, OneLine};
use std::alloc::{AllocError, Global};

/// Returns the word for a hazard, such as `append`.
fn reason_text(reason: Reason) -> &'static [u8]
    ensures text { result.now ≡ reason_text reason }
    ensures line { is_line result.now ≡ true }
{
    match reason {
        Reason::Append => b"append",
        Reason::Source => b"source",
        Reason::Below => b"below",
        Reason::Input => b"input",
        Reason::Mask => b"mask",
    }
}

/// Returns the text `FILE:N` of the location of a line: its file and its line number.
///
/// The text fits into one line. For example, for the third line of `/etc/tmpfiles.d/a.conf` it is
/// `/etc/tmpfiles.d/a.conf:3`. The only error is `AllocError`.
pub fn place_text(alloc: Global, file: &OneLine, number: u32) -> Result<Vec<u8>, AllocError>
    ensures text { IfOk result (λ text. text.items ≡ file.now ++ codes ":" ++ decimal number) }
    ensures line { IfOk result (λ text. is_line text.items ≡ true) }
{
    let mut text = Vec::from_slice(alloc, file.as_slice())?;
    let number = number.to_string(alloc)?;
    text.extend_from_slice(b":")?;
    text.extend_from_slice(number.as_bytes())?;
    Ok(text)
}

/// Returns the text `FILE:N` of the line at an index, or an empty text if there is no such line.
fn line_text(alloc: Global, lines: &[Line], i: u32) -> Result<Vec<u8>, AllocError>
    ensures text { IfOk result (λ text. text.items ≡ line_text lines.now i) }
    ensures line { IfOk result (λ text. is_line text.items ≡ true) }
{
    match lines.get(i as usize) {
        Some(line) => place_text(alloc, &line.place.file, line.place.number),
        None => Ok(Vec::new(alloc)),
    }
}

/// Returns the texts `FILE:N` of lines.
fn line_texts(alloc: Global, lines: &[Line]) -> Result<Messages, AllocError>
    ensures { IfOk result (λ texts. texts ≡ map standing_text lines.now) }
{
    let mut texts = Messages::new(alloc);
    for line in lines {
        texts.push(&place_text(alloc, &line.place.file, line.place.number)?)?;
    }
    Ok(texts)
}

/// Returns the text at an index, or an empty one if there is no such text.
fn text_at(texts: &Messages, i: u32) -> &[u8]
    ensures text { result.now ≡ unwrap_or (slice_get texts.now i) [] }
    ensures line { is_line result.now ≡ true }
{
    match texts.line(i as usize) {
        Some(text) => text,
        None => &[],
    }
}

/// Returns the text `overlap FILE:N FILE:N at PATH`.
fn overlap_text(
    alloc: Global,
    first: &[u8],
    second: &[u8],
    path: &TreePath,
) -> Result<Vec<u8>, AllocError>
    requires first { is_line first.now ≡ true }
    requires second { is_line second.now ≡ true }
    ensures text { IfOk result (λ text. text.items ≡ shared_text first.now second.now path.now) }
    ensures line { IfOk result (λ text. is_line text.items ≡ true) }
{
    let path = print_path(alloc, path)?;
    let mut text = Vec::from_slice(alloc, b"overlap ")?;
    text.extend_from_slice(first)?;
    text.extend_from_slice(b" ")?;
    text.extend_from_slice(second)?;
    text.extend_from_slice(b" at ")?;
    text.extend_from_slice(&path)?;
    Ok(text)
}

/// Returns the text `unrepeatable FILE:N HAZARD`.
fn unrepeatable_text(
    alloc: Global,
    lines: &[Line],
    found: &Unrepeatable,
) -> Result<Vec<u8>, AllocError>
    ensures text { IfOk result (λ text. text.items ≡ unrepeatable_text lines.now found.now) }
    ensures line { IfOk result (λ text. is_line text.items ≡ true) }
{
    let line = line_text(alloc, lines, found.line)?;
    let reason = reason_text(found.reason);
    let mut text = Vec::from_slice(alloc, b"unrepeatable ")?;
    text.extend_from_slice(&line)?;
    text.extend_from_slice(b" ")?;
    text.extend_from_slice(reason)?;
    Ok(text)
}

/// Returns the verdict on lines with these hazards: `repeatable` if the list is empty, otherwise `not repeatable`. The
/// call does not allocate.
pub fn verdict(list: &[Unrepeatable]) -> &'static [u8]
    ensures text { result.now ≡ verdict list.now }
    ensures line { is_line result.now ≡ true }
{
    if list.is_empty() {
        b"repeatable"
    } else {
        b"not repeatable"
    }
}

/// Adds the messages on lines that share a path. The text of each location is made once.
fn say_overlaps(
    alloc: Global,
    lines: &[Line],
    pairs: &[Pair],
    messages: &mut Messages,
) -> Result<(), AllocError>
    ensures new_messages { OnOk result (messages.new ≡ messages.old ++ map (overlap_text lines.now) pairs.now) }
    ensures part { MessagesPart (map (overlap_text lines.now) pairs.now) messages.old messages.new }
{
    let texts = line_texts(alloc, lines)?;
    for pair in pairs {
        let first = text_at(&texts, pair.first);
        let second = text_at(&texts, pair.second);
        messages.push(&overlap_text(alloc, first, second, &pair.path)?)?;
    }
    Ok(())
}

/// Adds the messages on lines with a hazard.
fn say_reasons(
    alloc: Global,
    lines: &[Line],
    list: &[Unrepeatable],
    messages: &mut Messages,
) -> Result<(), AllocError>
    ensures new_messages { OnOk result (messages.new ≡ messages.old ++ map (unrepeatable_text lines.now) list.now) }
    ensures part { MessagesPart (map (unrepeatable_text lines.now) list.now) messages.old messages.new }
{
    for found in list {
        messages.push(&unrepeatable_text(alloc, lines, found)?)?;
    }
    Ok(())
}

/// Adds the messages of a report on these lines, in this order:
///
/// - for each pair of lines that share a path, `overlap FILE:N FILE:N at PATH`;
/// - for each hazard of a line, `unrepeatable FILE:N HAZARD`;
/// - last the verdict, `repeatable` or `not repeatable`.
///
/// If the report has exactly the hazards of these lines, the last message is `repeatable` exactly if no line has a
/// hazard. The only error is `AllocError`. Then a prefix of these messages was added.
pub fn say_report(
    alloc: Global,
    lines: &LineList,
    report: &Report,
    messages: &mut Messages,
) -> Result<(), AllocError>
    ensures new_messages { OnOk result (messages.new ≡ messages.old ++ report_messages lines.now report.now) }
    ensures part { MessagesPart (report_messages lines.now report.now) messages.old messages.new }
    ensures verdict { OnOk result (ListsReasons lines.now report.now.unrepeatable → SaysRepeatable messages.new ↔ IsRepeatable lines.now) }
{
    say_overlaps(alloc, lines.as_slice(), report.pairs.as_slice(), messages)?;
    let list = report.unrepeatable.as_slice();
    say_reasons(alloc, lines.as_slice(), list, messages)?;
    messages.push(verdict(list))?;
    Ok(())
}
