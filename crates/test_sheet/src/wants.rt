//! What a row gives to its call, and what it wants of it.
use crate::images::{image, text_of};
use crate::marks::bytes_of;
use crate::rows::{Row, Sheet};
use std::alloc::{AllocError, Global};

/// The text behind a doubled mark, or the image of the objects behind the mark, or no text if there are neither.
fn text(
    alloc: Global,
    sheet: &Sheet<'_>,
    row: &Row<'_>,
    mark: &str,
    objects: &str,
) -> Result<String, AllocError> {
    let lines = sheet.lines(alloc, row, mark)?;
    if !lines.is_empty() {
        return text_of(alloc, &lines);
    }
    let objects = sheet.lines(alloc, row, objects)?;
    if objects.is_empty() {
        return Ok(String::new(alloc));
    }
    let configuration = text_of(alloc, &row.marked(alloc, "| ")?)?;
    image(alloc, &configuration, &objects)
}

/// The input of a row: the text behind `<<`, or the image of the objects behind `<`.
pub fn input(alloc: Global, sheet: &Sheet<'_>, row: &Row<'_>) -> Result<String, AllocError> {
    text(alloc, sheet, row, "<< ", "< ")
}

/// The output that a row wants, without messages: the text after `>>`, or the image of the objects after `>`.
pub fn output(alloc: Global, sheet: &Sheet<'_>, row: &Row<'_>) -> Result<String, AllocError> {
    text(alloc, sheet, row, ">> ", "> ")
}

/// The messages and the output, and after `= ` the end.
pub fn ended(output: Vec<u8>, end: &[u8]) -> Result<Vec<u8>, AllocError> {
    let mut ended = output;
    ended.extend_from_slice(b"= ")?;
    ended.extend_from_slice(end)?;
    Ok(ended)
}

/// What is said, in lines as a run writes them.
fn new_messages(alloc: Global, row: &Row<'_>) -> Result<String, AllocError> {
    let mut text = String::new(alloc);
    for new_messages in row.marked(alloc, ": ")? {
        text.push_str(&format!(in alloc; ": {new_messages}\n")?)?;
    }
    Ok(text)
}

/// What a row wants: its messages, the output, and after `= ` the end.
pub(crate) fn wanted(
    alloc: Global,
    sheet: &Sheet<'_>,
    row: &Row<'_>,
) -> Result<Vec<u8>, AllocError> {
    let mut text = new_messages(alloc, row)?;
    text.push_str(&output(alloc, sheet, row)?)?;
    ended(text.into_bytes(), &bytes_of(alloc, row.end)?)
}
