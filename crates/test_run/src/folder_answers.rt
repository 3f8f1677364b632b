//! What a row of a run on a folder gives.
use crate::folders::{failures, left, run, stops};
use crate::hosts::{folder_text, host_image};
use std::alloc::{AllocError, Global};
use test_sheet::{Row, Sheet, ended};

/// The calls of the host that a row breaks.
fn broken(alloc: Global, row: &Row<'_>) -> Result<Vec<u64>, AllocError> {
    let mut fails = Vec::new(alloc);
    for call in row.marked(alloc, "fails at call ")? {
        if let Ok(call) = call.parse() {
            fails.push(call)?;
        }
    }
    Ok(fails)
}

/// What a run writes, what the host then has in the folder, and the status.
fn ran(alloc: Global, row: &Row<'_>, image: &[u8]) -> Result<Vec<u8>, AllocError> {
    let Some(ran) = run(alloc, row.words, image, broken(alloc, row)?)? else {
        return Ok("no image".to_string(alloc)?.into_bytes());
    };
    let mut text = ran.new_messages;
    let folder = folder_text(alloc, str::from_utf8(&ran.image).unwrap_or(""))?;
    text.extend_from_slice(folder.as_bytes())?;
    ended(text, format!(in alloc; "{}", ran.status)?.as_bytes())
}

/// What a row of a run on a folder gives: its messages, the folder, and after `= ` the end.
pub(crate) fn in_folder(
    alloc: Global,
    sheet: &Sheet<'_>,
    row: &Row<'_>,
) -> Result<Vec<u8>, AllocError> {
    let image = host_image(alloc, sheet, row)?;
    let image = image.as_bytes();
    let answer = match row.call {
        "folder" => return ran(alloc, row, image),
        "failures" => failures(alloc, row.words, image, false)?,
        "folder-cuts" => failures(alloc, row.words, image, true)?,
        "left" => left(alloc, row.words, image)?,
        _ => stops(alloc, row.words, image)?,
    };
    ended(Vec::new(alloc), answer.as_bytes())
}
