//! Rows carried out, and compared with what they want.
use crate::rows::{Row, Sheet};
use crate::wants::wanted;
use std::alloc::{AllocError, Global};

/// What carries rows out.
pub trait Calls {
    /// What a row gives: its messages, the output, and after `= ` the end.
    fn found(&self, alloc: Global, sheet: &Sheet<'_>, row: &Row<'_>) -> Result<Vec<u8>, AllocError>;
}

/// Adds a row with what it gives, if it is not what the row wants. Answers whether it is.
fn is_as_wanted<C: Calls>(
    alloc: Global,
    report: &mut String,
    sheet: &Sheet<'_>,
    row: &Row<'_>,
    calls: &C,
) -> Result<bool, AllocError> {
    let found = calls.found(alloc, sheet, row)?;
    let holds = found == wanted(alloc, sheet, row)?;
    if !holds {
        let found = String::from_utf8_lossy(alloc, &found)?;
        report.push_str(&format!(in alloc; "{} {}\n{found}\n", row.call, row.words)?)?;
    }
    Ok(holds)
}

/// The rows of a sheet that come out otherwise than they want, each with what it gives, and how many of all come out as they
/// want.
fn compared<C: Calls>(alloc: Global, sheet: &Sheet<'_>, calls: &C) -> Result<String, AllocError> {
    let mut report = String::new(alloc);
    let mut held = 0u32;
    for row in &sheet.rows {
        if is_as_wanted(alloc, &mut report, sheet, row, calls)? {
            held = held.saturating_add(1);
        }
    }
    report.push_str(&format!(in alloc; "{held} of {} rows\n", sheet.rows.len())?)?;
    Ok(report)
}

/// The rows of a text that come out otherwise than they want, each with what it gives, and how many of all come out as they
/// want.
pub fn report<C: Calls>(alloc: Global, text: &str, calls: &C) -> Result<String, AllocError> {
    compared(alloc, &Sheet::read(alloc, text)?, calls)
}
