//! Single calls over texts: what each is given, and what it answers.
mod accounts;
mod acls;
mod fields;
mod given;
mod globs;
mod lines;
mod meetings;
mod paths;
mod plans;
mod requests;
mod transfers;
mod words;

use crate::marks::Arguments;
use std::alloc::{AllocError, Global};
use test_sheet::{Calls, Row, Sheet, ended, input};

/// What a call of a subject answers for arguments, or nothing if there is no such subject.
fn argued(
    alloc: Global,
    subject: &str,
    call: &str,
    arguments: &Arguments,
) -> Result<Option<Vec<u8>>, AllocError> {
    Ok(Some(match subject {
        "account" => accounts::answer_to(alloc, call, arguments)?,
        "acl" => acls::answer_to(alloc, call, arguments)?,
        "glob" => globs::answer_to(alloc, call, arguments)?,
        "io" => transfers::answer_to(alloc, call, arguments)?,
        "meet" => meetings::answer_to(alloc, call, arguments)?,
        "path" => paths::answer_to(alloc, call, arguments)?,
        _ => return Ok(None),
    }))
}

/// What a call of a subject answers for words, or nothing if there is no such subject.
fn answer_to(
    alloc: Global,
    subject: &str,
    call: &str,
    words: &str,
) -> Result<Option<Vec<u8>>, AllocError> {
    Ok(Some(match subject {
        "field" => fields::answer_to(alloc, call, words)?,
        "line" => lines::answer_to(alloc, call, words)?,
        "request" => requests::answer_to(alloc, call, words)?,
        "words" => words::answer_to(alloc, call, words)?,
        _ => return argued(alloc, subject, call, &Arguments::of(alloc, words)?),
    }))
}

/// What carries out single calls. The name of a row's call is that of its subject, `-`, and its own. The answer is at
/// the end, and before it the text of the account files if users are planned.
pub(crate) struct Texts;

impl Calls for Texts {
    fn found(
        &self,
        alloc: Global,
        sheet: &Sheet<'_>,
        row: &Row<'_>,
    ) -> Result<Vec<u8>, AllocError> {
        let (subject, call) = row.call.split_once('-').unwrap_or((row.call, ""));
        if subject == "plan" {
            let lines = row.marked(alloc, "| ")?;
            let input = input(alloc, sheet, row)?;
            return plans::planned(alloc, &lines, &input);
        }
        match answer_to(alloc, subject, call, row.words)? {
            Some(answer_to) => ended(Vec::new(alloc), &answer_to),
            None => ended(Vec::new(alloc), b"no such call"),
        }
    }
}
