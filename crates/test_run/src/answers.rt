//! What a row gives.
use crate::folder_answers::in_folder;
use crate::readings::{files, lines};
use crate::runs::{Broken, run, run_with};
use crate::stops::{cuts, reruns, stops, takings, twice};
use std::alloc::{AllocError, Global};
use test_sheet::{Calls, Row, Sheet, ended, input, output};

/// What a run writes, and its status.
fn ran(
    alloc: Global,
    words: &str,
    input: &[u8],
    broken: Option<Broken>,
) -> Result<Vec<u8>, AllocError> {
    let (output, end) = run_with(alloc, words, input, broken)?;
    ended(output, format!(in alloc; "{end}")?.as_bytes())
}

/// The status of a run.
fn status(alloc: Global, words: &str, input: &[u8]) -> Result<String, AllocError> {
    let (_, end) = run(alloc, words, input)?;
    format!(in alloc; "{end}")
}

/// The source or the sink that a row breaks.
fn broken(alloc: Global, row: &Row<'_>) -> Result<Option<Broken>, AllocError> {
    let source = row.marked(alloc, "source fails at call ")?;
    let sink = row.marked(alloc, "sink fails at call ")?;
    Ok(match (source.as_slice(), sink.as_slice()) {
        ([call], []) => call.parse().ok().map(Broken::Source),
        ([], [call]) => call.parse().ok().map(Broken::Sink),
        _ => None,
    })
}

/// The answers of the runs of a row.
fn answer(alloc: Global, row: &Row<'_>, input: &[u8]) -> Result<String, AllocError> {
    match row.call {
        "stops" => stops(alloc, row.words, input),
        "takes" => takings(alloc, row.words, input),
        "twice" => twice(alloc, row.words, input),
        "cuts" => cuts(alloc, row.words, input),
        "status" => status(alloc, row.words, input),
        _ => "no such call".to_string(alloc),
    }
}

/// The output that each rerun is to write, and how many steps it takes.
fn rerun(alloc: Global, words: &str, input: &[u8], wanted: &str) -> Result<Vec<u8>, AllocError> {
    let answer = reruns(alloc, words, input, wanted.as_bytes())?;
    ended(
        Vec::from_slice(alloc, wanted.as_bytes())?,
        answer.as_bytes(),
    )
}

/// What a row of a run over an image gives: its messages, the output, and after `= ` the end.
fn over_image(alloc: Global, sheet: &Sheet<'_>, row: &Row<'_>) -> Result<Vec<u8>, AllocError> {
    let input = input(alloc, sheet, row)?;
    let input = input.as_bytes();
    match row.call {
        "reruns" => rerun(alloc, row.words, input, &output(alloc, sheet, row)?),
        "run" => ran(alloc, row.words, input, broken(alloc, row)?),
        "files" => files(alloc, row.words, input),
        "lines" => lines(alloc, row.words, input),
        _ => ended(Vec::new(alloc), answer(alloc, row, input)?.as_bytes()),
    }
}

/// What carries out runs and readings.
pub(crate) struct Runs;

impl Calls for Runs {
    fn found(
        &self,
        alloc: Global,
        sheet: &Sheet<'_>,
        row: &Row<'_>,
    ) -> Result<Vec<u8>, AllocError> {
        match row.call {
            "folder" | "folder-stops" | "folder-cuts" | "failures" | "left" => {
                in_folder(alloc, sheet, row)
            }
            _ => over_image(alloc, sheet, row),
        }
    }
}
