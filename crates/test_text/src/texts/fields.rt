//! Fields, escapes, specifiers, facts and messages.
use super::given::{is_one_line, place_in};
use crate::marks::{Arguments, named, new_messages, number_in, or_none, shown, spaced, unread};
use pv_text::{
    ExpandFault, FACT_LETTERS, Facts, FieldFault, Fields, Messages, Tool, expand, fields, unescape,
};
use std::alloc::{AllocError, Global};
use test_sheet::bytes_of;

/// What a call answers for words.
pub(crate) fn answer_to(alloc: Global, call: &str, words: &str) -> Result<Vec<u8>, AllocError> {
    match call {
        "text" | "span" => numbered_answer(alloc, call, words),
        "fault" => fault_answer(alloc, &bytes_of(alloc, words)?),
        _ => arguments_answer(alloc, call, words),
    }
}

/// What a call with a number and a line answers.
fn numbered_answer(alloc: Global, call: &str, words: &str) -> Result<Vec<u8>, AllocError> {
    let Some((number, line)) = words.split_once(' ') else {
        return unread(alloc);
    };
    let line = bytes_of(alloc, line)?;
    match (number.parse::<usize>().ok(), fields(&line)) {
        (Some(number), Ok(fields)) => match call {
            "text" => text_answer(alloc, &fields, number),
            _ => span_answer(alloc, &fields, number),
        },
        (_, Err(fault)) => messages_fault(alloc, fault),
        _ => unread(alloc),
    }
}

/// What a call with several arguments answers.
fn arguments_answer(alloc: Global, call: &str, words: &str) -> Result<Vec<u8>, AllocError> {
    let arguments = Arguments::of(alloc, words)?;
    match call {
        "expanded" => expanded_answer(alloc, arguments.at(0), arguments.at(1), arguments.at(2)),
        "expand-faults" => faults_answer(alloc, arguments.at(0)),
        "facts" => facts_answer(alloc, arguments.at(0)),
        "message" => message_answer(alloc, arguments.at(0), arguments.from(1)),
        "place" => place_found(alloc, arguments.at(0), arguments.at(1)),
        _ => unread(alloc),
    }
}

/// The bytes for which the field of a number stands.
fn text_answer(alloc: Global, fields: &Fields<'_>, number: usize) -> Result<Vec<u8>, AllocError> {
    match fields.field(number) {
        Some(raw) => unescape(alloc, raw),
        None => new_messages(alloc, "none"),
    }
}

/// Where the field of a number lies, and whether it is there.
fn span_answer(alloc: Global, fields: &Fields<'_>, number: usize) -> Result<Vec<u8>, AllocError> {
    let is_there = fields.field(number).is_some();
    match fields.span(number) {
        Some((start, end)) => shown(alloc, &format_args!("{start} {end} {is_there}")),
        None => shown(alloc, &format_args!("none {is_there}")),
    }
}

/// The place of a fault of a line, if it has one.
fn place_of(fault: FieldFault) -> Option<usize> {
    match fault {
        FieldFault::BadByte(at)
        | FieldFault::OpenQuote(at)
        | FieldFault::GluedQuote(at)
        | FieldFault::BadEscape(at) => Some(at),
        FieldFault::TooFew => None,
    }
}

/// A fault of a line by its name and its place.
fn messages_fault(alloc: Global, fault: FieldFault) -> Result<Vec<u8>, AllocError> {
    match place_of(fault) {
        Some(at) => shown(alloc, &format_args!("{fault} {at}")),
        None => shown(alloc, &fault),
    }
}

/// The first fault of a line.
fn fault_answer(alloc: Global, line: &[u8]) -> Result<Vec<u8>, AllocError> {
    match fields(line) {
        Ok(_) => new_messages(alloc, "ok"),
        Err(fault) => messages_fault(alloc, fault),
    }
}

/// No facts, or for `machine` the value `0123` for the letter `m`.
fn facts_of(alloc: Global, word: &[u8]) -> Result<Facts, AllocError> {
    let mut facts = Facts::new(alloc);
    if word == b"machine".as_slice() && facts.get(b'm').is_none() {
        facts.put(b'm', b"0123")?;
    }
    Ok(facts)
}

/// A tool by its name.
fn tool_of(word: &[u8]) -> Tool {
    match word {
        b"sysusers" => Tool::Sysusers,
        _ => Tool::Tmpfiles,
    }
}

/// What a text stands for, or its fault.
fn expanded_answer(
    alloc: Global,
    tool: &[u8],
    facts: &[u8],
    text: &[u8],
) -> Result<Vec<u8>, AllocError> {
    let facts = facts_of(alloc, facts)?;
    match expand(alloc, text, &facts, tool_of(tool)) {
        Ok(text) => Ok(text),
        Err(fault) => named(alloc, fault.name(), &shown(alloc, &fault)?),
    }
}

/// The name of a fault, or `ok`.
fn fault_word(expanded: Result<Vec<u8>, ExpandFault>) -> &'static [u8] {
    match expanded {
        Ok(_) => b"ok",
        Err(fault) => fault.name(),
    }
}

/// The faults of a text without facts for tmpfiles.d(5) and for sysusers.d(5).
fn faults_answer(alloc: Global, text: &[u8]) -> Result<Vec<u8>, AllocError> {
    let facts = Facts::new(alloc);
    let first = fault_word(expand(alloc, text, &facts, Tool::Tmpfiles));
    let second = fault_word(expand(alloc, text, &facts, Tool::Sysusers));
    spaced(Vec::from_slice(alloc, first)?, second)
}

/// The letters that have a fact.
fn facts_answer(alloc: Global, word: &[u8]) -> Result<Vec<u8>, AllocError> {
    let facts = facts_of(alloc, word)?;
    let mut letters = Vec::new(alloc);
    for letter in FACT_LETTERS {
        if facts.get(letter).is_some() {
            letters.push(letter)?;
        }
    }
    Ok(letters)
}

/// Messages, where each is one line.
fn messages_of(alloc: Global, lines: &[Vec<u8>]) -> Result<Messages, AllocError> {
    let mut messages = Messages::new(alloc);
    for line in lines {
        if is_one_line(line) {
            messages.push(line)?;
        }
    }
    Ok(messages)
}

/// How many messages there are, and the one of a number.
fn counted(alloc: Global, messages: &Messages, i: usize) -> Result<Vec<u8>, AllocError> {
    let line = or_none(alloc, messages.line(i))?;
    spaced(shown(alloc, &messages.len())?, &line)
}

/// How many messages of some lines there are, and the one of a number.
fn message_answer(alloc: Global, i: &[u8], lines: &[Vec<u8>]) -> Result<Vec<u8>, AllocError> {
    match number_in(i) {
        Some(i) => counted(alloc, &messages_of(alloc, lines)?, i as usize),
        None => unread(alloc),
    }
}

/// The file of a copy of a place.
fn place_found(alloc: Global, file: &[u8], number: &[u8]) -> Result<Vec<u8>, AllocError> {
    match number_in(number).and_then(|number| u32::try_from(number).ok()) {
        Some(number) if is_one_line(file) => {
            let place = place_in(alloc, file, number)?;
            Vec::from_slice(alloc, place.copy()?.file.as_slice())
        }
        _ => unread(alloc),
    }
}
