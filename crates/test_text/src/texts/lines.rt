//! Lines of tmpfiles.d(5), and what each is read as.
use super::given::{People, place_in};
use crate::marks::{joined, named, new_messages, shown, spaced, unread};
use pv_lines::{Argument, Line, LineFault, LineId, LineMode, LinePath, name_of, read_line};
use pv_path::print_path;
use pv_steps::{AttrList, LetterHow};
use pv_text::Facts;
use std::alloc::{AllocError, Global};
use std::fmt::Display;
use test_sheet::bytes_of;

/// All types.
const TYPES: &[u8] = b"fFdDvqQpLcbCwezZaAtThHrRxX";

/// What a call answers for words.
pub(crate) fn answer_to(alloc: Global, call: &str, words: &str) -> Result<Vec<u8>, AllocError> {
    match call {
        "fault" => first_answer(alloc, &bytes_of(alloc, words)?),
        "read" => read_answer(alloc, &bytes_of(alloc, words)?),
        "place" => place_found(alloc, &bytes_of(alloc, words)?),
        "types" | "bare-types" => types_answer(alloc, call, words),
        _ => unread(alloc),
    }
}

/// Reads a text as the seventh line of a file.
fn read(alloc: Global, text: &[u8]) -> Result<Line, LineFault> {
    let place = place_in(alloc, b"/etc/tmpfiles.d/a.conf", 7)?;
    read_line(alloc, text, place, &Facts::new(alloc), &People)
}

/// The name of the fault of a text, or `ok`.
fn answer(alloc: Global, text: &[u8]) -> &'static [u8] {
    match read(alloc, text) {
        Ok(_) => b"ok",
        Err(fault) => name_of(fault),
    }
}

/// A fault by its name, which is also what is printed of it.
fn fault_answer(alloc: Global, fault: LineFault) -> Result<Vec<u8>, AllocError> {
    named(alloc, name_of(fault), &shown(alloc, &fault)?)
}

/// The fault of a text, or `ok`.
fn first_answer(alloc: Global, text: &[u8]) -> Result<Vec<u8>, AllocError> {
    match read(alloc, text) {
        Ok(_) => new_messages(alloc, "ok"),
        Err(fault) => fault_answer(alloc, fault),
    }
}

/// An argument that a type takes.
fn sample_argument(letter: u8) -> &'static [u8] {
    match letter {
        b'f' | b'F' | b'w' => b" - - - - QUJD",
        b'L' | b'C' => b" - - - - /x",
        b'c' | b'b' => b" - - - - 1:3",
        b'a' | b'A' => b" - - - - u:1:r",
        b't' | b'T' => b" - - - - user.a=1",
        b'h' | b'H' => b" - - - - +i",
        _ => b"",
    }
}

/// Whether a line of a type, of what stands behind the letter, and of an argument has an answer.
fn has_answer(
    alloc: Global,
    letter: u8,
    middle: &[u8],
    argument: &[u8],
    wanted: &str,
) -> Result<bool, AllocError> {
    let text = joined(alloc, &joined(alloc, &[letter], middle)?, argument)?;
    Ok(answer(alloc, &text) == wanted.as_bytes())
}

/// The types whose lines have an answer, with what stands behind the letter, and each with an argument that it takes or none.
fn types_with(
    alloc: Global,
    middle: &[u8],
    has_argument: bool,
    wanted: &str,
) -> Result<Vec<u8>, AllocError> {
    let mut letters = Vec::new(alloc);
    for letter in TYPES {
        let argument = if has_argument {
            sample_argument(*letter)
        } else {
            b""
        };
        if has_answer(alloc, *letter, middle, argument, wanted)? {
            letters.push(*letter)?;
        }
    }
    Ok(letters)
}

/// The types whose lines have the answer that words begin with, with what stands behind the letter.
fn types_answer(alloc: Global, call: &str, words: &str) -> Result<Vec<u8>, AllocError> {
    match words.split_once(' ') {
        Some((wanted, middle)) => {
            types_with(alloc, &bytes_of(alloc, middle)?, call == "types", wanted)
        }
        None => unread(alloc),
    }
}

/// The number of the place of the line of a text, its file, and the text of its path, or the name of its fault.
fn place_found(alloc: Global, text: &[u8]) -> Result<Vec<u8>, AllocError> {
    match read(alloc, text) {
        Ok(line) => place_of(alloc, &line),
        Err(fault) => fault_answer(alloc, fault),
    }
}

/// The number of the place of a line, its file, and the text of its path.
fn place_of(alloc: Global, line: &Line) -> Result<Vec<u8>, AllocError> {
    let answer = spaced(
        shown(alloc, &line.place.number)?,
        line.place.file.as_slice(),
    )?;
    spaced(answer, line.path_text.as_slice())
}

/// What a text is read as in short, or the name of its fault.
fn read_answer(alloc: Global, text: &[u8]) -> Result<Vec<u8>, AllocError> {
    match read(alloc, text) {
        Ok(line) => line_answer(alloc, &line),
        Err(fault) => fault_answer(alloc, fault),
    }
}

/// A line in short: its type, what it names, its mode, its owners, its age and its argument.
fn line_answer(alloc: Global, line: &Line) -> Result<Vec<u8>, AllocError> {
    let mut answer_to = Vec::new(alloc);
    add_type(&mut answer_to, line)?;
    add_named(&mut answer_to, alloc, line)?;
    add_mode(&mut answer_to, alloc, line.mode)?;
    add_owner(&mut answer_to, alloc, "user", line.user)?;
    add_owner(&mut answer_to, alloc, "group", line.group)?;
    add_age(&mut answer_to, alloc, line)?;
    add_argument(&mut answer_to, alloc, &line.argument)?;
    Ok(answer_to)
}

/// Adds the letter and the modifiers of a line, and whether its path was rewritten.
fn add_type(text: &mut Vec<u8>, line: &Line) -> Result<(), AllocError> {
    text.push(line.letter)?;
    for (stands, mark) in [
        (line.plus, b'+'),
        (line.boot, b'!'),
        (line.minus, b'-'),
        (line.replace, b'='),
        (line.encoded, b'~'),
        (line.purge, b'$'),
        (line.moved, b'm'),
    ] {
        if stands {
            text.push(mark)?;
        }
    }
    text.push(b' ')?;
    Ok(())
}

/// Adds what a line names.
fn add_named(text: &mut Vec<u8>, alloc: Global, line: &Line) -> Result<(), AllocError> {
    match &line.path {
        LinePath::Literal(path) => text.extend_from_slice(&print_path(alloc, path)?),
        LinePath::Glob(pattern) => {
            add_shown(text, alloc, &format_args!("{}:", pattern.plains().len()))?;
            text.extend_from_slice(line.path_text.as_slice())
        }
    }
}

/// Adds a mode, if there is one.
fn add_mode(text: &mut Vec<u8>, alloc: Global, mode: Option<LineMode>) -> Result<(), AllocError> {
    match mode {
        Some(mode) => {
            let (masked, new_only) = (mode.masked, mode.new_only);
            add_shown(
                text,
                alloc,
                &format_args!(" mode {:o} {masked} {new_only}", mode.value),
            )
        }
        None => Ok(()),
    }
}

/// Adds a user or a group, if there is one.
fn add_owner(
    text: &mut Vec<u8>,
    alloc: Global,
    what: &str,
    owner: Option<LineId>,
) -> Result<(), AllocError> {
    match owner {
        Some(owner) => {
            let (id, new_only) = (owner.id, owner.new_only);
            add_shown(text, alloc, &format_args!(" {what} {id} {new_only}"))
        }
        None => Ok(()),
    }
}

/// Adds the age of a line, if there is one.
fn add_age(text: &mut Vec<u8>, alloc: Global, line: &Line) -> Result<(), AllocError> {
    match line.age {
        Some(age) => {
            let (micros, spare_first) = (age.micros, age.spare_first);
            add_shown(text, alloc, &format_args!(" age {micros} {spare_first}"))
        }
        None => Ok(()),
    }
}

/// Adds what is printed of a value.
fn add_shown<T: Display>(text: &mut Vec<u8>, alloc: Global, value: &T) -> Result<(), AllocError> {
    text.extend_from_slice(&shown(alloc, value)?)
}

/// Adds a text.
fn add(text: &mut Vec<u8>, more: &str) -> Result<(), AllocError> {
    text.extend_from_slice(more.as_bytes())
}

/// Adds a word and some bytes.
fn add_bytes(text: &mut Vec<u8>, word: &str, bytes: &[u8]) -> Result<(), AllocError> {
    add(text, word)?;
    text.extend_from_slice(bytes)
}

/// Adds attributes, each with a blank before it.
fn add_attrs(text: &mut Vec<u8>, attrs: &AttrList) -> Result<(), AllocError> {
    add(text, " attrs")?;
    for attr in attrs.as_slice() {
        add_bytes(text, " ", attr.name.as_slice())?;
        add_bytes(text, "=", attr.value.as_slice())?;
    }
    Ok(())
}

/// Adds an argument in short.
fn add_argument(text: &mut Vec<u8>, alloc: Global, argument: &Argument) -> Result<(), AllocError> {
    match argument {
        Argument::FileBytes(None) => add(text, " no bytes"),
        Argument::FileBytes(Some(bytes)) => add_bytes(text, " bytes ", bytes.as_slice()),
        Argument::WriteBytes(bytes) => add_bytes(text, " write ", bytes.as_slice()),
        Argument::Target(target) => add_bytes(text, " target ", target.as_slice()),
        Argument::Source(path) => add_bytes(text, " source ", &print_path(alloc, path)?),
        Argument::Device { major, minor } => {
            add_shown(text, alloc, &format_args!(" device {major}:{minor}"))
        }
        Argument::Entries(entries) => {
            let (access, default) = (entries.access.len(), entries.default_part.len());
            add_shown(text, alloc, &format_args!(" entries {access} {default}"))
        }
        Argument::Attrs(attrs) => add_attrs(text, attrs),
        Argument::Letters { how, letters } => {
            let sign = match how {
                LetterHow::Add => " add ",
                LetterHow::Take => " take ",
                LetterHow::Put => " put ",
            };
            add_bytes(text, sign, letters.letters(alloc)?.as_slice())
        }
        Argument::Ignored => Ok(()),
    }
}
