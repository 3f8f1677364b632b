//! The files that words choose, and the lines that are read from them.
use pv_image::read_image;
use pv_layers::{Chosen, chosen_files};
use pv_lines::{Line, LineId};
use pv_path::{Bytes, WordList, print_path};
use pv_read_config::{Configuration, read_configuration};
use pv_text::{Facts, Messages, Tool};
use pv_tree::MemTree;
use std::alloc::{AllocError, Global};
use test_sheet::{ended, words_of};

/// The tree of an image, if it is one.
fn tree_of(alloc: Global, input: &[u8]) -> Option<MemTree> {
    match read_image(alloc, input) {
        Ok(image) => Some(image.tree),
        Err(_) => None,
    }
}

/// The words of a text, as the readers get them.
fn list_of(alloc: Global, words: &str) -> Result<WordList, AllocError> {
    let mut list = WordList::new(alloc);
    for word in &words_of(alloc, words)? {
        list.push(Bytes::copy_of(alloc, word.as_bytes())?)?;
    }
    Ok(list)
}

/// The messages, each in a line behind its mark.
fn new_messages(alloc: Global, messages: &Messages) -> Result<Vec<u8>, AllocError> {
    let mut text = Vec::new(alloc);
    for i in 0..messages.len() {
        if let Some(line) = messages.line(i) {
            text.extend_from_slice(b": ")?;
            text.extend_from_slice(line)?;
            text.push(b'\n')?;
        }
    }
    Ok(text)
}

/// Adds the printed paths of the chosen files.
fn add_chosen(alloc: Global, text: &mut Vec<u8>, chosen: &Chosen) -> Result<(), AllocError> {
    for path in chosen.files.as_slice() {
        text.extend_from_slice(&print_path(alloc, path)?)?;
        text.push(b'\n')?;
    }
    Ok(())
}

/// What is said of the files that words choose for a tool, the files, and whether a word names none.
fn chosen_of(alloc: Global, tool: Tool, words: &str, input: &[u8]) -> Result<Vec<u8>, AllocError> {
    let Some(tree) = tree_of(alloc, input) else {
        return Ok(Vec::new(alloc));
    };
    let mut messages = Messages::new(alloc);
    let words = list_of(alloc, words)?;
    let chosen = chosen_files(alloc, &tree, tool, &words, &mut messages)?;
    let mut text = new_messages(alloc, &messages)?;
    add_chosen(alloc, &mut text, &chosen)?;
    let end: &[u8] = if chosen.missing { b"missing" } else { b"found" };
    ended(text, end)
}

/// What is said of the files that the words after the name of the tool choose, and the files.
pub(crate) fn files(alloc: Global, words: &str, input: &[u8]) -> Result<Vec<u8>, AllocError> {
    let (tool, words) = match words.split_once(' ') {
        Some((tool, words)) => (tool, words),
        None => (words, ""),
    };
    let tool = match tool {
        "systemd-sysusers" => Tool::Sysusers,
        _ => Tool::Tmpfiles,
    };
    chosen_of(alloc, tool, words, input)
}

/// The number of an owner, or `-`.
fn id_of(alloc: Global, owner: Option<LineId>) -> Result<String, AllocError> {
    match owner {
        Some(owner) => format!(in alloc; "{}", owner.id),
        None => "-".to_string(alloc),
    }
}

/// Adds a line as `PATH UID GID FILE:NUMBER`.
fn add_line(alloc: Global, text: &mut Vec<u8>, line: &Line) -> Result<(), AllocError> {
    let (user, group) = (id_of(alloc, line.user)?, id_of(alloc, line.group)?);
    text.extend_from_slice(line.path_text.as_slice())?;
    text.extend_from_slice(format!(in alloc; " {user} {group} ")?.as_bytes())?;
    text.extend_from_slice(line.place.file.as_slice())?;
    text.extend_from_slice(format!(in alloc; ":{}\n", line.place.number)?.as_bytes())
}

/// Adds the lines of a configuration.
fn add_lines(
    alloc: Global,
    text: &mut Vec<u8>,
    read: &Configuration<Line>,
) -> Result<(), AllocError> {
    for line in read.lines.as_slice() {
        add_line(alloc, text, line)?;
    }
    Ok(())
}

/// How many lines of a configuration were looked at, and whether one is invalid or a word names no file.
fn count_text(alloc: Global, read: &Configuration<Line>) -> Result<String, AllocError> {
    let invalid = if read.invalid { ", invalid" } else { "" };
    let missing = if read.missing { ", missing" } else { "" };
    format!(in alloc; "{} lines{invalid}{missing}", read.count)
}

/// What is said of the lines that are read from the files that words choose, and the lines.
pub(crate) fn lines(alloc: Global, words: &str, input: &[u8]) -> Result<Vec<u8>, AllocError> {
    let Some(tree) = tree_of(alloc, input) else {
        return Ok(Vec::new(alloc));
    };
    let words = list_of(alloc, words)?;
    let facts = Facts::new(alloc);
    let mut messages = Messages::new(alloc);
    let read = read_configuration(alloc, &tree, &words, &facts, &mut messages)?;
    let mut text = new_messages(alloc, &messages)?;
    add_lines(alloc, &mut text, &read)?;
    ended(text, count_text(alloc, &read)?.as_bytes())
}
