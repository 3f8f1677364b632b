//! Words of a command.
use crate::marks::unread;
use pv_path::{TreePath, print_path};
use pv_text::Tool;
use pv_words::{Invocation, Options, Rooted, parse_args, rooted_of};
use std::alloc::{AllocError, Global};
use test_sheet::words_of;

/// What a call answers for words.
pub(crate) fn answer_to(alloc: Global, call: &str, words: &str) -> Result<Vec<u8>, AllocError> {
    match call {
        "parsed" => parsed_answer(alloc, words),
        "rooted" => rooted_answer(alloc, words),
        _ => unread(alloc),
    }
}

/// What words ask for in short, or their fault.
fn parsed_answer(alloc: Global, words: &str) -> Result<Vec<u8>, AllocError> {
    let words = words_of(alloc, words)?;
    match parse_args(alloc, words.as_slice()) {
        Ok(asked) => meaning_answer(alloc, &asked),
        Err(fault) => Ok(format!(in alloc; "{fault}")?.into_bytes()),
    }
}

/// The folder that words name and what the others ask for in short, or their fault.
fn rooted_answer(alloc: Global, words: &str) -> Result<Vec<u8>, AllocError> {
    let words = words_of(alloc, words)?;
    match rooted_of(alloc, words.as_slice()) {
        Ok(rooted) => folder_answer(alloc, &rooted),
        Err(fault) => Ok(format!(in alloc; "{fault}")?.into_bytes()),
    }
}

/// A folder and what is asked for in short.
fn folder_answer(alloc: Global, rooted: &Rooted) -> Result<Vec<u8>, AllocError> {
    let mut text = Vec::from_slice(alloc, rooted.folder.as_slice())?;
    text.push(b' ')?;
    text.extend_from_slice(&options_answer(alloc, &rooted.options)?)?;
    Ok(text)
}

/// What is asked for in short.
fn meaning_answer(alloc: Global, asked: &Invocation) -> Result<Vec<u8>, AllocError> {
    match asked {
        Invocation::Generate { seed, count } => {
            Ok(format!(in alloc; "generate {seed} {count}")?.into_bytes())
        }
        Invocation::Run(options) => options_answer(alloc, options),
    }
}

/// A tool by its name.
fn tool_word(tool: Tool) -> &'static str {
    match tool {
        Tool::Tmpfiles => "tmpfiles",
        Tool::Sysusers => "sysusers",
    }
}

/// Adds the names of the options that have no value.
fn add_flags(text: &mut Vec<u8>, options: &Options) -> Result<(), AllocError> {
    for (stands, name) in [
        (options.create, " create"),
        (options.remove, " remove"),
        (options.clean, " clean"),
        (options.report, " report"),
        (options.purge, " purge"),
        (options.boot, " boot"),
    ] {
        if stands {
            text.extend_from_slice(name.as_bytes())?;
        }
    }
    Ok(())
}

/// Adds a name and a number, if there is one.
fn add_number(
    text: &mut Vec<u8>,
    alloc: Global,
    name: &str,
    number: Option<u64>,
) -> Result<(), AllocError> {
    match number {
        Some(number) => {
            text.extend_from_slice(format!(in alloc; " {name} {number}")?.as_bytes())
        }
        None => Ok(()),
    }
}

/// Adds a name and a path, if there is one.
fn add_path(
    text: &mut Vec<u8>,
    alloc: Global,
    name: &str,
    path: &Option<TreePath>,
) -> Result<(), AllocError> {
    if let Some(path) = path {
        text.extend_from_slice(name.as_bytes())?;
        text.extend_from_slice(&print_path(alloc, path)?)?;
    }
    Ok(())
}

/// The tool, the options, and the file words, each behind a bar.
fn options_answer(alloc: Global, options: &Options) -> Result<Vec<u8>, AllocError> {
    let mut text = Vec::from_slice(alloc, tool_word(options.tool).as_bytes())?;
    add_flags(&mut text, options)?;
    add_path(&mut text, alloc, " explain ", &options.explain)?;
    add_number(&mut text, alloc, "after", options.stop_after)?;
    add_number(&mut text, alloc, "now", options.now)?;
    add_path(&mut text, alloc, " in ", &options.prefix)?;
    add_path(&mut text, alloc, " but ", &options.exclude_prefix)?;
    for word in options.words.as_slice() {
        text.push(b'|')?;
        text.extend_from_slice(word.as_slice())?;
    }
    Ok(text)
}
