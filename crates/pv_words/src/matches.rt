//! What `clap` reads from the arguments after the name of the tool.
ghost use Rattle.std.specs.Prelude.{◌≡◌, IfOk, length, map, nat_lt, string_bytes};
ghost use Rattle.std.specs.List.{list_any};
ghost use Rattle.std.specs.Option.{option_map};
ghost use Rattle.clap.specs.Matches.{found_of};
ghost use Rattle.pv_words.specs.Parts.{begins_with_dash, is_dash};
ghost use Rattle.pv_words.specs.Reading.{Reads, fault_of, files_in, has_short, is_found, is_from_words, is_short, value_in};

use crate::command::command;
use crate::option::OptionName;
use crate::words_fault::WordsFault;
use clap::ArgMatches;
use clap::error::ErrorKind;
use clap::parser::ValueSource;
use pv_path::{Bytes, Sequence, WordList};
use std::alloc::{AllocError, Global};

/// Reads the arguments after the name of the tool by `clap`.
pub(crate) fn matches_of<'a>(
    alloc: Global,
    words: &'a [String],
) -> Result<ArgMatches<'a>, WordsFault>
    ensures { Reads result (map string_bytes words.entry.now) }
{
    if has_short(words) {
        return Err(WordsFault::Usage);
    }
    let command = command(alloc)?;
    match command.try_get_matches_from(words) {
        Ok(matches) => Ok(matches),
        Err(error) => Err(fault_of(error.kind())),
    }
}

/// Returns the fault for a kind of error of `clap`.
fn fault_of(kind: ErrorKind) -> WordsFault
    ensures { result ≡ fault_of kind }
{
    match kind {
        ErrorKind::OutOfMemory => WordsFault::Memory,
        _ => WordsFault::Usage,
    }
}

/// Returns whether an argument before `--` begins with one dash and has more bytes, such as `-x`.
fn has_short(words: &[String]) -> bool
    ensures { result ≡ has_short (map string_bytes words.now) }
{
    for word in words {
        let word = word.as_str();
        if word == "--" {
            return false;
        }
        if is_short(word) {
            return true;
        }
    }
    false
}

/// Returns whether an argument begins with one dash and has more bytes.
fn is_short(word: &str) -> bool
    ensures { result ≡ is_short word.now }
{
    begins_with_dash(word.as_bytes()) && !is_dash(word) && !word.starts_with("--")
}

/// Returns whether the argument begins with a dash.
pub(crate) fn begins_with_dash(word: &[u8]) -> bool
    ensures { result ≡ begins_with_dash word.now }
{
    word.first() == Some(&b'-')
}

/// Returns whether an option is among the arguments.
pub(crate) fn is_given(matches: &ArgMatches<'_>, option: OptionName) -> bool
    ensures { result ≡ is_found (found_of matches.now) option }
{
    is_from_words(matches.value_source(option.name()))
}

/// Returns whether a value comes from the arguments, and is not a default.
fn is_from_words(source: Option<ValueSource>) -> bool
    ensures { result ≡ is_from_words source }
{
    matches!(source, Some(ValueSource::CommandLine))
}

/// Returns the value of an option that is given.
pub(crate) fn value_of<'a>(matches: &ArgMatches<'a>, option: OptionName) -> Option<&'a [u8]>
    ensures { option_map (λ v. v.now) result ≡ value_in (found_of matches.now) option }
{
    let value = matches.get_str(option.name())?;
    Some(value.as_bytes())
}

/// Returns the file arguments, in the order given.
pub(crate) fn files_of(alloc: Global, matches: &ArgMatches<'_>) -> Result<WordList, AllocError>
    ensures { IfOk result (λ words. words ≡ files_in (found_of matches.now)) }
{
    match matches.get_strs("files") {
        Some(files) => words_of(alloc, files),
        None => Ok(Sequence::new(alloc)),
    }
}

/// Returns copies of the texts.
fn words_of(alloc: Global, texts: &[&str]) -> Result<WordList, AllocError>
    ensures { IfOk result (λ words. words ≡ map (λ t. t.now) texts.now) }
{
    let mut words = Sequence::new(alloc);
    for text in texts {
        words.push(Bytes::copy_of(alloc, text.as_bytes())?)?;
    }
    Ok(words)
}

/// Returns whether there is a file argument.
pub(crate) fn has_file_words(matches: &ArgMatches<'_>) -> bool
    ensures { result ≡ nat_lt 0 (length (files_in (found_of matches.now))) }
{
    match matches.get_strs("files") {
        Some(files) => !files.is_empty(),
        None => false,
    }
}

/// Returns whether a file argument is `-`.
pub(crate) fn has_dash(matches: &ArgMatches<'_>) -> bool
    ensures { result ≡ list_any is_dash (files_in (found_of matches.now)) }
{
    match matches.get_strs("files") {
        Some(files) => is_any_dash(files),
        None => false,
    }
}

/// Returns whether a text is `-`.
pub(crate) fn is_dash(text: &str) -> bool
    ensures { result ≡ is_dash text.now }
{
    text == "-"
}

/// Returns whether one of the texts is `-`.
fn is_any_dash(texts: &[&str]) -> bool
    ensures { result ≡ list_any (λ t. is_dash t.now) texts.now }
{
    texts.iter().any(|text| is_dash(text))
}
