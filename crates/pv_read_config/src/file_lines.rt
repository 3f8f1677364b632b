//! Reads the lines of the chosen files, and adds the messages about them.
ghost use Rattle.std.specs.Prelude.{◌≡◌, ◌+◌, ◌^◌, ◌<◌, ◌∷◌, ◌++◌, [], IfOk, OnOk, OnErr};
ghost use Rattle.std.specs.List.{AllByRecursion};
ghost use Rattle.pv_layers.specs.Choices.{chosen};
ghost use Rattle.pv_text.specs.GivenMessages.{MessagesPart};
ghost use Rattle.pv_read_config.specs.Configuration.{configured_by, content_at, lines_in, reader_of, reading_of, reading_of_file, reading_of_files, reading_of_lines};
ghost use Rattle.pv_read_config.specs.Adding.{Adds, Reads};

use crate::configuration::Configuration;
use crate::cutting::{first_line, is_skipped};
use crate::line_reader::LineReader;
use pv_layers::chosen_files;
use pv_path::{Sequence, TreePath, WordList};
use pv_steps::{Kind, Tree};
use pv_text::{Messages, OneLine, Place, Tool};
use std::alloc::{AllocError, Global};

/// Reads one line, or skips it.
fn add_line<R: LineReader>(
    alloc: Global,
    reader: &R,
    place: &Place,
    line: &[u8],
    configuration: &mut Configuration<R::Line>,
    messages: &mut Messages,
) -> Result<(), AllocError>
    requires { AllByRecursion (R.is_whole reader.now) configuration.old.lines }
    ensures added { let read = reading_of (reader_of (R.line_read reader.now) (R.messages_for reader.now)) place.now line.now in
        OnOk result (Adds read configuration.old configuration.new messages.old messages.new) }
    ensures whole { OnOk result (AllByRecursion (R.is_whole reader.now) configuration.new.lines) }
    ensures part { let read = reading_of (reader_of (R.line_read reader.now) (R.messages_for reader.now)) place.now line.now in
        MessagesPart read.messages messages.old messages.new }
{
    configuration.count = next_number(configuration.count)?;
    if is_skipped(line) {
        return Ok(());
    }
    match reader.read(alloc, line, place, messages)? {
        Some(line) => {
            configuration.lines.push(line)?;
            Ok(())
        }
        None => {
            configuration.invalid = true;
            Ok(())
        }
    }
}

/// Adds one to a number. A number above 32 bits counts as running out of memory.
fn next_number(number: u32) -> Result<u32, AllocError>
    ensures next { IfOk result (λ next. next ≡ number + 1) }
    ensures few { IfOk result (λ next. next < 2 ^ 32) }
{
    number.checked_add(1).ok_or(AllocError)
}

/// Reads the lines of a content.
fn add_lines<R: LineReader>(
    alloc: Global,
    reader: &R,
    file: OneLine,
    content: &[u8],
    configuration: &mut Configuration<R::Line>,
    messages: &mut Messages,
) -> Result<(), AllocError>
    requires { AllByRecursion (R.is_whole reader.now) configuration.old.lines }
    ensures added { let read = reading_of_lines (reader_of (R.line_read reader.now) (R.messages_for reader.now)) file 1 (lines_in content.now) in
        OnOk result (Adds read configuration.old configuration.new messages.old messages.new) }
    ensures whole { OnOk result (AllByRecursion (R.is_whole reader.now) configuration.new.lines) }
    ensures part { let read = reading_of_lines (reader_of (R.line_read reader.now) (R.messages_for reader.now)) file 1 (lines_in content.now) in
        MessagesPart read.messages messages.old messages.new }
{
    let mut place = Place { file, number: 0 };
    let mut rest = content;
    while !rest.is_empty() {
        let (line, after) = first_line(rest);
        place.number = next_number(place.number)?;
        add_line(alloc, reader, &place, line, configuration, messages)?;
        rest = after;
    }
    Ok(())
}

/// Returns the bytes of the regular file at a path. If there is no such file, it returns no bytes.
pub(crate) fn content_at<'a, T: Tree>(tree: &'a T, path: &TreePath) -> &'a [u8]
    ensures { result.now ≡ content_at (T.state tree.now) path.now }
{
    let kind = match tree.look(path) {
        Some(node) => node.kind,
        None => return b"",
    };
    match kind {
        Kind::File => tree.bytes(path),
        _ => b"",
    }
}

/// Reads the lines of a file.
fn add_file<T: Tree, R: LineReader>(
    alloc: Global,
    tree: &T,
    reader: &R,
    path: &TreePath,
    configuration: &mut Configuration<R::Line>,
    messages: &mut Messages,
) -> Result<(), AllocError>
    requires { AllByRecursion (R.is_whole reader.now) configuration.old.lines }
    ensures added { let read = reading_of_file (T.state tree.now) (reader_of (R.line_read reader.now) (R.messages_for reader.now)) path.now in
        OnOk result (Adds read configuration.old configuration.new messages.old messages.new) }
    ensures whole { OnOk result (AllByRecursion (R.is_whole reader.now) configuration.new.lines) }
    ensures part { let read = reading_of_file (T.state tree.now) (reader_of (R.line_read reader.now) (R.messages_for reader.now)) path.now in
        MessagesPart read.messages messages.old messages.new }
{
    let file = OneLine::of_path(alloc, path)?;
    add_lines(
        alloc,
        reader,
        file,
        content_at(tree, path),
        configuration,
        messages,
    )
}

/// Reads the lines of files, one file after the other.
fn add_files<T: Tree, R: LineReader>(
    alloc: Global,
    tree: &T,
    reader: &R,
    paths: &[TreePath],
    configuration: &mut Configuration<R::Line>,
    messages: &mut Messages,
) -> Result<(), AllocError>
    requires { AllByRecursion (R.is_whole reader.now) configuration.old.lines }
    ensures added { let read = reading_of_files (T.state tree.now) (reader_of (R.line_read reader.now) (R.messages_for reader.now)) paths.now in
        OnOk result (Adds read configuration.old configuration.new messages.old messages.new) }
    ensures whole { OnOk result (AllByRecursion (R.is_whole reader.now) configuration.new.lines) }
    ensures part { let read = reading_of_files (T.state tree.now) (reader_of (R.line_read reader.now) (R.messages_for reader.now)) paths.now in
        MessagesPart read.messages messages.old messages.new }
{
    for path in paths {
        add_file(alloc, tree, reader, path, configuration, messages)?;
    }
    Ok(())
}

/// Reads the configuration of a tool in a tree, with any reader of single lines.
///
/// - `reader` reads one line.
/// - `words` name configuration files. If there are none, the files are those in the folders of the tool. The call
///   `chosen_files` of pv_layers says which files these are, and which messages it adds.
///
/// Each file is read from its first line, which has the number 1, to its last. A line is skipped if it has only blanks,
/// or if its first byte that is not a blank is `#`. A line that is not valid for the reader is left out, and sets
/// `invalid`.
///
/// Messages about files and words come before messages about lines.
///
/// The error is `AllocError` if memory runs out, or if the files have more than 4294967295 lines. Then only some of
/// these messages, a prefix of their list, were added.
pub fn read_lines<T: Tree, R: LineReader>(
    alloc: Global,
    tree: &T,
    reader: &R,
    tool: Tool,
    words: &WordList,
    messages: &mut Messages,
) -> Result<Configuration<R::Line>, AllocError>
    ensures reads { let wanted = configured_by (T.state tree.now) (reader_of (R.line_read reader.now) (R.messages_for reader.now)) tool words.now in
        IfOk result (Reads wanted) }
    ensures whole { IfOk result (λ c. AllByRecursion (R.is_whole reader.now) c.lines) }
    ensures new_messages { let wanted = configured_by (T.state tree.now) (reader_of (R.line_read reader.now) (R.messages_for reader.now)) tool words.now in
        OnOk result (messages.new ≡ messages.old ++ wanted.messages) }
    ensures part { let wanted = configured_by (T.state tree.now) (reader_of (R.line_read reader.now) (R.messages_for reader.now)) tool words.now in
        MessagesPart wanted.messages messages.old messages.new }
{
    let chosen = chosen_files(alloc, tree, tool, words, messages)?;
    let mut configuration = Configuration {
        lines: Sequence::new(alloc),
        invalid: false,
        missing: chosen.missing,
        count: 0,
    };
    let files = chosen.files.as_slice();
    add_files(alloc, tree, reader, files, &mut configuration, messages)?;
    Ok(configuration)
}
