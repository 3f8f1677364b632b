//! Chooses the configuration files: those in the folders, or those that words name (tmpfiles.d(5), sysusers.d(5)).
ghost use Rattle.std.specs.Prelude.{◌≡◌, ◌∷◌, ◌++◌, [], ◌||◌, codes, IfOk, OnOk, OnErr};
ghost use Rattle.pv_path.specs.Printing.{printed, printed_path};
ghost use Rattle.pv_layers.specs.Folders.{conf_names, found_in};
ghost use Rattle.pv_layers.specs.Choices.{chosen, choice_of, choice_of_names, choice_of_word, choice_of_words, found_word, IsMade};
ghost use Rattle.pv_text.specs.GivenMessages.{MessagesPart};

use crate::folders::{conf_names, folders};
use crate::found::{Found, found_in};
use crate::words::found_word;
use pv_path::{Bytes, Name, PathList, TreePath, WordList, print_bytes, print_path};
use pv_steps::Tree;
use pv_text::{Messages, Tool};
use std::alloc::{AllocError, Global};

/// The files that a run reads as its configuration.
#[derive(Drop)]
pub struct Chosen {
    /// The paths of the files, in the order in which they are read.
    pub files: PathList,
    /// Whether a word was given for which no file was found.
    pub missing: bool,
}

/// Adds the message that a path is not a regular file.
fn say_odd(alloc: Global, path: &TreePath, messages: &mut Messages) -> Result<(), AllocError>
    ensures ok { let line = printed_path path.now ++ codes ": not a regular file" in
        OnOk result (messages.new ≡ messages.old ++ line ∷ []) }
    ensures err { OnErr result (messages.new ≡ messages.old) }
{
    let mut line = print_path(alloc, path)?;
    line.extend_from_slice(b": not a regular file")?;
    messages.push(&line)
}

/// Adds the message that a word is not found.
fn say_missing(alloc: Global, word: &[u8], messages: &mut Messages) -> Result<(), AllocError>
    ensures ok { let line = printed word.now ++ codes ": not found" in
        OnOk result (messages.new ≡ messages.old ++ line ∷ []) }
    ensures err { OnErr result (messages.new ≡ messages.old) }
{
    let mut line = print_bytes(alloc, word)?;
    line.extend_from_slice(b": not found")?;
    messages.push(&line)
}

/// Adds the file that was found for a name, or the message that the object there is not a regular file.
fn take_found(
    alloc: Global,
    found: Found,
    chosen: &mut Chosen,
    messages: &mut Messages,
) -> Result<(), AllocError>
    ensures made { let choice = choice_of found in
        OnOk result (IsMade choice chosen.old chosen.new messages.old messages.new) }
    ensures err { OnErr result (messages.new ≡ messages.old) }
{
    match found {
        Found::Regular(path) => chosen.files.push(path),
        Found::Odd(path) => say_odd(alloc, &path, messages),
        Found::Missing | Found::Masked => Ok(()),
    }
}

/// Adds the file that was found for a word, or the message that the word is not found.
fn take_word(
    alloc: Global,
    word: &[u8],
    found: Found,
    chosen: &mut Chosen,
    messages: &mut Messages,
) -> Result<(), AllocError>
    ensures made { let choice = choice_of_word word.now found in
        OnOk result (IsMade choice chosen.old chosen.new messages.old messages.new) }
    ensures err { OnErr result (messages.new ≡ messages.old) }
{
    match found {
        Found::Regular(path) => chosen.files.push(path),
        Found::Masked => Ok(()),
        Found::Missing | Found::Odd(_) => {
            chosen.missing = true;
            say_missing(alloc, word, messages)
        }
    }
}

/// Adds the file that a name has in some folders.
fn take_name<T: Tree>(
    alloc: Global,
    tree: &T,
    folders: &PathList,
    name: &Name,
    chosen: &mut Chosen,
    messages: &mut Messages,
) -> Result<(), AllocError>
    ensures made { let choice = choice_of (found_in (T.state tree.now) folders.now name.now) in
        OnOk result (IsMade choice chosen.old chosen.new messages.old messages.new) }
    ensures err { OnErr result (messages.new ≡ messages.old) }
{
    let found = found_in(alloc, tree, folders, name.bytes())?;
    take_found(alloc, found, chosen, messages)
}

/// Adds the file that a word names.
fn take_next<T: Tree>(
    alloc: Global,
    tree: &T,
    folders: &PathList,
    word: &Bytes,
    chosen: &mut Chosen,
    messages: &mut Messages,
) -> Result<(), AllocError>
    ensures made { let choice = choice_of_word word.now (found_word (T.state tree.now) folders.now word.now) in
        OnOk result (IsMade choice chosen.old chosen.new messages.old messages.new) }
    ensures err { OnErr result (messages.new ≡ messages.old) }
{
    let found = found_word(alloc, tree, folders, word.as_slice())?;
    take_word(alloc, word.as_slice(), found, chosen, messages)
}

/// Chooses the files that names have in some folders, in the order of the names.
fn choose_names<T: Tree>(
    alloc: Global,
    tree: &T,
    folders: &PathList,
    names: &[Name],
    messages: &mut Messages,
) -> Result<Chosen, AllocError>
    ensures files { let choice = choice_of_names (T.state tree.now) folders.now names.now in
        IfOk result (λ c. c.files ≡ choice.files) }
    ensures missing { let choice = choice_of_names (T.state tree.now) folders.now names.now in
        IfOk result (λ c. c.missing ≡ choice.missing) }
    ensures new_messages { let choice = choice_of_names (T.state tree.now) folders.now names.now in
        OnOk result (messages.new ≡ messages.old ++ choice.messages) }
    ensures part { let choice = choice_of_names (T.state tree.now) folders.now names.now in
        MessagesPart choice.messages messages.old messages.new }
{
    let mut chosen = Chosen {
        files: PathList::new(alloc),
        missing: false,
    };
    for name in names {
        take_name(alloc, tree, folders, name, &mut chosen, messages)?;
    }
    Ok(chosen)
}

/// Chooses the files that words name, in the order of the words. If the same word is given again, it has no further
/// effect.
fn choose_words<T: Tree>(
    alloc: Global,
    tree: &T,
    folders: &PathList,
    words: &[Bytes],
    messages: &mut Messages,
) -> Result<Chosen, AllocError>
    ensures files { let choice = choice_of_words (T.state tree.now) folders.now [] words.now in
        IfOk result (λ c. c.files ≡ choice.files) }
    ensures missing { let choice = choice_of_words (T.state tree.now) folders.now [] words.now in
        IfOk result (λ c. c.missing ≡ choice.missing) }
    ensures new_messages { let choice = choice_of_words (T.state tree.now) folders.now [] words.now in
        OnOk result (messages.new ≡ messages.old ++ choice.messages) }
    ensures part { let choice = choice_of_words (T.state tree.now) folders.now [] words.now in
        MessagesPart choice.messages messages.old messages.new }
{
    let mut chosen = Chosen {
        files: PathList::new(alloc),
        missing: false,
    };
    for (i, word) in words.iter().enumerate() {
        if words[..i].contains(word) {
            continue;
        }
        take_next(alloc, tree, folders, word, &mut chosen, messages)?;
    }
    Ok(chosen)
}

/// Chooses the files that a tool reads as its configuration, and adds messages about what it cannot read.
///
/// `names` are the words of the command line that name configuration files. Below they are called words.
///
/// Without words, the files are those whose names end in `.conf` and do not begin with a period, in the tool's
/// folders. For systemd-tmpfiles these are `/etc/tmpfiles.d`, `/run/tmpfiles.d`, `/usr/local/lib/tmpfiles.d` and
/// `/usr/lib/tmpfiles.d`. For systemd-sysusers they end in `sysusers.d` instead (tmpfiles.d(5) and sysusers.d(5),
/// "Configuration Directories and Precedence").
/// - The files are in the byte order of their names, each name once. The first folder that has the name decides.
/// - A link whose target is exactly `/dev/null` masks the name: it gives no file and no message.
/// - For any other object that is not a regular file, the message is `PATH: not a regular file`.
///
/// With words, the files are in the order of the words. If the same word is given again, it has no further effect.
/// - A word that begins with a slash is a path. Any other word is a file name, with any ending, looked up in the
///   folders in the same way.
/// - A mask gives no file and no message.
/// - If the word names no regular file, `missing` is set and the message is `WORD: not found`.
///
/// The only error is `AllocError`, and then only some of these messages, a prefix of their list, were added.
pub fn chosen_files<T: Tree>(
    alloc: Global,
    tree: &T,
    tool: Tool,
    names: &WordList,
    messages: &mut Messages,
) -> Result<Chosen, AllocError>
    ensures files { let choice = chosen (T.state tree.now) tool names.now in
        IfOk result (λ c. c.files ≡ choice.files) }
    ensures missing { let choice = chosen (T.state tree.now) tool names.now in
        IfOk result (λ c. c.missing ≡ choice.missing) }
    ensures new_messages { let choice = chosen (T.state tree.now) tool names.now in
        OnOk result (messages.new ≡ messages.old ++ choice.messages) }
    ensures part { let choice = chosen (T.state tree.now) tool names.now in
        MessagesPart choice.messages messages.old messages.new }
{
    let folders = folders(alloc, tool)?;
    match names.as_slice() {
        [] => {
            let names = conf_names(alloc, tree, &folders)?;
            choose_names(alloc, tree, &folders, &names, messages)
        }
        words => choose_words(alloc, tree, &folders, words, messages),
    }
}
