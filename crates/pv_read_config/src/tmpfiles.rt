//! Reads the lines of systemd-tmpfiles.
ghost use Rattle.std.specs.Prelude.{◌≡◌, ◌≢◌, ◌∷◌, [], ◌++◌, ◌<◌, ◌^◌, IfOk, OnOk, OnErr};
ghost use Rattle.std.specs.List.{AllByRecursion};
ghost use Rattle.pv_text.specs.GivenMessages.{MessagesPart, message_text_at};
ghost use Rattle.pv_lines.specs.FaultNames.{name_of};
ghost use Rattle.pv_lines.specs.Lines.{IsLine};
ghost use Rattle.pv_read_config.specs.Configuration.{content_at};
ghost use Rattle.pv_layers.specs.Places.{group_path, passwd_path};
ghost use Rattle.pv_read_config.specs.Known.{configured, moved_message};

use crate::configuration::Configuration;
use crate::file_lines::{content_at, read_lines};
use crate::line_reader::LineReader;
use pv_accounts::{FileNames, group_view, passwd_view};
use pv_layers::etc_path;
use pv_lines::{Line, LineFault, name_of, read_line};
use pv_path::{WordList, child};
use pv_steps::Tree;
use pv_text::{Facts, Messages, Place, Tool};
use std::alloc::{AllocError, Global};

/// The reader of lines of systemd-tmpfiles (tmpfiles.d(5)).
#[derive(Drop)]
pub(crate) struct TmpfilesReader<'a> {
    /// The facts of the image.
    pub facts: &'a Facts,
    /// The users and groups of the tree.
    pub names: FileNames<'a>,
}

impl<'a> LineReader for TmpfilesReader<'a> {
    ghost use Rattle.std.specs.Result.{result_ok};
    ghost use Rattle.pv_lines.specs.Lines.{IsLine, line_of};
    ghost use Rattle.pv_read_config.specs.Known.{lookup_in, messages_by};

    type Line = Line;

    ghost line_read = { λ reader place line. result_ok (line_of reader.facts.now (lookup_in reader.names.passwd reader.names.group) place line) };

    ghost messages_for = { λ reader place line. messages_by place (line_of reader.facts.now (lookup_in reader.names.passwd reader.names.group) place line) };

    ghost is_whole = { λ _ line. IsLine line };

    fn read(
        &self,
        alloc: Global,
        line: &[u8],
        place: &Place,
        messages: &mut Messages,
    ) -> Result<Option<Line>, AllocError> {
        match read_line(alloc, line, place.copy()?, self.facts, &self.names) {
            Ok(line) => {
                say_moved(place, line.moved, messages)?;
                Ok(Some(line))
            }
            Err(fault) => {
                say_refused(place, fault, messages)?;
                Ok(None)
            }
        }
    }
}

/// Adds the message that the path of a line was rewritten, if it was.
fn say_moved(place: &Place, moved: bool, messages: &mut Messages) -> Result<(), AllocError>
    ensures ok { OnOk result (messages.new ≡ messages.old ++ moved_message place.now moved) }
    ensures err { OnErr result (messages.new ≡ messages.old) }
{
    if !moved {
        return Ok(());
    }
    messages.push_at(place, b"/var/run/ read as /run/")
}

/// Adds the message why a line is not valid. Running out of memory is not such a message, but an error.
fn say_refused(place: &Place, fault: LineFault, messages: &mut Messages) -> Result<(), AllocError>
    ensures known { OnOk result (fault ≢ LineFault.Memory) }
    ensures ok { OnOk result (messages.new ≡ messages.old ++ message_text_at place.now (name_of fault) ∷ []) }
    ensures err { OnErr result (messages.new ≡ messages.old) }
{
    match fault {
        LineFault::Memory => Err(AllocError),
        fault => messages.push_at(place, name_of(fault)),
    }
}

/// Returns the users and groups of the account files of a tree.
fn account_names<T: Tree>(alloc: Global, tree: &T) -> Result<FileNames<'_>, AllocError>
    ensures passwd { IfOk result (λ names. names.passwd ≡ content_at (T.state tree.now) passwd_path) }
    ensures group { IfOk result (λ names. names.group ≡ content_at (T.state tree.now) group_path) }
{
    let etc = etc_path(alloc)?;
    let passwd = child(alloc, &etc, b"passwd")?;
    let group = child(alloc, &etc, b"group")?;
    Ok(FileNames {
        passwd: passwd_view(content_at(tree, &passwd)),
        group: group_view(content_at(tree, &group)),
    })
}

/// Reads the configuration of systemd-tmpfiles in a tree (tmpfiles.d(5)).
///
/// - `words` name configuration files. If there are none, the files are those in `/etc/tmpfiles.d`,
///   `/run/tmpfiles.d`, `/usr/local/lib/tmpfiles.d` and `/usr/lib/tmpfiles.d`. The call `chosen_files` of pv_layers
///   says which files these are.
/// - `facts` has the values of specifiers such as `%m`.
///
/// Users and groups are looked up in `/etc/passwd` and `/etc/group` of the tree. The name `root` always has the ID 0.
///
/// A line that is not valid is left out. It sets `invalid` and gives the message `FILE:N: NAME`, with the name of its
/// error, such as `BadMode`. Messages about files and words come before messages about lines.
///
/// A valid line whose path begins with `/var/run/` is read with `/run/` instead. Its message is `FILE:N: /var/run/
/// read as /run/`.
///
/// The error is `AllocError` if memory runs out, or if the files have more than 4294967295 lines, including those that
/// are skipped or not valid. Then only some of these messages, a prefix of their list, were added.
pub fn read_configuration<T: Tree>(
    alloc: Global,
    tree: &T,
    words: &WordList,
    facts: &Facts,
    messages: &mut Messages,
) -> Result<Configuration<Line>, AllocError>
    ensures lines { IfOk result (λ c. c.lines ≡ (configured (T.state tree.now) facts.now words.now).lines) }
    ensures invalid { IfOk result (λ c. c.invalid ≡ (configured (T.state tree.now) facts.now words.now).invalid) }
    ensures missing { IfOk result (λ c. c.missing ≡ (configured (T.state tree.now) facts.now words.now).missing) }
    ensures count { IfOk result (λ c. c.count ≡ (configured (T.state tree.now) facts.now words.now).count) }
    ensures few { OnOk result ((configured (T.state tree.now) facts.now words.now).count < 2 ^ 32) }
    ensures whole { IfOk result (λ c. AllByRecursion IsLine c.lines) }
    ensures new_messages { OnOk result (messages.new ≡ messages.old ++ (configured (T.state tree.now) facts.now words.now).messages) }
    ensures part { MessagesPart (configured (T.state tree.now) facts.now words.now).messages messages.old messages.new }
{
    let reader = TmpfilesReader {
        facts,
        names: account_names(alloc, tree)?,
    };
    let configuration = read_lines(alloc, tree, &reader, Tool::Tmpfiles, words, messages)?;
    Ok(configuration)
}
