//! Reads the lines of systemd-sysusers.
ghost use Rattle.std.specs.Prelude.{◌≡◌, ◌≢◌, ◌∷◌, [], ◌++◌, ◌<◌, ◌^◌, IfOk, OnOk, OnErr};
ghost use Rattle.std.specs.List.{AllByRecursion};
ghost use Rattle.pv_text.specs.GivenMessages.{MessagesPart, message_text_at};
ghost use Rattle.pv_requests.specs.Allowed.{IsAllowed};
ghost use Rattle.pv_requests.specs.Faults.{name_of};
ghost use Rattle.pv_requests.specs.Paths.{HasFewNames};
ghost use Rattle.pv_read_config.specs.Requested.{requested};

use crate::configuration::Configuration;
use crate::file_lines::read_lines;
use crate::line_reader::LineReader;
use pv_path::WordList;
use pv_requests::{Request, RequestFault, name_of, read_request};
use pv_steps::Tree;
use pv_text::{Facts, Messages, Place, Tool};
use std::alloc::{AllocError, Global};

/// The reader of lines of systemd-sysusers (sysusers.d(5)).
#[derive(Drop)]
pub(crate) struct SysusersReader<'a> {
    /// The facts of the image.
    pub facts: &'a Facts,
}

impl<'a> LineReader for SysusersReader<'a> {
    ghost use Rattle.std.specs.Result.{result_ok};
    ghost use Rattle.pv_requests.specs.Allowed.{IsAllowed};
    ghost use Rattle.pv_requests.specs.Paths.{HasFewNames};
    ghost use Rattle.pv_requests.specs.Requests.{request_of};
    ghost use Rattle.pv_read_config.specs.Requested.{messages_for_request};

    type Line = Request;

    ghost line_read = { λ reader place line. result_ok (request_of reader.facts.now place line) };

    ghost messages_for = { λ reader place line. messages_for_request place (request_of reader.facts.now place line) };

    ghost is_whole = { λ _ line. HasFewNames line × IsAllowed line };

    fn read(
        &self,
        alloc: Global,
        line: &[u8],
        place: &Place,
        messages: &mut Messages,
    ) -> Result<Option<Request>, AllocError> {
        match read_request(alloc, line, place.copy()?, self.facts) {
            Ok(request) => Ok(Some(request)),
            Err(fault) => {
                say_refused(place, fault, messages)?;
                Ok(None)
            }
        }
    }
}

/// Adds the message why a line is not valid. Running out of memory is not such a message, but an error.
fn say_refused(
    place: &Place,
    fault: RequestFault,
    messages: &mut Messages,
) -> Result<(), AllocError>
    ensures known { OnOk result (fault ≢ RequestFault.Memory) }
    ensures ok { OnOk result (messages.new ≡ messages.old ++ message_text_at place.now (name_of fault) ∷ []) }
    ensures err { OnErr result (messages.new ≡ messages.old) }
{
    match fault {
        RequestFault::Memory => Err(AllocError),
        fault => messages.push_at(place, name_of(fault)),
    }
}

/// Reads the configuration of systemd-sysusers in a tree (sysusers.d(5)).
///
/// - `words` name configuration files. If there are none, the files are those in `/etc/sysusers.d`,
///   `/run/sysusers.d`, `/usr/local/lib/sysusers.d` and `/usr/lib/sysusers.d`. The call `chosen_files` of pv_layers
///   says which files these are.
/// - `facts` has the values of specifiers such as `%m`.
///
/// A line that is not valid is left out. It sets `invalid` and gives the message `FILE:N: NAME`, with the name of its
/// error, such as `BadId`. Messages about files and words come before messages about lines.
///
/// The error is `AllocError` if memory runs out, or if the files have more than 4294967295 lines, including those that
/// are skipped or not valid. Then only some of these messages, a prefix of their list, were added.
pub fn read_requests<T: Tree>(
    alloc: Global,
    tree: &T,
    words: &WordList,
    facts: &Facts,
    messages: &mut Messages,
) -> Result<Configuration<Request>, AllocError>
    ensures lines { IfOk result (λ c. c.lines ≡ (requested (T.state tree.now) facts.now words.now).lines) }
    ensures invalid { IfOk result (λ c. c.invalid ≡ (requested (T.state tree.now) facts.now words.now).invalid) }
    ensures missing { IfOk result (λ c. c.missing ≡ (requested (T.state tree.now) facts.now words.now).missing) }
    ensures count { IfOk result (λ c. c.count ≡ (requested (T.state tree.now) facts.now words.now).count) }
    ensures few { OnOk result ((requested (T.state tree.now) facts.now words.now).count < 2 ^ 32) }
    ensures whole { IfOk result (λ c. AllByRecursion HasFewNames c.lines) }
    ensures allowed { IfOk result (λ c. AllByRecursion IsAllowed c.lines) }
    ensures new_messages { OnOk result (messages.new ≡ messages.old ++ (requested (T.state tree.now) facts.now words.now).messages) }
    ensures part { MessagesPart (requested (T.state tree.now) facts.now words.now).messages messages.old messages.new }
{
    let reader = SysusersReader { facts };
    let configuration = read_lines(alloc, tree, &reader, Tool::Sysusers, words, messages)?;
    Ok(configuration)
}
