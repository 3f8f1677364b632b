//! The top calls: from the words of a command, a clock, a source and a sink to an outcome.
ghost use Rattle.std.specs.Prelude.{◌≡◌, ◌⊎◌, ℕ, None, Some, true, false, is_some, map, string_bytes, IfSome};
ghost use Rattle.pv_io.specs.Faults.{HasRisen};
ghost use Rattle.pv_words.specs.Invocation.{parse_args};
ghost use Rattle.pv_words.specs.declared.invocation.Invocation.TheVariants.{Generate};
ghost use Rattle.pv_folder.specs.Content.{spelled};
ghost use Rattle.pv_words.specs.Rooted.{rooted_of};
ghost use Rattle.provision_run.specs.Answers.{HasWritten, HasWrittenGenerated};
ghost use Rattle.provision_run.specs.OnFolder.{HasWrittenOn, is_of_folder};

use crate::answer::{NoAnswer, respond};
use crate::on_folder::answer_folder;
use crate::outcome::Outcome;
use pv_folder::Host;
use pv_io::{Sink, Source, write_all_of};
use pv_words::{Rooted, WordsFault, rooted_of};
use std::alloc::Global;

/// Runs the program over an image (systemd-tmpfiles(8), systemd-sysusers(8)). It reads the image from the source, and
/// writes the messages and the image of the new tree to the sink.
///
/// - `words` are the arguments of the command without the program's name. The first one names the tool.
/// - `clock_micros` is the time of the run, in microseconds since 1970-01-01 UTC. The option `--now` replaces it.
/// - `source` has the image. More than 64 MiB are not accepted: this is `BadImage` with the error `TooLong`.
/// - `sink` gets one line for each message, and then the image.
///
/// [`Outcome`] says what was done and written in each case. `Usage` comes only for words without a meaning, and for
/// such words the source is not read. `ReadFault` comes only if the source has counted an error, and `WriteFault` only
/// if the sink has. The outcome is never one about a folder.
///
/// The words `generate SEED COUNT` ask for a run of creating over a generated tree. Then the source is not read, and
/// three messages are written, but no image.
///
/// For example, the words `systemd-tmpfiles --create` over an image with the line `d /run/app` write an image that has
/// the directory `/run/app`.
pub fn provision<S: Source, K: Sink>(
    alloc: Global,
    words: &[String],
    clock_micros: u64,
    source: &mut S,
    sink: &mut K,
) -> Outcome
    // If the bytes of the source are known: what was written belongs to the words, the clock, the input and the
    // outcome.
    ensures written { IfSome (S.left source.old)
        (λ input. HasWritten (map string_bytes words.now) clock_micros input result (K.written sink.old) (K.written sink.new)) }

    // Usage comes only for words without a meaning. For such words the source is not read.
    ensures usage { result ≡ Outcome.Usage → parse_args (map string_bytes words.now) ≡ None }
    ensures known { parse_args (map string_bytes words.now) ≡ None →
        (result ≡ Outcome.Usage) ⊎ ((result ≡ Outcome.WriteFault) ⊎ (result ≡ Outcome.Memory)) }
    ensures unread { parse_args (map string_bytes words.now) ≡ None → source.new ≡ source.old }

    // Words that ask for a run over a generated tree: its messages are written, and the source is not read.
    ensures generated { (seed count : ℕ) → parse_args (map string_bytes words.now) ≡ Some (Generate seed count) →
        HasWrittenGenerated seed count result (K.written sink.old) (K.written sink.new) }
    ensures input_unread { (seed count : ℕ) → parse_args (map string_bytes words.now) ≡ Some (Generate seed count) → source.new ≡ source.old }

    // The outcome is never one about a folder.
    ensures unfolded { is_of_folder result ≡ false }

    // The source and the sink are blamed only if their counts of errors rose.
    ensures read_fault { result ≡ Outcome.ReadFault → HasRisen (S.faults source.old) (S.faults source.new) }
    ensures write_fault { result ≡ Outcome.WriteFault → HasRisen (K.faults sink.old) (K.faults sink.new) }
{
    match respond(alloc, words, clock_micros, source) {
        Ok(answer) => match write_all_of(sink, &answer.output) {
            Ok(()) => answer.outcome,
            Err(_fault) => Outcome::WriteFault,
        },
        Err(NoAnswer::ReadFault) => Outcome::ReadFault,
        Err(NoAnswer::Memory) => Outcome::Memory,
    }
}

/// Runs the program over an image or, if the words name a folder by `--root=FOLDER`, over this folder of the host.
///
/// Without such a word it does as [`provision`] does, and the host is not called.
///
/// With a folder the source is not read, and only the messages are written. The tree of the run is that of the
/// directory `tree` in the folder, together with the manifest. Each step of the run makes at most one change on the
/// host. Then two changes write the manifest, even after a failed step. They may be missing if the host fails or memory
/// runs out. The run makes no other changes on the host.
///
/// The parameters are those of [`provision`], and `host` has the folder. `BadFolder` and `FolderFailed` come only if
/// the words name a folder. `FolderFailed` comes only if the host has counted an error.
pub fn provision_all<S: Source, K: Sink, H: Host>(
    alloc: Global,
    words: &[String],
    clock_micros: u64,
    source: &mut S,
    sink: &mut K,
    host: &mut H,
) -> Outcome
    // Words with a folder: what was written, and what the host then holds, belong to the folder, the other words, the
    // clock, the outcome, and what the host held.
    ensures on_folder { IfSome (rooted_of (map string_bytes words.now)) (λ rooted.
        HasWrittenOn (spelled rooted.folder) rooted.options clock_micros
        (record { content = H.content host.old; changes = H.changes host.old; faults = H.faults host.old })
        (record { content = H.content host.new; changes = H.changes host.new; faults = H.faults host.new })
        result (K.written sink.old) (K.written sink.new)) }
    ensures source_unread { is_some (rooted_of (map string_bytes words.now)) ≡ true → source.new ≡ source.old }

    // The host is blamed only if its count of errors rose. An outcome about a folder comes only for words with one.
    ensures folder_failed { result ≡ Outcome.FolderFailed → HasRisen (H.faults host.old) (H.faults host.new) }
    ensures rooted { is_of_folder result ≡ true → is_some (rooted_of (map string_bytes words.now)) ≡ true }

    // Other words: all that `provision` says, and the host is not called.
    ensures host_unused { rooted_of (map string_bytes words.now) ≡ None → host.new ≡ host.old }
    ensures written { rooted_of (map string_bytes words.now) ≡ None → IfSome (S.left source.old)
        (λ input. HasWritten (map string_bytes words.now) clock_micros input result (K.written sink.old) (K.written sink.new)) }
    ensures usage { result ≡ Outcome.Usage → parse_args (map string_bytes words.now) ≡ None }
    ensures known { rooted_of (map string_bytes words.now) ≡ None → parse_args (map string_bytes words.now) ≡ None →
        (result ≡ Outcome.Usage) ⊎ ((result ≡ Outcome.WriteFault) ⊎ (result ≡ Outcome.Memory)) }
    ensures unread { parse_args (map string_bytes words.now) ≡ None → source.new ≡ source.old }
    ensures generated { (seed count : ℕ) → parse_args (map string_bytes words.now) ≡ Some (Generate seed count) →
        HasWrittenGenerated seed count result (K.written sink.old) (K.written sink.new) }
    ensures input_unread { (seed count : ℕ) → parse_args (map string_bytes words.now) ≡ Some (Generate seed count) → source.new ≡ source.old }

    // The source and the sink are blamed only if their counts of errors rose.
    ensures read_fault { result ≡ Outcome.ReadFault → HasRisen (S.faults source.old) (S.faults source.new) }
    ensures write_fault { result ≡ Outcome.WriteFault → HasRisen (K.faults sink.old) (K.faults sink.new) }
{
    match rooted_of(alloc, words) {
        Ok(rooted) => provision_on(alloc, &rooted, clock_micros, sink, host),
        Err(WordsFault::Usage) => provision(alloc, words, clock_micros, source, sink),
        Err(WordsFault::Memory) => Outcome::Memory,
    }
}

/// Runs on the folder that the words name.
fn provision_on<K: Sink, H: Host>(
    alloc: Global,
    rooted: &Rooted,
    clock_micros: u64,
    sink: &mut K,
    host: &mut H,
) -> Outcome
    ensures written { HasWrittenOn (spelled rooted.now.folder) rooted.now.options clock_micros
        (record { content = H.content host.old; changes = H.changes host.old; faults = H.faults host.old })
        (record { content = H.content host.new; changes = H.changes host.new; faults = H.faults host.new })
        result (K.written sink.old) (K.written sink.new) }
    ensures folder_failed { result ≡ Outcome.FolderFailed → HasRisen (H.faults host.old) (H.faults host.new) }
    ensures write_fault { result ≡ Outcome.WriteFault → HasRisen (K.faults sink.old) (K.faults sink.new) }
{
    let Ok(answer) = answer_folder(alloc, rooted, clock_micros, host) else {
        return Outcome::Memory;
    };
    match write_all_of(sink, &answer.output) {
        Ok(()) => answer.outcome,
        Err(_unwritten) => Outcome::WriteFault,
    }
}
