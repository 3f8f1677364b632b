//! The complete output of a run, from the words and the bytes of its input.
ghost use Rattle.std.specs.Prelude.{◌≡◌, ◌≢◌, ◌≤◌, ◌↔◌, ◌++◌, [], None, Err, false, true, map, string_bytes, length, IfErr, IfOk, IfSome, IsErrOf};
ghost use Rattle.pv_image.specs.Images.{HasImageFault, IsImage};
ghost use Rattle.pv_image.specs.Spelling.{text_of};
ghost use Rattle.pv_io.specs.Faults.{HasRisen};
ghost use Rattle.pv_words.specs.Invocation.{parse_args};
ghost use Rattle.provision_run.specs.Words.{moment_of};
ghost use Rattle.provision_run.specs.Answers.{HasOutput, IsAnswer, IsAnswered, IsGeneratedBy, IsOwn, reads_input, IsRefused, bad_image_text, most_bytes};
ghost use Rattle.provision_run.specs.Generated.{IsGenerated};
ghost use Rattle.provision_run.specs.Messages.{message, messages_text};
ghost use Rattle.provision_run.specs.declared.answer.NoAnswer.TheVariants.{Memory, ReadFault};

use crate::generated::run_generated;
use crate::message::{add_message, bad_image, print_messages};
use crate::outcome::Outcome;
use crate::running::run_limited;
use pv_image::{Image, ImageFault, add_image, read_image};
use pv_io::{ReadAllFault, Source, read_all};
use pv_steps::TreeFault;
use pv_text::{Facts, Messages};
use pv_tree::MemTree;
use pv_words::{Invocation, Options, WordsFault, parse_args};
use std::alloc::{AllocError, AllocFailed, Global};

/// How a run ends, with its complete output.
#[derive(Drop)]
pub struct Answer {
    /// How the run ends.
    pub outcome: Outcome,
    /// Everything that is written: the messages and, if the input is an image, the image of the tree that the run
    /// leaves.
    pub output: Vec<u8>,
}

/// Why a run has no output.
#[derive(Clone, Copy)]
pub enum NoAnswer {
    /// The source failed.
    ReadFault,
    /// Out of memory.
    Memory,
}

impl From<AllocError> for NoAnswer {
    ghost from_gives = { λ _ e. e ≡ Memory };

    fn from(_error: AllocError) -> NoAnswer {
        NoAnswer::Memory
    }
}

impl<T: Drop> From<AllocFailed<T>> for NoAnswer {
    ghost from_gives = { λ _ e. e ≡ Memory };

    fn from(_error: AllocFailed<T>) -> NoAnswer {
        NoAnswer::Memory
    }
}

/// Returns the answer that is one message.
pub(crate) fn one_message(
    alloc: Global,
    outcome: Outcome,
    text: &[u8],
) -> Result<Answer, AllocError>
    ensures { IfOk result (λ answer. (answer.outcome ≡ outcome) × (answer.output.items ≡ message text.now)) }
{
    let mut output = Vec::new(alloc);
    add_message(&mut output, text)?;
    Ok(Answer { outcome, output })
}

/// Returns the answer to an input that is not an image.
fn refuse(alloc: Global, fault: ImageFault) -> Result<Answer, AllocError>
    ensures { IfOk result (λ answer. (answer.outcome ≡ Outcome.BadImage fault) × (answer.output.items ≡ message (bad_image_text fault))) }
{
    let text = bad_image(alloc, fault)?;
    one_message(alloc, Outcome::BadImage(fault), &text)
}

/// Returns the answer of a run: its messages and the image of its tree.
fn finish(
    alloc: Global,
    outcome: Outcome,
    messages: &Messages,
    tree: &MemTree,
    facts: &Facts,
) -> Result<Answer, AllocError>
    ensures text { IfOk result (λ answer. answer.output.items ≡ messages_text messages.now ++ text_of facts.now tree.now.files) }
    ensures again { IfOk result (λ answer. IsImage answer.output.items facts.now tree.now.files) }
    ensures outcome { IfOk result (λ answer. answer.outcome ≡ outcome) }
{
    let mut output = print_messages(alloc, messages)?;
    add_image(alloc, &mut output, tree, facts)?;
    Ok(Answer { outcome, output })
}

/// Runs over an image.
fn run_over(
    alloc: Global,
    image: Image,
    options: &Options,
    clock_micros: u64,
) -> Result<Answer, AllocError>
    requires fresh { image.tree.steps ≡ [] }
    ensures { IfOk result (λ answer. IsAnswered options.entry.now image.facts (moment_of options.entry.now clock_micros) image.tree.files answer.outcome answer.output.items) }
{
    let Image { mut tree, facts } = image;
    let moment = options.now.unwrap_or(clock_micros);
    let mut messages = Messages::new(alloc);
    match run_limited(alloc, options, &facts, moment, &mut tree, &mut messages) {
        Ok(outcome) => finish(alloc, outcome, &messages, &tree, &facts),
        Err(TreeFault::Memory) => Err(AllocError),
        Err(TreeFault::Failed) => unreachable!(),
    }
}

/// Reads the image of an input, and frees the bytes of the input.
fn read_input(alloc: Global, bytes: Vec<u8>) -> Result<Image, ImageFault>
    ensures image { IfOk result (λ image. IsImage bytes.items image.facts image.tree.files) }
    ensures steps { IfOk result (λ image. image.tree.steps ≡ []) }
    ensures fault { IfErr result (λ f. f ≢ ImageFault.Memory → HasImageFault bytes.items f) }
    ensures bounded { result ≢ Err ImageFault.TooLong }
{
    read_image(alloc, &bytes)
}

/// Returns the answer to the bytes of an input. They are freed as soon as they are read.
fn answer_bytes(
    alloc: Global,
    bytes: Vec<u8>,
    options: &Options,
    clock_micros: u64,
) -> Result<Answer, AllocError>
    requires fits { length bytes.items ≤ most_bytes }
    ensures { IfOk result (λ answer. IsAnswer options.entry.now clock_micros bytes.items answer.outcome answer.output.items) }
{
    match read_input(alloc, bytes) {
        Ok(image) => run_over(alloc, image, options, clock_micros),
        Err(ImageFault::Memory) => Err(AllocError),
        Err(fault) => refuse(alloc, fault),
    }
}

/// Returns the answer to options and the input that a source has left.
fn answer_source<S: Source>(
    alloc: Global,
    options: &Options,
    clock_micros: u64,
    source: &mut S,
) -> Result<Answer, NoAnswer>
    ensures output { IfOk result (λ answer. IfSome (S.left source.old)
        (λ input. IsAnswer options.entry.now clock_micros input answer.outcome answer.output.items)) }
    ensures own { IfOk result (λ answer. IsOwn answer.outcome × (answer.outcome ≢ Outcome.Usage)) }
    ensures cause { IsErrOf result NoAnswer.ReadFault → HasRisen (S.faults source.old) (S.faults source.new) }
{
    match read_all(alloc, source) {
        Ok(bytes) => Ok(answer_bytes(alloc, bytes, options, clock_micros)?),
        Err(ReadAllFault::TooLong) => Ok(refuse(alloc, ImageFault::TooLong)?),
        Err(ReadAllFault::ReadFault) => Err(NoAnswer::ReadFault),
        Err(ReadAllFault::Memory) => Err(NoAnswer::Memory),
    }
}

/// Returns the answer to words that ask for a run over a generated tree.
fn answer_generated(alloc: Global, seed: u64, count: u32) -> Result<Answer, AllocError>
    ensures { IfOk result (λ answer. (answer.outcome ≡ Outcome.Done) × IsGenerated seed count answer.output.items) }
{
    let output = run_generated(alloc, seed, count)?;
    Ok(Answer {
        outcome: Outcome::Done,
        output,
    })
}

/// Returns the answer to the words of a command, and reads the input from the source if the words ask for it.
///
/// `words` are the arguments without the program's name. `clock_micros` is in microseconds since 1970-01-01 UTC.
/// Nothing is written. For words without a meaning the outcome is `Usage`, and the source is not read.
///
/// - `Err(ReadFault)`: the source failed, and has counted an error.
/// - `Err(Memory)`: out of memory.
pub fn respond<S: Source>(
    alloc: Global,
    words: &[String],
    clock_micros: u64,
    source: &mut S,
) -> Result<Answer, NoAnswer>
    ensures output { IfOk result (λ answer. IfSome (S.left source.old)
        (λ input. HasOutput (map string_bytes words.now) clock_micros input answer.outcome answer.output.items)) }
    ensures own { IfOk result (λ answer. IsOwn answer.outcome) }
    ensures usage { IfOk result (λ answer. (answer.outcome ≡ Outcome.Usage) ↔ (parse_args (map string_bytes words.now) ≡ None)) }
    ensures known { IsErrOf result NoAnswer.ReadFault → parse_args (map string_bytes words.now) ≢ None }
    ensures cause { IsErrOf result NoAnswer.ReadFault → HasRisen (S.faults source.old) (S.faults source.new) }
    ensures unread { parse_args (map string_bytes words.now) ≡ None → source.new ≡ source.old }

    // Only a run of a tool reads the source. A run over a generated tree writes the same whatever the source has.
    ensures input_unread { reads_input (parse_args (map string_bytes words.now)) ≡ false → source.new ≡ source.old }
    ensures asked { IsErrOf result NoAnswer.ReadFault → reads_input (parse_args (map string_bytes words.now)) ≡ true }
    ensures generated { IfOk result (λ answer. IsGeneratedBy (parse_args (map string_bytes words.now)) answer.outcome answer.output.items) }
{
    match parse_args(alloc, words) {
        Ok(Invocation::Run(options)) => answer_source(alloc, &options, clock_micros, source),
        Ok(Invocation::Generate { seed, count }) => Ok(answer_generated(alloc, seed, count)?),
        Err(WordsFault::Usage) => Ok(one_message(alloc, Outcome::Usage, b"usage")?),
        Err(WordsFault::Memory) => Err(NoAnswer::Memory),
    }
}
