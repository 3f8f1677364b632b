//! A run over a generated tree, which gives three messages.
ghost use Rattle.std.specs.Prelude.{◌≡◌, ◌↔◌, [], ◌∷◌, length, IfOk, OnOk};
ghost use Rattle.std.specs.FinMap as fin;
ghost use Rattle.pv_overlap.specs.Reporting.{ListsOverlaps, ListsReasons};
ghost use Rattle.pv_overlap.specs.GivenMessages.{verdict};
ghost use Rattle.pv_table.specs.Repeatable.{IsRepeatable};
ghost use Rattle.provision_run.specs.Generated.{create_alone, created, created_text, generated_moment, generated_text, IsGenerated, IsGeneratedOutput, lines_in, no_facts, overlaps_text};
ghost use Rattle.provision_run.specs.Messages.{messages_text};
ghost use Rattle.provision_run.specs.Tasks.{task_of};
ghost use Rattle.provision_run.specs.Whole.{HasMessagesBy};

use crate::message::add_message;
use crate::run::run_on_tree;
use pv_generate::{generated_tree, node_count};
use pv_lines::LineList;
use pv_overlap::{Report, report, verdict};
use pv_path::WordList;
use pv_read_config::read_configuration;
use pv_steps::TreeFault;
use pv_text::{Facts, Messages, Tool};
use pv_tree::MemTree;
use pv_words::Options;
use std::alloc::{AllocError, Global};

/// The time of a run over a generated tree, in microseconds since 1970-01-01 UTC.
const MOMENT: u64 = 1_000_000_000_000;

/// Returns what is written of the run of `systemd-tmpfiles --create` over the tree of a seed and a number of lines.
pub(crate) fn run_generated(alloc: Global, seed: u64, count: u32) -> Result<Vec<u8>, AllocError>
    ensures { IfOk result (λ text. IsGenerated seed count text.items) }
{
    let tree = generated_tree(alloc, seed, count)?;
    run_over_lines(alloc, tree, count)
}

/// Returns what is written of a run over a tree with this number of lines.
///
/// It says how many nodes the tree has, and how many nodes and messages there are after the run. It also says how many
/// pairs of lines overlap, and whether the lines are repeatable.
fn run_over_lines(alloc: Global, tree: MemTree, lines: u32) -> Result<Vec<u8>, AllocError>
    ensures { IfOk result (λ text. IsGeneratedOutput lines tree.files text.items) }
{
    let mut tree = tree;
    let before = node_count(alloc, &tree)?;
    let report = report_on(alloc, &tree)?;
    let messages = create(alloc, &mut tree)?;
    let after = node_count(alloc, &tree)?;
    let text = three_messages(alloc, lines, before, after, messages.len(), &report)?;
    Ok(text)
}

/// Returns the three messages.
fn three_messages(
    alloc: Global,
    lines: u32,
    before: u64,
    after: u64,
    new_messages: usize,
    report: &Report,
) -> Result<Vec<u8>, AllocError>
    ensures { let overlaps = overlaps_text (length report.now.pairs) (verdict report.now.unrepeatable) in
        IfOk result (λ text. text.items ≡ messages_text (generated_text lines before ∷ created_text after new_messages ∷ overlaps ∷ [])) }
{
    let mut output = Vec::new(alloc);
    add_message(&mut output, &generated_text(alloc, lines, before)?)?;
    add_message(&mut output, &created_text(alloc, after, new_messages)?)?;
    add_message(&mut output, &overlaps_text(alloc, report)?)?;
    Ok(output)
}

/// Returns the report on the lines of the configuration of a tree.
fn report_on(alloc: Global, tree: &MemTree) -> Result<Report, AllocError>
    ensures overlaps { IfOk result (λ report. ListsOverlaps (lines_in tree.now.files) report.pairs) }
    ensures reasons { IfOk result (λ report. ListsReasons (lines_in tree.now.files) report.unrepeatable) }
    ensures verdict { IfOk result (λ report. (report.unrepeatable ≡ []) ↔ IsRepeatable (lines_in tree.now.files)) }
{
    let facts = Facts::new(alloc);
    let words = WordList::new(alloc);
    let mut messages = Messages::new(alloc);
    let read = read_configuration(alloc, tree, &words, &facts, &mut messages)?;
    let lines = LineList::of(read.lines);
    report(alloc, &lines)
}

/// Returns the options of `systemd-tmpfiles --create`.
fn create_alone(alloc: Global) -> Options
    ensures { result ≡ create_alone }
{
    Options {
        tool: Tool::Tmpfiles,
        create: true,
        remove: false,
        clean: false,
        report: false,
        purge: false,
        explain: None,
        boot: false,
        prefix: None,
        exclude_prefix: None,
        stop_after: None,
        now: None,
        words: WordList::new(alloc),
    }
}

/// Creates in a tree what its configuration asks for, and returns the messages.
fn create(alloc: Global, tree: &mut MemTree) -> Result<Messages, AllocError>
    ensures tree { OnOk result (tree.new.files ≡ created tree.old.files) }
    ensures new_messages { IfOk result (HasMessagesBy (task_of create_alone) create_alone no_facts generated_moment tree.old.files []) }
{
    let options = create_alone(alloc);
    let facts = Facts::new(alloc);
    let mut messages = Messages::new(alloc);
    match run_on_tree(alloc, &options, &facts, MOMENT, tree, &mut messages) {
        Ok(_end) => Ok(messages),
        Err(TreeFault::Memory) => Err(AllocError),
        Err(TreeFault::Failed) => unreachable!(),
    }
}

/// Returns the text `generated COUNT lines NODES nodes`.
fn generated_text(alloc: Global, lines: u32, nodes: u64) -> Result<Vec<u8>, AllocError>
    ensures { IfOk result (λ text. text.items ≡ generated_text lines nodes) }
{
    let lines = lines.to_string(alloc)?;
    let nodes = nodes.to_string(alloc)?;
    let mut text = Vec::from_slice(alloc, b"generated ")?;
    text.extend_from_slice(lines.as_bytes())?;
    text.extend_from_slice(b" lines ")?;
    text.extend_from_slice(nodes.as_bytes())?;
    text.extend_from_slice(b" nodes")?;
    Ok(text)
}

/// Returns the text `created NODES nodes MESSAGES messages`.
fn created_text(alloc: Global, nodes: u64, messages: usize) -> Result<Vec<u8>, AllocError>
    ensures { IfOk result (λ text. text.items ≡ created_text nodes messages) }
{
    let nodes = nodes.to_string(alloc)?;
    let messages = messages.to_string(alloc)?;
    let mut text = Vec::from_slice(alloc, b"created ")?;
    text.extend_from_slice(nodes.as_bytes())?;
    text.extend_from_slice(b" nodes ")?;
    text.extend_from_slice(messages.as_bytes())?;
    text.extend_from_slice(b" messages")?;
    Ok(text)
}

/// Returns the text `PAIRS overlaps, VERDICT`.
fn overlaps_text(alloc: Global, report: &Report) -> Result<Vec<u8>, AllocError>
    ensures { let pairs = length report.now.pairs in
        IfOk result (λ text. text.items ≡ overlaps_text pairs (verdict report.now.unrepeatable)) }
{
    let pairs = report.pairs.len();
    let mut text = format!(in alloc; "{pairs} overlaps, ")?.into_bytes();
    text.extend_from_slice(verdict(report.unrepeatable.as_slice()))?;
    Ok(text)
}
