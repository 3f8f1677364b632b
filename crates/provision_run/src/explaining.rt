//! The explanation of one path.
ghost use Rattle.std.specs.Prelude.{◌≡◌, ◌++◌, map, is_some, true, None, Some, IfOk, OnOk};
ghost use Rattle.pv_text.specs.Lines.{is_line};
ghost use Rattle.provision_run.specs.Explained.{act_text, act_word, explained_messages, HasExplained, HasExplainedPart, last_text};
ghost use Rattle.provision_run.specs.Reported.{report_end};

use crate::ending::{RunEnd, end_of};
use crate::run_input::read_run;
use pv_explain::{Act, Explained, LineAct, explain};
use pv_image::print_node;
use pv_overlap::place_text;
use pv_path::{Bytes, TreePath, print_path};
use pv_steps::{Carried, Node, Tree};
use pv_text::{Facts, Messages, say_all};
use pv_words::Options;
use std::alloc::{AllocError, Global};

/// Reads the configuration of a tree, and explains the path that the options name. The messages say which active lines
/// change what is there, and which object is there after them.
pub(crate) fn explain_run<T: Tree>(
    alloc: Global,
    options: &Options,
    facts: &Facts,
    tree: &T,
    messages: &mut Messages,
) -> Result<RunEnd, AllocError>
    requires asked { is_some options.now.explain ≡ true }
    ensures new_messages { OnOk result (HasExplained options.entry.now facts.now (T.state tree.now) messages.old messages.new) }
    ensures end { IfOk result (λ end. end ≡ report_end options.entry.now facts.now (T.state tree.now)) }
    ensures part { HasExplainedPart options.entry.now facts.now (T.state tree.now) messages.old messages.new }
{
    let read = read_run(alloc, options, facts, tree, messages)?;
    let path = options.explain.as_ref().unwrap();
    let stated = explain(alloc, tree, &read.table, path)?;
    let mut new_messages = Messages::new(alloc);
    say_explained(alloc, path, &stated, &mut new_messages)?;
    say_all(&new_messages, messages)?;
    Ok(end_of(Carried::Whole, read.missing, read.invalid))
}

/// Returns the word for what a line does.
fn act_word(act: Act) -> &'static [u8]
    ensures text { result.now ≡ act_word act }
    ensures line { is_line result.now ≡ true }
{
    match act {
        Act::Makes => b"makes",
        Act::Removes => b"removes",
        Act::Changes => b"changes",
    }
}

/// Returns the text `explain FILE:N ACT PATH`.
fn act_text(alloc: Global, path: &TreePath, found: &LineAct) -> Result<Vec<u8>, AllocError>
    ensures text { IfOk result (λ text. text.items ≡ act_text path.now found.now) }
    ensures line { IfOk result (λ text. is_line text.items ≡ true) }
{
    let place = place_text(alloc, &found.place.file, found.place.number)?;
    let path = print_path(alloc, path)?;
    let mut text = Vec::from_slice(alloc, b"explain ")?;
    text.extend_from_slice(&place)?;
    text.extend_from_slice(b" ")?;
    text.extend_from_slice(act_word(found.act))?;
    text.extend_from_slice(b" ")?;
    text.extend_from_slice(&path)?;
    Ok(text)
}

/// Returns the text `explain PATH is absent`.
fn absent_text(alloc: Global, path: &TreePath) -> Result<Vec<u8>, AllocError>
    ensures text { IfOk result (λ text. text.items ≡ last_text path.now None) }
    ensures line { IfOk result (λ text. is_line text.items ≡ true) }
{
    let path = print_path(alloc, path)?;
    let mut text = Vec::from_slice(alloc, b"explain ")?;
    text.extend_from_slice(&path)?;
    text.extend_from_slice(b" is absent")?;
    Ok(text)
}

/// Returns the text `explain PATH is OBJECT`. The object is written as in an image, without its path and its
/// timestamps.
fn object_text(
    alloc: Global,
    path: &TreePath,
    node: &Node,
    payload: &[u8],
) -> Result<Vec<u8>, AllocError>
    ensures text { IfOk result (λ text. text.items ≡ last_text path.now (Some (node.now, payload.now))) }
    ensures line { IfOk result (λ text. is_line text.items ≡ true) }
{
    let path = print_path(alloc, path)?;
    let object = print_node(alloc, node, payload)?;
    let mut text = Vec::from_slice(alloc, b"explain ")?;
    text.extend_from_slice(&path)?;
    text.extend_from_slice(b" is ")?;
    text.extend_from_slice(&object)?;
    Ok(text)
}

/// Returns the text on the object at the path after all lines.
fn last_text(
    alloc: Global,
    path: &TreePath,
    node: &Option<(Node, Bytes)>,
) -> Result<Vec<u8>, AllocError>
    ensures text { IfOk result (λ text. text.items ≡ last_text path.now node.now) }
    ensures line { IfOk result (λ text. is_line text.items ≡ true) }
{
    match node {
        Some((node, payload)) => object_text(alloc, path, node, payload.as_slice()),
        None => absent_text(alloc, path),
    }
}

/// Adds the messages on the lines that change what is at the path.
fn say_acts(
    alloc: Global,
    path: &TreePath,
    acts: &[LineAct],
    messages: &mut Messages,
) -> Result<(), AllocError>
    ensures { OnOk result (messages.new ≡ messages.old ++ map (act_text path.now) acts.now) }
{
    for found in acts {
        messages.push(&act_text(alloc, path, found)?)?;
    }
    Ok(())
}

/// Adds the messages on the lines that change what is at the path, and on the object there after all lines.
fn say_explained(
    alloc: Global,
    path: &TreePath,
    stated: &Explained,
    messages: &mut Messages,
) -> Result<(), AllocError>
    ensures { OnOk result (messages.new ≡ messages.old ++ explained_messages path.now stated.now) }
{
    say_acts(alloc, path, stated.acts.as_slice(), messages)?;
    messages.push(&last_text(alloc, path, &stated.node)?)
}
