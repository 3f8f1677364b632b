//! Writes the text of a complete image.
ghost use Rattle.std.specs.Prelude.{◌≡◌, ◌++◌, true, IfOk, OnOk};
ghost use Rattle.std.specs.List.{flat_map, list_all};
ghost use Rattle.std.specs.FinMap as fin;
ghost use Rattle.pv_text.specs.Facts.{HasFactsAlone};
ghost use Rattle.pv_image.specs.Writing.{fact_fits, fact_line, fact_line_of, node_line};
ghost use Rattle.pv_steps.specs.Trees.{IsTree};
ghost use Rattle.pv_image.specs.Spelling.{text_of};
ghost use Rattle.pv_image.specs.Images.{IsImage, is_byte_fact};
ghost use Rattle.pv_image.specs.Emptied.{emptied_payload, with_empty_files};
ghost use Rattle.pv_image.specs.Written.{written_payload, written_tree};

use crate::extent::Extent;
use crate::line::header;
use crate::version::Version;
use crate::write::{add_fact, add_node};
use pv_steps::Kind;
use pv_text::{FACT_LETTERS, Facts};
use pv_tree::MemTree;
use std::alloc::{AllocError, Global};

/// Returns the one text of a tree and its facts in version 2, which is an image of them.
///
/// So `read_image` reads this text as the same tree and the same facts, unless memory runs out. The only error is
/// `AllocError`.
pub fn write_image(alloc: Global, tree: &MemTree, facts: &Facts) -> Result<Vec<u8>, AllocError>
    ensures text { IfOk result (λ text. text.items ≡ text_of facts.now tree.now.files) }
    ensures image { IfOk result (λ text. IsImage text.items facts.now tree.now.files) }
{
    let mut output = Vec::new(alloc);
    add_image(alloc, &mut output, tree, facts)?;
    Ok(output)
}

/// Appends the one text of a tree and its facts in version 2 to `output`.
///
/// What is appended is an image of them. The only error is `AllocError`. What `output` holds then is not specified.
pub fn add_image(
    alloc: Global,
    output: &mut Vec<u8>,
    tree: &MemTree,
    facts: &Facts,
) -> Result<(), AllocError>
    ensures text { OnOk result (output.new.items ≡ output.old.items ++ text_of facts.now tree.now.files) }
    ensures image { OnOk result (IsImage (text_of facts.now tree.now.files) facts.now tree.now.files) }
{
    add_image_with(alloc, output, tree, facts, Extent::Whole)
}

/// Returns the text that `write_image` gives for the same tree with every file empty.
///
/// The manifest of a folder is such a text. Links keep their targets. The only error is `AllocError`.
pub fn write_emptied(alloc: Global, tree: &MemTree, facts: &Facts) -> Result<Vec<u8>, AllocError>
    ensures text { IfOk result (λ text. text.items ≡ text_of facts.now (with_empty_files tree.now.files)) }
    ensures image { IfOk result (λ text. IsImage text.items facts.now (with_empty_files tree.now.files)) }
{
    let mut output = Vec::new(alloc);
    add_image_with(alloc, &mut output, tree, facts, Extent::EmptyFiles)?;
    Ok(output)
}

/// Appends the text of a tree and its facts, with or without the bytes of the files.
fn add_image_with(
    alloc: Global,
    output: &mut Vec<u8>,
    tree: &MemTree,
    facts: &Facts,
    extent: Extent,
) -> Result<(), AllocError>
    ensures text { let written_part = written_tree extent tree.now.files in
        OnOk result (output.new.items ≡ output.old.items ++ text_of facts.now written_part) }
    ensures image { let written_part = written_tree extent tree.now.files in
        OnOk result (IsImage (text_of facts.now written_part) facts.now written_part) }
{
    output.extend_from_slice(header(Version::Two))?;
    output.push(b'\n')?;
    add_facts(output, facts)?;
    add_nodes(alloc, output, tree, extent)?;
    output.extend_from_slice(b"end\n")?;
    Ok(())
}

/// Appends the lines of all facts, in the order of their letters.
fn add_facts(output: &mut Vec<u8>, facts: &Facts) -> Result<(), AllocError>
    ensures text { let lines = flat_map fact_line (fin.entries facts.now) in
        OnOk result (output.new.items ≡ output.old.items ++ lines) }
    ensures fit { OnOk result (list_all is_byte_fact (fin.entries facts.now) ≡ true) }
{
    for letter in &FACT_LETTERS {
        add_fact_of(output, facts, *letter)?;
    }
    Ok(())
}

/// Appends the line of the fact with a letter, if it has a value.
fn add_fact_of(output: &mut Vec<u8>, facts: &Facts, letter: u8) -> Result<(), AllocError>
    ensures ok { OnOk result (output.new.items ≡ output.old.items ++ fact_line_of facts.now letter) }
    ensures facts { HasFactsAlone facts.now }
    ensures fits { OnOk result (fact_fits facts.now letter ≡ true) }
{
    match facts.get(letter) {
        Some(value) => add_fact(output, letter, value),
        None => Ok(()),
    }
}

/// Returns what is written of a payload if files are written as empty.
fn emptied_payload(kind: Kind, payload: &[u8]) -> &[u8]
    ensures { result.now ≡ emptied_payload kind payload.now }
{
    match kind {
        Kind::File => &[],
        Kind::Directory | Kind::Link | Kind::Fifo | Kind::CharDevice | Kind::BlockDevice => payload,
    }
}

/// Returns what is written of a payload.
fn written_payload(extent: Extent, kind: Kind, payload: &[u8]) -> &[u8]
    ensures { result.now ≡ written_payload extent kind payload.now }
{
    match extent {
        Extent::Whole => payload,
        Extent::EmptyFiles => emptied_payload(kind, payload),
    }
}

/// Appends the lines of all nodes, in the order of their paths, with or without the bytes of the files.
fn add_nodes(
    alloc: Global,
    output: &mut Vec<u8>,
    tree: &MemTree,
    extent: Extent,
) -> Result<(), AllocError>
    ensures text { let lines = flat_map node_line (fin.entries (written_tree extent tree.now.files)) in
        OnOk result (output.new.items ≡ output.old.items ++ lines) }
    ensures tree { IsTree tree.now.files }
{
    let mut walk = tree.walk(alloc)?;
    while let Some(place) = walk.place() {
        let payload = written_payload(extent, place.node.kind, place.payload);
        add_node(alloc, output, place.names, place.node, payload)?;
        walk.advance()?;
    }
    Ok(())
}
