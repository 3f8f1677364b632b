//! Reads images line by line.
ghost use Rattle.std.specs.Prelude.{◌≡◌, ◌≢◌, ℕ, ◌+◌, ◌<◌, ◌≤◌, ◌^◌, List, [], ◌∷◌, ◌++◌, true, length, Some, Ok, Err, IfOk, IfErr, OnOk, ◌⊎◌};
ghost use Rattle.std.specs.Ordering.{nat_cmp};
ghost use Rattle.std.specs.FinMap as fin;
ghost use Rattle.pv_steps.specs.Trees.{Files, IsTree};
ghost use Rattle.pv_text.specs.Facts.{Values};
ghost use Rattle.pv_image.specs.declared.image_fault.ImageFault.{ImageFault as Fault};
ghost use Rattle.pv_image.specs.declared.version.Version.{Version as VersionValue};
ghost use Rattle.pv_image.specs.Spelling.{end_text, header_text, line};
ghost use Rattle.pv_image.specs.Images.{HasFault, HasImageFault, IsByteFact, IsImage, judged};
ghost use Rattle.pv_image.specs.Images.{Fact, Before, InFacts, InNodes, After};
ghost use Rattle.pv_image.specs.Progress.{Fails, FactsRead, HasNoFactNext, IsLast, IsLastPath, Leads, NotesRead, Refuses, TreeRead, letter_after};

use crate::image_fault::ImageFault;
use crate::line::{first_line, is_end, is_note, read_fact, read_version};
use crate::node::read_node;
use crate::tree::{add_node, root_tree};
use crate::version::Version;
use pv_path::Bytes;
use pv_text::Facts;
use pv_tree::{MemTree, TreeBuilder};
use std::alloc::Global;

/// The bytes that are left to read, and the number of their first line.
#[derive(Clone, Copy)]
struct Left<'a> {
    number: u64,
    bytes: &'a [u8],
}

/// Reads the notes and the header, which names the version.
fn read_header(bytes: &[u8]) -> Result<(Version, Left<'_>), ImageFault>
    ensures leads { IfOk result (λ r. Leads 1 Before bytes.now r.1.number (InFacts r.0 []) r.1.bytes.now) }
    ensures text { IfOk result (λ r. NotesRead bytes.now (line (header_text r.0) ++ r.1.bytes.now)) }
    ensures small { IfOk result (λ r. r.1.number + length r.1.bytes.now < 2 ^ 64) }
    ensures err { IfErr result (HasFault 1 Before bytes.now) }
{
    let mut number = 1;
    let mut rest = bytes;
    while let Some((text, after)) = first_line(rest) {
        match read_version(text) {
            Some(version) => {
                return Ok((
                    version,
                    Left {
                        number: number + 1,
                        bytes: after,
                    },
                ));
            }
            None if is_note(text) => {}
            None => return Err(ImageFault::BadHeader(number)),
        }
        number += 1;
        rest = after;
    }
    Err(ImageFault::Truncated(number))
}

/// Returns whether a letter is greater than the last one.
fn is_after(last: Option<u8>, letter: u8) -> bool
    ensures { result ≡ letter_after last letter }
{
    match last {
        Some(last) => last < letter,
        None => true,
    }
}

/// Adds a fact, if it may come after the facts before it.
fn add_fact(
    facts: &mut Facts,
    last: Option<u8>,
    number: u64,
    letter: u8,
    value: &Bytes,
) -> Result<(), ImageFault>
    requires fact { IsByteFact (letter, value.now) }
    requires last { IsLast facts.old last }
    ensures added { OnOk result (fin.entries facts.new ≡ fin.entries facts.old ++ (letter, value.now) ∷ []) }
    ensures judged { (version : VersionValue) → let es = fin.entries facts.old in
        OnOk result (judged number (InFacts version es) (Fact (letter, value.now))
        ≡ Some (Ok (InFacts version (es ++ (letter, value.now) ∷ [])))) }
    ensures refused { (version : VersionValue) → let es = fin.entries facts.old in
        IfErr result (Refuses number (InFacts version es) (Fact (letter, value.now))) }
{
    if !is_after(last, letter) {
        return Err(ImageFault::OutOfOrder(number));
    }
    facts.put(letter, value.as_slice())?;
    Ok(())
}

/// Reads the facts, up to a line that is not a fact.
fn read_facts<'a>(alloc: Global, left: Left<'a>) -> Result<(Facts, Left<'a>), ImageFault>
    requires { left.number + length left.bytes.now < 2 ^ 64 }
    ensures leads { (version : VersionValue) → let n = left.entry.number in let bytes = left.entry.bytes.now in
        IfOk result (λ r. Leads n (InFacts version []) bytes
        r.1.number (InFacts version (fin.entries r.0)) r.1.bytes.now) }
    ensures text { IfOk result (λ r. FactsRead left.entry.bytes.now r.0 r.1.bytes.now) }
    ensures next { IfOk result (λ r. HasNoFactNext r.1.bytes.now) }
    ensures small { IfOk result (λ r. r.1.number + length r.1.bytes.now < 2 ^ 64) }
    ensures err { (version : VersionValue) →
        IfErr result (Fails left.entry.number (InFacts version []) left.entry.bytes.now) }
{
    let mut facts = Facts::new(alloc);
    let mut last = None;
    let mut number = left.number;
    let mut rest = left.bytes;
    while let Some((text, after)) = first_line(rest) {
        let Some((letter, value)) = read_fact(alloc, text)? else {
            return Ok((
                facts,
                Left {
                    number,
                    bytes: rest,
                },
            ));
        };
        add_fact(&mut facts, last, number, letter, &value)?;
        last = Some(letter);
        number += 1;
        rest = after;
    }
    Err(ImageFault::Truncated(number))
}

/// Reads the first node, which must be the root. The next line is known not to be a fact.
fn read_root<'a>(
    alloc: Global,
    version: Version,
    left: Left<'a>,
) -> Result<(TreeBuilder, Left<'a>), ImageFault>
    requires next { HasNoFactNext left.bytes.now }
    requires small { left.number + length left.bytes.now < 2 ^ 64 }
    ensures leads { (facts : List (ℕ × List ℕ)) →
        IfOk result (λ r. Leads left.entry.number (InFacts version facts) left.entry.bytes.now
        r.1.number (InNodes version (fin.entries r.0.files)) r.1.bytes.now) }
    ensures text { IfOk result (λ r. TreeRead version left.entry.bytes.now r.0.files r.1.bytes.now) }
    ensures last { IfOk result (λ r. IsLastPath r.0.files r.0.last) }
    ensures small { IfOk result (λ r. r.1.number + length r.1.bytes.now < 2 ^ 64) }
    ensures err { (facts : List (ℕ × List ℕ)) →
        IfErr result (Fails left.entry.number (InFacts version facts) left.entry.bytes.now) }
{
    let Some((text, rest)) = first_line(left.bytes) else {
        return Err(ImageFault::Truncated(left.number));
    };
    let Some((path, object)) = read_node(alloc, version, text)? else {
        return Err(fault_of(left.number, text));
    };
    let tree = root_tree(alloc, left.number, &path, object)?;
    Ok((
        tree,
        Left {
            number: left.number + 1,
            bytes: rest,
        },
    ))
}

/// Returns the error of a line that is neither a fact nor a node, if no node was read before it.
fn fault_of(number: u64, text: &[u8]) -> ImageFault
    ensures end { text.now ≡ end_text → result ≡ ImageFault.NoParent number }
    ensures bad { text.now ≢ end_text → result ≡ ImageFault.BadLine number }
    ensures either { (result ≡ ImageFault.NoParent number) × (text.now ≡ end_text)
        ⊎ (result ≡ ImageFault.BadLine number) × (text.now ≢ end_text) }
{
    if is_end(text) {
        ImageFault::NoParent(number)
    } else {
        ImageFault::BadLine(number)
    }
}

/// Reads the other nodes, and the end. Each node is added after the one before it.
fn read_nodes<'a>(
    alloc: Global,
    version: Version,
    tree: &mut TreeBuilder,
    left: Left<'a>,
) -> Result<Left<'a>, ImageFault>
    requires small { left.number + length left.bytes.now < 2 ^ 64 }
    requires last { IsLastPath tree.old.files tree.old.last }
    ensures leads { let stage = InNodes version (fin.entries tree.old.files) in
        IfOk result (λ end. Leads left.entry.number stage left.entry.bytes.now end.number After end.bytes.now) }
    ensures text { (bytes : List ℕ) → TreeRead version bytes tree.old.files left.entry.bytes.now →
        IfOk result (λ end. TreeRead version bytes tree.new.files (line end_text ++ end.bytes.now)) }
    ensures err { let stage = InNodes version (fin.entries tree.old.files) in
        IfErr result (Fails left.entry.number stage left.entry.bytes.now) }
{
    let mut number = left.number;
    let mut rest = left.bytes;
    while let Some((text, after)) = first_line(rest) {
        let Some((path, object)) = read_node(alloc, version, text)? else {
            if is_end(text) {
                return Ok(Left {
                    number: number + 1,
                    bytes: after,
                });
            }
            return Err(ImageFault::BadLine(number));
        };
        add_node(tree, number, path, object)?;
        number += 1;
        rest = after;
    }
    Err(ImageFault::Truncated(number))
}

/// Checks that nothing comes after the end.
fn check_end(left: Left<'_>) -> Result<(), ImageFault>
    ensures ok { OnOk result (left.entry.bytes.now ≡ []) }
    ensures err { IfErr result (HasFault left.entry.number After left.entry.bytes.now) }
{
    if left.bytes.is_empty() {
        return Ok(());
    }
    match first_line(left.bytes) {
        Some(_) => Err(ImageFault::BadLine(left.number)),
        None => Err(ImageFault::Truncated(left.number)),
    }
}

/// The content of an image: a tree, and facts about its system.
#[derive(Drop)]
pub struct Image {
    /// The objects, as a tree with no step recorded.
    pub tree: MemTree,
    /// The facts: the values of the letters that have one.
    pub facts: Facts,
}

/// Reads a complete image.
fn read_whole(alloc: Global, bytes: &[u8]) -> Result<Image, ImageFault>
    ensures image { IfOk result (λ image. IsImage bytes.now image.facts image.tree.files) }
    ensures steps { IfOk result (λ image. image.tree.steps ≡ []) }
    ensures err { IfErr result (Fails 1 Before bytes.now) }
{
    let (version, left) = read_header(bytes)?;
    let (facts, left) = read_facts(alloc, left)?;
    let (mut tree, left) = read_root(alloc, version, left)?;
    let left = read_nodes(alloc, version, &mut tree, left)?;
    check_end(left)?;
    Ok(Image {
        tree: tree.finish(),
        facts,
    })
}

/// Reads an image of either version, and returns its tree and its facts.
///
/// If the answer is `Ok`, the bytes begin with any number of notes, which are lines that begin with `: `. After them
/// comes the text of this tree and these facts, in one of the two versions, and nothing else. No step is recorded in
/// the tree. For bytes that are an image, the only error is `Memory`.
///
/// Every error other than `Memory` is the first defect of the bytes, with the number of its line counted from 1. The
/// call does not check the length of `bytes`, so it never returns `TooLong`. A caller that wants a limit must check the
/// length itself. For example:
///
/// ```text
/// let image = read_image(alloc, b"tree-image 2\nd / 0755 0 0 0,0,0,0 - - - -\nend\n")?;
/// image.tree.look(&parse_path(alloc, b"/etc/motd")?)   // nothing: the path is absent
/// ```
pub fn read_image(alloc: Global, bytes: &[u8]) -> Result<Image, ImageFault>
    ensures image { IfOk result (λ image. IsImage bytes.now image.facts image.tree.files) }
    ensures steps { IfOk result (λ image. image.tree.steps ≡ []) }
    ensures fault { IfErr result (λ f. f ≢ ImageFault.Memory → HasImageFault bytes.now f) }
    ensures accepts { (facts : Values) (files : Files) → IsImage bytes.now facts files →
        IfErr result (λ f. f ≡ ImageFault.Memory) }
    ensures refuses { (f : Fault) → HasImageFault bytes.now f →
        (result ≡ Err f) ⊎ (result ≡ Err ImageFault.Memory) }
    ensures bounded { result ≢ Err ImageFault.TooLong }
{
    read_whole(alloc, bytes)
}
