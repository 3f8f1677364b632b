//! Messages about lines: an object is left, or a path is refused.
ghost use Rattle.std.specs.Prelude.{◌≡◌, ◌++◌, ◌∷◌, [], codes, take, IfOk, OnOk, OnErr};
ghost use Rattle.pv_path.specs.Printing.{printed_path};
ghost use Rattle.pv_text.specs.GivenMessages.{message_text_at};
ghost use Rattle.pv_table.specs.Saying.{kind_text, why_text, left_text, place_text, refused_text};
ghost use Rattle.pv_table.specs.Turns.{Refused};

use pv_path::{TreePath, print_path};
use pv_steps::{Kind, Why};
use pv_text::{Messages, Place};
use std::alloc::{AllocError, Global};

/// Adds the message that an object of another kind is left: `FILE:N: PATH is a KIND, left`.
///
/// - `place` is the location of the line.
/// - `path` is the path of the object, and `kind` is its kind, such as `directory` or `character device`.
///
/// The only error is `AllocError`, and then the messages are as before.
pub fn say_left(
    alloc: Global,
    place: &Place,
    path: &TreePath,
    kind: Kind,
    messages: &mut Messages,
) -> Result<(), AllocError>
    ensures ok { OnOk result (messages.new
        ≡ messages.old ++ message_text_at place.now (left_text path.now kind) ∷ []) }
    ensures err { OnErr result (messages.new ≡ messages.old) }
{
    messages.push_at(place, &left_text(alloc, path, kind)?)
}

/// Adds the message that a path is refused: `FILE:N: PATH refused at PREFIX: WHY`.
///
/// - `place` is the location of the line.
/// - `path` is a path that the line names.
/// - `count` says at which component it is refused: PREFIX has the first `count` names of the path, and is the root
///   if it is 0.
/// - `why` is printed as `link`, `not a directory` or `unsafe owner`.
///
/// The only error is `AllocError`, and then the messages are as before.
pub fn say_refused(
    alloc: Global,
    place: &Place,
    path: &TreePath,
    count: u32,
    why: Why,
    messages: &mut Messages,
) -> Result<(), AllocError>
    ensures ok { OnOk result (messages.new
        ≡ messages.old ++ message_text_at place.now (refused_text (Refused.named path.now count why)) ∷ []) }
    ensures err { OnErr result (messages.new ≡ messages.old) }
{
    messages.push_at(place, &place_text(alloc, path, count, why)?)
}

/// Adds the message that a copy source is refused: `FILE:N: source PATH refused at PREFIX: WHY`.
///
/// - `place` is the location of the line.
/// - `path` is the path of the source.
/// - `count` says at which component it is refused: PREFIX has the first `count` names of the path, and is the root
///   if it is 0.
/// - `why` is printed as `link`, `not a directory` or `unsafe owner`.
///
/// The only error is `AllocError`, and then the messages are as before.
pub fn say_source_refused(
    alloc: Global,
    place: &Place,
    path: &TreePath,
    count: u32,
    why: Why,
    messages: &mut Messages,
) -> Result<(), AllocError>
    ensures ok { OnOk result (messages.new
        ≡ messages.old ++ message_text_at place.now (refused_text (Refused.source path.now count why)) ∷ []) }
    ensures err { OnErr result (messages.new ≡ messages.old) }
{
    messages.push_at(place, &source_text(alloc, path, count, why)?)
}

/// Returns the words for a kind of object.
fn kind_text(kind: Kind) -> &'static [u8]
    ensures { result.now ≡ kind_text kind }
{
    match kind {
        Kind::Directory => b"directory",
        Kind::File => b"file",
        Kind::Link => b"link",
        Kind::Fifo => b"fifo",
        Kind::CharDevice => b"character device",
        Kind::BlockDevice => b"block device",
    }
}

/// Returns the words for the reason of a refusal.
fn why_text(why: Why) -> &'static [u8]
    ensures { result.now ≡ why_text why }
{
    match why {
        Why::Link => b"link",
        Why::NotDirectory => b"not a directory",
        Why::UnsafeOwner => b"unsafe owner",
    }
}

/// Returns the text `PATH is a KIND, left`, for a path and the kind of the object at it.
///
/// The only error is `AllocError`.
pub fn left_text(alloc: Global, path: &TreePath, kind: Kind) -> Result<Vec<u8>, AllocError>
    ensures { IfOk result (λ text. text.items ≡ left_text path.now kind) }
{
    let mut text = print_path(alloc, path)?;
    text.extend_from_slice(b" is a ")?;
    text.extend_from_slice(kind_text(kind))?;
    text.extend_from_slice(b", left")?;
    Ok(text)
}

/// Returns the path of the first `count` names of a path.
fn first_names(alloc: Global, path: &TreePath, count: u32) -> Result<TreePath, AllocError>
    ensures { IfOk result (λ p. p ≡ take count path.now) }
{
    let names = path.names();
    TreePath::of(alloc, &names[..names.len().min(count as usize)])
}

/// Returns the printed path of the first `count` names of a path.
fn first_text(alloc: Global, path: &TreePath, count: u32) -> Result<Vec<u8>, AllocError>
    ensures { IfOk result (λ text. text.items ≡ printed_path (take count path.now)) }
{
    let place = first_names(alloc, path, count)?;
    print_path(alloc, &place)
}

/// Returns the text `PATH refused at PREFIX: WHY`.
///
/// `count` says at which component the path is refused: PREFIX has the first `count` names of the path, and is the root
/// if it is 0. The only error is `AllocError`. For example, `/a/b/c refused at /a/b: link` has the count 2.
pub fn place_text(
    alloc: Global,
    path: &TreePath,
    count: u32,
    why: Why,
) -> Result<Vec<u8>, AllocError>
    ensures { IfOk result (λ text. text.items ≡ place_text path.now count why) }
{
    let mut text = print_path(alloc, path)?;
    text.extend_from_slice(b" refused at ")?;
    let place = first_text(alloc, path, count)?;
    text.extend_from_slice(&place)?;
    text.extend_from_slice(b": ")?;
    text.extend_from_slice(why_text(why))?;
    Ok(text)
}

/// Returns the text `source PATH refused at PREFIX: WHY`.
fn source_text(alloc: Global, path: &TreePath, count: u32, why: Why) -> Result<Vec<u8>, AllocError>
    ensures { IfOk result (λ text. text.items ≡ codes "source " ++ place_text path.now count why) }
{
    let mut text = Vec::from_slice(alloc, b"source ")?;
    let rest = place_text(alloc, path, count, why)?;
    text.extend_from_slice(&rest)?;
    Ok(text)
}
