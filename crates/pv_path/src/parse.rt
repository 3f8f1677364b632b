//! Reads the path that a text spells, or finds its first fault.
ghost use Rattle.std.specs.Prelude.{◌≡◌, ◌==◌, true, OnOk, IfErr};
ghost use Rattle.std.specs.List.{list_all, slice_split};
ghost use Rattle.pv_path.specs.Names.{is_name_byte};
ghost use Rattle.pv_path.specs.Parsing.{Gives, is_path_byte, joined, names_of, path_of, piece_of};

use crate::cutting::pieces_of;
use crate::name::{Name, is_staging};
use crate::path::TreePath;
use crate::path_fault::PathFault;
use std::alloc::Global;

/// The longest name that a text may spell, in bytes.
const MOST_NAME_BYTES: usize = 240;

/// The longest text that may spell a path, in bytes.
const MOST_TEXT_BYTES: usize = 4095;

/// Reads an absolute path from a text, such as a field of a configuration line or an argument of the command line.
///
/// Several slashes in a row count as one, and slashes at the end are dropped (path_resolution(7)). For example,
/// `b"//etc/tmpfiles.d/"` gives the path of the two names `etc` and `tmpfiles.d`, and `b"/"` gives the root.
///
/// An error is the first of these that applies:
///
/// - `NotAbsolute` if the text does not begin with a slash, `BadByte` if it has a NUL, or `PathTooLong` if it has
///   more than 4,095 bytes;
/// - for the first faulty component from the left, `DotComponent` if it is `.` or `..`, `NameTooLong` if it has
///   more than 240 bytes, or `StagingName` if it begins with `.#tf-`.
///
/// `Memory` may come instead if an allocation fails.
pub fn parse_path(alloc: Global, text: &[u8]) -> Result<TreePath, PathFault>
    ensures { Gives result (path_of text.now) }
{
    if text.first() != Some(&b'/') {
        return Err(PathFault::NotAbsolute);
    }
    if !has_path_bytes(text) {
        return Err(PathFault::BadByte);
    }
    if text.len() > MOST_TEXT_BYTES {
        return Err(PathFault::PathTooLong);
    }
    parse_names(alloc, text)
}

/// Returns whether the text has no NUL.
fn has_path_bytes(text: &[u8]) -> bool
    ensures { result ≡ list_all is_path_byte text.now }
{
    text.iter().all(|b| *b != 0)
}

/// Reads the names between the slashes of a text without NUL.
fn parse_names(alloc: Global, text: &[u8]) -> Result<TreePath, PathFault>
    requires { list_all is_path_byte text.now ≡ true }
    ensures { Gives result (names_of (slice_split (λ b. b == 47) text.now)) }
{
    let mut path = TreePath::root(alloc);
    let pieces = pieces_of(alloc, text, b'/')?;
    for piece in &pieces {
        add_piece(alloc, &mut path, piece)?;
    }
    Ok(path)
}

/// Adds the component between two slashes to a path. An empty one adds nothing.
fn add_piece(alloc: Global, path: &mut TreePath, piece: &[u8]) -> Result<(), PathFault>
    requires { list_all is_name_byte piece.now ≡ true }
    ensures ok { OnOk result (joined (Ok path.old) (piece_of piece.now) ≡ Ok path.new) }
    ensures err { IfErr result (λ f. Gives (Err f) (piece_of piece.now)) }
{
    if piece.is_empty() {
        return Ok(());
    }
    if matches!(piece, b"." | b"..") {
        return Err(PathFault::DotComponent);
    }
    if piece.len() > MOST_NAME_BYTES {
        return Err(PathFault::NameTooLong);
    }
    if is_staging(piece) {
        return Err(PathFault::StagingName);
    }
    path.push(Name::of(alloc, piece)?)?;
    Ok(())
}
