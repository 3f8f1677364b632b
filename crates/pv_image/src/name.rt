//! Reads printed names and paths.
ghost use Rattle.std.specs.Prelude.{◌≡◌, ◌==◌, [], map, IfOk};
ghost use Rattle.std.specs.List.{list_all, slice_split};
ghost use Rattle.pv_path.specs.Printing.{is_plain_but, printed, printed_path};
ghost use Rattle.pv_image.specs.Spelling.{IsName, HasNames};
ghost use Rattle.pv_image.specs.Reading.{Reads};

use crate::cut::cut_at;
use crate::printed::read_printed;
use pv_path::{Name, TreePath, is_name, is_plain};
use std::alloc::{AllocError, Global};

/// Returns whether each byte of a text is printed as itself.
pub(crate) fn is_plain_text(text: &[u8]) -> bool
    ensures { result ≡ list_all (is_plain_but []) text.now }
{
    text.iter().all(|b| is_plain(*b, b""))
}

/// Reads the name that a text prints.
fn read_name(alloc: Global, text: &[u8]) -> Result<Option<Name>, AllocError>
    ensures { IfOk result (Reads printed IsName text.now) }
{
    if is_plain_text(text) && is_name(text) {
        return Ok(Some(Name::of(alloc, text)?));
    }
    read_printed_name(alloc, text)
}

/// Reads the name that a text prints, some bytes of which may be escaped.
fn read_printed_name(alloc: Global, text: &[u8]) -> Result<Option<Name>, AllocError>
    ensures { IfOk result (Reads printed IsName text.now) }
{
    let Some(bytes) = read_printed(alloc, text)? else {
        return Ok(None);
    };
    if !is_name(bytes.as_slice()) {
        return Ok(None);
    }
    Ok(Some(Name::of(alloc, bytes.as_slice())?))
}

/// Reads the path whose names a text prints, with a slash between them.
fn read_names(alloc: Global, text: &[u8]) -> Result<Option<TreePath>, AllocError>
    ensures { IfOk result (Reads (map printed) HasNames (slice_split (λ b. b == 47) text.now)) }
{
    let mut path = TreePath::root(alloc);
    let mut rest = text;
    while let Some((piece, after)) = cut_at(rest, b'/') {
        let Some(name) = read_name(alloc, piece)? else {
            return Ok(None);
        };
        path.push(name)?;
        rest = after;
    }
    let Some(name) = read_name(alloc, rest)? else {
        return Ok(None);
    };
    path.push(name)?;
    Ok(Some(path))
}

/// Reads the path that a text prints.
pub(crate) fn read_path(alloc: Global, text: &[u8]) -> Result<Option<TreePath>, AllocError>
    ensures { IfOk result (Reads printed_path HasNames text.now) }
{
    match text {
        [b'/'] => Ok(Some(TreePath::root(alloc))),
        [b'/', names @ ..] => read_names(alloc, names),
        _ => Ok(None),
    }
}
