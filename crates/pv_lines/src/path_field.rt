//! The field Path: a path, or a pattern of paths.
ghost use Rattle.std.specs.Prelude.{◌≡◌};
ghost use Rattle.pv_lines.specs.Faults.{Gives};
ghost use Rattle.pv_lines.specs.PathField.{allowed, current, expansion, is_moved, is_root, path_named, named_of};

use crate::line::LinePath;
use crate::line_fault::LineFault;
use crate::type_field::Typed;
use crate::types::Row;
use pv_glob::{matches, parse_pattern};
use pv_path::{Bytes, TreePath, parse_path};
use pv_text::{Facts, Tool, expand};
use std::alloc::Global;

/// What the field Path names, with its text.
#[derive(Drop)]
pub(crate) struct Named {
    /// The path or the pattern.
    pub path: LinePath,
    /// The text of the path or pattern, after escapes were replaced, specifiers were expanded, and `/var/run/` at the
    /// beginning was read as `/run/`.
    pub text: Bytes,
    /// Whether `/var/run/` was read as `/run/`.
    pub moved: bool,
}

/// Expands the specifiers of a text.
pub(crate) fn expansion(alloc: Global, text: &[u8], facts: &Facts) -> Result<Bytes, LineFault>
    ensures { Gives result (expansion facts.now text.now) }
{
    Ok(Bytes::from_vec(expand(alloc, text, facts, Tool::Tmpfiles)?))
}

/// Returns whether a text begins with `/var/run/`, the old name of `/run/`.
fn is_moved(text: &[u8]) -> bool
    ensures { result ≡ is_moved text.now }
{
    text.starts_with(b"/var/run/")
}

/// Returns a text in which `/var/run/` at the beginning is replaced by `/run/`.
fn current(text: &[u8]) -> &[u8]
    ensures { result.now ≡ current text.now }
{
    if is_moved(text) { &text[4..] } else { text }
}

/// Reads a path if the type creates objects, otherwise a pattern.
fn path_named(alloc: Global, row: Row, text: &[u8]) -> Result<LinePath, LineFault>
    ensures { Gives result (path_named row text.now) }
{
    if row.creates {
        Ok(LinePath::Literal(parse_path(alloc, text)?))
    } else {
        Ok(LinePath::Glob(parse_pattern(alloc, text)?))
    }
}

/// Returns whether the path is the root, or the pattern matches it. The call does not allocate.
fn is_root(alloc: Global, path: &LinePath) -> bool
    ensures { result ≡ is_root path.now }
{
    match path {
        LinePath::Literal(path) => path.is_empty(),
        LinePath::Glob(pattern) => matches(pattern, &TreePath::root(alloc)),
    }
}

/// Returns the path or pattern. If it names the root, and the type or the modifier `$` does not allow this, returns the
/// error.
fn allowed(alloc: Global, typed: Typed, path: LinePath) -> Result<LinePath, LineFault>
    ensures { result ≡ allowed typed path }
{
    if is_root(alloc, &path) && (!typed.row.root || typed.purge) {
        Err(LineFault::RootPath)
    } else {
        Ok(path)
    }
}

/// Reads the field Path, or gives its first error.
pub(crate) fn named_of(
    alloc: Global,
    text: &[u8],
    facts: &Facts,
    typed: Typed,
) -> Result<Named, LineFault>
    ensures { Gives result (named_of facts.now typed text.now) }
{
    let written = expansion(alloc, text, facts)?;
    let text = current(written.as_slice());
    let path = path_named(alloc, typed.row, text)?;
    let path = allowed(alloc, typed, path)?;
    Ok(Named {
        path,
        text: Bytes::copy_of(alloc, text)?,
        moved: is_moved(written.as_slice()),
    })
}
