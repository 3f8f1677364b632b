//! Which lines pass the filters of a run.
ghost use Rattle.std.specs.Prelude.{◌≡◌, ◌==◌, not, filter, map, length, IfOk};
ghost use Rattle.std.specs.Option.{option_copied};
ghost use Rattle.pv_path.specs.Paths.{is_prefix};
ghost use Rattle.pv_table.specs.Active.{is_within, stays};

use pv_lines::Line;
use pv_path::{TreePath, pieces_of};
use std::alloc::{AllocError, Global};

/// Returns whether a line passes the filters (systemd-tmpfiles(8), --boot, --prefix and --exclude-prefix).
///
/// Lines with `!` pass only with --boot. The path of a line must begin with the components of the one path, and must
/// not begin with those of the other.
pub(crate) fn stays(
    alloc: Global,
    line: &Line,
    boot: bool,
    prefix: Option<&TreePath>,
    exclude: Option<&TreePath>,
) -> Result<bool, AllocError>
    ensures { IfOk result (λ answer. answer ≡ stays boot (option_copied prefix.entry) (option_copied exclude.entry) line.now) }
{
    if line.boot && !boot {
        return Ok(false);
    }
    if let Some(path) = prefix {
        if !is_within(alloc, path, line)? {
            return Ok(false);
        }
    }
    match exclude {
        Some(path) => Ok(!is_within(alloc, path, line)?),
        None => Ok(true),
    }
}

/// Returns whether the path of a line begins with the components of a path.
fn is_within(alloc: Global, path: &TreePath, line: &Line) -> Result<bool, AllocError>
    ensures { IfOk result (λ answer. answer ≡ is_within path.now line.now) }
{
    let pieces = pieces_of(alloc, line.path_text.as_slice(), b'/')?;
    Ok(begins(path, &pieces))
}

/// Returns whether pieces begin with the names of a path. Empty pieces do not count.
fn begins(path: &TreePath, pieces: &[&[u8]]) -> bool
    ensures { result ≡ is_prefix path.now (filter (λ name. not (length name == 0)) (map (λ s. s.now) pieces.now)) }
{
    let mut names = path.names();
    for piece in pieces {
        if !piece.is_empty() {
            match names {
                [] => return true,
                [name, rest @ ..] => {
                    if name.bytes() != *piece {
                        return false;
                    }
                    names = rest;
                }
            }
        }
    }
    match names {
        [] => true,
        [_, ..] => false,
    }
}
