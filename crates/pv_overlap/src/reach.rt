//! What a line reaches.
ghost use Rattle.std.specs.Prelude.{◌≡◌, false, IfOk};
ghost use Rattle.pv_path.specs.Paths.{has_staging};
ghost use Rattle.pv_lines.specs.Lines.{IsLine};
ghost use Rattle.pv_overlap.specs.Subjects.{plains_of, reach_of, reach_under};

use crate::traits::reaches_below;
use pv_glob::{Pattern, Reach, literal};
use pv_lines::{Line, LinePath};
use pv_path::TreePath;
use std::alloc::{AllocError, Global};

/// Returns the pattern of what a line names.
fn pattern_of(alloc: Global, line: &Line) -> Result<Pattern, AllocError>
    requires { IsLine line.now }
    ensures { IfOk result (λ pattern. pattern ≡ plains_of line.now.path) }
{
    match &line.path {
        LinePath::Literal(path) => literal(alloc, path),
        LinePath::Glob(pattern) => pattern.copy(),
    }
}

/// Returns what a line reaches (tmpfiles.d(5)).
pub(crate) fn reach_of(alloc: Global, line: &Line) -> Result<Reach, AllocError>
    requires { IsLine line.now }
    ensures { IfOk result (λ reach. reach ≡ reach_of line.now) }
{
    Ok(Reach {
        pattern: pattern_of(alloc, line)?,
        below: reaches_below(alloc, line)?,
    })
}

/// Returns the reach of a path with everything below it.
pub(crate) fn reach_under(alloc: Global, path: &TreePath) -> Result<Reach, AllocError>
    requires { has_staging path.now ≡ false }
    ensures { IfOk result (λ reach. reach ≡ reach_under path.now) }
{
    Ok(Reach {
        pattern: literal(alloc, path)?,
        below: true,
    })
}
