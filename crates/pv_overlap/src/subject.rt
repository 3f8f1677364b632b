//! Everything that is compared: the lines, the paths that they copy, and the input paths. The input paths are those
//! that configuration lines are read from: the folders of tmpfiles.d(5) with all below them, /etc/passwd and
//! /etc/group.
ghost use Rattle.std.specs.Prelude.{◌≡◌, ◌++◌, map, All, false, IfOk, OnOk};
ghost use Rattle.std.specs.List.{AllByRecursion};
ghost use Rattle.std.specs.Option.{option_to_list};
ghost use Rattle.pv_path.specs.Paths.{has_staging};
ghost use Rattle.pv_lines.specs.Lines.{IsLine};
ghost use Rattle.pv_table.specs.ActionTable.{action_of};
ghost use Rattle.pv_table.specs.Turns.{copied};
ghost use Rattle.pv_overlap.specs.Subjects.{reach_of, reach_under, reaches_of, sources_of};

use crate::reach::{reach_of, reach_under};
use pv_glob::Reach;
use pv_layers::inputs;
use pv_lines::Line;
use pv_path::{PathList, TreePath};
use pv_table::{Action, action_of};
use std::alloc::{AllocError, Global};

/// Returns the path that a line copies, or `None` if it copies nothing.
fn source_of(alloc: Global, line: &Line) -> Result<Option<TreePath>, AllocError>
    ensures { IfOk result (λ source. source ≡ copied (action_of line.now)) }
{
    match action_of(alloc, line)? {
        Action::Copy(copying) => Ok(Some(copying.source)),
        _ => Ok(None),
    }
}

/// Adds a path, if there is one.
fn add_source(sources: &mut PathList, source: Option<TreePath>) -> Result<(), AllocError>
    ensures { OnOk result (sources.new ≡ sources.old ++ option_to_list source) }
{
    match source {
        Some(path) => sources.push(path),
        None => Ok(()),
    }
}

/// Returns the paths that lines copy.
pub(crate) fn sources_of(alloc: Global, lines: &[Line]) -> Result<PathList, AllocError>
    ensures { IfOk result (λ sources. sources ≡ sources_of lines.now) }
{
    let mut sources = PathList::new(alloc);
    for line in lines {
        add_source(&mut sources, source_of(alloc, line)?)?;
    }
    Ok(sources)
}

/// Returns the reaches of lines.
fn line_reaches(alloc: Global, lines: &[Line]) -> Result<Vec<Reach>, AllocError>
    requires { All IsLine lines.now }
    ensures { IfOk result (λ reaches. reaches.items ≡ map reach_of lines.now) }
{
    let mut reaches = Vec::new(alloc);
    for line in lines {
        reaches.push(reach_of(alloc, line)?)?;
    }
    Ok(reaches)
}

/// Adds the reaches of paths with everything below them.
fn add_under(alloc: Global, reaches: &mut Vec<Reach>, paths: &[TreePath]) -> Result<(), AllocError>
    requires { All (λ path. has_staging path ≡ false) paths.now }
    ensures { OnOk result (reaches.new.items ≡ reaches.old.items ++ map reach_under paths.now) }
{
    for path in paths {
        reaches.push(reach_under(alloc, path)?)?;
    }
    Ok(())
}

/// Returns the reaches of the lines, then of the paths that they copy, then of the input paths.
pub(crate) fn reaches_of(alloc: Global, lines: &[Line]) -> Result<Vec<Reach>, AllocError>
    requires { AllByRecursion IsLine lines.now }
    ensures { IfOk result (λ reaches. reaches.items ≡ reaches_of lines.now) }
{
    let mut reaches = line_reaches(alloc, lines)?;
    let sources = sources_of(alloc, lines)?;
    add_under(alloc, &mut reaches, sources.as_slice())?;
    let inputs = inputs(alloc)?;
    add_under(alloc, &mut reaches, inputs.as_slice())?;
    Ok(reaches)
}
