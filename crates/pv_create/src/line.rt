//! One line carried out, at each of its paths.
ghost use Rattle.std.specs.Prelude.{◌≡◌, ◌&&◌, ◌∷◌, [], not, Bool, IfOk};
ghost use Rattle.pv_steps.specs.Courses.{carried_of, CarriesOut};
ghost use Rattle.pv_lines.specs.Lines.{IsLine};
ghost use Rattle.pv_table.specs.ActionTable.{action_of};
ghost use Rattle.pv_table.specs.Effects.{turns};
ghost use Rattle.pv_table.specs.Reaching.{path_in};
ghost use Rattle.pv_create.specs.OnTheWay.{line_course, lines_course};

use crate::line_at::LineAt;
use crate::turning::at_turn;
use pv_lines::Line;
use pv_path::TreePath;
use pv_steps::{Carried, Tree, TreeFault};
use pv_table::{Action, action_of, named_paths, path_of};
use pv_text::Messages;
use std::alloc::{AllocError, Global};

/// Carries out a line at its path, or at each path that it names (tmpfiles.d(5)). The refusal of a line with `-` does
/// not count.
pub(crate) fn create_line<T: Tree>(
    alloc: Global,
    tree: &mut T,
    line: &Line,
    now: u64,
    messages: &mut Messages,
) -> Result<Carried, TreeFault>
    requires line { IsLine line.now }
    ensures { CarriesOut T.Tree (lines_course now) line.now now tree.old tree.new messages.old messages.new result }
{
    let carried = at_turns(alloc, tree, line, now, messages)?;
    Ok(outcome_with_minus(line, carried))
}

/// Carries out a line at each of its paths. Each refusal counts.
fn at_turns<T: Tree>(
    alloc: Global,
    tree: &mut T,
    line: &Line,
    now: u64,
    messages: &mut Messages,
) -> Result<Carried, TreeFault>
    requires line { IsLine line.now }
    ensures { CarriesOut T.Tree (line_course now) line.now now tree.old tree.new messages.old messages.new result }
{
    let action = action_of(alloc, line)?;
    let paths = turns(alloc, tree, line, &action)?;
    let mut carried = Carried::Whole;
    for path in &paths {
        let at = LineAt {
            line,
            action: &action,
            path,
            now,
        };
        let one = at_turn(alloc, tree, &at, messages)?;
        carried = carried.and(one);
    }
    Ok(carried)
}

/// Returns the paths at which a line is carried out, in byte order: its own, or those present paths that it names.
fn turns<T: Tree>(
    alloc: Global,
    tree: &T,
    line: &Line,
    action: &Action,
) -> Result<Vec<TreePath>, AllocError>
    requires { action_of line.now ≡ action.now }
    ensures { IfOk result (λ paths. paths.items ≡ turns line.now (T.state tree.now)) }
{
    match action {
        Action::Create(_) | Action::Copy(_) => own_path(alloc, line),
        Action::Adjust(_) => named_paths(alloc, tree, line),
        Action::Idle => Ok(Vec::new(alloc)),
    }
}

/// Returns the path of a line that makes or copies an object, as the only one.
fn own_path(alloc: Global, line: &Line) -> Result<Vec<TreePath>, AllocError>
    ensures { IfOk result (λ paths. paths.items ≡ path_in line.now.path ∷ []) }
{
    let mut paths = Vec::new(alloc);
    paths.push(path_of(alloc, line)?)?;
    Ok(paths)
}

/// Returns the outcome of a line, in which a refusal does not count if the line has `-`.
fn outcome_with_minus(line: &Line, carried: Carried) -> Carried
    ensures { (refused : Bool) → carried ≡ carried_of refused
        → result ≡ carried_of (not line.now.minus && refused) }
{
    if line.minus { Carried::Whole } else { carried }
}
