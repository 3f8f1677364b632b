//! A line at its turn.
ghost use Rattle.std.specs.Prelude.{◌≡◌};
ghost use Rattle.pv_table.specs.ActionTable.{action_of};
ghost use Rattle.pv_table.specs.Reaching.{path_in};
ghost use Rattle.pv_explain.specs.LineTurns.{IsLineTurn};

use crate::standing::Standing;
use pv_lines::Line;
use pv_path::TreePath;
use pv_table::Action;

/// What is needed to say what a line leaves at a path.
#[derive(Clone, Copy)]
pub(crate) struct LineTurn<'a> {
    /// The line.
    pub line: &'a Line,
    /// What it asks for.
    pub action: &'a Action,
    /// Its path.
    pub path: &'a TreePath,
    /// The objects before it.
    pub before: &'a Standing,
    /// Whether no object is directly below its path then, except for staging names.
    pub childless: bool,
}

impl<'a> LineTurn<'a> {
    /// Returns the turn of a line.
    pub(crate) fn of(
        line: &'a Line,
        action: &'a Action,
        path: &'a TreePath,
        before: &'a Standing,
    ) -> LineTurn<'a>
        requires action { action.now ≡ action_of line.now }
        requires path { path.now ≡ path_in line.now.path }
        ensures turn { IsLineTurn result }
        ensures line { result.line.now ≡ line.entry.now }
        ensures before { result.before.now ≡ before.entry.now }
    {
        LineTurn {
            line,
            action,
            path,
            before,
            childless: before.is_childless(path),
        }
    }
}
