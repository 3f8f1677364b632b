//! A line at a path at which it is carried out.
ghost use Rattle.std.specs.Prelude.{◌≡◌};
ghost use Rattle.std.specs.Option.{option_copied};
ghost use Rattle.pv_table.specs.Turns.{copied};
ghost use Rattle.pv_create.specs.Actions.{makes, adjustment_of};

use pv_lines::Line;
use pv_path::TreePath;
use pv_table::{Action, Adjustment};

/// A line at a path at which it is carried out.
#[derive(Clone, Copy)]
pub(crate) struct LineAt<'a> {
    /// The line.
    pub line: &'a Line,
    /// What the line asks for.
    pub action: &'a Action,
    /// The path: the line's own, or a present one that the line names.
    pub path: &'a TreePath,
    /// The time of the run, in microseconds since 1970-01-01 UTC.
    pub now: u64,
}

/// Returns the path that a line copies, or `None` if it copies nothing.
pub(crate) fn copied(action: &Action) -> Option<&TreePath>
    ensures { option_copied result ≡ copied action.now }
{
    match action {
        Action::Copy(copying) => Some(&copying.source),
        Action::Create(_) | Action::Adjust(_) | Action::Idle => None,
    }
}

/// Returns whether a line makes or copies an object.
pub(crate) fn makes(action: &Action) -> bool
    ensures { result ≡ makes action.now }
{
    matches!(action, Action::Create(_) | Action::Copy(_))
}

/// Returns what a line sets that only adjusts what is there, or `None` if it is another line.
pub(crate) fn adjustment_of(action: &Action) -> Option<&Adjustment>
    ensures { option_copied result ≡ adjustment_of action.now }
{
    match action {
        Action::Adjust(adjustment) => Some(adjustment),
        Action::Create(_) | Action::Copy(_) | Action::Idle => None,
    }
}
