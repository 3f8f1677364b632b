//! Which paths a line names.
ghost use Rattle.std.specs.Prelude.{◌≡◌, ◌≤◌, length, take, IfOk};
ghost use Rattle.pv_table.specs.Active.{is_taking};
ghost use Rattle.pv_table.specs.Reaching.{is_creating, names, path_in};

use crate::action_table::taking_of;
use crate::taking::Taking;
use pv_glob::{matches, matches_first};
use pv_lines::{Line, LinePath};
use pv_path::TreePath;
use std::alloc::{AllocError, Global};

/// Returns whether a line removes something in the remove phase.
pub(crate) fn is_taking(line: &Line) -> bool
    ensures { result ≡ is_taking line.now }
{
    !matches!(taking_of(line), Taking::Nothing)
}

/// Returns whether a line is of a type that makes or copies an object at its path (tmpfiles.d(5), "Type").
///
/// Such a line has a path, and any other has a pattern. The call does not allocate.
pub fn is_creating(line: &Line) -> bool
    ensures { result ≡ is_creating line.now }
{
    matches!(&line.path, LinePath::Literal(_))
}

/// Returns a copy of the path of a line. For a line with a pattern it gives the root.
///
/// The only error is `AllocError`.
pub fn path_of(alloc: Global, line: &Line) -> Result<TreePath, AllocError>
    ensures { IfOk result (λ path. path ≡ path_in line.now.path) }
{
    match &line.path {
        LinePath::Literal(path) => path.copy(),
        LinePath::Glob(_) => Ok(TreePath::root(alloc)),
    }
}

/// Returns whether a line names a path: it is its own path, or its pattern matches it (glob(7)). The call does not
/// allocate.
pub fn names(line: &Line, path: &TreePath) -> bool
    ensures { result ≡ names line.now path.now }
{
    match &line.path {
        LinePath::Literal(own) => own == path,
        LinePath::Glob(pattern) => matches(pattern, path),
    }
}

/// Returns whether a line names the path that consists of the first `count` names of a path.
///
/// `count` must be at most the number of names of the path. The call does not allocate.
pub fn names_first(line: &Line, path: &TreePath, count: usize) -> bool
    requires { count ≤ length path.now }
    ensures { result ≡ names line.now (take count path.now) }
{
    match &line.path {
        LinePath::Literal(own) => own.names() == &path.names()[..count],
        LinePath::Glob(pattern) => matches_first(pattern, path, count),
    }
}
