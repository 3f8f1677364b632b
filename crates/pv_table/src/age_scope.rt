//! The age by which the contents of a directory are cleaned.
ghost use Rattle.std.specs.Prelude.{◌≡◌, ◌≤◌, ◌&&◌, ◌||◌, not, length, take, find};
ghost use Rattle.std.specs.Option.{option_copied};
ghost use Rattle.std.specs.List.{list_all, list_any};
ghost use Rattle.pv_table.specs.Reaching.{names};
ghost use Rattle.pv_table.specs.Scopes.{first_age, gives_age, inherited, is_exempting, is_sparing_itself, scope, scope_at, scope_of_first};

use crate::action_table::sparing_of;
use crate::reach::names_first;
use crate::scope::Scope;
use crate::table::Table;
use crate::taking::Sparing;
use pv_age::Age;
use pv_lines::Line;
use pv_path::TreePath;

/// Returns the age by which the contents of a directory are cleaned, if they are cleaned at all (tmpfiles.d(5),
/// "Age", `x` and `X`).
///
/// `path` is the path of the directory. These rules are tried in order:
/// 1. If a line `x` without an age names the directory, there is no age.
/// 2. If lines with an age name the directory, its age is that of the first of these lines.
/// 3. If no line names the directory, or only lines `X` do, its age is that for the directory above. Above the root
///    there is none.
/// 4. Otherwise there is no age.
///
/// The call does not allocate.
pub fn scope_of(table: &Table, path: &TreePath) -> Option<Scope>
    ensures { result ≡ scope table.now path.now }
{
    scope_by(table.lines(), path)
}

/// Returns the age for a directory, by these lines.
fn scope_by(lines: &[Line], path: &TreePath) -> Option<Scope>
    ensures { result ≡ scope lines.now path.now }
{
    let mut scope = scope_at(None, lines, path, 0);
    for count in 0..path.len() {
        scope = scope_at(scope, lines, path, count + 1);
    }
    scope
}

/// Returns the age for the directory of the first names of a path. `above` is the age for its parent.
fn scope_at(above: Option<Scope>, lines: &[Line], path: &TreePath, count: usize) -> Option<Scope>
    requires { count ≤ length path.now }
    ensures { result ≡ scope_at above lines.now (take count path.now) }
{
    if exempts(lines, path, count) {
        return None;
    }
    match first_age(lines, path, count) {
        Some(age) => Some(Scope { age, own: true }),
        None => {
            if spares_itself(lines, path, count) {
                inherited(above)
            } else {
                None
            }
        }
    }
}

/// Returns an age as it holds for deeper directories.
fn inherited(scope: Option<Scope>) -> Option<Scope>
    ensures { result ≡ inherited scope }
{
    match scope {
        None => None,
        Some(scope) => Some(Scope {
            age: scope.age,
            own: false,
        }),
    }
}

/// Returns whether a line protects everything below what it names: `x` without an age.
fn is_exempting(line: &Line) -> bool
    ensures { result ≡ is_exempting line.now }
{
    line.age.is_none() && matches!(sparing_of(line), Some(Sparing::Whole))
}

/// Returns whether a line protects only what it names itself: `X`.
fn is_sparing_itself(line: &Line) -> bool
    ensures { result ≡ is_sparing_itself line.now }
{
    matches!(sparing_of(line), Some(Sparing::Itself))
}

/// Returns whether a line that names the directory of the first names of a path protects everything below it.
fn exempts(lines: &[Line], path: &TreePath, count: usize) -> bool
    requires { count ≤ length path.now }
    ensures { result ≡ list_any (λ line. names line (take count path.now) && is_exempting line) lines.now }
{
    lines.iter().any(|line| names_first(line, path, count) && is_exempting(line))
}

/// Returns the age of the first line that names the directory of the first names of a path and has an age.
fn first_age(lines: &[Line], path: &TreePath, count: usize) -> Option<Age>
    requires { count ≤ length path.now }
    ensures { result ≡ first_age lines.now (take count path.now) }
{
    match with_age(lines, path, count) {
        Some(line) => line.age,
        None => None,
    }
}

/// Returns the first line that names the directory of the first names of a path and has an age.
fn with_age<'a>(lines: &'a [Line], path: &TreePath, count: usize) -> Option<&'a Line>
    requires { count ≤ length path.now }
    ensures { option_copied result ≡ find (gives_age (take count path.now)) lines.now }
{
    lines.iter().find(|line| names_first(line, path, count) && line.age.is_some())
}

/// Returns whether all lines that name the directory of the first names of a path protect only itself.
fn spares_itself(lines: &[Line], path: &TreePath, count: usize) -> bool
    requires { count ≤ length path.now }
    ensures { result ≡ list_all (λ line. not (names line (take count path.now)) || is_sparing_itself line) lines.now }
{
    lines.iter().all(|line| !names_first(line, path, count) || is_sparing_itself(line))
}
