//! The paths that the lines of a removal cover.
ghost use Rattle.std.specs.Prelude.{◌≡◌, ◌&&◌, ◌||◌, ◌<◌, ◌^◌, length, is_none, is_some, IfOk, OnOk};
ghost use Rattle.std.specs.List.{AllByRecursion, list_any};
ghost use Rattle.pv_lines.specs.Lines.{IsLine};
ghost use Rattle.pv_path.specs.Paths.{Path};
ghost use Rattle.pv_steps.specs.Trees.{places, IsTree};
ghost use Rattle.pv_walk.specs.Removal.{is_one_of};
ghost use Rattle.pv_table.specs.Removed.{covers, owner_given, refused_place};
ghost use Rattle.pv_remove.specs.Covering.{takes};

use pv_lines::Line;
use pv_path::TreePath;
use pv_steps::{Tree, Why};
use pv_table::{Taking, named_paths, standing_at, taking_of};
use pv_walk::{below, refusal_of};
use std::alloc::{AllocError, Global};

/// Returns the present paths that some line covers, in no order.
pub(crate) fn covered_paths<T: Tree>(
    alloc: Global,
    tree: &T,
    lines: &[Line],
) -> Result<Vec<TreePath>, AllocError>
    requires lines { AllByRecursion IsLine lines.now }
    requires tree { IsTree (T.state tree.now) }
    ensures { IfOk result (λ paths. (q : Path) → is_one_of paths.items q
        ≡ (is_some (places (T.state tree.now) q) && list_any (λ line. covers line (places (T.state tree.now)) q) lines.now)) }
{
    let mut covered = Vec::new(alloc);
    for line in lines {
        add_covered(alloc, tree, line, &mut covered)?;
    }
    Ok(covered)
}

/// Adds the present paths that a line covers.
fn add_covered<T: Tree>(
    alloc: Global,
    tree: &T,
    line: &Line,
    covered: &mut Vec<TreePath>,
) -> Result<(), AllocError>
    requires line { IsLine line.now }
    requires tree { IsTree (T.state tree.now) }
    ensures { OnOk result ((q : Path) → is_one_of covered.new.items q
        ≡ (is_one_of covered.old.items q || (is_some (places (T.state tree.now) q) && covers line.now (places (T.state tree.now)) q))) }
{
    let taking = taking_of(line);
    if matches!(taking, Taking::Nothing) {
        return Ok(());
    }
    let paths = named_paths(alloc, tree, line)?;
    for path in &paths {
        add_named(alloc, tree, line, taking, path, covered)?;
    }
    Ok(())
}

/// Adds the paths that a line takes at a path that it names, unless the line is refused there.
fn add_named<T: Tree>(
    alloc: Global,
    tree: &T,
    line: &Line,
    taking: Taking,
    path: &TreePath,
    covered: &mut Vec<TreePath>,
) -> Result<(), AllocError>
    requires { length path.now < 2 ^ 32 }
    ensures { OnOk result ((q : Path) → is_one_of covered.new.items q ≡ (is_one_of covered.old.items q
        || (is_none (refused_place line.now (places (T.state tree.now)) path.now) && takes taking (T.state tree.now) path.now q))) }
{
    match refusal(alloc, tree, line, path)? {
        Some(_) => Ok(()),
        None => add_taken(alloc, tree, taking, path, covered),
    }
}

/// Adds the paths that a line takes at a path.
fn add_taken<T: Tree>(
    alloc: Global,
    tree: &T,
    taking: Taking,
    path: &TreePath,
    covered: &mut Vec<TreePath>,
) -> Result<(), AllocError>
    ensures { OnOk result ((q : Path) → is_one_of covered.new.items q
        ≡ (is_one_of covered.old.items q || takes taking (T.state tree.now) path.now q)) }
{
    let mut more = taken_paths(alloc, tree, taking, path)?;
    covered.append(&mut more)?;
    Ok(())
}

/// Returns the paths that a line takes at a path, in no order.
fn taken_paths<T: Tree>(
    alloc: Global,
    tree: &T,
    taking: Taking,
    path: &TreePath,
) -> Result<Vec<TreePath>, AllocError>
    ensures { IfOk result (λ paths. (q : Path) → is_one_of paths.items q ≡ takes taking (T.state tree.now) path.now q) }
{
    match taking {
        Taking::Itself => standing_at(alloc, tree, path),
        Taking::Whole => tree.at_and_below(alloc, path),
        Taking::Contents => below(alloc, tree, path),
        Taking::Nothing => Ok(Vec::new(alloc)),
    }
}

/// Returns the owner that an absent last component counts as: the line's user, otherwise root.
fn owner_given(line: &Line) -> u32
    ensures { result ≡ owner_given line.now }
{
    match line.user {
        Some(owner) => owner.id,
        None => 0,
    }
}

/// Returns the component at which a line is refused at a path, counted from 0 for the root, and why.
pub(crate) fn refusal<T: Tree>(
    alloc: Global,
    tree: &T,
    line: &Line,
    path: &TreePath,
) -> Result<Option<(u32, Why)>, AllocError>
    requires { length path.now < 2 ^ 32 }
    ensures { IfOk result (λ refusal. refusal ≡ refused_place line.now (places (T.state tree.now)) path.now) }
{
    refusal_of(alloc, tree, path, owner_given(line))
}
