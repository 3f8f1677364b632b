//! A part of a tree. It has, for each copy that comes into the part, the source of the copy too.
ghost use Rattle.std.specs.Prelude.{◌≡◌, ◌++◌, ◌∷◌, [], true, map, filter, flat_map, is_some, IfOk, OnOk};
ghost use Rattle.std.specs.FinMap as fin;
ghost use Rattle.std.specs.List.{cons_option, find};
ghost use Rattle.std.specs.Option.{option_copied};
ghost use Rattle.pv_path.specs.Paths.{Path, is_prefix};
ghost use Rattle.pv_steps.specs.Trees.{places};
ghost use Rattle.pv_walk.specs.Preparing.{parents_of};
ghost use Rattle.pv_walk.specs.Removal.{is_one_of};
ghost use Rattle.pv_explain.specs.Following.{copies_of, copy_of, covers, holds, is_open, leads, IsClosed};

use crate::state::places_along;
use pv_lines::Line;
use pv_path::{TreePath, is_prefix};
use pv_steps::Tree;
use pv_table::{Action, Table, action_of, path_of};
use std::alloc::{AllocError, Global};

/// What a line copies, and where to.
#[derive(Drop)]
pub(crate) struct Copied {
    /// The path to which it is copied.
    pub(crate) to: TreePath,
    /// The path that is copied.
    pub(crate) from: TreePath,
}

/// A part of a tree.
#[derive(Drop)]
pub(crate) struct Region {
    /// Everything at, below and above these paths is in the region.
    pub(crate) tops: Vec<TreePath>,
    /// Everything at and above these paths is in the region.
    pub(crate) ends: Vec<TreePath>,
}

impl Region {
    /// Returns whether a path is in the region.
    pub(crate) fn holds(&self, path: &TreePath) -> bool
        ensures { result ≡ holds self.now path.now }
    {
        covers(&self.tops, path) || leads(&self.tops, path) || leads(&self.ends, path)
    }
}

/// Returns whether a path is at or below one of some paths.
fn covers(tops: &[TreePath], path: &TreePath) -> bool
    ensures { result ≡ covers tops.now path.now }
{
    tops.iter().any(|top| is_prefix(top, path))
}

/// Returns whether a path is at or above one of some paths.
fn leads(ends: &[TreePath], path: &TreePath) -> bool
    ensures { result ≡ leads ends.now path.now }
{
    ends.iter().any(|end| is_prefix(path, end))
}

/// Returns a region that has a path and everything that lines copy, and all of each copy that comes into it. Only the
/// ends of such copies are added to it.
pub(crate) fn closed_region(
    alloc: Global,
    table: &Table,
    path: &TreePath,
) -> Result<Region, AllocError>
    ensures { IfOk result (λ region. IsClosed table.now path.now region) }
{
    let copies = copies_of(alloc, table)?;
    let mut region = Region {
        tops: Vec::new(alloc),
        ends: ends_of(alloc, path, &copies)?,
    };
    while let Some(open) = first_open(&copies, &region) {
        region.tops.push(open.to.copy()?)?;
        region.tops.push(open.from.copy()?)?;
    }
    Ok(region)
}

/// Returns what the lines of a table copy.
fn copies_of(alloc: Global, table: &Table) -> Result<Vec<Copied>, AllocError>
    ensures { IfOk result (λ copies. copies.items ≡ copies_of table.now) }
{
    let mut copies = Vec::new(alloc);
    for line in table.lines() {
        add_copy(alloc, line, &mut copies)?;
    }
    Ok(copies)
}

/// Adds what a line copies, if it copies.
fn add_copy(alloc: Global, line: &Line, copies: &mut Vec<Copied>) -> Result<(), AllocError>
    ensures { OnOk result (copies.new.items ≡ copies.old.items ++ cons_option (copy_of line.now) []) }
{
    let action = action_of(alloc, line)?;
    if let Action::Copy(copying) = &action {
        copies.push(Copied {
            to: path_of(alloc, line)?,
            from: copying.source.copy()?,
        })?;
    }
    Ok(())
}

/// Returns a path and all paths that are copied.
fn ends_of(alloc: Global, path: &TreePath, copies: &[Copied]) -> Result<Vec<TreePath>, AllocError>
    ensures { IfOk result (λ ends. ends.items ≡ path.now ∷ map (λ copy. copy.from) copies.now) }
{
    let mut ends = Vec::new(alloc);
    ends.push(path.copy()?)?;
    for copy in copies {
        ends.push(copy.from.copy()?)?;
    }
    Ok(ends)
}

/// Returns the first copy that comes into a region that does not have all of it.
fn first_open<'a>(copies: &'a [Copied], region: &Region) -> Option<&'a Copied>
    ensures { option_copied result ≡ find (is_open region.now) copies.now }
{
    copies.iter().find(|copy| is_open(region, copy))
}

/// Returns whether a copy comes into a region that does not have all of it.
fn is_open(region: &Region, copy: &Copied) -> bool
    ensures { result ≡ is_open region.now copy.now }
{
    region.holds(&copy.to) && !(covers(&region.tops, &copy.to) && covers(&region.tops, &copy.from))
}

/// Returns paths of a region, among which are all that have an object.
pub(crate) fn paths_in<T: Tree>(
    alloc: Global,
    tree: &T,
    region: &Region,
) -> Result<Vec<TreePath>, AllocError>
    ensures { IfOk result (λ paths. (q : Path) → holds region.now q ≡ true → is_some (places (T.state tree.now) q) ≡ true
        → is_one_of paths.items q ≡ true) }
{
    let mut paths = Vec::new(alloc);
    add_below(alloc, tree, &region.tops, &mut paths)?;
    add_above(alloc, &region.tops, &mut paths)?;
    add_above(alloc, &region.ends, &mut paths)?;
    Ok(paths)
}

/// Adds the objects at some paths, with everything below them.
fn add_below<T: Tree>(
    alloc: Global,
    tree: &T,
    tops: &[TreePath],
    paths: &mut Vec<TreePath>,
) -> Result<(), AllocError>
    ensures { OnOk result (paths.new.items ≡ paths.old.items
        ++ flat_map (λ top. filter (is_prefix top) (fin.keys (T.state tree.now))) tops.now) }
{
    for top in tops {
        let mut more = tree.at_and_below(alloc, top)?;
        paths.append(&mut more)?;
    }
    Ok(())
}

/// Adds some paths and those above them.
fn add_above(alloc: Global, ends: &[TreePath], paths: &mut Vec<TreePath>) -> Result<(), AllocError>
    ensures { OnOk result (paths.new.items ≡ paths.old.items ++ flat_map (λ end. [] ∷ end ∷ parents_of end) ends.now) }
{
    for end in ends {
        let mut more = places_along(alloc, end)?;
        paths.append(&mut more)?;
    }
    Ok(())
}
