//! The order in which lines are carried out.
ghost use Rattle.std.specs.Prelude.{◌≡◌, ◌&&◌, ◌++◌, [], map, filter, fold, not, cond, Some, None, is_some, unwrap_or, IfOk, OnOk};
ghost use Rattle.std.specs.List.{enumerate_from};
ghost use Rattle.std.specs.Option.{option_or};
ghost use Rattle.indexmap.specs.IndexMap.{get};
ghost use Rattle.pv_path.specs.Paths.{Path, is_prefix, same_path};
ghost use Rattle.pv_table.specs.Active.{create_order, is_adjusting_line, placed, remove_order};
ghost use Rattle.pv_table.specs.Building.{first_index, makes};
ghost use Rattle.pv_table.specs.Ranking.{first_known, HasPrefixes, with_rank};
ghost use Rattle.pv_table.specs.Reaching.{is_creating};

use crate::IndexList;
use crate::action_table::is_adjusting_line;
use crate::reach::is_taking;
use crate::table::Table;
use indexmap::IndexMap;
use pv_lines::{Line, LinePath};
use pv_path::TreePath;
use std::alloc::{AllocError, Global};
use std::collections::BTreeMap;

/// Returns the indices of the lines that do something in the create phase, in its order (tmpfiles.d(5)).
///
/// Lines that make or copy an object come first. Of these, a line comes before the others whose paths are below its
/// own. Then come the lines that adjust, in their listing order (the order in which they were read). The indices are
/// counted from 0. The only error is `AllocError`.
pub fn create_order(alloc: Global, table: &Table) -> Result<IndexList, AllocError>
    ensures { IfOk result (λ order. order ≡ create_order table.now) }
{
    let mut order = making_order(alloc, table)?;
    add_adjustment(&mut order, table.lines())?;
    Ok(order)
}

/// Returns the indices of the lines that make or copy an object, what is above before what is below.
fn making_order(alloc: Global, table: &Table) -> Result<IndexList, AllocError>
    ensures { IfOk result (λ order. order ≡ map (λ line. line.0) (fold placed [] (filter (λ line. is_creating line.1) (enumerate_from 0 table.now)))) }
{
    let firsts = firsts_under(alloc, table)?;
    let ranks = ranks_of(alloc, table.lines(), &firsts)?;
    places_of(alloc, &ranks)
}

/// Returns the indices of the lines that remove something in the remove phase, in the order in which they were read
/// (tmpfiles.d(5), `r`, `R` and `D`).
///
/// The indices are counted from 0. The only error is `AllocError`.
pub fn remove_order(alloc: Global, table: &Table) -> Result<IndexList, AllocError>
    ensures { IfOk result (λ order. order ≡ remove_order table.now) }
{
    let lines = table.lines();
    let mut order = IndexList::new(alloc);
    for (place, line) in lines.iter().enumerate() {
        if is_taking(line) {
            order.push(place)?;
        }
    }
    Ok(order)
}

/// Adds the indices of the lines that adjust, in listing order.
fn add_adjustment(order: &mut IndexList, lines: &[Line]) -> Result<(), AllocError>
    ensures { OnOk result (order.new ≡ order.old ++ map (λ line. line.0) (filter (λ line. is_adjusting_line line.1) (enumerate_from 0 lines.now))) }
{
    for (place, line) in lines.iter().enumerate() {
        if is_adjusting_line(line) {
            order.push(place)?;
        }
    }
    Ok(())
}

/// Returns, for each path of a line that makes or copies, the index of the first such line at or below it.
fn firsts_under(alloc: Global, table: &Table) -> Result<IndexMap<TreePath, usize>, AllocError>
    ensures { IfOk result (λ firsts. (q : Path) → get same_path firsts q ≡ first_known table.now table.now q) }
{
    let lines = table.lines();
    let mut firsts = IndexMap::new(alloc);
    for (place, line) in lines.iter().enumerate() {
        if let LinePath::Literal(path) = &line.path {
            note_prefixes(alloc, table, &mut firsts, path, place)?;
        }
    }
    Ok(firsts)
}

/// Records an index for each prefix of a path, the path included, that is the path of a line and has no index yet. It
/// begins with the path, and stops at the first prefix that has an index: the prefixes of that have one already.
fn note_prefixes(
    alloc: Global,
    table: &Table,
    firsts: &mut IndexMap<TreePath, usize>,
    path: &TreePath,
    place: usize,
) -> Result<(), AllocError>
    requires { HasPrefixes table.now (get same_path firsts.old) }
    ensures { OnOk result ((q : Path) → get same_path firsts.new q ≡ option_or (get same_path firsts.old q) (cond (is_some (first_index (makes q) table.now) && is_prefix q path.now) (Some place) None)) }
{
    for above in 0..path.len() {
        let prefix = TreePath::of(alloc, &path.names()[..path.len() - above])?;
        if !note(table, firsts, prefix, place)? {
            return Ok(());
        }
    }
    note(table, firsts, TreePath::root(alloc), place)?;
    Ok(())
}

/// Records an index for a path that is the path of a line and has no index yet. The answer is false if it has one
/// already.
fn note(
    table: &Table,
    firsts: &mut IndexMap<TreePath, usize>,
    path: TreePath,
    place: usize,
) -> Result<bool, AllocError>
    ensures noted { OnOk result ((q : Path) → get same_path firsts.new q ≡ option_or (get same_path firsts.old q) (cond (is_some (first_index (makes q) table.now) && same_path q path) (Some place) None)) }
    ensures had_none { IfOk result (λ had_none. had_none ≡ not (is_some (first_index (makes path) table.now) && is_some (get same_path firsts.old path))) }
{
    if table.index_of(&path).is_none() {
        return Ok(true);
    }
    if firsts.get(&path).is_some() {
        return Ok(false);
    }
    firsts.insert(path, place)?;
    Ok(true)
}

/// Returns the indices of the lines that make or copy, by their ranks. A rank is the index of the first such line at or
/// below the path, and then the number of names of the path.
fn ranks_of(
    alloc: Global,
    lines: &[Line],
    firsts: &IndexMap<TreePath, usize>,
) -> Result<BTreeMap<(usize, usize), usize>, AllocError>
    requires { (q : Path) → get same_path firsts.now q ≡ first_known lines.now lines.now q }
    ensures { IfOk result (λ ranks. ranks.entries ≡ fold (with_rank lines.now) [] (enumerate_from 0 lines.now)) }
{
    let mut ranks = BTreeMap::new(alloc);
    for (place, line) in lines.iter().enumerate() {
        if let LinePath::Literal(path) = &line.path {
            ranks.insert((first_of(firsts, path), path.len()), place)?;
        }
    }
    Ok(ranks)
}

/// Returns the index that is recorded for a path, or 0.
fn first_of(firsts: &IndexMap<TreePath, usize>, path: &TreePath) -> usize
    ensures { result ≡ unwrap_or (get same_path firsts.now path.now) 0 }
{
    firsts.get(path).copied().unwrap_or(0)
}

/// Returns the indices in the order of their ranks.
fn places_of(
    alloc: Global,
    ranks: &BTreeMap<(usize, usize), usize>,
) -> Result<IndexList, AllocError>
    ensures { IfOk result (λ places. places ≡ map (λ entry. entry.1) ranks.now.entries) }
{
    let places: Vec<usize> = ranks.values().copied().collect(alloc)?;
    Ok(IndexList::from_vec(places))
}
