//! Which objects may be removed by their age, each considered alone.
ghost use Rattle.std.specs.Prelude.{◌≡◌, ◌≢◌, ◌&&◌, ◌++◌, ◌∷◌, [], length, map, slice_get, unwrap_or, Some, None, is_some, IfOk, OnOk};
ghost use Rattle.std.specs.List.{list_any};
ghost use Rattle.pv_path.specs.Paths.{Path, parent_of};
ghost use Rattle.pv_steps.specs.Trees.{places, IsTree};
ghost use Rattle.pv_walk.specs.Listing.{AreGathered, IsListing};
ghost use Rattle.pv_walk.specs.Removal.{is_one_of};
ghost use Rattle.pv_table.specs.Cleaned.{is_old_by, may_go};
ghost use Rattle.pv_table.specs.Reaching.{names};
ghost use Rattle.pv_table.specs.Scopes.{scope};
ghost use Rattle.pv_clean.specs.Judging.{judged_at, AreJudged, AreNoted};

use crate::naming::all_named;
use pv_path::TreePath;
use pv_steps::{Tree, is_directory};
use pv_table::{Scope, Table, is_old, scope_of};
use pv_walk::{below, is_among};
use std::alloc::{AllocError, Global};
use std::collections::BTreeSet;

/// What the objects of a tree are judged by.
#[derive(Drop)]
struct Aging<'a, T: Tree> {
    /// The tree.
    tree: &'a T,
    /// The lines.
    table: &'a Table,
    /// The present paths that some line names.
    named: &'a BTreeSet<TreePath>,
    /// The time of the run, in microseconds since 1970-01-01 UTC.
    time: u64,
}

/// A path, and whether its object may be removed by its age. What is in a directory does not count here.
#[derive(Drop)]
pub(crate) struct Judged {
    /// The path.
    pub(crate) path: TreePath,
    /// Whether the object at the path may be removed by its age.
    pub(crate) may_go: bool,
}

/// Judges all objects of a tree by their age (tmpfiles.d(5), "Age", x and X). The list has each directory before what
/// is in it.
///
/// Read from its end, the list is in post-order: the children of a directory are in byte order, each after everything
/// below it.
pub(crate) fn all_judged<T: Tree>(
    alloc: Global,
    tree: &T,
    table: &Table,
    now: u64,
) -> Result<Vec<Judged>, AllocError>
    ensures judged { IfOk result (λ judged. AreJudged table.now now (T.state tree.now) judged.items) }
    ensures tree { IsTree (T.state tree.now) }
{
    let root = TreePath::root(alloc);
    let named = all_named(alloc, tree, table.lines())?;
    let listed = below(alloc, tree, &root)?;
    let aging = Aging {
        tree,
        table,
        named: &named,
        time: now,
    };
    judge_all(alloc, &aging, root, listed)
}

/// Judges the root and a listing of all objects below it.
///
/// The age for the objects in a directory is looked up once. It is kept by the directory's depth while the listing
/// stays inside the directory.
fn judge_all<T: Tree>(
    alloc: Global,
    aging: &Aging<'_, T>,
    root: TreePath,
    listed: Vec<TreePath>,
) -> Result<Vec<Judged>, AllocError>
    requires root { root ≡ [] }
    requires tree { IsTree (T.state aging.now.tree.now) }
    requires listing { IsListing (T.state aging.now.tree.now) [] listed.items }
    requires gathered { AreGathered listed.items }
    requires named { (q : Path) → is_one_of aging.now.named.now.keys q
        ≡ (is_some (places (T.state aging.now.tree.now) q) && list_any (λ line. names line q) aging.now.table.now) }
    ensures { IfOk result (λ judged. judged.items
        ≡ map (judged_at aging.now.table.now aging.now.time (T.state aging.now.tree.now)) ([] ∷ listed.items)) }
{
    let mut ages = Vec::new(alloc);
    ages.push(scope_of(aging.table, &root))?;
    let mut judged = Vec::with_capacity(alloc, listed.len())?;
    judged.push(Judged {
        path: root,
        may_go: false,
    })?;
    let mut left = listed;
    left.reverse();
    while let Some(path) = left.pop() {
        judged.push(judge(aging, path, &mut ages)?)?;
    }
    Ok(judged)
}

/// Judges a path below the root. If it is a directory, it notes the age for what is in it.
fn judge<T: Tree>(
    aging: &Aging<'_, T>,
    path: TreePath,
    ages: &mut Vec<Option<Scope>>,
) -> Result<Judged, AllocError>
    requires named { (q : Path) → is_one_of aging.now.named.now.keys q
        ≡ (is_some (places (T.state aging.now.tree.now) q) && list_any (λ line. names line q) aging.now.table.now) }
    requires no_root { path ≢ [] }
    requires age { slice_get ages.old.items (length (parent_of path)) ≡ Some (scope aging.now.table.now (parent_of path)) }
    ensures judged { IfOk result (λ judged. judged
        ≡ judged_at aging.now.table.now aging.now.time (T.state aging.now.tree.now) path) }
    ensures noted { OnOk result (AreNoted aging.now.table.now (T.state aging.now.tree.now) path ages.old.items ages.new.items) }
{
    let around = age_at(ages, path.len().saturating_sub(1));
    if is_directory(aging.tree, &path) {
        ages.truncate(path.len());
        ages.push(scope_of(aging.table, &path))?;
    }
    let may_go = may_go(aging, around, &path);
    Ok(Judged { path, may_go })
}

/// Returns the age that is kept for a depth, if there is one.
fn age_at(ages: &Vec<Option<Scope>>, count: usize) -> Option<Scope>
    ensures { result ≡ unwrap_or (slice_get ages.now.items count) None }
{
    match ages.get(count) {
        Some(scope) => *scope,
        None => None,
    }
}

/// Returns whether a path below the root may go by itself: no line names it, and it is old by the age of its directory.
#[tactic(auto, using(crate::proofs::AgeLaws::one_may))]
fn may_go<T: Tree>(aging: &Aging<'_, T>, around: Option<Scope>, path: &TreePath) -> bool
    requires named { (q : Path) → is_one_of aging.now.named.now.keys q
        ≡ (is_some (places (T.state aging.now.tree.now) q) && list_any (λ line. names line q) aging.now.table.now) }
    requires no_root { path.now ≢ [] }
    requires scope { around ≡ scope aging.now.table.now (parent_of path.now) }
    ensures { result ≡ may_go aging.now.table.now aging.now.time (T.state aging.now.tree.now) path.now }
{
    !is_among(aging.named, path) && is_old_by(aging.tree, around, aging.time, path)
}

/// Returns whether the object at a path is old by an age. An age that spares the first level finds no direct child of
/// its directory old.
fn is_old_by<T: Tree>(tree: &T, scope: Option<Scope>, now: u64, path: &TreePath) -> bool
    ensures { result ≡ is_old_by scope now (places (T.state tree.now) path.now) }
{
    match scope {
        None => false,
        Some(scope) => match tree.look(path) {
            None => false,
            Some(node) => !(scope.age.spare_first && scope.own) && is_old(node, &scope.age, now),
        },
    }
}
