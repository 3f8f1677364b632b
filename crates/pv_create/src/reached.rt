//! Adjusting of everything that a line reaches from a path.
ghost use Rattle.std.specs.Prelude.{◌≡◌, ◌&&◌, ◌∷◌, [], not, IfOk, OnOk, IsSorted};
ghost use Rattle.pv_path.specs.Paths.{path_cmp, has_staging};
ghost use Rattle.pv_steps.specs.Acting.{Acted};
ghost use Rattle.pv_steps.specs.Trees.{IsPresent};
ghost use Rattle.pv_table.specs.Created.{adjust_work};
ghost use Rattle.pv_table.specs.Effects.{is_adjusted, adjust_at};
ghost use Rattle.pv_create.specs.Reached.{AdjustingInOrder, GivesReached, IsReached};
ghost use Rattle.pv_create.specs.Sets.{AreSets};

use crate::object::adjust;
use pv_path::{TreePath, has_staging};
use pv_steps::{Tree, TreeFault};
use pv_table::Adjustment;
use std::alloc::{AllocError, Global};

/// Adjusts the object at a path, and for a recursive line everything below it, except staging names (tmpfiles.d(5), Z,
/// A, T and H).
///
/// The path comes first, then its children in byte order, each with everything below it.
pub(crate) fn adjust_reached<T: Tree>(
    alloc: Global,
    tree: &mut T,
    adjustment: &Adjustment,
    path: &TreePath,
    now: u64,
) -> Result<(), TreeFault>
    requires present { IsPresent (T.state tree.old) path.now }
    requires sets { AreSets adjustment.now.sets }
    ensures ok { OnOk result (T.state tree.new ≡ adjust_at now adjustment.now path.now (T.state tree.old)) }
    // Whatever the answer, the objects before an unfinished one have all that is set, and those after it are unchanged.
    ensures acted { Acted T.Tree (AdjustingInOrder adjustment.now path.now (T.state tree.old))
        (GivesReached adjustment.now path.now (T.state tree.old))
        (adjust_work adjustment.now path.now (T.state tree.old)) now tree.old tree.new result }
{
    if adjustment.deep {
        adjust_each(alloc, tree, adjustment, path, now)
    } else {
        adjust(alloc, tree, path, adjustment.sets.as_slice(), now)
    }
}

/// Adjusts the object at each path that a line reaches from one path, in their order.
fn adjust_each<T: Tree>(
    alloc: Global,
    tree: &mut T,
    adjustment: &Adjustment,
    path: &TreePath,
    now: u64,
) -> Result<(), TreeFault>
    requires present { IsPresent (T.state tree.old) path.now }
    requires sets { AreSets adjustment.now.sets }
    ensures ok { OnOk result (T.state tree.new ≡ adjust_at now adjustment.now path.now (T.state tree.old)) }
    ensures acted { Acted T.Tree (AdjustingInOrder adjustment.now path.now (T.state tree.old))
        (GivesReached adjustment.now path.now (T.state tree.old))
        (adjust_work adjustment.now path.now (T.state tree.old)) now tree.old tree.new result }
{
    let paths = reached_paths(alloc, tree, adjustment, path)?;
    for at in paths {
        adjust(alloc, tree, &at, adjustment.sets.as_slice(), now)?;
    }
    Ok(())
}

/// Returns the present paths that a line reaches from one path, in byte order.
fn reached_paths<T: Tree>(
    alloc: Global,
    tree: &T,
    adjustment: &Adjustment,
    path: &TreePath,
) -> Result<Vec<TreePath>, AllocError>
    requires { IsPresent (T.state tree.now) path.now }
    ensures reached { IfOk result (λ paths. IsReached adjustment.now path.now (T.state tree.now) paths.items) }
    ensures order { IfOk result (λ paths. IsSorted path_cmp paths.items) }
{
    if !goes_below(adjustment, path) {
        return only(alloc, path);
    }
    let mut paths = tree.at_and_below(alloc, path)?;
    paths.retain(|at| !has_staging(at));
    Ok(paths)
}

/// Returns whether a line may reach something below a path. It reaches no path there that has a staging name. If the
/// path itself has one, each path below has it too.
fn goes_below(adjustment: &Adjustment, path: &TreePath) -> bool
    ensures { result ≡ (adjustment.now.deep && not (has_staging path.now)) }
{
    adjustment.deep && !has_staging(path)
}

/// Returns a list of one path.
fn only(alloc: Global, path: &TreePath) -> Result<Vec<TreePath>, AllocError>
    ensures { IfOk result (λ paths. paths.items ≡ path.now ∷ []) }
{
    let mut paths = Vec::new(alloc);
    paths.push(path.copy()?)?;
    Ok(paths)
}
