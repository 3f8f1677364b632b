//! The steps of a clean phase.
ghost use Rattle.std.specs.Prelude.{◌≡◌, ℕ, List, ◌&&◌, not, length, unwrap_or, slice_get, reverse, if◌then◌else◌, [], ◌∷◌, ◌++◌, false, IfOk, OnOk};
ghost use Rattle.pv_lines.specs.declared.line.Line.{Line as LineValue};
ghost use Rattle.pv_steps.specs.Trees.{IsTree};
ghost use Rattle.pv_table.specs.Cleaned.{is_aged};
ghost use Rattle.pv_walk.specs.Removal.{removal_at};
ghost use Rattle.pv_clean.specs.Cleaning.{giving_back, ArePlanned};
ghost use Rattle.pv_clean.specs.Judging.{noted, AreJudged};

use crate::aging::Judged;
use pv_path::TreePath;
use pv_steps::{Step, Tree};
use pv_walk::removal;
use std::alloc::{AllocError, Global};

/// What is known of the children of directories, by the depth of the directory. These are the children that come after
/// a path in a list that has everything below a directory right after it.
#[derive(Drop)]
struct Levels {
    /// For each depth, whether one of these children stays.
    staying: Vec<bool>,
    /// For each depth, whether one of these children goes.
    going: Vec<bool>,
}

/// Returns the steps of a clean phase, for a list of what may go by its age.
///
/// An object is removed with everything below it. A directory that stays and loses a child gets its timestamps back.
/// Read from its end, the list is in post-order: the steps of the children of a directory are in byte order, each after
/// those of everything below it. The step of the directory comes last. No path is looked up to learn of its children,
/// since they were judged right before it.
pub(crate) fn clean_steps<T: Tree>(
    alloc: Global,
    tree: &T,
    judged: Vec<Judged>,
) -> Result<Vec<Step>, AllocError>
    requires { IsTree (T.state tree.now) }
    ensures { (lines : List LineValue) (now : ℕ) → AreJudged lines now (T.state tree.now) judged.items
        → IfOk result (λ steps. ArePlanned (is_aged lines now (T.state tree.now)) (T.state tree.now) steps.items) }
{
    let mut left = judged;
    let mut levels = Levels {
        staying: Vec::new(alloc),
        going: Vec::new(alloc),
    };
    let mut steps = Vec::new(alloc);
    while let Some(next) = left.pop() {
        add_step(tree, next, &mut levels, &mut steps)?;
    }
    steps.reverse();
    Ok(steps)
}

/// Adds the step at a path that goes or loses a child. Its children were judged before.
fn add_step<T: Tree>(
    tree: &T,
    next: Judged,
    levels: &mut Levels,
    steps: &mut Vec<Step>,
) -> Result<(), AllocError>
    ensures steps { OnOk result (steps.new.items ≡ steps.old.items
        ++ (if next.may_go && not (unwrap_or (slice_get levels.old.staying.items (length next.path)) false)
        then removal_at (T.state tree.now) next.path ∷ []
        else if unwrap_or (slice_get levels.old.going.items (length next.path)) false
        then giving_back (T.state tree.now) next.path ∷ [] else [])) }
    ensures staying { OnOk result ((k : ℕ) → unwrap_or (slice_get levels.new.staying.items k) false
        ≡ noted (length next.path) (not (next.may_go && not (unwrap_or (slice_get levels.old.staying.items (length next.path)) false)))
        (λ j. unwrap_or (slice_get levels.old.staying.items j) false) k) }
    ensures going { OnOk result ((k : ℕ) → unwrap_or (slice_get levels.new.going.items k) false
        ≡ noted (length next.path) (next.may_go && not (unwrap_or (slice_get levels.old.staying.items (length next.path)) false))
        (λ j. unwrap_or (slice_get levels.old.going.items j) false) k) }
{
    let Judged { path, may_go } = next;
    let count = path.len();
    let goes = may_go && !is_noted(&levels.staying, count);
    let loses = is_noted(&levels.going, count);
    note(&mut levels.staying, count, !goes)?;
    note(&mut levels.going, count, goes)?;
    add_due(tree, path, goes, loses, steps)
}

/// Adds the step at a path that goes or loses a child.
fn add_due<T: Tree>(
    tree: &T,
    path: TreePath,
    goes: bool,
    loses: bool,
    steps: &mut Vec<Step>,
) -> Result<(), AllocError>
    ensures { OnOk result (steps.new.items ≡ steps.old.items
        ++ (if goes then removal_at (T.state tree.now) path ∷ []
        else if loses then giving_back (T.state tree.now) path ∷ [] else [])) }
{
    if goes {
        steps.push(removal(tree, path))?;
    } else if loses {
        steps.push(giving_back(tree, path))?;
    }
    Ok(())
}

/// Returns whether something is noted for a depth.
fn is_noted(level: &Vec<bool>, count: usize) -> bool
    ensures { result ≡ unwrap_or (slice_get level.now.items count) false }
{
    match level.get(count) {
        Some(is) => *is,
        None => false,
    }
}

/// Notes something of a path of this depth for the depth of its directory, and forgets what is noted for larger depths.
fn note(level: &mut Vec<bool>, count: usize, is: bool) -> Result<(), AllocError>
    ensures { OnOk result ((k : ℕ) → unwrap_or (slice_get level.new.items k) false
        ≡ noted count is (λ j. unwrap_or (slice_get level.old.items j) false) k) }
{
    level.resize(count, false)?;
    if is && count > 0 {
        level[count - 1] = true;
    }
    Ok(())
}

/// Returns the step that gives a path the access and modification times that it has now (utimensat(2)). The call does
/// not allocate.
///
/// If the path is absent, the times are 0.
fn giving_back<T: Tree>(tree: &T, path: TreePath) -> Step
    ensures { result ≡ giving_back (T.state tree.now) path }
{
    let (access, modify) = match tree.look(&path) {
        Some(node) => (node.stamps.access, node.stamps.modify),
        None => (0, 0),
    };
    Step::SetStamps {
        path,
        access,
        modify,
    }
}
