//! Steps done on a tree: one step, or a list of steps.
ghost use Rattle.std.specs.Prelude.{reverse};
ghost use Rattle.pv_steps.specs.Trees.{places};
ghost use Rattle.pv_steps.specs.Steps.{Can};
ghost use Rattle.pv_steps.specs.Acting.{Tried};
ghost use Rattle.pv_steps.specs.Trying.{CanAll, TriedAll};

use crate::step::Step;
use crate::tree::{Tree, TreeFault};

/// Does one step on a tree and records it. If the step fails, the state of the tree is as before.
///
/// `now` is the time of the step in microseconds since 1970-01-01 UTC: timestamps that the step changes get this value.
/// The step must be possible on this tree (definition `Can`).
///
/// Returns `Failed` if the tree refuses the step although it is possible, for example at a step limit, or because a
/// host cannot carry it out. Then the tree's count of faults rises by one, up to the largest number. Returns `Memory`
/// if memory ran out. After an error the list of recorded steps is as before, too.
pub fn try_step<T: Tree>(tree: &mut T, step: Step, now: u64) -> Result<(), TreeFault>
    requires { Can (places (T.state tree.old)) step }
    ensures { Tried T.Tree step now tree.old tree.new result }
{
    tree.step(&step, now)
}

/// Does the steps of a list on a tree, the last one of the list first, and stops at the first step that fails.
///
/// `now` is the time of all these steps in microseconds since 1970-01-01 UTC. Each step must be possible once all steps
/// that come after it in the list are done (definition `CanAll`).
///
/// The steps before the failed one stay done and recorded. The failed step and those that were to be done after it are
/// neither done nor recorded.
///
/// The errors are those of `try_step`. A tree counts one fault if it refused a step (`Failed`), otherwise none.
pub fn try_all<T: Tree>(tree: &mut T, steps: Vec<Step>, now: u64) -> Result<(), TreeFault>
    requires { CanAll (T.state tree.old) (reverse steps.items) now }
    ensures { TriedAll T.Tree (reverse steps.items) now tree.old tree.new result }
{
    let mut left = steps;
    while let Some(step) = left.pop() {
        try_step(tree, step, now)?;
    }
    Ok(())
}
