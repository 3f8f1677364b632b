//! The plan of a phase that removes, and how it is carried out.
ghost use Rattle.std.specs.Prelude.{◌≡◌};
ghost use Rattle.pv_path.specs.Paths.{Path};
ghost use Rattle.pv_walk.specs.Removal.{is_one_of};
ghost use Rattle.pv_walk.specs.Whole.{goes_whole};
ghost use Rattle.pv_remove.specs.Ended.{TakesAway};

use crate::taking_away::take_away;
use pv_steps::{Carried, Tree, TreeFault};
use pv_text::{Messages, say_all};
use pv_walk::PathSet;
use std::alloc::Global;

/// What a phase is to remove, and its messages. All of it is decided from the tree as it is before the phase.
#[derive(Drop)]
pub(crate) struct Plan {
    /// The paths that go. With each of them goes everything below it.
    pub(crate) paths: PathSet,
    /// The messages that are added after the steps.
    pub(crate) new_messages: Messages,
    /// Whether something is left unfinished.
    pub(crate) unfinished: bool,
}

/// Removes what is to go, and then adds the messages.
pub(crate) fn apply_plan<T: Tree>(
    alloc: Global,
    tree: &mut T,
    plan: Plan,
    now: u64,
    messages: &mut Messages,
) -> Result<Carried, TreeFault>
    requires whole { (q : Path) → is_one_of plan.paths q ≡ goes_whole (is_one_of plan.paths) (T.state tree.old) q }
    ensures { TakesAway T.Tree (is_one_of plan.paths) plan.new_messages plan.unfinished now tree.old tree.new
        messages.old messages.new result }
{
    let Plan {
        paths,
        new_messages,
        unfinished,
    } = plan;
    take_away(alloc, tree, paths, now)?;
    say_all(&new_messages, messages)?;
    Ok(Carried::of(unfinished))
}
