//! What a line makes or copies, put at a path.
ghost use Rattle.std.specs.Prelude.{◌≡◌};
ghost use Rattle.pv_steps.specs.Trees.{IsTree};
ghost use Rattle.pv_table.specs.Turns.{Turn, decide, view_of};
ghost use Rattle.pv_create.specs.Deciding.{subtree_of};
ghost use Rattle.pv_create.specs.Actions.{IsAction, IsReady};
ghost use Rattle.pv_create.specs.Turning.{Settles};

use crate::line_at::LineAt;
use pv_steps::{Tree, TreeFault, is_directory};
use pv_table::Action;
use pv_walk::{copy_over, put_over};
use std::alloc::Global;

/// Puts what a line makes or copies at a path that is ready, in place of everything at and below it.
pub(crate) fn put<T: Tree>(alloc: Global, tree: &mut T, at: &LineAt<'_>) -> Result<(), TreeFault>
    requires action { IsAction at.now.path.now at.now.action.now }
    requires ready { IsReady at.now.action.now at.now.path.now (T.state tree.old) }
    requires tree { IsTree (T.state tree.old) }
    requires turn { decide at.now.action.now (view_of (T.state tree.old)) at.now.path.now
        ≡ Turn.Put (subtree_of at.now.action.now (view_of (T.state tree.old))) }
    ensures { let turn = Turn.Put (subtree_of at.entry.now.action.now (view_of (T.state tree.old))) in
        Settles T.Tree at.entry.now.now at.entry.now.action.now at.entry.now.path.now turn tree.old tree.new result }
{
    match at.action {
        Action::Create(making) => put_over(alloc, tree, at.path, &making.new, at.now),
        Action::Copy(copying) => {
            let top = copying.top(is_directory(tree, &copying.source));
            copy_over(alloc, tree, &copying.source, at.path, &top, at.now)
        }
        Action::Adjust(_) | Action::Idle => unreachable!(),
    }
}
