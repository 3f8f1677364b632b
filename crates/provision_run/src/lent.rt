//! A tree behind a reference, as a tree.
ghost use Rattle.std.specs.Prelude.{◌≡◌};
ghost use Rattle.provision_run.specs.Lending.{HaveCounted, counted_none, counted_on, one_name, same_name};
ghost use Rattle.std.proofs.Common.{arith};

use pv_path::{Name, NameList, TreePath};
use pv_steps::{Node, Step, Tree, TreeFault};
use std::alloc::{AllocError, Global};

/// A tree that is borrowed. Each call is passed on to the lender, and refused steps are counted here too.
#[derive(Drop)]
pub(crate) struct Lent<'a, T: Tree> {
    tree: &'a mut T,
    failed: u64,
}

impl<'a, T: Tree> Lent<'a, T> {
    /// Borrows a tree. No step was refused yet.
    pub(crate) fn new(tree: &'a mut T) -> Lent<'a, T>
        ensures same { result.tree.ghost_name ≡ tree.entry.ghost_name }
        ensures now { result.tree.now ≡ tree.old }
        ensures none { result.failed ≡ 0 }
    {
        Lent { tree, failed: 0 }
    }
}

impl<'a, T: Tree> Tree for Lent<'a, T> {
    ghost state = { λ l. T.state l.tree.now };

    ghost steps = { λ l. T.steps l.tree.now };

    ghost faults = { λ l. l.failed };

    ghost refused_at = { λ l. T.refused_at l.tree.now };

    ghost reaches = { λ a b. (b.tree.ghost_name ≡ a.tree.ghost_name) × (T.reaches a.tree.now b.tree.now
        × HaveCounted (T.faults a.tree.now) (T.faults b.tree.now) a.failed b.failed) };

    fn look(&self, path: &TreePath) -> Option<&Node> {
        self.tree.look(path)
    }

    fn look_along(&self, alloc: Global, path: &TreePath) -> Result<Vec<&Node>, AllocError> {
        self.tree.look_along(alloc, path)
    }

    fn has_beside(&self, path: &TreePath, names: &[Name]) -> bool {
        self.tree.has_beside(path, names)
    }

    fn list(&self, alloc: Global, path: &TreePath) -> Result<NameList, AllocError> {
        self.tree.list(alloc, path)
    }

    fn at_and_below(&self, alloc: Global, path: &TreePath) -> Result<Vec<TreePath>, AllocError> {
        self.tree.at_and_below(alloc, path)
    }

    fn bytes(&self, path: &TreePath) -> &[u8] {
        self.tree.bytes(path)
    }

    fn target(&self, path: &TreePath) -> &[u8] {
        self.tree.target(path)
    }

    fn step(&mut self, step: &Step, now: u64) -> Result<(), TreeFault> {
        match self.tree.step(step, now) {
            Ok(()) => Ok(()),
            Err(TreeFault::Memory) => Err(TreeFault::Memory),
            Err(TreeFault::Failed) => {
                self.failed = self.failed.saturating_add(1);
                Err(TreeFault::Failed)
            }
        }
    }

    ghost reaches_self = { λ a. (same_name _, (T.reaches_self a.tree.now, counted_none _ _)) };

    ghost reaches_on = { λ a b c p q. (
      one_name _ _ _ p.0 q.0,
      (
        T.reaches_on a.tree.now b.tree.now c.tree.now p.1.0 q.1.0,
        counted_on _ _ _ _ _ _ p.1.1 q.1.1,
      ),
    ) };

    ghost is_tree = { λ l. T.is_tree l.tree.now };

    ghost never_falls = { λ a b p. p.1.1.rises };
}
