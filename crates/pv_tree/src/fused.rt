//! A tree with a step limit.
ghost use Rattle.std.specs.Prelude.{◌≡◌, ◌≢◌, ℕ, ◌+◌, ◌<◌, ◌≤◌, ◌↔◌, IsTrue, List, [], ◌∷◌, ◌++◌, length, Some, OnOk, OnErr, IfOk, IsErrOf};
ghost use Rattle.std.specs.Option.{option_copied};
ghost use Rattle.pv_steps.specs.declared.node.Kind.TheVariants.{Directory, File, Link};
ghost use Rattle.pv_steps.specs.declared.tree.TreeFault.TheVariants.{Failed};
ghost use Rattle.pv_steps.specs.Trees.{places, IsKind, IsTree, node_at, payload_at, names_below};
ghost use Rattle.pv_steps.specs.Steps.{Can, StepFits, after};
ghost use Rattle.pv_steps.specs.Counting.{refused, faults_after};
ghost use Rattle.pv_tree.specs.Fuses.{Burnt, burnt_refl, burnt_trans, one_less, capped, refusals_after, last_refusal};
ghost use Rattle.std.proofs.Common.{arith};

use crate::apply::parts_fit;
use pv_path::{Name, NameList, TreePath};
use pv_steps::{Node, Step, Tree, TreeFault};
use std::alloc::{AllocError, Global};

/// A tree with a step limit: it lets a number of steps pass to the inner tree, and then refuses each further step with
/// `Failed`.
///
/// Its state and its list of recorded steps are those of the inner tree. For example, a tree with the limit 0
/// refuses every step.
#[derive(Drop)]
pub struct Fused<T> {
    inner: T,
    /// How many more steps may pass; `None` if there is no limit.
    left: Option<u64>,
    /// How many steps were refused because of the limit, up to the largest number.
    refused: u64,
}

impl<T: Tree> Fused<T> {
    /// Returns a tree that lets `limit` steps pass, or every step if `limit` is `None`. The call does not allocate.
    pub fn new(inner: T, limit: Option<u64>) -> Fused<T>
        ensures { result ≡ record { inner = inner; left = limit; refused = 0 } }
    {
        Fused {
            inner,
            left: limit,
            refused: 0,
        }
    }

    /// Returns whether a step was refused because of the limit. A step that the inner tree refused does not count. The
    /// call does not allocate.
    pub fn stopped(&self) -> bool
        ensures { IsTrue result ↔ (0 < self.now.refused) }
    {
        self.refused > 0
    }

    /// Returns the inner tree by reference. The call does not allocate.
    pub fn inner(&self) -> &T
        ensures { result.now ≡ self.now.inner }
    {
        &self.inner
    }

    /// Returns the inner tree by value, without the limit. The call does not allocate.
    pub fn into_inner(self) -> T
        ensures { result ≡ self.inner }
    {
        let Fused {
            inner,
            left: _,
            refused: _,
        } = self;
        inner
    }
}

impl<T: Tree> Tree for Fused<T> {
    ghost state = { λ f. T.state f.inner };

    ghost steps = { λ f. T.steps f.inner };

    ghost faults = { λ f. capped (T.faults f.inner + f.refused) };

    ghost refused_at = { λ f. last_refusal f.left (length (T.steps f.inner)) (T.refused_at f.inner) };

    ghost reaches = { λ f g. T.reaches f.inner g.inner
        × Burnt f.left f.refused (length (T.steps f.inner)) g.left g.refused (length (T.steps g.inner)) };

    fn look(&self, path: &TreePath) -> Option<&Node> {
        self.inner.look(path)
    }

    fn look_along(&self, alloc: Global, path: &TreePath) -> Result<Vec<&Node>, AllocError> {
        self.inner.look_along(alloc, path)
    }

    fn has_beside(&self, path: &TreePath, names: &[Name]) -> bool {
        self.inner.has_beside(path, names)
    }

    fn list(&self, alloc: Global, path: &TreePath) -> Result<NameList, AllocError> {
        self.inner.list(alloc, path)
    }

    fn at_and_below(&self, alloc: Global, path: &TreePath) -> Result<Vec<TreePath>, AllocError> {
        self.inner.at_and_below(alloc, path)
    }

    fn bytes(&self, path: &TreePath) -> &[u8] {
        self.inner.bytes(path)
    }

    fn target(&self, path: &TreePath) -> &[u8] {
        self.inner.target(path)
    }

    fn step(&mut self, step: &Step, now: u64) -> Result<(), TreeFault>
        requires { Can (places (T.state self.old.inner)) step.now }
        ensures state { OnOk result (T.state self.new.inner ≡ after (T.state self.old.inner) step.now now) }
        ensures recorded { OnOk result (T.steps self.new.inner ≡ T.steps self.old.inner ++ step.now ∷ []) }
        ensures kept { OnErr result (T.state self.new.inner ≡ T.state self.old.inner) }
        ensures unrecorded { OnErr result (T.steps self.new.inner ≡ T.steps self.old.inner) }
        ensures fits { StepFits step.now }
        ensures reaches { T.reaches self.old.inner self.new.inner
            × Burnt self.old.left self.old.refused (length (T.steps self.old.inner))
            self.new.left self.new.refused (length (T.steps self.new.inner)) }
        ensures counted { capped (T.faults self.new.inner + self.new.refused)
            ≡ faults_after (refused result) (capped (T.faults self.old.inner + self.old.refused)) }
        ensures last { IsErrOf result Failed →
            last_refusal self.new.left (length (T.steps self.new.inner)) (T.refused_at self.new.inner) ≡ length (T.steps self.new.inner) }

        // If nothing is left of the limit, the step is refused and the inner tree is not asked.
        ensures refused { self.old.left ≡ Some 0 → (result ≡ Err Failed) × (self.new.inner ≡ self.old.inner) }
        ensures refusals { self.new.refused ≡ refusals_after self.old.left self.old.refused }

        // Otherwise the step fails only if it fails on the inner tree.
        ensures passed { self.old.left ≢ Some 0 →
            T.faults self.new.inner ≡ faults_after (refused result) (T.faults self.old.inner) }

        // Only a step that succeeds uses up the limit.
        ensures used { OnOk result (self.new.left ≡ one_less self.old.left) }
        ensures unused { OnErr result (self.new.left ≡ self.old.left) }
    {
        match self.left {
            Some(0) => {
                parts_fit(step);
                self.refused = self.refused.saturating_add(1);
                Err(TreeFault::Failed)
            }
            Some(left) => {
                self.inner.step(step, now)?;
                self.left = Some(left - 1);
                Ok(())
            }
            None => self.inner.step(step, now),
        }
    }

    ghost reaches_self = { λ f. (T.reaches_self f.inner, burnt_refl _ _ _) };

    ghost reaches_on = { λ _ _ _ p q. (T.reaches_on _ _ _ p.0 q.0, burnt_trans _ _ _ _ _ _ _ _ _ p.1 q.1) };

    ghost is_tree = { λ f. T.is_tree f.inner };

    ghost never_falls = { λ _ _ p. Prim.omega (arith, T.never_falls _ _ p.0, p.1.refusals) };
}
