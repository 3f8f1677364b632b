//! Trees that can be read and changed: what a caller may ask of one, and why a step is not done.
ghost use Rattle.std.specs.Prelude.{◌≡◌, ℕ, ◌+◌, ◌∷◌, ◌++◌, [], ◌≤◌, List, length, filter, take, slice_get, Some, is_some, IfOk, OnOk, OnErr, IsErrOf};
ghost use Rattle.std.specs.List.{list_any};
ghost use Rattle.std.specs.Option.{option_copied};
ghost use Rattle.std.specs.FinMap as fin;
ghost use Rattle.pv_path.specs.Paths.{is_prefix};
ghost use Rattle.pv_steps.specs.declared.step.Step.{Step as StepValue};
ghost use Rattle.pv_steps.specs.declared.tree.TreeFault.TheVariants.{Failed, Memory};
ghost use Rattle.pv_steps.specs.declared.node.Kind.TheVariants.{Directory, File, Link};
ghost use Rattle.pv_steps.specs.Trees.{Files, places, IsKind, IsTree, node_at, payload_at, names_below, beside};
ghost use Rattle.pv_steps.specs.Steps.{Can, StepFits, after};
ghost use Rattle.pv_steps.specs.Counting.{refused, faults_after};

use crate::node::Node;
use crate::step::Step;
use pv_path::{Name, NameList, TreePath};
use std::alloc::{AllocError, AllocFailed, Global};
use thiserror::Error;

/// Why a step was not done.
#[derive(Clone, Copy, Debug, PartialEq, Eq, Error)]
pub enum TreeFault {
    /// The tree could not do the step, or refused it. Its count of faults rose by one, up to the largest number.
    #[error("Failed")]
    Failed,
    /// Memory ran out. The count of faults did not change.
    #[error("Memory")]
    Memory,
}

impl From<AllocError> for TreeFault {
    ghost from_gives = { λ _ e. e ≡ Memory };

    fn from(_e: AllocError) -> TreeFault {
        TreeFault::Memory
    }
}

impl<T: Drop> From<AllocFailed<T>> for TreeFault {
    ghost from_gives = { λ _ e. e ≡ Memory };

    fn from(_e: AllocFailed<T>) -> TreeFault {
        TreeFault::Memory
    }
}

/// A file tree that can be read, and changed step by step.
///
/// In contracts, a tree has a state, which is the object at each path. It also has the list of the steps recorded
/// since it was made, and a count of faults that never falls.
pub trait Tree {
    /// The state: the object at each path.
    ghost state: { Self → Files };

    /// The steps recorded since the tree was made, in order.
    ghost steps: { Self → List StepValue };

    /// The count of faults. A step that the tree refuses adds one, up to the largest number.
    ghost faults: { Self → ℕ };

    /// The number of the steps that were recorded when the tree last refused one.
    ghost refused_at: { Self → ℕ };

    /// Relates a tree to the same tree after any number of calls.
    ghost reaches: { Self → Self → Type 0 };

    /// Returns the node of the object at a path, or `None` if the path is absent. The call does not follow links, and
    /// does not allocate.
    fn look(&self, path: &TreePath) -> Option<&Node>
        ensures node { option_copied result ≡ node_at (state self.now) path.now }
        ensures tree { IsTree (state self.now) };

    /// Returns the nodes of the objects along a path: at index `k` the node at its first `k` names, where 0 is the root.
    ///
    /// The list ends before the first of them that is absent. One call takes about as long as one `look` at the whole
    /// path. The call does not follow links. The only error is `AllocError`.
    ///
    /// For example, if `/run` is present and `/run/app` is absent, the answer for `/run/app/x` is the nodes of the root
    /// and of `/run`.
    fn look_along(&self, alloc: Global, path: &TreePath) -> Result<Vec<&Node>, AllocError>
        ensures nodes { IfOk result (λ nodes. (k : ℕ) → k ≤ length path.now
            → option_copied (slice_get nodes.items k) ≡ node_at (state self.now) (take k path.now)) }
        ensures length { IfOk result (λ nodes. length nodes.items ≤ length path.now + 1) };

    /// Returns whether one of the directories along a path has an entry with the name that is given for it.
    ///
    /// The name at index `k` is sought in the directory at the first `k` names of the path. The directory at the whole
    /// path is not asked. One call takes about as long as one `look` at the path. The call does not allocate.
    ///
    /// For example, for the path `/run/app` and the names `a` and `b` the answer says whether `/a` or `/run/b` is
    /// present.
    fn has_beside(&self, path: &TreePath, names: &[Name]) -> bool
        ensures present { result ≡ list_any (λ p. is_some (places (state self.now) p)) (beside path.now names.now) };

    /// Returns the names in the directory at a path, in byte order, without `.` and `..`. At the path there must be a
    /// directory. The only error is `AllocError`.
    fn list(&self, alloc: Global, path: &TreePath) -> Result<NameList, AllocError>
        requires { IsKind Directory (state self.now) path.now }
        ensures names { IfOk result (λ names. names ≡ names_below (state self.now) path.now) };

    /// Returns the paths of all objects at and below a path, in byte order. So a directory comes before what is in it.
    ///
    /// The list is empty if the path is absent. For the trees of this library, time grows with the number of names in
    /// the path and in the listed paths. The call does not follow links. The only error is `AllocError`.
    ///
    /// For example, if `/run` has only the directory `app` with the file `x`, the answer for `/run` is `/run`,
    /// `/run/app` and `/run/app/x`.
    fn at_and_below(&self, alloc: Global, path: &TreePath) -> Result<Vec<TreePath>, AllocError>
        ensures paths { IfOk result (λ paths. paths.items ≡ filter (is_prefix path.now) (fin.keys (state self.now))) };

    /// Returns the bytes of the file at a path, at which there must be a regular file. The call does not allocate.
    fn bytes(&self, path: &TreePath) -> &[u8]
        requires { IsKind File (state self.now) path.now }
        ensures content { Some result.now ≡ payload_at (state self.now) path.now };

    /// Returns the target of the link at a path, at which there must be a symbolic link. The call does not allocate.
    fn target(&self, path: &TreePath) -> &[u8]
        requires { IsKind Link (state self.now) path.now }
        ensures target { Some result.now ≡ payload_at (state self.now) path.now };

    /// Does one step, which must be possible on this tree (definition `Can`), and adds it to the list of recorded
    /// steps.
    ///
    /// `now` is the time of the step in microseconds since 1970-01-01 UTC: timestamps that the step changes get
    /// this value.
    ///
    /// Returns `Failed` if the tree refuses the step although it is possible, for example at a step limit, or because a
    /// host cannot carry it out. Then the count of faults rises by one, up to the largest number. Returns `Memory` if
    /// memory ran out. After an error, the state and the list of steps are as before.
    fn step(&mut self, step: &Step, now: u64) -> Result<(), TreeFault>
        requires { Can (places (state self.old)) step.now }
        ensures state { OnOk result (state self.new ≡ after (state self.old) step.now now) }
        ensures recorded { OnOk result (steps self.new ≡ steps self.old ++ step.now ∷ []) }
        ensures kept { OnErr result (state self.new ≡ state self.old) }
        ensures unrecorded { OnErr result (steps self.new ≡ steps self.old) }

        // What the types of the step's parts say.
        ensures fits { StepFits step.now }

        ensures reaches { reaches self.old self.new }

        // It counts one fault where it refuses the step, otherwise none.
        ensures counted { faults self.new ≡ faults_after (refused result) (faults self.old) }

        // A step that it refuses comes after all that were done.
        ensures last { IsErrOf result Failed → refused_at self.new ≡ length (steps self.new) };

    /// A tree is related to itself.
    ghost reaches_self: { (a : Self) → reaches a a };

    /// The relation holds over two groups of calls if it holds over each of them.
    ghost reaches_on: { (a b c : Self) → reaches a b → reaches b c → reaches a c };

    // Its state is a tree.
    ghost is_tree: { (a : Self) → IsTree (state a) };

    // The count of faults never falls.
    ghost never_falls: { (a b : Self) → reaches a b → faults a ≤ faults b };
}
