//! A run over any tree, which stops at the limit of its options.
ghost use Rattle.std.specs.Prelude.{◌≡◌, [], IfOk, IsErrOf};
ghost use Rattle.pv_steps.specs.Counting.{refused, faults_after};
ghost use Rattle.pv_steps.specs.declared.tree.TreeFault.TheVariants.{Failed};
ghost use Rattle.provision_run.specs.OverTree.{HasFailedBy, HasLeftBy, HasRunBy, outcome_of};

use crate::ending::RunEnd;
use crate::lent::Lent;
use crate::message::say_stopped;
use crate::outcome::Outcome;
use crate::run::run_on_tree;
use pv_steps::{Tree, TreeFault};
use pv_text::{Facts, Messages};
use pv_tree::Fused;
use pv_words::Options;
use std::alloc::Global;

/// Runs over a tree, and stops before the first step that the limit of the options does not allow.
pub(crate) fn run_limited<T: Tree>(
    alloc: Global,
    options: &Options,
    facts: &Facts,
    moment: u64,
    tree: &mut T,
    messages: &mut Messages,
) -> Result<Outcome, TreeFault>
    requires fresh { T.steps tree.old ≡ [] }
    requires messages_kept { messages.old ≡ [] }
    ensures run { IfOk result (λ found. HasRunBy options.entry.now facts.now moment (T.state tree.old) found messages.new (T.state tree.new) (T.steps tree.new)) }

    // A step failed, and not because of the limit.
    ensures failed { IsErrOf result Failed → HasFailedBy options.entry.now facts.now moment (T.state tree.old) messages.new (T.state tree.new) (T.steps tree.new) }

    // Whatever the answer, steps of the run lead to the tree that is left.
    ensures left { HasLeftBy options.entry.now facts.now moment (T.state tree.old) (T.state tree.new) (T.steps tree.new) }

    // The tree counted one error if a step failed so, otherwise none.
    ensures counted { T.faults tree.new ≡ faults_after (refused result) (T.faults tree.old) }

    ensures reaches { T.reaches tree.old tree.new }
{
    let mut fused = Fused::new(Lent::new(tree), options.stop_after);
    match run_on_tree(alloc, options, facts, moment, &mut fused, messages) {
        Ok(end) => Ok(outcome_of(end)),
        Err(TreeFault::Memory) => Err(TreeFault::Memory),
        Err(TreeFault::Failed) => match options.stop_after {
            Some(limit) if fused.stopped() => {
                say_stopped(alloc, limit, messages)?;
                Ok(Outcome::Stopped(limit))
            }
            _ => Err(TreeFault::Failed),
        },
    }
}

/// Returns the outcome of a run that was not stopped.
fn outcome_of(end: RunEnd) -> Outcome
    ensures { result ≡ outcome_of end }
{
    match end {
        RunEnd::Done => Outcome::Done,
        RunEnd::ConfigInvalid => Outcome::ConfigInvalid,
        RunEnd::NotCarriedOut => Outcome::NotCarriedOut,
        RunEnd::NoFreeId(name) => Outcome::NoFreeId(name),
    }
}
