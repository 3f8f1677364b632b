//! A run over any tree, as its options ask.
ghost use Rattle.std.specs.Prelude.{◌≡◌, OnOk, IfOk, IsErrOf};
ghost use Rattle.pv_steps.specs.declared.tree.TreeFault.TheVariants.{Failed};
ghost use Rattle.pv_steps.specs.Acting.{Acted, steps_done};
ghost use Rattle.provision_run.specs.Tasks.{task_of};
ghost use Rattle.provision_run.specs.Framed.{IsFramedIn};
ghost use Rattle.provision_run.specs.OnTheWay.{IsOnTheWayIn};
ghost use Rattle.provision_run.specs.Swept.{IsSweptIn};
ghost use Rattle.provision_run.specs.Whole.{final, HasMessagesBy, HasMessagesPartBy, HasGoneBy, RecoversAnewIn, RecoversIn, is_run_step, run_end, run_way, run_work};

use crate::accounting::make_accounts;
use crate::configured_phases::run_configured_phases;
use crate::ending::RunEnd;
use crate::explaining::explain_run;
use crate::reporting::report_run;
use crate::task::{Task, task_of};
use pv_steps::{Tree, TreeFault};
use pv_text::{Facts, Messages};
use pv_words::Options;
use std::alloc::Global;

/// Reads the configuration of a tree and does what the options ask for.
///
/// For systemd-tmpfiles(8) these are the phases removing, cleaning and creating, in this order, or purging alone. A
/// report and the explanation of a path do no step. For systemd-sysusers(8) it makes users and groups.
///
/// - `facts` has the values of specifiers, such as that of `%m`.
/// - `moment` is the time of the run, in microseconds since 1970-01-01 UTC.
/// - `messages` gets the messages on reading the configuration, and then those of the task.
/// - The limit `--stop-after` and the time `--now` of the options are not used here.
///
/// The answer is one of these:
///
/// - `Ok(end)`: the run is complete, and `end` says whether everything was carried out.
/// - `Err(Failed)`: the tree refused a step, and none was done after it. The configuration was read. What comes before
///   the phase or line that met the error is finished, and what comes after it has not begun.
/// - `Err(Memory)`: out of memory.
///
/// After an error, the messages that were added are a prefix of those of a complete run.
///
/// A stopped run of one phase other than cleaning, of the boot command or of accounts recovers, under premises on
/// hazards and refused lines. This holds even if the second run reads its lines from the tree that was left.
pub fn run_on_tree<T: Tree>(
    alloc: Global,
    options: &Options,
    facts: &Facts,
    moment: u64,
    tree: &mut T,
    messages: &mut Messages,
) -> Result<RunEnd, TreeFault>
    // The tree that a complete run leaves, timestamps and staging names included, its messages and its answer.
    ensures ok { OnOk result (T.state tree.new ≡ final options.entry.now facts.now moment (T.state tree.old)) }
    ensures new_messages { OnOk result (HasMessagesBy (task_of options.entry.now) options.entry.now facts.now moment (T.state tree.old) messages.old messages.new) }
    ensures end { IfOk result (λ end. end ≡ run_end options.entry.now facts.now moment (T.state tree.old)) }
    // Nothing is left at the staging names of what it made, whatever earlier runs have left there.
    ensures staged { OnOk result (IsSweptIn (task_of options.entry.now) options.entry.now facts.now moment (T.state tree.old) (T.state tree.new)) }

    // The messages and steps of every run, whatever the answer.
    ensures part { HasMessagesPartBy (task_of options.entry.now) options.entry.now facts.now moment (T.state tree.old) messages.old messages.new }
    // If a step was refused, the configuration was read and all its messages were added. The phases and the lines
    // before the unfinished one are finished, and those after it have not begun. The same holds for Ok, with no step
    // refused.
    ensures read { IsErrOf result Failed → HasGoneBy (task_of options.entry.now) options.entry.now facts.now moment 1 (T.state tree.old)
        (steps_done T.Tree tree.old tree.new) messages.old messages.new }
    ensures in_turn { OnOk result (HasGoneBy (task_of options.entry.now) options.entry.now facts.now moment 0 (T.state tree.old)
        (steps_done T.Tree tree.old tree.new) messages.old messages.new) }
    ensures acted { Acted T.Tree
        (run_way options.entry.now facts.now moment (T.state tree.old))
        (is_run_step options.entry.now facts.now moment (T.state tree.old))
        (run_work options.entry.now facts.now moment (T.state tree.old))
        moment tree.old tree.new result }

    // Crash safety of a run of one phase, of the boot command, and of a run that makes accounts.
    ensures recovers { RecoversIn (task_of options.entry.now) options.entry.now facts.now moment (T.state tree.old)
        (steps_done T.Tree tree.old tree.new) }
    // Crash safety if the second run reads its lines from the tree that was left.
    ensures anew { RecoversAnewIn (task_of options.entry.now) options.entry.now facts.now moment (T.state tree.old)
        (steps_done T.Tree tree.old tree.new) }

    // What is as it was at each moment, whatever the answer.
    ensures framed { IsFramedIn (task_of options.entry.now) options.entry.now facts.now moment (T.state tree.old)
        (steps_done T.Tree tree.old tree.new) }
    // What creating, alone or in the boot command, leaves at each moment, and what each step gives.
    ensures between { IsOnTheWayIn (task_of options.entry.now) options.entry.now facts.now moment (T.state tree.old)
        (steps_done T.Tree tree.old tree.new) }
{
    match task_of(options) {
        Task::Phases => run_configured_phases(alloc, options, facts, moment, tree, messages),
        Task::Report => Ok(report_run(alloc, options, facts, tree, messages)?),
        Task::Explain => Ok(explain_run(alloc, options, facts, tree, messages)?),
        Task::Accounts => make_accounts(alloc, options, facts, moment, tree, messages),
    }
}
