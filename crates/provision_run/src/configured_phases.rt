//! A run that carries out lines: reading, then the phases that are asked for.
ghost use Rattle.std.specs.Prelude.{◌≡◌, ◌++◌, OnOk, IfOk, IsErrOf};
ghost use Rattle.pv_text.specs.GivenMessages.{MessagesPart};
ghost use Rattle.pv_steps.specs.declared.tree.TreeFault.TheVariants.{Failed};
ghost use Rattle.pv_steps.specs.Acting.{Acted, steps_done};
ghost use Rattle.pv_create.specs.OnTheWay.{IsFramed};
ghost use Rattle.pv_steps.specs.Courses.{HasGone};
ghost use Rattle.provision_run.specs.PhasesOnTheWay.{GiveBy, IsBetweenBy};
ghost use Rattle.provision_run.specs.Phases.{RecoversBy, phases_of};
ghost use Rattle.provision_run.specs.PhasesSwept.{IsSweptBy};
ghost use Rattle.provision_run.specs.Rereading.{RecoversAnew, IsReread};
ghost use Rattle.provision_run.specs.Phased.{is_phases_step, lines_messages, phase_messages, phased, phases_cut, phases_end, phases_way, phases_work, run_lines};

use crate::ending::{RunEnd, end_of};
use crate::phase::{phases_of, run_phases};
use crate::run_input::read_run;
use pv_steps::{Tree, TreeFault};
use pv_text::{Facts, Messages};
use pv_words::Options;
use std::alloc::Global;

/// Reads the configuration of a tree, and carries out the phases that the options ask for (systemd-tmpfiles(8)). These
/// are removing, cleaning and creating, in this order, or purging alone.
pub(crate) fn run_configured_phases<T: Tree>(
    alloc: Global,
    options: &Options,
    facts: &Facts,
    moment: u64,
    tree: &mut T,
    messages: &mut Messages,
) -> Result<RunEnd, TreeFault>
    ensures ok { OnOk result (T.state tree.new ≡ phased options.entry.now facts.now moment (T.state tree.old)) }
    ensures new_messages { OnOk result (messages.new
        ≡ messages.old ++ lines_messages options.entry.now facts.now (T.state tree.old) ++ phase_messages options.entry.now facts.now moment (T.state tree.old)) }
    ensures end { IfOk result (λ end. end ≡ phases_end options.entry.now facts.now moment (T.state tree.old)) }
    ensures staged { OnOk result (IsSweptBy (phases_of options.entry.now) (run_lines options.entry.now facts.now (T.state tree.old)) moment
        (T.state tree.old) (T.state tree.new)) }
    ensures part { MessagesPart
        (lines_messages options.entry.now facts.now (T.state tree.old) ++ phase_messages options.entry.now facts.now moment (T.state tree.old))
        messages.old messages.new }
    ensures stopped { IsErrOf result Failed → HasGone T.Tree (phases_cut options.entry.now facts.now moment 1 (T.state tree.old)) moment
        tree.old tree.new (messages.old ++ lines_messages options.entry.now facts.now (T.state tree.old)) messages.new }
    ensures in_turn { OnOk result (HasGone T.Tree (phases_cut options.entry.now facts.now moment 0 (T.state tree.old)) moment
        tree.old tree.new (messages.old ++ lines_messages options.entry.now facts.now (T.state tree.old)) messages.new) }
    ensures acted { Acted T.Tree
        (phases_way options.entry.now facts.now moment (T.state tree.old))
        (is_phases_step options.entry.now facts.now moment (T.state tree.old))
        (phases_work options.entry.now facts.now moment (T.state tree.old))
        moment tree.old tree.new result }
    ensures recovers { RecoversBy (phases_of options.entry.now) (run_lines options.entry.now facts.now (T.state tree.old)) moment (T.state tree.old)
        (steps_done T.Tree tree.old tree.new) }
    ensures reread { IsReread options.entry.now facts.now moment (T.state tree.old)
        (steps_done T.Tree tree.old tree.new) }
    ensures anew { RecoversAnew options.entry.now facts.now moment (T.state tree.old)
        (steps_done T.Tree tree.old tree.new) }
    ensures framed { IsFramed (run_lines options.entry.now facts.now (T.state tree.old)) moment (T.state tree.old)
        (steps_done T.Tree tree.old tree.new) }
    ensures between { IsBetweenBy (phases_of options.entry.now) (run_lines options.entry.now facts.now (T.state tree.old)) moment (T.state tree.old)
        (steps_done T.Tree tree.old tree.new) }
    ensures gives { GiveBy (phases_of options.entry.now) (run_lines options.entry.now facts.now (T.state tree.old)) moment (T.state tree.old)
        (steps_done T.Tree tree.old tree.new) }
{
    let read = read_run(alloc, options, facts, tree, messages)?;
    let phases = phases_of(alloc, options)?;
    let carried = run_phases(alloc, tree, &phases, &read.table, moment, messages)?;
    Ok(end_of(carried, read.missing, read.invalid))
}
