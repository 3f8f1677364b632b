//! The phases of a run, one after the other.
ghost use Rattle.std.specs.Prelude.{◌≡◌, ◌++◌, ◌∷◌, [], IfOk, OnOk};
ghost use Rattle.pv_create.specs.OnTheWay.{IsFramed};
ghost use Rattle.pv_steps.specs.Courses.{Partway, IsStepOfSome, carried_of, Cut, HasGone};
ghost use Rattle.pv_steps.specs.Acting.{refused, Acted, steps_done};
ghost use Rattle.pv_steps.specs.Doing.{after_each, messages_for_each, one_is_refused, taken_by_each};
ghost use Rattle.pv_text.specs.GivenMessages.{MessagesPart};
ghost use Rattle.provision_run.specs.PhasesOnTheWay.{GiveBy, IsBetweenBy};
ghost use Rattle.provision_run.specs.Phases.{asked, falls_short, is_boot, is_step_of, RecoversBy, left_by, most_steps_of, on_way, phase_cut, phases_course, phases_of, messages_in};
ghost use Rattle.provision_run.specs.PhasesSwept.{IsSweptBy};

use crate::boot::boot_run;
use pv_clean::clean_run;
use pv_create::create_run;
use pv_remove::{purge_run, remove_run};
use pv_steps::{Carried, Tree, TreeFault};
use pv_table::Table;
use pv_text::Messages;
use pv_words::Options;
use std::alloc::{AllocError, Global};

/// A phase of a run of systemd-tmpfiles (systemd-tmpfiles(8)).
#[derive(Clone, Copy)]
pub enum Phase {
    /// Removes what the lines r, R and D name (`--remove`).
    Remove,
    /// Removes what is older than the age of its directory (`--clean`).
    Clean,
    /// Makes, copies and adjusts what lines name (`--create`).
    Create,
    /// Removes what lines with `$` name (`--purge`).
    Purge,
}

/// Returns the phases that the options ask for, in the order in which they are done: Remove, Clean, Create, Purge.
///
/// A report has no phases. The only error is `AllocError`. For example, the options `--create --remove` give Remove and
/// then Create.
pub fn phases_of(alloc: Global, options: &Options) -> Result<Vec<Phase>, AllocError>
    ensures { IfOk result (λ phases. phases.items ≡ phases_of options.entry.now) }
{
    let mut phases = Vec::new(alloc);
    if options.report {
        return Ok(phases);
    }
    add_phase(&mut phases, options.remove, Phase::Remove)?;
    add_phase(&mut phases, options.clean, Phase::Clean)?;
    add_phase(&mut phases, options.create, Phase::Create)?;
    add_phase(&mut phases, options.purge, Phase::Purge)?;
    Ok(phases)
}

/// Adds a phase if it is asked for.
fn add_phase(phases: &mut Vec<Phase>, wanted: bool, phase: Phase) -> Result<(), AllocError>
    ensures { OnOk result (phases.new.items ≡ phases.old.items ++ asked wanted phase) }
{
    if wanted {
        phases.push(phase)?;
    }
    Ok(())
}

/// Returns whether phases are those of the boot command.
fn is_boot(phases: &[Phase]) -> bool
    ensures { result ≡ is_boot phases.now }
{
    matches!(phases, [Phase::Remove, Phase::Create])
}

/// Carries out the phases of a list in its order, each over the tree that the phases before it leave
/// (systemd-tmpfiles(8)).
///
/// - `table` has the active lines.
/// - `now` is the time of all phases, in microseconds since 1970-01-01 UTC.
/// - `messages` gets the messages of the phases, after those that it has.
///
/// The answer is one of these:
///
/// - `Ok(Whole)`: everything was carried out. `Ok(NotCarriedOut)`: in some phase, something was not.
/// - `Err(Failed)`: the tree refused a step, and none was done after it.
/// - `Err(Memory)`: out of memory.
///
/// After an error, the phases before the one that met the error are finished, and those after it have not begun. A
/// prefix of the messages was added.
///
/// The boot command (Remove, then Create), and Remove, Create or Purge alone are crash-safe under the premises of
/// [`boot_run`] and of the calls for one phase. For other lists of phases, nothing is promised about a rerun.
pub fn run_phases<T: Tree>(
    alloc: Global,
    tree: &mut T,
    phases: &[Phase],
    table: &Table,
    now: u64,
    messages: &mut Messages,
) -> Result<Carried, TreeFault>
    ensures ok { OnOk result (T.state tree.new ≡ after_each (phases_course table.now now).whole phases.now (T.state tree.old)) }
    ensures new_messages { OnOk result (messages.new
        ≡ messages.old ++ messages_for_each (phases_course table.now now).whole phases.now (T.state tree.old)) }
    ensures carried { IfOk result (λ c. c
        ≡ carried_of (one_is_refused (phases_course table.now now).whole phases.now (T.state tree.old))) }
    ensures staged { OnOk result (IsSweptBy phases.now table.now now (T.state tree.old) (T.state tree.new)) }
    ensures part { MessagesPart (messages_for_each (phases_course table.now now).whole phases.now (T.state tree.old))
        messages.old messages.new }
    ensures acted { Acted T.Tree (Partway (phases_course table.now now) phases.now (T.state tree.old))
        (IsStepOfSome (phases_course table.now now) phases.now (T.state tree.old))
        (taken_by_each (phases_course table.now now).whole phases.now (T.state tree.old)) now tree.old tree.new result }
    // If the run was cut short, the phases before the unfinished one have done all their steps and given all their
    // messages. Those after it have done nothing. The same holds of the lines of creating.
    ensures went { HasGone T.Tree (Cut (phases_course table.now now) now (refused result) phases.now (T.state tree.old))
        now tree.old tree.new messages.old messages.new }
    ensures recovers { RecoversBy phases.now table.now now (T.state tree.old) (steps_done T.Tree tree.old tree.new) }
    ensures framed { IsFramed table.now now (T.state tree.old) (steps_done T.Tree tree.old tree.new) }
    ensures between { IsBetweenBy phases.now table.now now (T.state tree.old) (steps_done T.Tree tree.old tree.new) }
    ensures gives { GiveBy phases.now table.now now (T.state tree.old) (steps_done T.Tree tree.old tree.new) }
{
    // The lines of a table were read.
    let _lines = table.lines();
    if is_boot(phases) {
        return boot_run(alloc, tree, table, now, messages);
    }
    let mut carried = Carried::Whole;
    for phase in phases {
        let one = do_phase(alloc, tree, *phase, table, now, messages)?;
        carried = carried.and(one);
    }
    Ok(carried)
}

/// Carries out one phase.
fn do_phase<T: Tree>(
    alloc: Global,
    tree: &mut T,
    phase: Phase,
    table: &Table,
    now: u64,
    messages: &mut Messages,
) -> Result<Carried, TreeFault>
    ensures ok { OnOk result (T.state tree.new ≡ left_by table.now now phase (T.state tree.old)) }
    ensures new_messages { OnOk result (messages.new ≡ messages.old ++ messages_in table.now now phase (T.state tree.old)) }
    ensures carried { IfOk result (λ c. c ≡ carried_of (falls_short table.now now phase (T.state tree.old))) }
    ensures part { MessagesPart (messages_in table.now now phase (T.state tree.old)) messages.old messages.new }
    ensures acted { Acted T.Tree (on_way table.now now phase (T.state tree.old)) (is_step_of table.now now phase (T.state tree.old))
        (most_steps_of table.now now phase (T.state tree.old)) now tree.old tree.new result }
    ensures went { HasGone T.Tree (phase_cut table.now now (refused result) phase (T.state tree.old))
        now tree.old tree.new messages.old messages.new }
    ensures recovers { RecoversBy (phase ∷ []) table.now now (T.state tree.old) (steps_done T.Tree tree.old tree.new) }
{
    match phase {
        Phase::Remove => remove_run(alloc, tree, table, now, messages),
        Phase::Clean => {
            clean_run(alloc, tree, table, now)?;
            Ok(Carried::Whole)
        }
        Phase::Create => create_run(alloc, tree, table, now, messages),
        Phase::Purge => purge_run(alloc, tree, table, now, messages),
    }
}
