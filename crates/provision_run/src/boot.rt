//! The boot command: removing, then creating.
ghost use Rattle.std.specs.Prelude.{◌≡◌, ◌++◌, IfOk, OnOk};
ghost use Rattle.pv_create.specs.OnTheWay.{IsFramed, GiveWhatLinesLeave};
ghost use Rattle.pv_steps.specs.Courses.{Partway, IsStepOfSome, carried_of, each_of, CarriesOut, Cut, HasGone};
ghost use Rattle.pv_laws.specs.Swept.{LeavesNoStagingName};
ghost use Rattle.pv_steps.specs.Acting.{refused, Acted, steps_done};
ghost use Rattle.pv_steps.specs.Doing.{taken_by_each};
ghost use Rattle.pv_table.specs.Removed.{removed};
ghost use Rattle.pv_text.specs.GivenMessages.{MessagesPart};
ghost use Rattle.provision_run.specs.Booted.{booted, booted_messages, is_boot_unfinished, IsBootBetween, BootRecovers, KeepsInput};
ghost use Rattle.provision_run.specs.BootedAgain.{BootRecoversAgain, IsBootStoppedAgain};
ghost use Rattle.provision_run.specs.Phases.{boot_phases, phases_course};

use pv_create::create_run;
use pv_remove::remove_run;
use pv_steps::{Carried, Tree, TreeFault};
use pv_table::Table;
use pv_text::Messages;
use std::alloc::Global;

/// Carries out the boot command (systemd-tmpfiles(8), `--remove --create`). It removes what lines name, and then
/// creates over the tree that is left.
///
/// - `table` has the active lines.
/// - `now` is the time of the run, in microseconds since 1970-01-01 UTC.
/// - `messages` gets the messages of removing and then those of creating, after those that it has.
///
/// The answer is one of these:
///
/// - `Ok(Whole)`: everything was carried out. `Ok(NotCarriedOut)`: a line was refused, or a removal is unfinished.
/// - `Err(Failed)`: the tree refused a step, and none was done after it.
/// - `Err(Memory)`: out of memory.
///
/// After an error, a prefix of the messages was added. Creating has not begun before removing is finished.
///
/// A run may be stopped after any step. A complete run at any time then leaves the same tree as one complete run,
/// except for timestamps and staging names. The premises are these:
///
/// - No line has a hazard, and no line copies.
/// - A complete removal from the first tree leaves nothing unfinished.
/// - After a complete removal, creating refuses no line, from the first tree and from the tree that the stopped run
///   left.
pub fn boot_run<T: Tree>(
    alloc: Global,
    tree: &mut T,
    table: &Table,
    now: u64,
    messages: &mut Messages,
) -> Result<Carried, TreeFault>
    // The tree that a complete run leaves, timestamps and staging names included, its messages and its answer.
    ensures ok { OnOk result (T.state tree.new ≡ booted table.now now (T.state tree.old)) }
    ensures new_messages { OnOk result (messages.new ≡ messages.old ++ booted_messages table.now now (T.state tree.old)) }
    ensures carried { IfOk result (λ c. c ≡ carried_of (is_boot_unfinished table.now now (T.state tree.old))) }
    ensures staged { OnOk result (LeavesNoStagingName table.now now (removed table.now now (T.state tree.old))
        (T.state tree.new)) }

    // The messages and steps of every run, whatever the answer.
    ensures part { MessagesPart (booted_messages table.now now (T.state tree.old)) messages.old messages.new }
    ensures acted { Acted T.Tree (Partway (phases_course table.now now) boot_phases (T.state tree.old))
        (IsStepOfSome (phases_course table.now now) boot_phases (T.state tree.old))
        (taken_by_each (phases_course table.now now).whole boot_phases (T.state tree.old)) now tree.old tree.new result }
    ensures went { HasGone T.Tree (Cut (phases_course table.now now) now (refused result) boot_phases (T.state tree.old))
        now tree.old tree.new messages.old messages.new }

    // Crash safety of the boot command.
    ensures recovers { BootRecovers table.now now (T.state tree.old) (steps_done T.Tree tree.old tree.new) }
    ensures again { BootRecoversAgain table.now now (T.state tree.old) (steps_done T.Tree tree.old tree.new) }
    ensures one_more { IsBootStoppedAgain table.now now (T.state tree.old) (steps_done T.Tree tree.old tree.new) }

    // What it leaves at each moment, and what each step gives, whatever the answer.
    ensures framed { IsFramed table.now now (T.state tree.old) (steps_done T.Tree tree.old tree.new) }
    ensures between { IsBootBetween table.now now (T.state tree.old) (steps_done T.Tree tree.old tree.new) }
    ensures input { KeepsInput table.now now (T.state tree.old) (steps_done T.Tree tree.old tree.new) }
    ensures gives { GiveWhatLinesLeave table.now now (removed table.now now (T.state tree.old))
        (steps_done T.Tree tree.old tree.new) }
{
    // The lines of a table were read, and no two make the object at one path.
    let _lines = table.lines();
    remove_then_create(alloc, tree, table, now, messages)
}

/// Runs the remove phase, then the create phase.
fn remove_then_create<T: Tree>(
    alloc: Global,
    tree: &mut T,
    table: &Table,
    now: u64,
    messages: &mut Messages,
) -> Result<Carried, TreeFault>
    ensures { CarriesOut T.Tree (each_of (phases_course table.now now)) boot_phases now tree.old tree.new
        messages.old messages.new result }
{
    let removing = remove_run(alloc, tree, table, now, messages)?;
    let creating = create_run(alloc, tree, table, now, messages)?;
    Ok(removing.and(creating))
}
