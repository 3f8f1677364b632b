//! The lines of a table, carried out in their order.
ghost use Rattle.std.specs.Prelude.{◌≡◌, ◌++◌, IfOk, OnOk};
ghost use Rattle.pv_steps.specs.Courses.{Partway, IsStepOfSome, carried_of, each_of, CarriesOut, Cut, HasGone};
ghost use Rattle.pv_laws.specs.Swept.{LeavesNoStagingName};
ghost use Rattle.pv_steps.specs.Acting.{refused, Acted, steps_done};
ghost use Rattle.pv_text.specs.GivenMessages.{MessagesPart};
ghost use Rattle.pv_table.specs.Active.{in_create_order};
ghost use Rattle.pv_table.specs.Created.{created, created_messages, some_refusal_counts, work};
ghost use Rattle.pv_create.specs.Recovery.{Recovers, RecoversAgain, IsStoppedAgain};
ghost use Rattle.pv_create.specs.OnTheWay.{IsFramed, IsStoppedBetween, GiveWhatLinesLeave, lines_course};

use crate::line::create_line;
use pv_lines::Line;
use pv_steps::{Carried, Tree, TreeFault};
use pv_table::{Table, create_order};
use pv_text::Messages;
use std::alloc::Global;

/// Carries out the lines of a table in the order of the create phase (tmpfiles.d(5), systemd-tmpfiles(8), `--create`).
///
/// Lines that make or copy an object come first, parents before children. Then come the lines that adjust what is
/// there. A line that is refused at a path gives a message, and nothing is done there.
///
/// - `table` has the active lines, as `pv_table::build` gives it.
/// - `now` is the time of the run and of all its changes, in microseconds since 1970-01-01 UTC.
/// - `messages` gets the messages of the run, after those that it has.
///
/// The answer is one of these:
///
/// - `Ok(Whole)`: no line was refused, except for lines with the modifier `-`.
/// - `Ok(NotCarriedOut)`: a line without `-` was refused at some path. A refusal does not stop the run.
/// - `Err(Failed)`: the tree refused a step, and none was done after it.
/// - `Err(Memory)`: out of memory.
///
/// If the answer is `Ok`, the tree with its timestamps and the messages are exactly those that the definitions
/// `created` and `created_messages` of pv_table give. After an error, a prefix of the messages was added. The lines
/// before the one that met the error have done all their steps, and the lines after it have done none.
///
/// A run may be stopped after any step. A complete run of the same lines then leaves the same tree as one complete run,
/// except for timestamps and staging names. The premises are that no line has a hazard, and that neither the complete
/// run from the first tree nor the second run refuses a line. Here lines with `-` count too. `report` of pv_overlap
/// finds the hazards.
///
/// For example:
///
/// ```text
/// let mut messages = Messages::new(alloc);
/// let table = build(alloc, lines, false, None, None, &mut messages)?;
/// let carried = create_run(alloc, &mut image.tree, &table, 1_000_000, &mut messages)?;
/// ```
pub fn create_run<T: Tree>(
    alloc: Global,
    tree: &mut T,
    table: &Table,
    now: u64,
    messages: &mut Messages,
) -> Result<Carried, TreeFault>
    // The tree that a complete run leaves, timestamps and staging names included, its messages and its answer.
    ensures ok { OnOk result (T.state tree.new ≡ created table.now now (T.state tree.old)) }
    ensures new_messages { OnOk result (messages.new
        ≡ messages.old ++ created_messages table.now now (T.state tree.old)) }
    ensures carried { IfOk result (λ c. c ≡ carried_of (some_refusal_counts table.now now (T.state tree.old))) }
    // Nothing is left at the staging names of what it made or copied, whatever earlier runs have left there.
    ensures staged { OnOk result (LeavesNoStagingName table.now now (T.state tree.old) (T.state tree.new)) }

    // The messages and steps of every run, whatever the answer.
    ensures part { MessagesPart (created_messages table.now now (T.state tree.old)) messages.old messages.new }
    ensures acted { Acted T.Tree (Partway (lines_course now) (in_create_order table.now) (T.state tree.old))
        (IsStepOfSome (lines_course now) (in_create_order table.now) (T.state tree.old))
        (work table.now now (T.state tree.old)) now tree.old tree.new result }
    // If the run was cut short, the lines before the unfinished one have done all their steps and given all their
    // messages. Those after it have done nothing. The steps of the unfinished line and a refused step are together no
    // more than a complete run of that line takes.
    ensures went { HasGone T.Tree (Cut (lines_course now) now (refused result) (in_create_order table.now) (T.state tree.old))
        now tree.old tree.new messages.old messages.new }

    // Crash safety.
    ensures recovers { Recovers table.now now (T.state tree.old) (steps_done T.Tree tree.old tree.new) }
    ensures again { RecoversAgain table.now now (T.state tree.old) (steps_done T.Tree tree.old tree.new) }
    ensures stopped { IsStoppedAgain table.now now (T.state tree.old) (steps_done T.Tree tree.old tree.new) }

    // What it leaves at each moment, and what each step gives, whatever the answer.
    ensures framed { IsFramed table.now now (T.state tree.old) (steps_done T.Tree tree.old tree.new) }
    ensures between { IsStoppedBetween table.now now (T.state tree.old) (steps_done T.Tree tree.old tree.new) }
    ensures gives { GiveWhatLinesLeave table.now now (T.state tree.old) (steps_done T.Tree tree.old tree.new) }
{
    // The lines of a table were read, and no two make the object at one path.
    let _lines = table.lines();
    run_in_order(alloc, tree, table, now, messages)
}

/// Carries out the lines in the order of the create phase.
fn run_in_order<T: Tree>(
    alloc: Global,
    tree: &mut T,
    table: &Table,
    now: u64,
    messages: &mut Messages,
) -> Result<Carried, TreeFault>
    ensures { CarriesOut T.Tree (each_of (lines_course now)) (in_create_order table.now) now tree.old tree.new
        messages.old messages.new result }
{
    // The lines of a table were read.
    let _lines = table.lines();
    let order = create_order(alloc, table)?;
    let mut carried = Carried::Whole;
    for place in order.as_slice() {
        let one = create_line(alloc, tree, table.line_at(*place), now, messages)?;
        carried = carried.and(one);
    }
    Ok(carried)
}
