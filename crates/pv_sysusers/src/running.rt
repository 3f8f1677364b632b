//! A complete run of systemd-sysusers over a tree: plan, sweep, stage and rename into place.
ghost use Rattle.std.specs.Prelude.{◌≡◌, ◌≢◌, ◌++◌, ◌+◌, [], None, IfOk, IfErr, IsErrOf, OnOk};
ghost use Rattle.std.specs.List.{AllByRecursion};
ghost use Rattle.pv_steps.specs.Trees.{places, IsTree};
ghost use Rattle.pv_requests.specs.Paths.{HasFewNames};
ghost use Rattle.pv_sysusers.specs.Lines.{lines_from, duplicate_messages};
ghost use Rattle.pv_steps.specs.Acting.{Acted, steps_done};
ghost use Rattle.pv_text.specs.GivenMessages.{MessagesPart};
ghost use Rattle.pv_steps.specs.Courses.{carried_of};
ghost use Rattle.pv_steps.specs.declared.carried.Carried.TheVariants.{Whole};
ghost use Rattle.pv_walk.specs.Staging.{count_at_all};
ghost use Rattle.pv_sysusers.specs.declared.accounts_fault.AccountsFault.TheVariants.{Failed};
ghost use Rattle.pv_sysusers.specs.Accounted.{accounted, accounts_messages, carried_files, edits_at, edits_by, is_unusable, lacking_at, lacking_in, plan_at, unusable_texts};
ghost use Rattle.pv_sysusers.specs.FileWriting.{AccountWay, IsAccountStep, most_put, swept_names};
ghost use Rattle.pv_sysusers.specs.Recovery.{Recovers};
ghost use Rattle.pv_sysusers.specs.Running.{IfLacking, Lacks, in_steps, run_answer};
ghost use Rattle.pv_sysusers.specs.Swept.{LeavesNoStagingName};
ghost use Rattle.pv_sysusers.specs.Turns.{TurnWay};

use crate::accounts_fault::AccountsFault;
use crate::file_writing::write_account_files;
use crate::judging::unusable_texts;
use crate::plan_fault::PlanFault;
use crate::planned::duplicates;
use crate::planning::planned_edits;
use pv_requests::RequestList;
use pv_steps::{Carried, Tree, TreeFault};
use pv_text::{Messages, say_all};
use std::alloc::{AllocError, Global};

/// Makes the users and groups that lines ask for, in the account files of a tree (systemd-sysusers(8), sysusers.d(5)).
///
/// It reads /etc/group, /etc/gshadow, /etc/shadow and /etc/passwd, and plans their new texts as [`plan`] does. An
/// absent file counts as empty, except that an absent /etc/gshadow stays absent. Then it removes what earlier runs have
/// staged. It stages each text that changes, with the metadata of the old file. It renames the staged files into place
/// in the order group, gshadow, shadow, passwd. An absent /etc is made first, if a text changes.
///
/// - `requests` has the lines in order. `read_requests` of pv_read_config gives them. Their paths must have fewer than
///   2^32 names. Those of lines that were read have.
/// - `now` is the time of the run, in microseconds since 1970-01-01 UTC. Its day is written into new entries of
///   /etc/shadow.
/// - `messages` gets the messages of the run, after those that it has.
///
/// The answer is one of these:
///
/// - `Ok(Whole)`: the plan was carried out, and all messages were added.
/// - `Ok(NotCarriedOut)`: an account file cannot be used. It is not a regular file, or its path is not safe to walk.
///   The messages say which and why, and no step is done.
/// - `Err(NoFreeId(name))`: no number is left for this user or group. The messages of the plan are added, and no step
///   is done.
/// - `Err(Failed)`: the tree refused a step, and none was done after it. All messages had been added.
/// - `Err(Memory)`: out of memory. A prefix of the messages was added, and a prefix of the steps may have been done.
///
/// If the lines are allowed, as those that `read_requests` gives are, a complete run of them recovers after each step
/// and after each answer. It gives /etc/group, /etc/gshadow and /etc/passwd the texts of one complete run. If it is on
/// the same day, it leaves the same tree, except for timestamps and staging names.
///
/// For example, over a tree without accounts the single line `u app 500` adds `app:x:500:` to /etc/group. It adds
/// `app:x:500:500::/:/usr/sbin/nologin` to /etc/passwd.
pub fn accounts_run<T: Tree>(
    alloc: Global,
    tree: &mut T,
    requests: &RequestList,
    now: u64,
    messages: &mut Messages,
) -> Result<Carried, AccountsFault>
    requires requests { AllByRecursion HasFewNames requests.now }

    // The tree that a complete run leaves, timestamps included, its messages and its answer.
    ensures ok { OnOk result (T.state tree.new ≡ accounted requests.now now (T.state tree.old)) }
    ensures new_messages { OnOk result (messages.new ≡ messages.old ++ accounts_messages requests.now now (places (T.state tree.old))) }
    ensures carried { IfOk result (λ c. c ≡ carried_of (is_unusable (places (T.state tree.old)))) }
    ensures enough { OnOk result (lacking_at requests.now now (places (T.state tree.old)) ≡ None) }
    ensures staged { OnOk result (LeavesNoStagingName requests.now now (T.state tree.old) (T.state tree.new)) }

    // If no number is left for a name: the messages, and that no step is done.
    ensures lacking { IfErr result (Lacks (lacking_at requests.now now (places (T.state tree.old)))) }
    ensures lacking_messages { IfLacking result (messages.new ≡ messages.old ++ accounts_messages requests.now now (places (T.state tree.old))) }
    ensures lacking_idle { IfLacking result (T.steps tree.new ≡ T.steps tree.old) }

    // All messages are added before the first step, and no step is done if a number is missing. So if a step failed,
    // all messages have been added.
    ensures failed_enough { IsErrOf result Failed → lacking_at requests.now now (places (T.state tree.old)) ≡ None }
    ensures failed_messages { IsErrOf result Failed → messages.new ≡ messages.old ++ accounts_messages requests.now now (places (T.state tree.old)) }

    // No step is done if an account file cannot be used.
    ensures idle { unusable_texts (places (T.state tree.old)) ≢ [] → T.steps tree.new ≡ T.steps tree.old }

    // The messages and steps of every run, whatever the answer.
    ensures part { MessagesPart (accounts_messages requests.now now (places (T.state tree.old))) messages.old messages.new }
    ensures acted { let edits = edits_at requests.now now (places (T.state tree.old)) in
        Acted T.Tree (AccountWay edits (T.state tree.old)) (IsAccountStep edits (T.state tree.old))
        (count_at_all (T.state tree.old) swept_names + most_put edits (places (T.state tree.old))) now tree.old tree.new (in_steps result) }

    // Files are staged in their order, each with its text before its owners, mode and the rest.
    ensures turn { let edits = edits_at requests.now now (places (T.state tree.old)) in
        Acted T.Tree (TurnWay edits (T.state tree.old)) (IsAccountStep edits (T.state tree.old))
        (count_at_all (T.state tree.old) swept_names + most_put edits (places (T.state tree.old))) now tree.old tree.new (in_steps result) }

    // Crash safety.
    ensures recovers { Recovers requests.now now (T.state tree.old) (steps_done T.Tree tree.old tree.new) }
{
    let unusable = unusable_texts(alloc, tree)?;
    if unusable.len() > 0 {
        say_unusable(alloc, requests, &unusable, messages)?;
        return Ok(Carried::NotCarriedOut);
    }
    run_usable(alloc, tree, requests, now, messages)
}

/// Does the run if each account file can be used.
fn run_usable<T: Tree>(
    alloc: Global,
    tree: &mut T,
    requests: &RequestList,
    now: u64,
    messages: &mut Messages,
) -> Result<Carried, AccountsFault>
    requires requests { AllByRecursion HasFewNames requests.now }
    requires usable { unusable_texts (places (T.state tree.old)) ≡ [] }
    requires tree { IsTree (T.state tree.old) }
    ensures ok { let plan = plan_at requests.now now (places (T.state tree.old)) in
        OnOk result (T.state tree.new ≡ carried_files now (edits_by (places (T.state tree.old)) plan.texts) (T.state tree.old)) }
    ensures carried { IfOk result (λ c. c ≡ Whole) }
    ensures enough { let plan = plan_at requests.now now (places (T.state tree.old)) in
        OnOk result (lacking_in plan.texts ≡ None) }
    ensures lacking { let plan = plan_at requests.now now (places (T.state tree.old)) in
        IfErr result (Lacks (lacking_in plan.texts)) }
    ensures lacking_idle { IfLacking result (T.steps tree.new ≡ T.steps tree.old) }
    ensures new_messages { let plan = plan_at requests.now now (places (T.state tree.old)) in
        OnOk result (messages.new ≡ messages.old ++ plan.new_messages) }
    ensures lacking_messages { let plan = plan_at requests.now now (places (T.state tree.old)) in
        IfLacking result (messages.new ≡ messages.old ++ plan.new_messages) }
    ensures failed_enough { let plan = plan_at requests.now now (places (T.state tree.old)) in
        IsErrOf result Failed → lacking_in plan.texts ≡ None }
    ensures failed_messages { let plan = plan_at requests.now now (places (T.state tree.old)) in
        IsErrOf result Failed → messages.new ≡ messages.old ++ plan.new_messages }
    ensures part { let plan = plan_at requests.now now (places (T.state tree.old)) in
        MessagesPart plan.new_messages messages.old messages.new }
    ensures acted { let edits = edits_by (places (T.state tree.old)) (plan_at requests.now now (places (T.state tree.old))).texts in
        Acted T.Tree (AccountWay edits (T.state tree.old)) (IsAccountStep edits (T.state tree.old))
        (count_at_all (T.state tree.old) swept_names + most_put edits (places (T.state tree.old))) now tree.old tree.new (in_steps result) }
    ensures turn { let edits = edits_by (places (T.state tree.old)) (plan_at requests.now now (places (T.state tree.old))).texts in
        Acted T.Tree (TurnWay edits (T.state tree.old)) (IsAccountStep edits (T.state tree.old))
        (count_at_all (T.state tree.old) swept_names + most_put edits (places (T.state tree.old))) now tree.old tree.new (in_steps result) }
{
    match planned_edits(alloc, tree, requests, now, messages) {
        Ok(edits) => run_answer(write_account_files(alloc, tree, &edits, now)),
        Err(PlanFault::NoFreeId(name)) => Err(AccountsFault::NoFreeId(name)),
        Err(PlanFault::Memory) => Err(AccountsFault::Memory),
    }
}

/// Returns the answer of the run for the answer of the steps.
fn run_answer(answer: Result<(), TreeFault>) -> Result<Carried, AccountsFault>
    ensures { result ≡ run_answer answer }
{
    match answer {
        Ok(()) => Ok(Carried::Whole),
        Err(TreeFault::Failed) => Err(AccountsFault::Failed),
        Err(TreeFault::Memory) => Err(AccountsFault::Memory),
    }
}

/// Adds the messages about repeated lines, and then those about account files that cannot be used. If memory runs out,
/// nothing or a prefix of them is added.
fn say_unusable(
    alloc: Global,
    requests: &RequestList,
    unusable: &Messages,
    messages: &mut Messages,
) -> Result<(), AllocError>
    ensures ok { OnOk result (messages.new ≡ messages.old ++ duplicate_messages [] (lines_from [] 0 requests.now) ++ unusable.now) }
    ensures part { MessagesPart (duplicate_messages [] (lines_from [] 0 requests.now) ++ unusable.now) messages.old messages.new }
{
    let mut new_messages = duplicates(alloc, requests)?;
    say_all(unusable, &mut new_messages)?;
    say_all(&new_messages, messages)
}
