//! The plan of a run: the new texts of the account files (sysusers.d(5)).
ghost use Rattle.std.specs.Prelude.{◌≡◌, ◌++◌, [], Ok, option_map, slice_get, IfOk, IfErr, OnOk, OnErr};
ghost use Rattle.std.specs.List.{flat_map};
ghost use Rattle.pv_text.specs.GivenMessages.{MessagesPart};
ghost use Rattle.pv_sysusers.specs.Deciding.{Lacks, UnlessMemory};
ghost use Rattle.pv_sysusers.specs.Texts.{gshadow_text, membership_of};
ghost use Rattle.pv_sysusers.specs.Lines.{lines_from, duplicate_messages};
ghost use Rattle.pv_sysusers.specs.Plans.{plan_of, planned, texts_by};
ghost use Rattle.pv_sysusers.specs.Planning.{AreNumbers, Misses, files_in, files_of, numbers_in};
ghost use Rattle.pv_sysusers.specs.Shown.{IsIndexed, shown};

use crate::groups::decided_groups;
use crate::lines::{Line, Lines, effective_lines};
use crate::needs::Need;
use crate::path_ids::PathIds;
use crate::plan_fault::PlanFault;
use crate::texts::{group_text, gshadow_text, passwd_text, shadow_text};
use crate::users::{NewUser, decided_users};
use crate::wanted::{Wanted, wanted_by};
use pv_accounts::{InUse, Kind};
use pv_path::Bytes;
use pv_requests::RequestList;
use pv_text::{Messages, say_all};
use std::alloc::{AllocError, Global};

/// The new texts of the account files. A text that does not change is the old one.
#[derive(Drop)]
pub struct Texts {
    /// The text of /etc/passwd.
    pub passwd: Bytes,
    /// The text of /etc/group.
    pub group: Bytes,
    /// The text of /etc/shadow.
    pub shadow: Bytes,
    /// The text of /etc/gshadow, or `None` if this file is absent.
    pub gshadow: Option<Bytes>,
}

/// The old texts of the account files. /etc/gshadow may be absent.
#[derive(Clone, Copy)]
struct AccountFiles<'a> {
    passwd: &'a [u8],
    group: &'a [u8],
    shadow: &'a [u8],
    gshadow: Option<&'a [u8]>,
}

/// The new groups and users with their numbers.
#[derive(Drop)]
pub struct Numbers {
    /// The new groups, each with its name and GID, in the order in which they were decided.
    pub groups: Vec<(Bytes, u32)>,
    /// The new users, in the order in which they were decided.
    pub users: Vec<NewUser>,
}

/// Decides the numbers of new groups and users: of all groups first, and then of the users.
fn decided_numbers(
    alloc: Global,
    wanted: &Wanted,
    users: InUse<'_>,
    groups: InUse<'_>,
    new_messages: &mut Messages,
) -> Result<Numbers, PlanFault>
    ensures made { IfOk result (AreNumbers (numbers_in wanted.now users.entry groups.entry)) }
    ensures lacking { IfErr result (Lacks (numbers_in wanted.now users.entry groups.entry).lacking) }
    ensures new_messages { UnlessMemory result (new_messages.new ≡ new_messages.old ++ (numbers_in wanted.now users.entry groups.entry).new_messages) }
{
    let groups = decided_groups(alloc, wanted, &users, groups, new_messages)?;
    let users = decided_users(alloc, wanted, &groups.all, users, new_messages)?;
    Ok(Numbers {
        groups: groups.made,
        users,
    })
}

/// Returns the text of /etc/gshadow with needed groups and new members, or `None` if the file is absent.
fn gshadow_of(
    alloc: Global,
    needs: &[Need],
    lines: &[Line<'_>],
    file: Option<&[u8]>,
) -> Result<Option<Bytes>, AllocError>
    ensures { let members = flat_map membership_of (shown lines.now) in
        IfOk result (λ text. text ≡ option_map (gshadow_text needs.now members) (option_map (λ f. f.now) file.entry)) }
{
    match file {
        Some(file) => Ok(Some(gshadow_text(alloc, needs, lines, file)?)),
        None => Ok(None),
    }
}

/// Returns the texts that new groups, new members and new users give.
fn texts_by(
    alloc: Global,
    files: &AccountFiles<'_>,
    needs: &[Need],
    lines: &[Line<'_>],
    day: u64,
    numbers: &Numbers,
) -> Result<Texts, AllocError>
    ensures { let members = flat_map membership_of (shown lines.now) in
        IfOk result (λ texts. texts ≡ texts_by (files_of files.now) needs.now members day numbers.now.groups.items numbers.now.users.items) }
{
    Ok(Texts {
        passwd: passwd_text(alloc, &numbers.users, files.passwd)?,
        group: group_text(alloc, &numbers.groups, lines, files.group)?,
        shadow: shadow_text(alloc, day, &numbers.users, files.shadow)?,
        gshadow: gshadow_of(alloc, needs, lines, files.gshadow)?,
    })
}

/// Plans the texts for effective lines, which have at most one u line for each user.
fn plan_of(
    alloc: Global,
    files: &AccountFiles<'_>,
    lines: &Lines<'_>,
    day: u64,
    new_messages: &mut Messages,
) -> Result<Texts, PlanFault>
    requires { IsIndexed lines.now }
    ensures texts { let plan = plan_of (files_of files.now) (shown lines.now.kept.items) day in
        IfOk result (λ texts. plan.texts ≡ Ok texts) }
    ensures lacking { let plan = plan_of (files_of files.now) (shown lines.now.kept.items) day in
        IfErr result (Misses plan.texts) }
    ensures new_messages { let plan = plan_of (files_of files.now) (shown lines.now.kept.items) day in
        UnlessMemory result (new_messages.new ≡ new_messages.old ++ plan.new_messages) }
{
    let users = InUse::of(alloc, Kind::Passwd, files.passwd)?;
    let wanted = wanted_by(alloc, &users, lines)?;
    let groups = InUse::of(alloc, Kind::Group, files.group)?;
    let numbers = decided_numbers(alloc, &wanted, users, groups, new_messages)?;
    let texts = texts_by(alloc, files, &wanted.needs, &lines.kept, day, &numbers)?;
    Ok(texts)
}

/// Plans the texts for requests, and adds the messages to a list of its own.
fn planned_texts(
    alloc: Global,
    requests: &RequestList,
    taken: &PathIds,
    files: &AccountFiles<'_>,
    day: u64,
    new_messages: &mut Messages,
) -> Result<Texts, PlanFault>
    ensures texts { let plan = planned requests.now taken.now (files_of files.now) day in
        IfOk result (λ texts. plan.texts ≡ Ok texts) }
    ensures lacking { let plan = planned requests.now taken.now (files_of files.now) day in
        IfErr result (Misses plan.texts) }
    ensures new_messages { let plan = planned requests.now taken.now (files_of files.now) day in
        UnlessMemory result (new_messages.new ≡ new_messages.old ++ plan.new_messages) }
{
    let lines = effective_lines(alloc, requests, taken, new_messages)?;
    plan_of(alloc, files, &lines, day, new_messages)
}

/// Returns a message for each u line whose user an earlier u line names and which asks for something else
/// (sysusers.d(5)).
///
/// Such a line has no effect, since the first u line of a user counts. A line that asks for the same gives no message.
/// The messages are in the order of the lines, each `FILE:N: duplicate line for NAME`. The only error is `AllocError`.
pub fn duplicates(alloc: Global, requests: &RequestList) -> Result<Messages, AllocError>
    ensures { IfOk result (λ new_messages. new_messages ≡ duplicate_messages [] (lines_from [] 0 requests.now)) }
{
    let mut new_messages = Messages::new(alloc);
    let _lines = effective_lines(alloc, requests, &PathIds::new(alloc), &mut new_messages)?;
    Ok(new_messages)
}

/// Plans the new texts of the account files (sysusers.d(5)): with new groups, new users and new members of groups. It
/// reads and writes no files.
///
/// - `requests` has the lines in order.
/// - `passwd`, `group`, `shadow` and `gshadow` are the old texts. A file that is absent is given as an empty text, and
///   /etc/gshadow as `None`.
/// - `taken` has an item for each request: the owners of the object at its path, or `None`. Missing items count as
///   `None`, so it may be empty.
/// - `day` counts the days since 1970-01-01 UTC. It is written into new entries of /etc/shadow.
/// - `messages` gets the messages of the plan, after those that it has. Messages on repeated lines come first, then
///   those on numbers in use.
///
/// The answer is one of these:
///
/// - `Ok(texts)`: the new texts.
/// - `Err(NoFreeId(name))`: no number is left for this group or user, the first one for which this is so. Groups are
///   decided before users.
/// - `Err(Memory)`: out of memory. Nothing or a prefix of the messages was added.
///
/// For example, the single line `g app 500` adds `app:x:500:` to the text of /etc/group, if there is no group `app` and
/// nobody has the number 500.
pub fn plan(
    alloc: Global,
    requests: &RequestList,
    passwd: &[u8],
    group: &[u8],
    shadow: &[u8],
    gshadow: Option<&[u8]>,
    taken: &PathIds,
    day: u64,
    messages: &mut Messages,
) -> Result<Texts, PlanFault>
    ensures texts { let files = files_in passwd.now group.now shadow.now (option_map (λ file. file.now) gshadow.entry) in
        let plan = planned requests.now taken.now files day in
        IfOk result (λ texts. plan.texts ≡ Ok texts) }
    ensures lacking { let files = files_in passwd.now group.now shadow.now (option_map (λ file. file.now) gshadow.entry) in
        let plan = planned requests.now taken.now files day in
        IfErr result (Misses plan.texts) }
    ensures new_messages { let files = files_in passwd.now group.now shadow.now (option_map (λ file. file.now) gshadow.entry) in
        let plan = planned requests.now taken.now files day in
        UnlessMemory result (messages.new ≡ messages.old ++ plan.new_messages) }
    ensures part { let files = files_in passwd.now group.now shadow.now (option_map (λ file. file.now) gshadow.entry) in
        let plan = planned requests.now taken.now files day in
        MessagesPart plan.new_messages messages.old messages.new }
{
    let files = AccountFiles {
        passwd,
        group,
        shadow,
        gshadow,
    };
    plan_files(alloc, requests, &files, taken, day, messages)
}

/// Plans a run as [`plan`] does, for the account files as one value.
fn plan_files(
    alloc: Global,
    requests: &RequestList,
    files: &AccountFiles<'_>,
    taken: &PathIds,
    day: u64,
    messages: &mut Messages,
) -> Result<Texts, PlanFault>
    ensures texts { let plan = planned requests.now taken.now (files_of files.now) day in
        IfOk result (λ texts. plan.texts ≡ Ok texts) }
    ensures lacking { let plan = planned requests.now taken.now (files_of files.now) day in
        IfErr result (Misses plan.texts) }
    ensures new_messages { let plan = planned requests.now taken.now (files_of files.now) day in
        UnlessMemory result (messages.new ≡ messages.old ++ plan.new_messages) }
    ensures part { let plan = planned requests.now taken.now (files_of files.now) day in
        MessagesPart plan.new_messages messages.old messages.new }
{
    let mut new_messages = Messages::new(alloc);
    match planned_texts(alloc, requests, taken, files, day, &mut new_messages) {
        Ok(texts) => {
            say_all(&new_messages, messages)?;
            Ok(texts)
        }
        Err(PlanFault::NoFreeId(name)) => {
            say_all(&new_messages, messages)?;
            Err(PlanFault::NoFreeId(name))
        }
        Err(PlanFault::Memory) => Err(PlanFault::Memory),
    }
}
