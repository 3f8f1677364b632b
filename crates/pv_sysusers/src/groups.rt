//! The numbers of new groups.
ghost use Rattle.std.specs.Prelude.{◌≡◌, [], ◌∷◌, ◌++◌, None, Some, IfOk, IfErr, OnOk};
ghost use Rattle.pv_accounts.specs.InUse.{id_of};
ghost use Rattle.pv_sysusers.specs.Deciding.{IsMade, IsStocked, Lacks, UnlessMemory, UnlessMemoryBy, fixed_by, group_choice_by, groups_by};
ghost use Rattle.pv_sysusers.specs.Groups.{in_use_message};

use crate::fixed::{Fixed, fixed_in};
use crate::plan_fault::PlanFault;
use crate::pool::{Stock, Supply};
use crate::wanted::Wanted;
use pv_accounts::InUse;
use pv_path::{Bytes, add_printed};
use pv_text::{Messages, Place};
use std::alloc::{AllocError, Global};

/// All groups, and which of them are new.
#[derive(Drop)]
pub struct Groups<'a> {
    /// The names and GIDs of all groups.
    pub all: InUse<'a>,
    /// The new groups, each with its name and GID.
    pub made: Vec<(Bytes, u32)>,
}

/// Adds the message that a number that a line fixes is in use.
pub(crate) fn say_in_use(
    alloc: Global,
    place: &Place,
    n: u32,
    name: &[u8],
    new_messages: &mut Messages,
) -> Result<(), AllocError>
    ensures { OnOk result (new_messages.new ≡ new_messages.old ++ in_use_message place.now n name.now ∷ []) }
{
    let number = n.to_string(alloc)?;
    let mut text = Vec::from_slice(alloc, number.as_bytes())?;
    text.extend_from_slice(b" is in use for ")?;
    add_printed(&mut text, name)?;
    new_messages.push_at(place, &text)
}

/// Returns the number that a line fixes for a group, if the group may get it. Otherwise, it adds a message and returns
/// the next number of the pool, if there is one.
fn fixed_or_next(
    alloc: Global,
    supply: &Supply<'_>,
    name: &[u8],
    fixed: (u32, &Place),
    new_messages: &mut Messages,
) -> Result<Option<u32>, AllocError>
    requires { IsStocked supply.now }
    ensures number { let choice = group_choice_by supply.now name.now (Some (fixed.entry.0, fixed.entry.1.now)) in
        IfOk result (λ found. found ≡ choice.number) }
    ensures new_messages { let choice = group_choice_by supply.now name.now (Some (fixed.entry.0, fixed.entry.1.now)) in
        OnOk result (new_messages.new ≡ new_messages.old ++ choice.new_messages) }
{
    let (n, place) = fixed;
    let other = supply.users.is_held_beside(n, name);
    if supply.groups.is_held(n) || other {
        say_in_use(alloc, place, n, name, new_messages)?;
        Ok(supply.stock.next)
    } else {
        Ok(Some(n))
    }
}

/// Returns the number that a group gets, or `None` if none is left.
fn group_number(
    alloc: Global,
    supply: &Supply<'_>,
    fixed: &Fixed<'_>,
    name: &[u8],
    new_messages: &mut Messages,
) -> Result<Option<u32>, AllocError>
    requires { IsStocked supply.now }
    ensures number { let choice = group_choice_by supply.now name.now (fixed_by fixed.now name.now) in
        IfOk result (λ found. found ≡ choice.number) }
    ensures new_messages { let choice = group_choice_by supply.now name.now (fixed_by fixed.now name.now) in
        OnOk result (new_messages.new ≡ new_messages.old ++ choice.new_messages) }
{
    match fixed.of(name) {
        Some(fixed) => fixed_or_next(alloc, supply, name, fixed, new_messages),
        None => Ok(supply.stock.next),
    }
}

/// Adds a new group to the new ones.
fn add_made(made: &mut Vec<(Bytes, u32)>, name: &Bytes, n: u32) -> Result<(), AllocError>
    ensures { OnOk result (made.new.items ≡ made.old.items ++ (name.now, n) ∷ []) }
{
    made.push((name.copy()?, n))?;
    Ok(())
}

impl<'a> Groups<'a> {
    /// Adds one new group.
    fn with(self, name: &'a Bytes, n: u32) -> Result<Self, AllocError>
        requires { id_of self.all name.now ≡ None }
        ensures all { IfOk result (λ groups. groups.all ≡ self.entry.all ++ (name.entry.now, n) ∷ []) }
        ensures made { IfOk result (λ groups. groups.made.items ≡ self.entry.made.items ++ (name.entry.now, n) ∷ []) }
    {
        let Groups { all, mut made } = self;
        let all = all.with(name.as_slice(), n)?;
        add_made(&mut made, name, n)?;
        Ok(Groups { all, made })
    }
}

/// Returns the number that a needed group gets, or the error that none is left.
fn needed_number(
    alloc: Global,
    supply: &Supply<'_>,
    fixed: &Fixed<'_>,
    name: &Bytes,
    new_messages: &mut Messages,
) -> Result<u32, PlanFault>
    requires { IsStocked supply.now }
    ensures number { let choice = group_choice_by supply.now name.now (fixed_by fixed.now name.now) in
        IfOk result (λ n. Some n ≡ choice.number) }
    ensures none { let choice = group_choice_by supply.now name.now (fixed_by fixed.now name.now) in
        IfErr result (λ fault. UnlessMemoryBy fault (None ≡ choice.number)) }
    ensures lacking { IfErr result (Lacks (Some name.now)) }
    ensures new_messages { let choice = group_choice_by supply.now name.now (fixed_by fixed.now name.now) in
        UnlessMemory result (new_messages.new ≡ new_messages.old ++ choice.new_messages) }
{
    match group_number(alloc, supply, fixed, name.as_slice(), new_messages)? {
        Some(n) => Ok(n),
        None => Err(PlanFault::NoFreeId(name.copy()?)),
    }
}

/// Decides the groups that lines need, in order, and returns all groups and the new ones. A group that is there keeps
/// its number.
pub(crate) fn decided_groups<'a>(
    alloc: Global,
    wanted: &'a Wanted,
    users: &InUse<'_>,
    groups: InUse<'a>,
    new_messages: &mut Messages,
) -> Result<Groups<'a>, PlanFault>
    ensures made { let decided = groups_by wanted.entry.now users.now groups.entry in
        IfOk result (IsMade decided groups.entry) }
    ensures lacking { let decided = groups_by wanted.entry.now users.now groups.entry in
        IfErr result (Lacks decided.lacking) }
    ensures new_messages { let decided = groups_by wanted.entry.now users.now groups.entry in
        UnlessMemory result (new_messages.new ≡ new_messages.old ++ decided.new_messages) }
{
    let fixed = fixed_in(alloc, &wanted.needs)?;
    let mut groups = Groups {
        all: groups,
        made: Vec::new(alloc),
    };
    let mut stock = Stock::of(&wanted.pool, users, &groups.all);
    for need in &wanted.needs {
        if groups.all.id_of(need.name.as_slice()).is_some() {
            continue;
        }
        let supply = Supply {
            stock,
            users: &*users,
            groups: &groups.all,
        };
        let n = needed_number(alloc, &supply, &fixed, &need.name, new_messages)?;
        groups = groups.with(&need.name, n)?;
        stock = stock.further(users, &groups.all);
    }
    Ok(groups)
}
