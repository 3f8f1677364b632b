//! The numbers of new users.
ghost use Rattle.std.specs.Prelude.{◌≡◌, [], ◌∷◌, ◌++◌, None, Some, IfOk, IfErr, OnOk};
ghost use Rattle.pv_accounts.specs.InUse.{id_of};
ghost use Rattle.pv_sysusers.specs.Deciding.{AreMade, IsStocked, Lacks, UnlessMemory, UnlessMemoryBy, pooled_by, user_choice_by, users_by};
ghost use Rattle.pv_sysusers.specs.Users.{gid_of, group_or_free, is_free_for, new_user};

use crate::groups::say_in_use;
use crate::needs::{Account, Main};
use crate::plan_fault::PlanFault;
use crate::pool::{Stock, Supply};
use crate::wanted::Wanted;
use pv_accounts::InUse;
use pv_text::Messages;
use std::alloc::{AllocError, Global};

/// A new user with its numbers.
#[derive(Drop)]
pub struct NewUser {
    /// What lines ask for the user.
    pub account: Account,
    /// Its UID.
    pub uid: u32,
    /// The GID of its primary group.
    pub gid: u32,
}

/// Returns whether a user may get a number: no user has it, and no group of another name.
fn is_free_for(users: &InUse<'_>, groups: &InUse<'_>, name: &[u8], n: u32) -> bool
    ensures { result ≡ is_free_for users.now groups.now name.now n }
{
    let other = groups.is_held_beside(n, name);
    !(users.is_held(n) || other)
}

/// Returns the GID of the group that has the user's name, if it is not 0 and the user may get it. Otherwise, it returns
/// the next number of the pool, if there is one.
fn group_or_next(supply: &Supply<'_>, name: &[u8]) -> Option<u32>
    requires { IsStocked supply.now }
    ensures { result ≡ group_or_free (pooled_by supply.now.stock.pool.now) supply.now.users.now supply.now.groups.now name.now }
{
    match supply.groups.id_of(name) {
        Some(n) if n != 0 && is_free_for(supply.users, supply.groups, name, n) => Some(n),
        _ => supply.stock.next,
    }
}

/// Returns the number that a user gets, or `None` if none is left. It adds a message if the number that a line fixes is
/// in use.
fn user_number(
    alloc: Global,
    supply: &Supply<'_>,
    account: &Account,
    new_messages: &mut Messages,
) -> Result<Option<u32>, AllocError>
    requires { IsStocked supply.now }
    ensures number { let choice = user_choice_by supply.now account.now in
        IfOk result (λ n. n ≡ choice.number) }
    ensures new_messages { let choice = user_choice_by supply.now account.now in
        OnOk result (new_messages.new ≡ new_messages.old ++ choice.new_messages) }
{
    let name = account.name.as_slice();
    let Some(n) = account.uid else {
        return Ok(group_or_next(supply, name));
    };
    if is_free_for(supply.users, supply.groups, name, n) {
        return Ok(Some(n));
    }
    say_in_use(alloc, &account.place, n, name, new_messages)?;
    Ok(group_or_next(supply, name))
}

/// Returns the GID of the primary group, which was decided before.
fn gid_of(groups: &InUse<'_>, name: &[u8], main: &Main) -> u32
    ensures { result ≡ gid_of groups.now name.now main.now }
{
    match main {
        Main::Own => groups.id_of(name).unwrap_or(0),
        Main::Gid(n) => *n,
        Main::Named(group) => groups.id_of(group.as_slice()).unwrap_or(0),
    }
}

/// Adds a new user to the new ones.
fn add_made(
    made: &mut Vec<NewUser>,
    groups: &InUse<'_>,
    account: &Account,
    uid: u32,
) -> Result<(), AllocError>
    ensures { OnOk result (made.new.items ≡ made.old.items ++ new_user groups.now account.now uid ∷ []) }
{
    let gid = gid_of(groups, account.name.as_slice(), &account.main);
    let account = account.copy()?;
    made.push(NewUser { account, uid, gid })?;
    Ok(())
}

/// All users, and which of them are new.
#[derive(Drop)]
struct Users<'a> {
    /// The names and UIDs of all users.
    all: InUse<'a>,
    /// The new ones.
    made: Vec<NewUser>,
}

impl<'a> Users<'a> {
    /// Adds one new user.
    fn with(self, groups: &InUse<'_>, account: &'a Account, uid: u32) -> Result<Self, AllocError>
        requires { id_of self.all account.now.name ≡ None }
        ensures all { IfOk result (λ users. users.all ≡ self.entry.all ++ (account.entry.now.name, uid) ∷ []) }
        ensures made { IfOk result (λ users. users.made.items ≡ self.entry.made.items ++ new_user groups.now account.entry.now uid ∷ []) }
    {
        let Users { all, mut made } = self;
        let all = all.with(account.name.as_slice(), uid)?;
        add_made(&mut made, groups, account, uid)?;
        Ok(Users { all, made })
    }
}

/// Returns the number that a needed user gets, or the error that none is left.
fn needed_number(
    alloc: Global,
    supply: &Supply<'_>,
    account: &Account,
    new_messages: &mut Messages,
) -> Result<u32, PlanFault>
    requires { IsStocked supply.now }
    ensures number { let choice = user_choice_by supply.now account.now in
        IfOk result (λ n. Some n ≡ choice.number) }
    ensures none { let choice = user_choice_by supply.now account.now in
        IfErr result (λ fault. UnlessMemoryBy fault (None ≡ choice.number)) }
    ensures lacking { IfErr result (Lacks (Some account.now.name)) }
    ensures new_messages { let choice = user_choice_by supply.now account.now in
        UnlessMemory result (new_messages.new ≡ new_messages.old ++ choice.new_messages) }
{
    match user_number(alloc, supply, account, new_messages)? {
        Some(n) => Ok(n),
        None => Err(PlanFault::NoFreeId(account.name.copy()?)),
    }
}

/// Decides the users that lines need, in order, and returns the new ones. A user that is there stays as it is.
pub(crate) fn decided_users<'a>(
    alloc: Global,
    wanted: &'a Wanted,
    groups: &InUse<'_>,
    users: InUse<'a>,
    new_messages: &mut Messages,
) -> Result<Vec<NewUser>, PlanFault>
    ensures made { let decided = users_by wanted.entry.now groups.now users.entry in
        IfOk result (λ made. AreMade decided made.items) }
    ensures lacking { let decided = users_by wanted.entry.now groups.now users.entry in
        IfErr result (Lacks decided.lacking) }
    ensures new_messages { let decided = users_by wanted.entry.now groups.now users.entry in
        UnlessMemory result (new_messages.new ≡ new_messages.old ++ decided.new_messages) }
{
    let mut users = Users {
        all: users,
        made: Vec::new(alloc),
    };
    let mut stock = Stock::of(&wanted.pool, &users.all, groups);
    for account in &wanted.accounts {
        if users.all.id_of(account.name.as_slice()).is_some() {
            continue;
        }
        let supply = Supply {
            stock,
            users: &users.all,
            groups: &*groups,
        };
        let uid = needed_number(alloc, &supply, account, new_messages)?;
        users = users.with(groups, account, uid)?;
        stock = stock.further(&users.all, groups);
    }
    Ok(users.made)
}
