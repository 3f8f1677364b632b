//! The groups and the users that lines need, and the numbers that they fix (sysusers.d(5)).
ghost use Rattle.std.specs.Prelude.{◌≡◌, [], ◌∷◌, ◌++◌, IfOk, OnOk};
ghost use Rattle.std.specs.List.{flat_map};
ghost use Rattle.std.specs.Option.{option_map};
ghost use Rattle.pv_sysusers.specs.Lines.{first_user, is_named};
ghost use Rattle.pv_sysusers.specs.Needs.{account_of, accounts_of, group_number, is_made, made_account, main_of, member_needs, need, needs_of, plain_account, user_needs, user_number};
ghost use Rattle.pv_sysusers.specs.Shown.{IsIndexed, shown, shown_line};

use crate::lines::{Line, Lines};
use crate::path_ids::PathId;
use pv_accounts::InUse;
use pv_path::Bytes;
use pv_requests::{GroupId, Primary, Request, UserId};
use pv_text::Place;
use std::alloc::{AllocError, Global};

/// A group that a line needs.
#[derive(Drop)]
pub struct Need {
    /// The name of the group.
    pub name: Bytes,
    /// The GID that the line fixes for it, if it fixes one.
    pub number: Option<u32>,
    /// The location of the line.
    pub place: Place,
}

/// The primary group of a user.
#[derive(Drop)]
pub enum Main {
    /// The group that has the user's name.
    Own,
    /// The group that has this GID.
    Gid(u32),
    /// The group that has this name.
    Named(Bytes),
}

/// A user that a line needs.
#[derive(Drop)]
pub struct Account {
    /// The name of the user.
    pub name: Bytes,
    /// The UID that the line fixes for the user, if it fixes one.
    pub uid: Option<u32>,
    /// The primary group.
    pub main: Main,
    /// Whether the account is locked (`u!`): nobody can log in by it.
    pub locked: bool,
    /// The fifth field of passwd(5), such as the full name, if it is given.
    pub gecos: Option<Bytes>,
    /// The home directory, if it is given.
    pub home: Option<Bytes>,
    /// The login shell, if it is given.
    pub shell: Option<Bytes>,
    /// The location of the line.
    pub place: Place,
}

impl Main {
    /// Returns a copy of the primary group.
    fn copy(&self) -> Result<Main, AllocError>
        ensures { IfOk result (λ main. main ≡ self.now) }
    {
        match self {
            Main::Own => Ok(Main::Own),
            Main::Gid(n) => Ok(Main::Gid(*n)),
            Main::Named(group) => Ok(Main::Named(group.copy()?)),
        }
    }
}

impl Account {
    /// Returns a copy of the user.
    pub(crate) fn copy(&self) -> Result<Account, AllocError>
        ensures { IfOk result (λ account. account ≡ self.now) }
    {
        let mut account = Account::plain(&self.name, &self.place)?;
        account.uid = self.uid;
        account.main = self.main.copy()?;
        account.locked = self.locked;
        account.set_texts(&self.gecos, &self.home, &self.shell)?;
        Ok(account)
    }

    /// Returns a user of this name for whom nothing more is asked.
    fn plain(name: &Bytes, place: &Place) -> Result<Account, AllocError>
        ensures { IfOk result (λ account. account ≡ plain_account name.now place.now) }
    {
        let name = name.copy()?;
        Ok(Account {
            name,
            uid: None,
            main: Main::Own,
            locked: false,
            gecos: None,
            home: None,
            shell: None,
            place: place.copy()?,
        })
    }

    /// Sets the GECOS text, the home directory and the shell of the user.
    fn set_texts(
        &mut self,
        gecos: &Option<Bytes>,
        home: &Option<Bytes>,
        shell: &Option<Bytes>,
    ) -> Result<(), AllocError>
        ensures { OnOk result (self.new ≡ record self.old { gecos = gecos.now; home = home.now; shell = shell.now }) }
    {
        self.gecos = copied(gecos)?;
        self.home = copied(home)?;
        self.shell = copied(shell)?;
        Ok(())
    }
}

/// Returns whether an m line makes its user: the user has no entry, and no u line names it.
fn is_made(users: &InUse<'_>, lines: &Lines<'_>, name: &[u8]) -> bool
    requires { IsIndexed lines.now }
    ensures { result ≡ is_made users.now (shown lines.now.kept.items) name.now }
{
    let named = lines.first_user(name).is_some();
    users.id_of(name).is_none() && !named
}

/// Returns the owning group, or `None` if there is no object.
fn gid_of(owners: Option<PathId>) -> Option<u32>
    ensures { result ≡ option_map (λ o. o.gid) owners }
{
    match owners {
        Some(owners) => Some(owners.gid),
        None => None,
    }
}

/// Returns the owner, or `None` if there is no object.
fn uid_of(owners: Option<PathId>) -> Option<u32>
    ensures { result ≡ option_map (λ o. o.uid) owners }
{
    match owners {
        Some(owners) => Some(owners.uid),
        None => None,
    }
}

/// Adds a group that a line needs.
fn add_need(
    needs: &mut Vec<Need>,
    name: &Bytes,
    number: Option<u32>,
    place: &Place,
) -> Result<(), AllocError>
    ensures { OnOk result (needs.new.items ≡ needs.old.items ++ need name.now number place.now ∷ []) }
{
    let need = Need {
        name: name.copy()?,
        number,
        place: place.copy()?,
    };
    needs.push(need)?;
    Ok(())
}

/// Adds the group that a u line needs, if it needs one.
fn add_user_needs(
    needs: &mut Vec<Need>,
    name: &Bytes,
    id: &UserId,
    owners: Option<PathId>,
    place: &Place,
) -> Result<(), AllocError>
    ensures { OnOk result (needs.new.items ≡ needs.old.items ++ user_needs name.now place.now owners id.now) }
{
    match id {
        UserId::Auto => add_need(needs, name, None, place),
        UserId::Number(n) => add_need(needs, name, Some(*n), place),
        UserId::Path(_) => add_need(needs, name, gid_of(owners), place),
        UserId::Primary { group, .. } => match group {
            Primary::Gid(_) => Ok(()),
            Primary::Name(group) => add_need(needs, group, None, place),
        },
    }
}

/// Returns the GID that a g line fixes, or `None`.
fn group_number(owners: Option<PathId>, id: &GroupId) -> Option<u32>
    ensures { result ≡ group_number owners id.now }
{
    match id {
        GroupId::Auto => None,
        GroupId::Number(n) => Some(*n),
        GroupId::Path(_) => gid_of(owners),
    }
}

/// Adds the groups that an m line needs: that of a user that is made, and then the one that it names.
fn add_member_needs(
    needs: &mut Vec<Need>,
    made: bool,
    user: &Bytes,
    group: &Bytes,
    place: &Place,
) -> Result<(), AllocError>
    ensures { OnOk result (needs.new.items ≡ needs.old.items ++ member_needs made user.now group.now place.now) }
{
    if made {
        add_need(needs, user, None, place)?;
    }
    add_need(needs, group, None, place)
}

/// Adds the groups that a line needs.
fn add_needs(
    needs: &mut Vec<Need>,
    users: &InUse<'_>,
    lines: &Lines<'_>,
    line: Line<'_>,
) -> Result<(), AllocError>
    requires { IsIndexed lines.now }
    ensures { let all = needs_of (is_made users.now (shown lines.now.kept.items)) (shown_line line.entry) in
        OnOk result (needs.new.items ≡ needs.old.items ++ all) }
{
    let (request, owners) = line;
    match request {
        Request::User {
            name,
            id,
            place,
            ..
        } => add_user_needs(needs, name, id, owners, place),
        Request::Group { name, id, place } => {
            add_need(needs, name, group_number(owners, id), place)
        }
        Request::Member { user, group, place } => {
            let made = is_made(users, lines, user.as_slice());
            add_member_needs(needs, made, user, group, place)
        }
        Request::Range { .. } => Ok(()),
    }
}

/// Returns the groups that lines need, in order.
pub(crate) fn all_needs(
    alloc: Global,
    users: &InUse<'_>,
    lines: &Lines<'_>,
) -> Result<Vec<Need>, AllocError>
    requires { IsIndexed lines.now }
    ensures { let kept = shown lines.now.kept.items in
        IfOk result (λ needs. needs.items ≡ flat_map (needs_of (is_made users.now kept)) kept) }
{
    let mut needs = Vec::new(alloc);
    for line in &lines.kept {
        add_needs(&mut needs, users, lines, *line)?;
    }
    Ok(needs)
}

/// Returns the UID that a u line fixes, or `None`.
fn user_number(owners: Option<PathId>, id: &UserId) -> Option<u32>
    ensures { result ≡ user_number owners id.now }
{
    match id {
        UserId::Auto => None,
        UserId::Number(n) => Some(*n),
        UserId::Path(_) => uid_of(owners),
        UserId::Primary { uid, .. } => *uid,
    }
}

/// Returns the primary group that a u line gives.
fn main_of(id: &UserId) -> Result<Main, AllocError>
    ensures { IfOk result (λ main. main ≡ main_of id.now) }
{
    match id {
        UserId::Primary { group, .. } => match group {
            Primary::Gid(n) => Ok(Main::Gid(*n)),
            Primary::Name(group) => Ok(Main::Named(group.copy()?)),
        },
        _ => Ok(Main::Own),
    }
}

/// Returns a copy of a text that may be omitted.
fn copied(text: &Option<Bytes>) -> Result<Option<Bytes>, AllocError>
    ensures { IfOk result (λ copy. copy ≡ text.now) }
{
    match text {
        Some(text) => Ok(Some(text.copy()?)),
        None => Ok(None),
    }
}

/// Adds the user of an m line, if the line makes it.
fn add_made_user(
    accounts: &mut Vec<Account>,
    made: bool,
    name: &Bytes,
    place: &Place,
) -> Result<(), AllocError>
    ensures { OnOk result (accounts.new.items ≡ accounts.old.items ++ made_account made name.now place.now) }
{
    if !made {
        return Ok(());
    }
    accounts.push(Account::plain(name, place)?)?;
    Ok(())
}

/// Returns the user of a u line, or `None` if the line is of another type.
fn account_of(line: Line<'_>) -> Result<Option<Account>, AllocError>
    ensures { IfOk result (λ account. account ≡ account_of (shown_line line.entry)) }
{
    let (request, owners) = line;
    let Request::User {
        name,
        id,
        locked,
        gecos,
        home,
        shell,
        place,
    } = request
    else {
        return Ok(None);
    };
    let mut account = Account::plain(name, place)?;
    account.uid = user_number(owners, id);
    account.main = main_of(id)?;
    account.locked = *locked;
    account.set_texts(gecos, home, shell)?;
    Ok(Some(account))
}

/// Adds the user that a line needs, if it needs one.
fn add_accounts(
    accounts: &mut Vec<Account>,
    users: &InUse<'_>,
    lines: &Lines<'_>,
    line: Line<'_>,
) -> Result<(), AllocError>
    requires { IsIndexed lines.now }
    ensures { let all = accounts_of (is_made users.now (shown lines.now.kept.items)) (shown_line line.entry) in
        OnOk result (accounts.new.items ≡ accounts.old.items ++ all) }
{
    if let Request::Member { user, place, .. } = line.0 {
        let made = is_made(users, lines, user.as_slice());
        return add_made_user(accounts, made, user, place);
    }
    match account_of(line)? {
        Some(account) => {
            accounts.push(account)?;
            Ok(())
        }
        None => Ok(()),
    }
}

/// Returns the users that lines need, in order.
pub(crate) fn all_accounts(
    alloc: Global,
    users: &InUse<'_>,
    lines: &Lines<'_>,
) -> Result<Vec<Account>, AllocError>
    requires { IsIndexed lines.now }
    ensures { let kept = shown lines.now.kept.items in
        IfOk result (λ accounts. accounts.items ≡ flat_map (accounts_of (is_made users.now kept)) kept) }
{
    let mut accounts = Vec::new(alloc);
    for line in &lines.kept {
        add_accounts(&mut accounts, users, lines, *line)?;
    }
    Ok(accounts)
}
