//! What the lines of a configuration ask for.
ghost use Rattle.std.specs.Prelude.{IfOk};
ghost use Rattle.pv_sysusers.specs.Planning.{IsWanted};
ghost use Rattle.pv_sysusers.specs.Shown.{IsIndexed, shown};

use crate::lines::Lines;
use crate::needs::{Account, Need, all_accounts, all_needs};
use crate::pool::Pool;
use pv_accounts::InUse;
use std::alloc::{AllocError, Global};

/// What the lines of a configuration ask for.
#[derive(Drop)]
pub struct Wanted {
    /// The groups that they need, in order.
    pub needs: Vec<Need>,
    /// The users that they need, in order.
    pub accounts: Vec<Account>,
    /// The numbers that may be given to them.
    pub pool: Pool,
}

/// Returns what effective lines ask for. `users` has the names and UIDs of the users that are there.
pub(crate) fn wanted_by(
    alloc: Global,
    users: &InUse<'_>,
    lines: &Lines<'_>,
) -> Result<Wanted, AllocError>
    requires { IsIndexed lines.now }
    ensures { IfOk result (IsWanted users.now (shown lines.now.kept.items)) }
{
    let needs = all_needs(alloc, users, lines)?;
    let accounts = all_accounts(alloc, users, lines)?;
    let pool = Pool::of(alloc, &lines.kept, &needs, &accounts)?;
    Ok(Wanted {
        needs,
        accounts,
        pool,
    })
}
