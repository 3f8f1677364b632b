//! The numbers that may be given to new users and groups (sysusers.d(5), "r" lines).
ghost use Rattle.std.specs.Prelude.{◌≡◌, ◌+◌, ◌<◌, ◌==◌, ◌++◌, ℕ, nat_eq, None, IfOk, IfNone, IfSome, OnOk};
ghost use Rattle.std.specs.HashSet as set;
ghost use Rattle.std.specs.List.{flat_map, list_any};
ghost use Rattle.pv_sysusers.specs.Deciding.{GivesNext, is_free_in, pooled_by};
ghost use Rattle.pv_sysusers.specs.Pools.{free_below, greater, highest, is_between, is_pooled, last_of, range_of, ranges_or_own};
ghost use Rattle.std.specs.Option.{option_to_list};
ghost use Rattle.pv_sysusers.specs.Needs.{account_numbers, fixed_numbers, main_number};
ghost use Rattle.pv_sysusers.specs.Shown.{shown, shown_line};

use crate::lines::Line;
use crate::needs::{Account, Main, Need};
use pv_accounts::InUse;
use pv_requests::Request;
use std::alloc::{AllocError, Global};
use std::collections::HashSet;

/// The numbers that may be given: those in ranges, without 0, 65535 and the numbers that lines fix.
#[derive(Drop)]
pub struct Pool {
    /// The ranges, each by its first and its last number. A range whose first number is greater than its last is empty.
    pub ranges: Vec<(u32, u32)>,
    /// The numbers that lines fix.
    pub fixed: HashSet<u32>,
}

/// Adds the range of a line, if it is an r line.
fn add_range(ranges: &mut Vec<(u32, u32)>, line: Line<'_>) -> Result<(), AllocError>
    ensures { OnOk result (ranges.new.items ≡ ranges.old.items ++ range_of (shown_line line.entry)) }
{
    if let Request::Range { first, last, .. } = line.0 {
        ranges.push((*first, *last))?;
    }
    Ok(())
}

/// Returns the ranges of all r lines.
fn ranges_of(alloc: Global, lines: &[Line<'_>]) -> Result<Vec<(u32, u32)>, AllocError>
    ensures { IfOk result (λ ranges. ranges.items ≡ flat_map range_of (shown lines.now)) }
{
    let mut ranges = Vec::new(alloc);
    for line in lines {
        add_range(&mut ranges, *line)?;
    }
    Ok(ranges)
}

/// Returns the ranges or, if there are none, the range 1 to 999.
fn ranges_or_own(mut ranges: Vec<(u32, u32)>) -> Result<Vec<(u32, u32)>, AllocError>
    ensures { IfOk result (λ all. all.items ≡ ranges_or_own ranges.items) }
{
    if ranges.is_empty() {
        ranges.push((1, 999))?;
    }
    Ok(ranges)
}

/// Adds a number, if there is one.
fn add_number(numbers: &mut Vec<u32>, number: Option<u32>) -> Result<(), AllocError>
    ensures { OnOk result (numbers.new.items ≡ numbers.old.items ++ option_to_list number) }
{
    if let Some(n) = number {
        numbers.push(n)?;
    }
    Ok(())
}

/// Adds the numbers that lines fix for groups.
fn add_need_numbers(numbers: &mut Vec<u32>, needs: &[Need]) -> Result<(), AllocError>
    ensures { OnOk result (numbers.new.items ≡ numbers.old.items ++ flat_map (λ need. option_to_list need.number) needs.now) }
{
    for need in needs {
        add_number(numbers, need.number)?;
    }
    Ok(())
}

/// Returns the GID of a primary group that is given by its number, or `None`.
fn main_number(main: &Main) -> Option<u32>
    ensures { option_to_list result ≡ main_number main.now }
{
    match main {
        Main::Gid(n) => Some(*n),
        _ => None,
    }
}

/// Adds the numbers that a u line fixes for a user, and for a primary group that is given by its number.
fn add_account_numbers(numbers: &mut Vec<u32>, account: &Account) -> Result<(), AllocError>
    ensures { OnOk result (numbers.new.items ≡ numbers.old.items ++ account_numbers account.now) }
{
    add_number(numbers, account.uid)?;
    add_number(numbers, main_number(&account.main))
}

/// Adds the numbers that lines fix for users.
fn add_user_numbers(numbers: &mut Vec<u32>, accounts: &[Account]) -> Result<(), AllocError>
    ensures { OnOk result (numbers.new.items ≡ numbers.old.items ++ flat_map account_numbers accounts.now) }
{
    for account in accounts {
        add_account_numbers(numbers, account)?;
    }
    Ok(())
}

/// Returns the set of these numbers.
fn set_of(alloc: Global, numbers: &[u32]) -> Result<HashSet<u32>, AllocError>
    ensures { IfOk result (λ all. (n : ℕ) → set.contains nat_eq all n ≡ list_any (λ m. m == n) numbers.now) }
{
    let mut all = HashSet::new(alloc);
    for number in numbers {
        all.insert(*number)?;
    }
    Ok(all)
}

/// Returns the last number of a range, or `None` if the range is empty.
fn last_of(range: (u32, u32)) -> Option<u32>
    ensures { result ≡ last_of range }
{
    if range.0 <= range.1 {
        Some(range.1)
    } else {
        None
    }
}

/// Returns the highest number of a range below a bound, or `None` if there is none.
fn top_of(range: (u32, u32), bound: u32) -> Option<u32>
    ensures { result ≡ highest (λ n. is_between n range) bound }
{
    if range.1 < bound {
        return last_of(range);
    }
    if range.0 < bound {
        Some(bound - 1)
    } else {
        None
    }
}

/// Returns the greater of two numbers, or the only one, or `None` if there is none.
fn greater(a: Option<u32>, b: Option<u32>) -> Option<u32>
    ensures { result ≡ greater a b }
{
    let Some(a) = a else {
        return b;
    };
    let Some(b) = b else {
        return Some(a);
    };
    Some(a.max(b))
}

impl Pool {
    /// Returns the pool of lines: the ranges of r lines or, if there are none, 1 to 999, without the numbers that lines
    /// fix.
    pub(crate) fn of(
        alloc: Global,
        lines: &[Line<'_>],
        needs: &[Need],
        accounts: &[Account],
    ) -> Result<Pool, AllocError>
        ensures { let ranges = flat_map range_of (shown lines.now) in
            IfOk result (λ pool. (n : ℕ) → pooled_by pool n ≡ is_pooled ranges (fixed_numbers needs.now accounts.now) n) }
    {
        let mut numbers = Vec::new(alloc);
        add_need_numbers(&mut numbers, needs)?;
        add_user_numbers(&mut numbers, accounts)?;
        Ok(Pool {
            ranges: ranges_or_own(ranges_of(alloc, lines)?)?,
            fixed: set_of(alloc, &numbers)?,
        })
    }

    /// Returns the highest number of all ranges below a bound, or `None` if there is none.
    fn top(&self, bound: u32) -> Option<u32>
        ensures { result ≡ highest (λ n. list_any (is_between n) self.now.ranges.items) bound }
    {
        let mut top = None;
        for range in &self.ranges {
            top = greater(top, top_of(*range, bound));
        }
        top
    }

    /// Returns whether a number of the ranges may be given, and no user and no group has it.
    fn is_free(&self, n: u32, users: &InUse<'_>, groups: &InUse<'_>) -> bool
        ensures { result ≡ is_free_in self.now users.now groups.now n }
    {
        let fixed = self.fixed.contains(&n);
        let used = users.is_held(n);
        let grouped = groups.is_held(n);
        n != 0 && n != 65535 && !fixed && !used && !grouped
    }

    /// Returns the highest number of the pool below a bound that no user and no group has, or `None` if there is none.
    fn free_below(&self, bound: u32, users: &InUse<'_>, groups: &InUse<'_>) -> Option<u32>
        ensures { result ≡ free_below (pooled_by self.now) users.now groups.now bound }
    {
        let mut bound = bound;
        while let Some(n) = self.top(bound) {
            if self.is_free(n, users, groups) {
                return Some(n);
            }
            bound = n;
        }
        None
    }
}

/// A pool, with the number that it gives next.
#[derive(Clone, Copy)]
pub struct Stock<'a> {
    /// The pool.
    pub pool: &'a Pool,
    /// The highest number of the pool that no user and no group has, or `None` if there is none.
    pub next: Option<u32>,
}

impl<'a> Stock<'a> {
    /// Returns the stock of a pool, with the number that it gives first.
    pub(crate) fn of(pool: &'a Pool, users: &InUse<'_>, groups: &InUse<'_>) -> Self
        ensures next { GivesNext result users.now groups.now }
        ensures pool { result.pool ≡ pool.entry }
    {
        Stock {
            pool,
            next: pool.free_below(u32::MAX, users, groups),
        }
    }

    /// Returns the stock after a number was given, which may be the next one. Numbers above the next one are not looked
    /// at again.
    pub(crate) fn further(&self, users: &InUse<'_>, groups: &InUse<'_>) -> Self
        requires { IfSome self.now.next (λ n. n < 4294967295) }
        ensures some { IfSome self.now.next (λ n. result.next ≡ free_below (pooled_by self.now.pool.now) users.now groups.now (n + 1)) }
        ensures none { IfNone self.now.next (result.next ≡ None) }
        ensures pool { result.pool ≡ self.now.pool }
    {
        Stock {
            pool: self.pool,
            next: match self.next {
                Some(n) => self.pool.free_below(n + 1, users, groups),
                None => None,
            },
        }
    }
}

/// What the number of a new user or group is chosen from.
#[derive(Clone, Copy)]
pub struct Supply<'a> {
    /// The pool, with the number that it gives next.
    pub stock: Stock<'a>,
    /// The names and UIDs of all users so far.
    pub users: &'a InUse<'a>,
    /// The names and GIDs of all groups so far.
    pub groups: &'a InUse<'a>,
}
