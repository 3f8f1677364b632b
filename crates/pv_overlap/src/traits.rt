//! The properties of a line that hazards depend on, besides its path.
ghost use Rattle.std.specs.Prelude.{◌≡◌, IfOk};
ghost use Rattle.std.specs.List.{list_any};
ghost use Rattle.pv_walk.specs.Reasons.{is_adjusting, is_append, is_base, gives_base};
ghost use Rattle.pv_table.specs.Reaching.{is_deep, reaches_below, spares_below, takes_below};
ghost use Rattle.pv_table.specs.Repeatable.{changes_content, has_masked_mode, takes_named};
ghost use Rattle.pv_overlap.specs.Marks.{traits_of};

use pv_acl::{AclLine, Entry};
use pv_lines::Line;
use pv_table::{
    Action, Sparing, Taking, action_of, is_creating, is_writing, sparing_of, taking_of,
};
use pv_walk::{Change, Operation};
use std::alloc::{AllocError, Global};

/// The properties of a line that hazards depend on, besides its path.
#[derive(Clone, Copy)]
pub(crate) struct Traits {
    /// It appends bytes.
    pub(crate) appends: bool,
    /// It has a masked mode (`~`).
    pub(crate) masked: bool,
    /// It sets base entries of an ACL (acl(5)).
    pub(crate) base: bool,
    /// It may change what is read from a path that it governs.
    pub(crate) changes: bool,
    /// It copies a path.
    pub(crate) copies: bool,
}

/// Returns whether an operation appends bytes.
fn is_append(operation: &Operation) -> bool
    ensures { result ≡ is_adjusting is_append operation.now }
{
    match operation {
        Operation::Apply { change, .. } => matches!(change, Change::Append(_)),
        _ => false,
    }
}

/// Returns whether an entry of an ACL is that of the owner, the owning group or all others.
fn is_base(entry: &Entry) -> bool
    ensures { result ≡ is_base entry.now }
{
    matches!(entry, Entry::Owner(_) | Entry::Group(_) | Entry::Other(_))
}

/// Returns whether the entries that a line gives have a base entry in the access part.
fn has_base(line: &AclLine) -> bool
    ensures { result ≡ list_any is_base line.now.access }
{
    line.access.as_slice().iter().any(|entry| is_base(entry))
}

/// Returns whether an operation sets base entries of an ACL.
fn gives_base(operation: &Operation) -> bool
    ensures { result ≡ is_adjusting gives_base operation.now }
{
    match operation {
        Operation::Apply { change, .. } => match change {
            Change::Entries { line, .. } => has_base(line),
            _ => false,
        },
        _ => false,
    }
}

/// Returns whether some operation appends bytes.
fn appends(operations: &[Operation]) -> bool
    ensures { result ≡ list_any (is_adjusting is_append) operations.now }
{
    operations.iter().any(|operation| is_append(operation))
}

/// Returns whether some operation sets base entries of an ACL.
fn sets_base(operations: &[Operation]) -> bool
    ensures { result ≡ list_any (is_adjusting gives_base) operations.now }
{
    operations.iter().any(|operation| gives_base(operation))
}

/// Returns whether a line has a masked mode.
fn has_masked_mode(line: &Line) -> bool
    ensures { result ≡ has_masked_mode line.now }
{
    match line.mode {
        Some(mode) => mode.masked,
        None => false,
    }
}

/// Returns whether a line removes what it names.
fn takes_named(taking: Taking) -> bool
    ensures { result ≡ takes_named taking }
{
    matches!(taking, Taking::Itself | Taking::Whole)
}

/// Returns whether a line may change what is read from a path that it governs.
fn changes_content(line: &Line) -> bool
    ensures { result ≡ changes_content line.now }
{
    is_creating(line) || is_writing(line) || takes_named(taking_of(line)) || line.age.is_some()
}

/// Returns the properties of a line.
pub(crate) fn traits_of(alloc: Global, line: &Line) -> Result<Traits, AllocError>
    ensures { IfOk result (λ traits. traits ≡ traits_of line.now) }
{
    let action = action_of(alloc, line)?;
    Ok(Traits {
        appends: appends(action.sets()),
        masked: has_masked_mode(line),
        base: sets_base(action.sets()),
        changes: changes_content(line),
        copies: matches!(&action, Action::Copy(_)),
    })
}

/// Returns whether what is done at a path reaches everything below it.
fn is_deep(action: &Action) -> bool
    ensures { result ≡ is_deep action.now }
{
    match action {
        Action::Create(making) => making.renew.is_some(),
        Action::Copy(_) => true,
        Action::Adjust(adjustment) => adjustment.deep,
        Action::Idle => false,
    }
}

/// Returns whether what is removed at a path is removed together with, or only in, what is below it.
fn takes_below(taking: Taking) -> bool
    ensures { result ≡ takes_below taking }
{
    matches!(taking, Taking::Whole | Taking::Contents)
}

/// Returns whether a line reaches everything below the paths that it names (tmpfiles.d(5)).
pub(crate) fn reaches_below(alloc: Global, line: &Line) -> Result<bool, AllocError>
    ensures { IfOk result (λ below. below ≡ reaches_below line.now) }
{
    let action = action_of(alloc, line)?;
    let spares = matches!(sparing_of(line), Some(Sparing::Whole));
    Ok(
        is_deep(&action)
            || takes_below(taking_of(line))
            || spares
            || line.age.is_some()
            || line.purge,
    )
}
