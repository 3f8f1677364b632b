//! The effective lines of a configuration: of several u lines of one user, the first one (sysusers.d(5)).
ghost use Rattle.std.specs.Prelude.{◌≡◌, [], ◌++◌, ◌∷◌, None, Some, IfOk, OnOk};
ghost use Rattle.std.specs.Option.{option_map};
ghost use Rattle.pv_sysusers.specs.Lines.{counting, duplicate_message, first_user, lines_from, owners_at, place_of, messages_again, duplicate_messages, user_of, with_counting};
ghost use Rattle.pv_sysusers.specs.Shown.{IsIndexed, shown, shown_line};

use crate::path_ids::{PathId, PathIds};
use pv_path::add_printed;
use pv_requests::{Request, RequestList, is_same_user};
use pv_text::{Messages, Place};
use std::alloc::{AllocError, Global};
use std::collections::HashMap;

/// A request, with the owners of the object at its path, if they are known.
pub(crate) type Line<'a> = (&'a Request, Option<PathId>);

/// The effective lines of a configuration. The first u line of each user can be looked up by the user's name.
#[derive(Drop)]
pub struct Lines<'a> {
    /// The lines, in their order.
    pub kept: Vec<Line<'a>>,
    /// The first u line of each user.
    users: HashMap<&'a [u8], &'a Request>,
}

/// Returns the user that a u line names, or `None` if the line is of another type.
fn user_of(request: &Request) -> Option<&[u8]>
    ensures { option_map (λ name. name.now) result ≡ user_of request.now }
{
    match request {
        Request::User { name, .. } => Some(name.as_slice()),
        _ => None,
    }
}

/// Returns the location of a request: its file and line.
fn place_of(request: &Request) -> &Place
    ensures { result.now ≡ place_of request.now }
{
    match request {
        Request::User { place, .. } => place,
        Request::Group { place, .. } => place,
        Request::Member { place, .. } => place,
        Request::Range { place, .. } => place,
    }
}

/// Returns the owners at an index, counted from 0, or `None` if they are not known.
fn owners_at(taken: &PathIds, i: usize) -> Option<PathId>
    ensures { result ≡ owners_at taken.now i }
{
    match taken.get(i) {
        Some(owners) => *owners,
        None => None,
    }
}

/// Adds the message that a u line comes again.
fn say_duplicate(
    alloc: Global,
    line: &Request,
    name: &[u8],
    new_messages: &mut Messages,
) -> Result<(), AllocError>
    ensures { OnOk result (new_messages.new ≡ new_messages.old ++ duplicate_message (place_of line.now) name.now ∷ []) }
{
    let mut text = Vec::from_slice(alloc, b"duplicate line for ")?;
    add_printed(&mut text, name)?;
    new_messages.push_at(place_of(line), &text)
}

impl<'a> Lines<'a> {
    /// Returns an empty list of lines.
    fn new(alloc: Global) -> Self
        ensures kept { shown result.kept.items ≡ [] }
        ensures index { IsIndexed result }
    {
        Lines {
            kept: Vec::new(alloc),
            users: HashMap::new(alloc),
        }
    }

    /// Returns the first u line of a user, or `None` if there is none.
    pub(crate) fn first_user(&self, name: &[u8]) -> Option<&'a Request>
        requires { IsIndexed self.now }
        ensures { option_map (λ line. line.now) result ≡ first_user (shown self.now.kept.items) name.now }
    {
        self.users.get(name).copied()
    }

    /// Adds a line that is not a u line.
    fn add_other(&mut self, line: Line<'a>) -> Result<(), AllocError>
        requires index { IsIndexed self.old }
        requires other { user_of (shown_line line).0 ≡ None }
        ensures kept { OnOk result (shown self.new.kept.items ≡ shown self.old.kept.items ++ shown_line line.entry ∷ []) }
        ensures index { OnOk result (IsIndexed self.new) }
    {
        self.kept.push(line)?;
        Ok(())
    }

    /// Adds a line that is the first u line of a user.
    fn add_user(&mut self, name: &'a [u8], line: Line<'a>) -> Result<(), AllocError>
        requires index { IsIndexed self.old }
        requires user { user_of (shown_line line).0 ≡ Some name.now }
        requires new { first_user (shown self.old.kept.items) name.now ≡ None }
        ensures kept { OnOk result (shown self.new.kept.items ≡ shown self.old.kept.items ++ shown_line line.entry ∷ []) }
        ensures index { OnOk result (IsIndexed self.new) }
    {
        self.users.insert(name, line.0)?;
        self.kept.push(line)?;
        Ok(())
    }

    /// Adds a line if it is effective. Otherwise, it adds a message if the line asks for something other than the
    /// effective one.
    fn add(
        &mut self,
        alloc: Global,
        line: Line<'a>,
        new_messages: &mut Messages,
    ) -> Result<(), AllocError>
        requires { IsIndexed self.old }
        ensures kept { OnOk result (shown self.new.kept.items ≡ with_counting (shown self.old.kept.items) (shown_line line.entry)) }
        ensures index { OnOk result (IsIndexed self.new) }
        ensures new_messages { OnOk result (new_messages.new ≡ new_messages.old ++ messages_again (shown self.old.kept.items) (shown_line line.entry)) }
    {
        let Some(name) = user_of(line.0) else {
            return self.add_other(line);
        };
        let Some(first) = self.first_user(name) else {
            return self.add_user(name, line);
        };
        if !is_same_user(first, line.0) {
            say_duplicate(alloc, line.0, name, new_messages)?;
        }
        Ok(())
    }
}

/// Returns the effective lines of requests, and adds the messages about repeated lines.
pub(crate) fn effective_lines<'a>(
    alloc: Global,
    requests: &'a RequestList,
    taken: &PathIds,
    new_messages: &mut Messages,
) -> Result<Lines<'a>, AllocError>
    ensures kept { IfOk result (λ lines. shown lines.kept.items ≡ counting [] (lines_from taken.now 0 requests.entry.now)) }
    ensures index { IfOk result IsIndexed }
    ensures new_messages { OnOk result (new_messages.new ≡ new_messages.old ++ duplicate_messages [] (lines_from taken.now 0 requests.entry.now)) }
{
    let mut lines = Lines::new(alloc);
    for (i, request) in requests.as_slice().iter().enumerate() {
        lines.add(alloc, (request, owners_at(taken, i)), new_messages)?;
    }
    Ok(lines)
}
