//! New members of groups (group(5), gshadow(5)). The file is cut into its lines once for all of them.
ghost use Rattle.std.specs.Prelude.{◌≡◌, ◌++◌, ℕ, List, [], ◌∷◌, false, true, None, Some, cond, map, IfOk, OnOk};
ghost use Rattle.std.specs.List.{flat_map, list_all};
ghost use Rattle.std.specs.Option.{option_map_or, option_or};
ghost use Rattle.std.specs.Str.{bytes_eq};
ghost use Rattle.pv_accounts.specs.Edits.{lacks_end, text_of, with_member};
ghost use Rattle.pv_accounts.specs.Files.{lines_of};
ghost use Rattle.pv_accounts.specs.Kinds.{has_members, is_entry_named, test_of};
ghost use Rattle.pv_requests.specs.Names.{is_account_name};
ghost use Rattle.pv_sysusers.specs.Members.{AreLines, IsPlaced, are_accounts, lines_held, pairs_of, place_of, place_found};
ghost use Rattle.pv_sysusers.specs.Shown.{shown, shown_line};
ghost use Rattle.pv_sysusers.specs.Texts.{membership_of, with_memberships};

use crate::lines::Line;
use pv_accounts::{Kind, add_member_in, cut, find_line};
use pv_path::pieces_of;
use pv_requests::{Request, is_account_name};
use std::alloc::{AllocError, Global};
use std::collections::HashMap;

/// A group, and a user that becomes a member of it.
pub(crate) type Member<'a> = (&'a [u8], &'a [u8]);

/// The lines of an account file. The first entry of a name is found without a pass over all lines.
#[derive(Drop)]
pub struct MemberLines<'a> {
    /// The lines, without their line feeds.
    lines: Vec<Vec<u8>>,
    /// The index of the first entry of each name, counted from 0.
    places: HashMap<&'a [u8], usize>,
}

/// Returns the name of the entry that a line is, or `None` if the line is not an entry.
fn name_in<'a>(kind: Kind, line: &'a [u8]) -> Option<&'a [u8]>
    requires members { has_members kind ≡ true }
    requires whole { lacks_end line.now ≡ true }
    ensures { (name : List ℕ) → is_entry_named (test_of kind) name line.entry.now ≡ option_map_or (λ n. bytes_eq n.now name) result false }
{
    let (name, _rest) = cut(line, b':')?;
    let _entry = find_line(kind, line, name)?;
    Some(name)
}

impl<'a> MemberLines<'a> {
    /// Returns an empty list of lines.
    fn new(alloc: Global) -> Self
        ensures lines { lines_held result ≡ [] }
        ensures places { (name : List ℕ) → place_found result name ≡ None }
    {
        MemberLines {
            lines: Vec::new(alloc),
            places: HashMap::new(alloc),
        }
    }

    /// Returns the index of the first entry of a name, or `None` if there is none.
    fn place(&self, name: &[u8]) -> Option<usize>
        ensures { result ≡ place_found self.now name.now }
    {
        self.places.get(name).copied()
    }

    /// Notes the index of a name, unless one is known already.
    fn note(&mut self, name: &'a [u8], at: usize) -> Result<(), AllocError>
        ensures places { OnOk result ((other : List ℕ) →
            place_found self.new other ≡ option_or (place_found self.old other) (cond (bytes_eq name.entry.now other) (Some at) None)) }
        ensures lines { self.new.lines ≡ self.old.lines }
    {
        match self.place(name) {
            Some(_) => Ok(()),
            None => {
                self.places.insert(name, at)?;
                Ok(())
            }
        }
    }

    /// Notes the index of a line, if the line is the first entry of its name.
    fn note_line(&mut self, kind: Kind, line: &'a [u8], at: usize) -> Result<(), AllocError>
        requires members { has_members kind ≡ true }
        requires whole { lacks_end line.now ≡ true }
        ensures places { OnOk result ((name : List ℕ) → place_found self.new name
            ≡ option_or (place_found self.old name) (cond (is_entry_named (test_of kind) name line.entry.now) (Some at) None)) }
        ensures lines { self.new.lines ≡ self.old.lines }
    {
        match name_in(kind, line) {
            Some(name) => self.note(name, at),
            None => Ok(()),
        }
    }

    /// Adds a line.
    fn push(&mut self, alloc: Global, kind: Kind, line: &'a [u8]) -> Result<(), AllocError>
        requires members { has_members kind ≡ true }
        requires whole { lacks_end line.now ≡ true }
        requires placed { IsPlaced (test_of kind) self.old }
        ensures lines { OnOk result (lines_held self.new ≡ lines_held self.old ++ line.entry.now ∷ []) }
        ensures placed { OnOk result (IsPlaced (test_of kind) self.new) }
    {
        let at = self.lines.len();
        self.note_line(kind, line, at)?;
        self.lines.push(Vec::from_slice(alloc, line)?)?;
        Ok(())
    }

    /// Cuts a file into its lines.
    fn of(alloc: Global, kind: Kind, file: &'a [u8]) -> Result<Self, AllocError>
        requires { has_members kind ≡ true }
        ensures lines { IfOk result (λ held. lines_held held ≡ lines_of file.entry.now) }
        ensures placed { IfOk result (IsPlaced (test_of kind)) }
    {
        let lines = pieces_of(alloc, file, b'\n')?;
        MemberLines::of_lines(alloc, kind, &lines)
    }

    /// Takes lines that have no line feed in them.
    fn of_lines(alloc: Global, kind: Kind, lines: &[&'a [u8]]) -> Result<Self, AllocError>
        requires members { has_members kind ≡ true }
        requires whole { list_all lacks_end (map (λ line. line.now) lines.now) ≡ true }
        ensures lines { IfOk result (λ held. lines_held held ≡ map (λ line. line.now) lines.entry.now) }
        ensures placed { IfOk result (IsPlaced (test_of kind)) }
    {
        let mut held = MemberLines::new(alloc);
        for line in lines {
            held.push(alloc, kind, line)?;
        }
        Ok(held)
    }

    /// Adds a user at the end of the members of the entry at an index, unless the user is one of them already.
    fn lengthen(
        &mut self,
        alloc: Global,
        kind: Kind,
        at: usize,
        member: Member<'_>,
    ) -> Result<(), AllocError>
        requires members { has_members kind ≡ true }
        requires account { is_account_name member.1.now ≡ true }
        requires place { place_of (test_of kind) member.0.now (lines_held self.old) ≡ Some at }
        requires whole { AreLines (lines_held self.old) }
        ensures lines { OnOk result (lines_held self.new ≡ with_member (test_of kind) member.entry.0.now member.entry.1.now (lines_held self.old)) }
        ensures places { self.new.places ≡ self.old.places }
    {
        let line = add_member_in(alloc, kind, &self.lines[at], member.0, member.1)?;
        self.lines[at] = line;
        Ok(())
    }

    /// Adds a user at the end of the members of the first entry of a group, unless the user is one of them already.
    fn add(&mut self, alloc: Global, kind: Kind, member: Member<'_>) -> Result<(), AllocError>
        requires members { has_members kind ≡ true }
        requires account { is_account_name member.1.now ≡ true }
        requires placed { IsPlaced (test_of kind) self.old }
        requires whole { AreLines (lines_held self.old) }
        ensures lines { OnOk result (lines_held self.new ≡ with_member (test_of kind) member.entry.0.now member.entry.1.now (lines_held self.old)) }
        ensures placed { OnOk result (IsPlaced (test_of kind) self.new) }
        ensures whole { OnOk result (AreLines (lines_held self.new)) }
    {
        match self.place(member.0) {
            Some(at) => self.lengthen(alloc, kind, at, member),
            None => Ok(()),
        }
    }
}

/// Returns the text of lines: line feeds between them.
fn joined(alloc: Global, lines: &[Vec<u8>]) -> Result<Vec<u8>, AllocError>
    ensures { IfOk result (λ text. text.items ≡ text_of (map (λ line. line.items) lines.entry.now)) }
{
    match lines {
        [] => Ok(Vec::new(alloc)),
        [first, others @ ..] => {
            let mut text = Vec::from_slice(alloc, first)?;
            add_lines(&mut text, others)?;
            Ok(text)
        }
    }
}

/// Adds lines to a text, each after a line feed.
fn add_lines(text: &mut Vec<u8>, lines: &[Vec<u8>]) -> Result<(), AllocError>
    ensures { OnOk result (text.new.items ≡ text.old.items ++ flat_map (λ line. 10 ∷ line.items) lines.now) }
{
    for line in lines {
        text.push(b'\n')?;
        text.extend_from_slice(line)?;
    }
    Ok(())
}

/// Adds users to their groups, in order. The file is cut once: each user has the name of an account.
fn with_accounts(
    alloc: Global,
    kind: Kind,
    file: &[u8],
    members: &[Member<'_>],
) -> Result<Vec<u8>, AllocError>
    requires members { has_members kind ≡ true }
    requires accounts { are_accounts members.now ≡ true }
    ensures { IfOk result (λ text. text.items ≡ with_memberships (test_of kind) (pairs_of members.entry.now) file.entry.now) }
{
    let mut held = MemberLines::of(alloc, kind, file)?;
    for member in members {
        held.add(alloc, kind, *member)?;
    }
    joined(alloc, &held.lines)
}

/// Adds users to their groups, in order. The file is cut anew for each one, since a user with another name can begin a
/// line.
fn with_any(
    alloc: Global,
    kind: Kind,
    file: Vec<u8>,
    members: &[Member<'_>],
) -> Result<Vec<u8>, AllocError>
    requires { has_members kind ≡ true }
    ensures { IfOk result (λ text. text.items ≡ with_memberships (test_of kind) (pairs_of members.entry.now) file.items) }
{
    let mut text = file;
    for member in members {
        text = add_member_in(alloc, kind, &text, member.0, member.1)?;
    }
    Ok(text)
}

/// Returns whether each user has the name of an account.
fn are_accounts(members: &[Member<'_>]) -> bool
    ensures { result ≡ are_accounts members.now }
{
    members.iter().all(|member| is_account_name(member.1))
}

/// Adds the group and the user of a line, if it is an m line.
fn add_membership<'a>(members: &mut Vec<Member<'a>>, line: Line<'a>) -> Result<(), AllocError>
    ensures { OnOk result (pairs_of members.new.items ≡ pairs_of members.old.items ++ membership_of (shown_line line.entry)) }
{
    if let Request::Member { user, group, .. } = line.0 {
        members.push((group.as_slice(), user.as_slice()))?;
    }
    Ok(())
}

/// Returns the groups and the users of m lines.
fn memberships_of<'a>(alloc: Global, lines: &[Line<'a>]) -> Result<Vec<Member<'a>>, AllocError>
    ensures { IfOk result (λ members. pairs_of members.items ≡ flat_map membership_of (shown lines.now)) }
{
    let mut members = Vec::new(alloc);
    for line in lines {
        add_membership(&mut members, *line)?;
    }
    Ok(members)
}

/// Returns a file in which each user of an m line is a member of its group. They are added in the order of the lines.
pub(crate) fn with_memberships(
    alloc: Global,
    kind: Kind,
    file: Vec<u8>,
    lines: &[Line<'_>],
) -> Result<Vec<u8>, AllocError>
    requires { has_members kind ≡ true }
    ensures { let members = flat_map membership_of (shown lines.now) in
        IfOk result (λ text. text.items ≡ with_memberships (test_of kind) members file.items) }
{
    let members = memberships_of(alloc, lines)?;
    if members.is_empty() {
        return Ok(file);
    }
    if are_accounts(&members) {
        with_accounts(alloc, kind, &file, &members)
    } else {
        with_any(alloc, kind, file, &members)
    }
}
