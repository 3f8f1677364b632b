//! Reads the ACL entries of a configuration line, or finds their first fault.
ghost use Rattle.std.specs.Prelude.{◌≡◌, ◌≤◌, ◌<◌, ◌==◌, true, ℕ, List, Option, OnOk, IfOk, IfErr, IfSome, map, length, [], ◌∷◌};
ghost use Rattle.std.specs.List.{list_all, slice_split};
ghost use Rattle.std.specs.Option.{option_map};
ghost use Rattle.pv_acl.specs.Applying.{is_entry, is_line};
ghost use Rattle.pv_acl.specs.Entries.{is_word, times, perm_of, is_perm_text, has_letters_once, is_perm_byte};
ghost use Rattle.pv_acl.specs.Entries.{named_tag, nameless_tag, is_entry_tag, entry_tag_of, entry_at};
ghost use Rattle.pv_acl.specs.declared.perm.Who.TheVariants as who;
ghost use Rattle.pv_acl.specs.Entries.{entry_of, part_entry_of, text_entry_of, acl_line_of, added, Gives};

use crate::acl_fault::AclFault;
use crate::line::{AclLine, Entry, EntryList};
use crate::names::Names;
use crate::numbers::written_id;
use crate::perm::{Named, Perm, Who};
use std::alloc::{AllocError, Global};

/// The entry of a part that a text is for, without its permissions.
#[derive(Clone, Copy)]
pub enum EntryTag {
    /// The base entry of the owner.
    Owner,
    /// The base entry of the owning group.
    Group,
    /// The base entry of all others.
    Other,
    /// The mask.
    Mask,
    /// The entry of one more user or group.
    Named(Who),
}

/// An entry, and the part for which it is.
#[derive(Clone, Copy)]
pub struct PartEntry {
    /// Whether the entry is for the default part.
    pub of_default: bool,
    /// The entry itself.
    pub entry: Entry,
}

/// Reads the ACL entries of a configuration line: entries `[default:]TAG:NAME:PERM`, separated by commas
/// (tmpfiles.d(5)).
///
/// - TAG is `user`, `group`, `mask` or `other`, or the first letter of it. `default` may be written `d`.
/// - NAME of a user or a group is an ID (see `written_id`), otherwise a name that `names` finds.
/// - An empty NAME means the owner or the owning group. For `mask` and `other`, NAME is always empty.
/// - PERM is one to three characters of `r`, `w`, `x` and `-`, each letter at most once, in any order. The letter `X`
///   of setfacl(1) is an error.
///
/// For example, `u:1000:rwx,d:g::r-x` gives one access entry, for user 1000, and one default entry, for the owning
/// group.
///
/// An error comes from the first faulty entry from the left. If that entry has several faults, it is the first of
/// them in the order of `AclFault`. `Memory` may come instead if an allocation fails.
pub fn parse_acl<N: Names>(alloc: Global, text: &[u8], names: &N) -> Result<AclLine, AclFault>
    ensures reads { Gives result (acl_line_of (N.uid_named names.now) (N.gid_named names.now) text.now) }
    ensures allowed { IfOk result (λ line. is_line line ≡ true) }
{
    let mut line = AclLine {
        access: EntryList::new(alloc),
        default_part: EntryList::new(alloc),
    };
    let texts = split(alloc, text, b',')?;
    for text in &texts {
        add_entry(alloc, &mut line, text, names)?;
    }
    Ok(line)
}

/// Adds the entry of a text to a line.
fn add_entry<N: Names>(
    alloc: Global,
    line: &mut AclLine,
    text: &[u8],
    names: &N,
) -> Result<(), AclFault>
    ensures ok { let entry = text_entry_of (N.uid_named names.now) (N.gid_named names.now) text.now in
        OnOk result (added line.old entry ≡ Ok line.new) }
    ensures err { let entry = text_entry_of (N.uid_named names.now) (N.gid_named names.now) text.now in
        IfErr result (λ fault. Gives (Err fault) entry) }
    ensures allowed { is_line line.old ≡ true → OnOk result (is_line line.new ≡ true) }
{
    let entry = text_entry_of(alloc, text, names)?;
    if entry.of_default {
        line.default_part.push(entry.entry)?;
        return Ok(());
    }
    line.access.push(entry.entry)?;
    Ok(())
}

/// Returns whether a word is written in full or as its first letter.
fn is_word(word: &[u8], long: &[u8], short: &[u8]) -> bool
    ensures { result ≡ is_word word.now long.now short.now }
{
    word == long || word == short
}

/// Returns how often a byte occurs in a text.
fn times(byte: u8, text: &[u8]) -> usize
    ensures value { result ≡ times byte text.now }
    ensures within { result ≤ length text.now }
{
    text.iter().filter(|b| **b == byte).count()
}

/// Returns whether each of `r`, `w` and `x` occurs at most once in a text.
fn has_letters_once(text: &[u8]) -> bool
    ensures { result ≡ has_letters_once text.now }
{
    let reads = times(b'r', text);
    let writes = times(b'w', text);
    let executes = times(b'x', text);
    reads <= 1 && writes <= 1 && executes <= 1
}

/// Returns whether a text is one to three characters of `r`, `w`, `x` and `-`, each letter at most once.
fn is_perm_text(text: &[u8]) -> bool
    ensures { result ≡ is_perm_text text.now }
{
    let is_plain = has_perm_bytes(text);
    let once = has_letters_once(text);
    !text.is_empty() && text.len() <= 3 && is_plain && once
}

fn has_perm_bytes(text: &[u8]) -> bool
    ensures { result ≡ list_all is_perm_byte text.now }
{
    text.iter().all(|b| is_perm_byte(*b))
}

fn is_perm_byte(b: u8) -> bool
    ensures { result ≡ is_perm_byte b }
{
    b == b'r' || b == b'w' || b == b'x' || b == b'-'
}

/// Returns the permission that a text spells, or `None` if it spells none.
fn perm_of(text: &[u8]) -> Option<Perm>
    ensures { result ≡ perm_of text.now }
{
    if !is_perm_text(text) {
        return None;
    }
    Some(Perm {
        bits: (4 * times(b'r', text) + 2 * times(b'w', text) + times(b'x', text)) as u8,
    })
}

/// Returns which entry `user` with this name sets. Without a name it is that of the owner.
fn user_tag<N: Names>(name: &[u8], names: &N) -> Result<EntryTag, AclFault>
    ensures value { result ≡ named_tag EntryTag.Owner (λ id. who.User id) (N.uid_named names.now) name.now }
    ensures allowed { IfOk result (λ entry_tag. is_entry_tag entry_tag ≡ true) }
{
    if name.is_empty() {
        return Ok(EntryTag::Owner);
    }
    if let Some(id) = written_id(name) {
        return Ok(EntryTag::Named(Who::User(id)));
    }
    match names.uid_of(name) {
        Some(id) => Ok(EntryTag::Named(Who::User(id))),
        None => Err(AclFault::UnknownName),
    }
}

/// Returns which entry `group` with this name sets. Without a name it is that of the owning group.
fn group_tag<N: Names>(name: &[u8], names: &N) -> Result<EntryTag, AclFault>
    ensures value { result ≡ named_tag EntryTag.Group (λ id. who.Group id) (N.gid_named names.now) name.now }
    ensures allowed { IfOk result (λ entry_tag. is_entry_tag entry_tag ≡ true) }
{
    if name.is_empty() {
        return Ok(EntryTag::Group);
    }
    if let Some(id) = written_id(name) {
        return Ok(EntryTag::Named(Who::Group(id)));
    }
    match names.gid_of(name) {
        Some(id) => Ok(EntryTag::Named(Who::Group(id))),
        None => Err(AclFault::UnknownName),
    }
}

/// Returns the tag if the name is empty, for an entry that takes no name.
fn nameless_tag(entry_tag: EntryTag, name: &[u8]) -> Result<EntryTag, AclFault>
    requires { is_entry_tag entry_tag ≡ true }
    ensures value { result ≡ nameless_tag entry_tag name.now }
    ensures allowed { IfOk result (λ entry_tag. is_entry_tag entry_tag ≡ true) }
{
    if name.is_empty() {
        Ok(entry_tag)
    } else {
        Err(AclFault::BadTag)
    }
}

/// Returns which entry a tag and a name set.
fn entry_tag_of<N: Names>(tag: &[u8], name: &[u8], names: &N) -> Result<EntryTag, AclFault>
    ensures value { result ≡ entry_tag_of (N.uid_named names.now) (N.gid_named names.now) tag.now name.now }
    ensures allowed { IfOk result (λ entry_tag. is_entry_tag entry_tag ≡ true) }
{
    if is_word(tag, b"user", b"u") {
        user_tag(name, names)
    } else if is_word(tag, b"group", b"g") {
        group_tag(name, names)
    } else if is_word(tag, b"mask", b"m") {
        nameless_tag(EntryTag::Mask, name)
    } else if is_word(tag, b"other", b"o") {
        nameless_tag(EntryTag::Other, name)
    } else {
        Err(AclFault::BadTag)
    }
}

/// Returns the entry with this tag and permission.
fn entry_at(entry_tag: EntryTag, perm: Perm) -> Entry
    requires { is_entry_tag entry_tag ≡ true }
    ensures value { result ≡ entry_at entry_tag perm }
    ensures allowed { is_entry result ≡ true }
{
    match entry_tag {
        EntryTag::Owner => Entry::Owner(perm),
        EntryTag::Group => Entry::Group(perm),
        EntryTag::Other => Entry::Other(perm),
        EntryTag::Mask => Entry::Mask(perm),
        EntryTag::Named(who) => Entry::Named(Named { who, perm }),
    }
}

/// Returns the entry of TAG, NAME and PERM, or the first fault: of the tag, then of the name, then of the
/// permissions.
fn three_parts<N: Names>(tag: &[u8], name: &[u8], perm: &[u8], names: &N) -> Result<Entry, AclFault>
    ensures value { let parts = tag.now ∷ name.now ∷ perm.now ∷ [] in
        result ≡ entry_of (N.uid_named names.now) (N.gid_named names.now) parts }
    ensures allowed { IfOk result (λ entry. is_entry entry ≡ true) }
{
    let entry_tag = entry_tag_of(tag, name, names)?;
    match perm_of(perm) {
        Some(perm) => Ok(entry_at(entry_tag, perm)),
        None => Err(AclFault::BadPerm),
    }
}

/// Returns the entry of the parts of a text without `default`.
fn entry_of<N: Names>(parts: &[&[u8]], names: &N) -> Result<Entry, AclFault>
    ensures value { let texts = map (λ part. part.now) parts.now in
        result ≡ entry_of (N.uid_named names.now) (N.gid_named names.now) texts }
    ensures allowed { IfOk result (λ entry. is_entry entry ≡ true) }
{
    match parts {
        [tag, name, perm] => three_parts(tag, name, perm, names),
        _ => Err(AclFault::BadTag),
    }
}

/// Returns the entry of the parts of a text, which may begin with `default` or `d`.
fn part_entry_of<N: Names>(parts: &[&[u8]], names: &N) -> Result<PartEntry, AclFault>
    ensures value { let texts = map (λ part. part.now) parts.now in
        result ≡ part_entry_of (N.uid_named names.now) (N.gid_named names.now) texts }
    ensures allowed { IfOk result (λ e. is_entry e.entry ≡ true) }
{
    match parts {
        [] => Err(AclFault::BadTag),
        [word, rest @ ..] => {
            if is_word(word, b"default", b"d") {
                let entry = entry_of(rest, names)?;
                return Ok(PartEntry {
                    of_default: true,
                    entry,
                });
            }
            let entry = entry_of(parts, names)?;
            Ok(PartEntry {
                of_default: false,
                entry,
            })
        }
    }
}

/// Splits a text at each occurrence of a byte.
fn split(alloc: Global, text: &[u8], byte: u8) -> Result<Vec<&[u8]>, AllocError>
    ensures { let pieces = slice_split (λ b. b == byte) text.now in
        IfOk result (λ parts. map (λ part. part.now) parts.items ≡ pieces) }
{
    text.split(|b| *b == byte).collect(alloc)
}

/// Returns the entry of a text, whose parts are separated by colons.
fn text_entry_of<N: Names>(alloc: Global, text: &[u8], names: &N) -> Result<PartEntry, AclFault>
    ensures value { Gives result (text_entry_of (N.uid_named names.now) (N.gid_named names.now) text.now) }
    ensures allowed { IfOk result (λ e. is_entry e.entry ≡ true) }
{
    if text.is_empty() {
        return Err(AclFault::EmptyEntry);
    }
    let parts = split(alloc, text, b':')?;
    part_entry_of(parts.as_slice(), names)
}
