//! Prints an ACL as tree images have it. Each ACL has exactly one text.
ghost use Rattle.std.specs.Prelude.{◌≡◌, ◌++◌, Some, map, filter, fold, string_bytes, OnOk, IfOk, if◌then◌else◌};
ghost use Rattle.pv_acl.specs.Texts.{perm_text, who_text, named_text, default_text, is_of};
ghost use Rattle.pv_acl.specs.Texts.{access_texts, default_texts, default_mask_texts, acl_text, or_dash, with_entry};

use crate::list::NamedList;
use crate::part::{Acl, Part};
use crate::perm::{Named, Perm, Who};
use std::alloc::{AllocError, Global};
use std::fmt;

impl Perm {
    /// Returns three characters for a permission: `r` or `-`, `w` or `-`, `x` or `-`. For example, 5 gives `r-x`.
    pub fn as_str(&self) -> &'static str
        ensures { result.now ≡ perm_text self.now }
    {
        match self.bits {
            0 => "---",
            1 => "--x",
            2 => "-w-",
            3 => "-wx",
            4 => "r--",
            5 => "r-x",
            6 => "rw-",
            _ => "rwx",
        }
    }
}

impl fmt::Display for Perm {
    ghost output = { λ perm. Some (perm_text perm) };

    fn fmt<W: fmt::Write>(&self, f: &mut fmt::Formatter<W>) -> fmt::Result {
        f.write_str(self.as_str())
    }
}

impl fmt::Display for Who {
    ghost output = { λ who. Some (who_text who) };

    fn fmt<W: fmt::Write>(&self, f: &mut fmt::Formatter<W>) -> fmt::Result {
        match self {
            Who::User(id) => write!(f, "u:{id}"),
            Who::Group(id) => write!(f, "g:{id}"),
        }
    }
}

impl fmt::Display for Named {
    ghost output = { λ named. Some (named_text named) };

    fn fmt<W: fmt::Write>(&self, f: &mut fmt::Formatter<W>) -> fmt::Result {
        let who = &self.who;
        let perm = &self.perm;
        write!(f, "{who}:{perm}")
    }
}

/// Prints an ACL as tree images have it: the short text form of acl(5), with one spelling for each ACL.
///
/// The entries are separated by commas. First come those of the access part: named users by ID as `u:ID:PERM`,
/// named groups by ID as `g:ID:PERM`, and an explicit mask as `m::PERM`. Its base entries are left out, because the
/// mode of the object has them. Then come all entries of the default part, each after `d:`. They are in the order
/// owner, named users, owning group, named groups, mask, others. The text is `-` if there are no entries.
///
/// The only error is `AllocError`. For example, a single named entry that lets user 1000 read gives `u:1000:r--`.
pub fn print_acl(alloc: Global, acl: &Acl) -> Result<Vec<u8>, AllocError>
    ensures { IfOk result (λ text. text.items ≡ acl_text acl.now) }
{
    let mut text = String::new(alloc);
    add_access(alloc, &mut text, &acl.access)?;
    add_default(alloc, &mut text, &acl.default_part)?;
    or_dash(alloc, text)
}

/// Returns the text, or a dash if it is empty.
fn or_dash(alloc: Global, text: String) -> Result<Vec<u8>, AllocError>
    ensures { IfOk result (λ bytes. bytes.items ≡ or_dash (string_bytes text)) }
{
    if text.is_empty() {
        Vec::from_slice(alloc, b"-")
    } else {
        Ok(text.into_bytes())
    }
}

/// Appends the entries of an access part, without the base entries.
fn add_access(alloc: Global, text: &mut String, part: &Part) -> Result<(), AllocError>
    ensures { OnOk result (string_bytes text.new ≡ fold with_entry (string_bytes text.old) (access_texts part.now)) }
{
    add_named(alloc, text, part.named.as_slice())?;
    if let Some(mask) = &part.mask {
        add_tagged(alloc, text, "m::", mask)?;
    }
    Ok(())
}

/// Appends the entries of a default part, if there is one.
fn add_default(alloc: Global, text: &mut String, part: &Option<Part>) -> Result<(), AllocError>
    ensures { OnOk result (string_bytes text.new ≡ fold with_entry (string_bytes text.old) (default_texts part.now)) }
{
    match part {
        Some(part) => add_part(alloc, text, part),
        None => Ok(()),
    }
}

/// Appends the entries of a default part.
fn add_part(alloc: Global, text: &mut String, part: &Part) -> Result<(), AllocError>
    ensures { let texts = default_texts (Some part.now) in
        OnOk result (string_bytes text.new ≡ fold with_entry (string_bytes text.old) texts) }
{
    add_tagged(alloc, text, "d:u::", &part.owner)?;
    add_chosen(alloc, text, &part.named, true)?;
    add_tagged(alloc, text, "d:g::", &part.group)?;
    add_chosen(alloc, text, &part.named, false)?;
    add_default_mask(alloc, text, &part.mask)?;
    add_tagged(alloc, text, "d:o::", &part.other)
}

/// Appends the mask of a default part, if it is explicit.
fn add_default_mask(alloc: Global, text: &mut String, mask: &Option<Perm>) -> Result<(), AllocError>
    ensures { let texts = default_mask_texts mask.now in
        OnOk result (string_bytes text.new ≡ fold with_entry (string_bytes text.old) texts) }
{
    match mask {
        Some(mask) => add_tagged(alloc, text, "d:m::", mask),
        None => Ok(()),
    }
}

/// Appends the named entries of a default part that are for users, or those that are for groups if `users` is
/// false.
fn add_chosen(
    alloc: Global,
    text: &mut String,
    named: &NamedList,
    users: bool,
) -> Result<(), AllocError>
    ensures { let texts = map default_text (filter (is_of users) named.now) in
        OnOk result (string_bytes text.new ≡ fold with_entry (string_bytes text.old) texts) }
{
    for x in named.as_slice() {
        add_if(alloc, text, x, is_of(x, users))?;
    }
    Ok(())
}

/// Appends an entry of a default part, if it is wanted.
fn add_if(alloc: Global, text: &mut String, x: &Named, wanted: bool) -> Result<(), AllocError>
    ensures { let old = string_bytes text.old in
        OnOk result (string_bytes text.new ≡ (if wanted then with_entry old (default_text x.now) else old)) }
{
    if wanted {
        add(text, format!(in alloc; "d:{x}")?.as_str())
    } else {
        Ok(())
    }
}

/// Returns whether an entry is for a user, or, if `users` is false, for a group.
fn is_of(x: &Named, users: bool) -> bool
    ensures { result ≡ is_of users x.now }
{
    match x.who {
        Who::User(_) => users,
        Who::Group(_) => !users,
    }
}

/// Appends named entries.
fn add_named(alloc: Global, text: &mut String, named: &[Named]) -> Result<(), AllocError>
    ensures { OnOk result (string_bytes text.new ≡ fold with_entry (string_bytes text.old) (map named_text named.now)) }
{
    for x in named {
        add(text, format!(in alloc; "{x}")?.as_str())?;
    }
    Ok(())
}

/// Appends an entry of a tag and a permission.
fn add_tagged(alloc: Global, text: &mut String, tag: &str, perm: &Perm) -> Result<(), AllocError>
    ensures { let entry = tag.now ++ perm_text perm.now in
        OnOk result (string_bytes text.new ≡ with_entry (string_bytes text.old) entry) }
{
    add(text, format!(in alloc; "{tag}{perm}")?.as_str())
}

/// Appends an entry, after a comma if it is not the first.
fn add(text: &mut String, entry: &str) -> Result<(), AllocError>
    ensures { OnOk result (string_bytes text.new ≡ with_entry (string_bytes text.old) entry.now) }
{
    if !text.is_empty() {
        text.push_str(",")?;
    }
    text.push_str(entry)
}
