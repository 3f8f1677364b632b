//! Reads an ACL from its text in a tree image and the mode of its object.
ghost use Rattle.std.specs.Prelude.{◌≡◌, ◌≤◌, false, true, ℕ, List, Option, IfOk, IfSome, IfNone};
ghost use Rattle.pv_acl.specs.declared.part.Acl.{Acl};
ghost use Rattle.std.specs.Result.{result_ok};
ghost use Rattle.std.specs.Str.{bytes_eq};
ghost use Rattle.pv_acl.specs.Applying.{acl_after, is_line};
ghost use Rattle.pv_acl.specs.Entries.{acl_line_of};
ghost use Rattle.pv_acl.specs.Parts.{is_acl};
ghost use Rattle.pv_acl.specs.Spelling.{IsSpelt, decimal_id};
ghost use Rattle.pv_acl.specs.Texts.{acl_text};

use crate::acl_fault::AclFault;
use crate::apply::apply_entries;
use crate::line::{AclLine, How};
use crate::names::Names;
use crate::numbers::number;
use crate::parse::parse_acl;
use crate::part::Acl;
use crate::print::print_acl;
use std::alloc::{AllocError, Global};

/// Reads an ACL from its text in a tree image and the mode of its object.
///
/// `field` is the text to read. The 9 permission bits of `mode` are the base entries of the access part. `directory`
/// says whether the object is a directory, since only a directory may have a default part.
///
/// Returns `None` if `field` is not exactly the text that `print_acl` gives for some allowed ACL with these base
/// entries. The only error is `AllocError`. For example, `-` gives the ACL of the mode alone.
pub fn read_acl(
    alloc: Global,
    field: &[u8],
    mode: u16,
    directory: bool,
) -> Result<Option<Acl>, AllocError>
    ensures found { IfOk result (λ read. IfSome read (λ acl. IsSpelt field.now mode directory acl)) }
    ensures none { IfOk result (λ read. IfNone read ((acl : Acl) → IsSpelt field.now mode directory acl → ⊥)) }
{
    if field == b"-".as_slice() {
        return Ok(Some(Acl::of_mode(alloc, mode)));
    }
    match line_in(alloc, field)? {
        Some(line) => acl_by(alloc, field, &Acl::of_mode(alloc, mode), &line, directory),
        None => Ok(None),
    }
}

/// Returns the ACL that a line makes of `plain`, or `None` if its one text is not `field`.
fn acl_by(
    alloc: Global,
    field: &[u8],
    plain: &Acl,
    line: &AclLine,
    directory: bool,
) -> Result<Option<Acl>, AllocError>
    ensures made { let made = acl_after plain.now line.now How.Add directory in
        IfOk result (λ read. IfSome read (λ acl. acl ≡ made)) }
    ensures text { IfOk result (λ read. IfSome read (λ acl. bytes_eq (acl_text acl) field.now ≡ true)) }
    ensures allowed { is_acl plain.now ≡ true → is_line line.now ≡ true →
        IfOk result (λ read. IfSome read (λ acl. is_acl acl ≡ true)) }
    ensures none { let made = acl_after plain.now line.now How.Add directory in
        IfOk result (λ read. IfNone read (bytes_eq (acl_text made) field.now ≡ false)) }
{
    let acl = apply_entries(alloc, plain, line, How::Add, directory)?;
    if is_text_of(alloc, field, &acl)? {
        Ok(Some(acl))
    } else {
        Ok(None)
    }
}

/// Returns whether `field` is the one text of an ACL.
fn is_text_of(alloc: Global, field: &[u8], acl: &Acl) -> Result<bool, AllocError>
    ensures { IfOk result (λ same. same ≡ bytes_eq (acl_text acl.now) field.now) }
{
    let text = print_acl(alloc, acl)?;
    Ok(text.as_slice() == field)
}

/// Returns the entries of a field, or `None` if it is not a list of entries.
fn line_in(alloc: Global, field: &[u8]) -> Result<Option<AclLine>, AllocError>
    ensures read { let read = acl_line_of decimal_id decimal_id field.now in
        IfOk result (λ line. line ≡ result_ok read) }
    ensures allowed { IfOk result (λ line. IfSome line (λ line. is_line line ≡ true)) }
{
    match parse_acl(alloc, field, &Decimals) {
        Ok(line) => Ok(Some(line)),
        Err(fault) => match fault {
            AclFault::EmptyEntry => Ok(None),
            AclFault::BadTag => Ok(None),
            AclFault::UnknownName => Ok(None),
            AclFault::BadPerm => Ok(None),
            AclFault::Memory => Err(AllocError),
        },
    }
}

/// The lookup for tree images, where every ID is written in digits.
struct Decimals;

impl Names for Decimals {
    ghost uid_named = { λ _ text. decimal_id text };

    ghost gid_named = { λ _ text. decimal_id text };

    fn uid_of(&self, name: &[u8]) -> Option<u32> {
        decimal_id(name)
    }

    fn gid_of(&self, name: &[u8]) -> Option<u32> {
        decimal_id(name)
    }
}

/// Reads an ID from a tree image: 0 to 4294967294. Unlike `written_id`, it takes 65535 too.
///
/// The text is a number as `number` reads it. Returns `None` for every other text.
pub fn decimal_id(text: &[u8]) -> Option<u32>
    ensures value { result ≡ decimal_id text.now }
    ensures small { IfSome result (λ id. id ≤ 4294967294) }
{
    match number(text) {
        Some(n) if n <= 4294967294 => Some(n as u32),
        _ => None,
    }
}
