//! ACL texts, and what lines make of ACLs.
use super::given::People;
use crate::marks::{Arguments, new_messages, octal_in, shown, spaced, unread};
use pv_acl::{
    Acl, AclLine, Entry, How, Named, NamedList, Who, apply_entries, effective_mask, parse_acl,
    print_acl, read_acl,
};
use std::alloc::{AllocError, Global};

/// What a call answers for arguments.
pub(crate) fn answer_to(
    alloc: Global,
    call: &str,
    arguments: &Arguments,
) -> Result<Vec<u8>, AllocError> {
    match call {
        "entries" => entries_answer(alloc, arguments.at(0)),
        "changed" => {
            let old = acl_of(alloc, arguments.at(0), arguments.at(1), b"add")?;
            changed_answer(
                alloc,
                old,
                arguments.at(2),
                arguments.at(3),
                arguments.at(4),
            )
        }
        "list" => list_answer(alloc, arguments.at(0)),
        "put" => put_answer(alloc, arguments.at(0), arguments.at(1)),
        "field" => field_answer(alloc, arguments.at(0), arguments.at(1), arguments.at(2)),
        "of-mode" => of_mode_answer(alloc, arguments.at(0)),
        _ => part_answer(alloc, call, arguments),
    }
}

/// What a call on the ACL that a line makes of a mode answers.
fn part_answer(alloc: Global, call: &str, arguments: &Arguments) -> Result<Vec<u8>, AllocError> {
    match acl_of(alloc, arguments.at(0), arguments.at(1), arguments.at(2))? {
        Some(acl) => part_of(alloc, call, acl, arguments.at(3)),
        None => new_messages(alloc, "no ACL"),
    }
}

/// What a call on an ACL answers.
fn part_of(alloc: Global, call: &str, acl: Acl, bits: &[u8]) -> Result<Vec<u8>, AllocError> {
    match call {
        "mask" => shown(alloc, &effective_mask(&acl.access).bits),
        "minimal" => shown(alloc, &acl.is_minimal()),
        "special-mode" => special_answer(alloc, &acl, bits),
        "with-base" => base_answer(alloc, acl, bits),
        _ => unread(alloc),
    }
}

/// A named entry: whom it speaks of, and its permissions.
fn named_word(alloc: Global, named: Named) -> Result<String, AllocError> {
    let bits = named.perm.bits;
    match named.who {
        Who::User(id) => format!(in alloc; " user {id} {bits}"),
        Who::Group(id) => format!(in alloc; " group {id} {bits}"),
    }
}

/// The name of a class, and its permissions.
fn class_word(alloc: Global, class: &str, bits: u8) -> Result<String, AllocError> {
    format!(in alloc; " {class} {bits}")
}

/// An entry: its place, and its permissions.
fn entry_word(alloc: Global, entry: Entry) -> Result<String, AllocError> {
    match entry {
        Entry::Owner(perm) => class_word(alloc, "owner", perm.bits),
        Entry::Group(perm) => class_word(alloc, "group", perm.bits),
        Entry::Other(perm) => class_word(alloc, "other", perm.bits),
        Entry::Mask(perm) => class_word(alloc, "mask", perm.bits),
        Entry::Named(named) => named_word(alloc, named),
    }
}

/// Adds entries behind a word.
fn add_entries(
    alloc: Global,
    text: &mut String,
    word: &str,
    entries: &[Entry],
) -> Result<(), AllocError> {
    text.push_str(word)?;
    for entry in entries {
        text.push_str(&entry_word(alloc, *entry)?)?;
    }
    Ok(())
}

/// The entries of a line, those of access first.
fn line_answer(alloc: Global, line: &AclLine) -> Result<Vec<u8>, AllocError> {
    let mut text = String::new(alloc);
    add_entries(alloc, &mut text, "access", line.access.as_slice())?;
    add_entries(alloc, &mut text, " default", line.default_part.as_slice())?;
    Ok(text.into_bytes())
}

/// The entries of a text, or its fault.
fn entries_answer(alloc: Global, text: &[u8]) -> Result<Vec<u8>, AllocError> {
    match parse_acl(alloc, text, &People) {
        Ok(line) => line_answer(alloc, &line),
        Err(fault) => shown(alloc, &fault),
    }
}

/// How a line is taken.
fn how_in(word: &[u8]) -> How {
    match word {
        b"replace" => How::Replace,
        _ => How::Add,
    }
}

/// What a line makes of an ACL that says what a mode says.
fn applied(alloc: Global, mode: u16, line: &AclLine, how: &[u8]) -> Result<Acl, AllocError> {
    apply_entries(alloc, &Acl::of_mode(alloc, mode), line, how_in(how), false)
}

/// What a line makes of the ACL of a mode.
fn acl_of(alloc: Global, mode: &[u8], line: &[u8], how: &[u8]) -> Result<Option<Acl>, AllocError> {
    match (octal_in(mode), parse_acl(alloc, line, &People).ok()) {
        (Some(mode), Some(line)) => Ok(Some(applied(alloc, mode, &line, how)?)),
        _ => Ok(None),
    }
}

/// The mode of the base entries of an ACL, and its text.
fn acl_answer(alloc: Global, acl: &Acl) -> Result<Vec<u8>, AllocError> {
    let text = print_acl(alloc, acl)?;
    spaced(
        shown(alloc, &format_args!("{:o}", acl.access.mode(0)))?,
        &text,
    )
}

/// What a line makes of an ACL.
fn changed_answer(
    alloc: Global,
    old: Option<Acl>,
    line: &[u8],
    how: &[u8],
    kind: &[u8],
) -> Result<Vec<u8>, AllocError> {
    let Some(old) = old else {
        return new_messages(alloc, "no ACL");
    };
    let directory = kind == b"directory".as_slice();
    match parse_acl(alloc, line, &People) {
        Ok(line) => acl_answer(
            alloc,
            &apply_entries(alloc, &old, &line, how_in(how), directory)?,
        ),
        Err(fault) => shown(alloc, &fault),
    }
}

/// The mode of an ACL with special bits.
fn special_answer(alloc: Global, acl: &Acl, special: &[u8]) -> Result<Vec<u8>, AllocError> {
    match special {
        [digit @ b'0'..=b'7'] => {
            shown(alloc, &format_args!("{:o}", acl.access.mode(*digit - b'0')))
        }
        _ => unread(alloc),
    }
}

/// An ACL after the base entries of a mode are set.
fn base_answer(alloc: Global, mut acl: Acl, base: &[u8]) -> Result<Vec<u8>, AllocError> {
    match octal_in(base) {
        Some(base) => {
            acl.access.set_base(base);
            acl_answer(alloc, &acl)
        }
        None => unread(alloc),
    }
}

/// Whether an ACL says what its mode says, and the ACL.
fn whole_answer(alloc: Global, acl: &Acl) -> Result<Vec<u8>, AllocError> {
    let text = acl_answer(alloc, acl)?;
    spaced(shown(alloc, &acl.is_minimal())?, &text)
}

/// Whether the ACL of a mode says what the mode says, and the ACL.
fn of_mode_answer(alloc: Global, mode: &[u8]) -> Result<Vec<u8>, AllocError> {
    match octal_in(mode) {
        Some(mode) => whole_answer(alloc, &Acl::of_mode(alloc, mode)),
        None => unread(alloc),
    }
}

/// The entries of a list.
fn named_answer(alloc: Global, list: &NamedList) -> Result<Vec<u8>, AllocError> {
    let mut text = "named".to_string(alloc)?;
    for named in list.as_slice() {
        text.push_str(&named_word(alloc, *named)?)?;
    }
    Ok(text.into_bytes())
}

/// The list of two named entries, added one after the other.
fn pushed(alloc: Global, entries: &[Entry]) -> Result<NamedList, AllocError> {
    let mut list = NamedList::new(alloc);
    if let [Entry::Named(first), Entry::Named(second)] = entries {
        if first.who.is_before(second.who) {
            list.push(*first)?;
            list.push(*second)?;
        }
    }
    Ok(list)
}

/// The list of the two named entries of a text.
fn list_answer(alloc: Global, text: &[u8]) -> Result<Vec<u8>, AllocError> {
    match parse_acl(alloc, text, &People) {
        Ok(line) => named_answer(alloc, &pushed(alloc, line.access.as_slice())?),
        Err(fault) => shown(alloc, &fault),
    }
}

/// Puts named entries into a list.
fn put_all(list: &mut NamedList, entries: &[Entry]) -> Result<(), AllocError> {
    for entry in entries {
        if let Entry::Named(named) = entry {
            list.put(*named)?;
        }
    }
    Ok(())
}

/// A list after the named entries of a text are put.
fn after_put(alloc: Global, mut list: NamedList, more: &[u8]) -> Result<Vec<u8>, AllocError> {
    match parse_acl(alloc, more, &People) {
        Ok(more) => {
            put_all(&mut list, more.access.as_slice())?;
            named_answer(alloc, &list)
        }
        Err(fault) => shown(alloc, &fault),
    }
}

/// The list of the two named entries of a text after those of another are put.
fn put_answer(alloc: Global, text: &[u8], more: &[u8]) -> Result<Vec<u8>, AllocError> {
    match parse_acl(alloc, text, &People) {
        Ok(line) => after_put(alloc, pushed(alloc, line.access.as_slice())?, more),
        Err(fault) => shown(alloc, &fault),
    }
}

/// What a field beside a mode is read as.
fn field_answer(
    alloc: Global,
    mode: &[u8],
    kind: &[u8],
    field: &[u8],
) -> Result<Vec<u8>, AllocError> {
    let Some(mode) = octal_in(mode) else {
        return unread(alloc);
    };
    match read_acl(alloc, field, mode, kind == b"directory".as_slice())? {
        Some(acl) => acl_answer(alloc, &acl),
        None => new_messages(alloc, "not read"),
    }
}
