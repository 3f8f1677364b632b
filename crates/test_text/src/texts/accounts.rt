//! Account files.
use crate::marks::{Arguments, id_or_none, new_messages, number_in, or_none, unread};
use pv_accounts::{
    FileNames, InUse, Kind, add_member, append_entries, append_entry, group_view, passwd_view,
    shadow_view,
};
use pv_acl::Names;
use pv_gshadow::{add_group, add_gshadow_member, gshadow_view};
use std::alloc::{AllocError, Global};

/// What a call answers for arguments.
pub(crate) fn answer_to(
    alloc: Global,
    call: &str,
    arguments: &Arguments,
) -> Result<Vec<u8>, AllocError> {
    match call {
        "entries" => entries_answer(alloc, arguments.at(0), arguments.from(1)),
        "entry" => append_entry(alloc, arguments.at(0), arguments.at(1)),
        "member" => add_member(alloc, arguments.at(2), arguments.at(0), arguments.at(1)),
        "gshadow-member" => {
            gshadow_answer(
                alloc,
                arguments.at(0),
                arguments.at(1),
                arguments.at(2),
                arguments.from(3),
            )
        }
        "in-use-id" | "in-use-held" | "in-use-beside" => in_use_answer(alloc, call, arguments),
        _ => found_answer(alloc, call, arguments),
    }
}

/// What a call that looks into a file answers.
fn found_answer(alloc: Global, call: &str, arguments: &Arguments) -> Result<Vec<u8>, AllocError> {
    match call {
        "user" => id_or_none(alloc, passwd_view(arguments.at(1)).uid_of(arguments.at(0))),
        "shadow" => shadow_answer(alloc, arguments.at(0), arguments.at(1)),
        "group" => group_answer(alloc, arguments.at(0), arguments.at(1)),
        "holder" => holder_answer(alloc, arguments.at(0), arguments.at(1), arguments.at(2)),
        "gshadow" => members_answer(alloc, arguments.at(0), arguments.at(1)),
        "uid" => {
            id_or_none(
                alloc,
                names_of(arguments.at(1), arguments.at(2)).uid_of(arguments.at(0)),
            )
        }
        "gid" => {
            id_or_none(
                alloc,
                names_of(arguments.at(1), arguments.at(2)).gid_of(arguments.at(0)),
            )
        }
        _ => unread(alloc),
    }
}

/// A file with more entries.
fn entries_answer(alloc: Global, file: &[u8], entries: &[Vec<u8>]) -> Result<Vec<u8>, AllocError> {
    let entries: Vec<&[u8]> = entries.iter().map(|entry| entry.as_slice()).collect(alloc)?;
    append_entries(alloc, file, entries.as_slice())
}

/// A file of /etc/gshadow with more groups.
fn with_groups(alloc: Global, file: &[u8], groups: &[Vec<u8>]) -> Result<Vec<u8>, AllocError> {
    let mut file = Vec::from_slice(alloc, file)?;
    for group in groups {
        file = add_group(alloc, &file, group)?;
    }
    Ok(file)
}

/// A file of /etc/gshadow with more groups, and then a member of a group.
fn gshadow_answer(
    alloc: Global,
    group: &[u8],
    user: &[u8],
    file: &[u8],
    groups: &[Vec<u8>],
) -> Result<Vec<u8>, AllocError> {
    let file = with_groups(alloc, file, groups)?;
    add_gshadow_member(alloc, &file, group, user)
}

/// The password and the day of an entry of /etc/shadow.
fn shadow_answer(alloc: Global, name: &[u8], file: &[u8]) -> Result<Vec<u8>, AllocError> {
    let Some(entry) = shadow_view(file).entry(name) else {
        return new_messages(alloc, "none");
    };
    let mut answer_to = Vec::from_slice(alloc, entry.password)?;
    answer_to.push(b' ')?;
    answer_to.extend_from_slice(entry.changed)?;
    Ok(answer_to)
}

/// The name of an entry of /etc/group.
fn group_answer(alloc: Global, name: &[u8], file: &[u8]) -> Result<Vec<u8>, AllocError> {
    match group_view(file).entry(name) {
        Some(entry) => Vec::from_slice(alloc, entry.name),
        None => new_messages(alloc, "none"),
    }
}

/// Which other group has a number.
fn holder_answer(alloc: Global, id: &[u8], but: &[u8], file: &[u8]) -> Result<Vec<u8>, AllocError> {
    match small(id) {
        Some(id) => or_none(alloc, group_view(file).holder(id, but)),
        None => unread(alloc),
    }
}

/// The members of an entry of /etc/gshadow.
fn members_answer(alloc: Global, name: &[u8], file: &[u8]) -> Result<Vec<u8>, AllocError> {
    match gshadow_view(file).entry(name) {
        Some(entry) => Vec::from_slice(alloc, entry.members),
        None => new_messages(alloc, "none"),
    }
}

/// The names of two files.
fn names_of<'a>(passwd: &'a [u8], group: &'a [u8]) -> FileNames<'a> {
    FileNames {
        passwd: passwd_view(passwd),
        group: group_view(group),
    }
}

/// The numbers in use by a file of groups, and by one more group.
fn in_use<'a>(
    alloc: Global,
    file: &'a [u8],
    name: &'a [u8],
    id: u32,
) -> Result<InUse<'a>, AllocError> {
    let ids = InUse::of(alloc, Kind::Group, file)?;
    if ids.id_of(name).is_none() {
        ids.with(name, id)
    } else {
        Ok(ids)
    }
}

/// What a call on the numbers in use by a file of groups, and by one more group, answers.
fn in_use_answer(alloc: Global, call: &str, arguments: &Arguments) -> Result<Vec<u8>, AllocError> {
    match small(arguments.at(1)) {
        Some(id) => {
            let ids = in_use(alloc, arguments.at(2), arguments.at(0), id)?;
            ids_answer(alloc, call, &ids, arguments)
        }
        None => unread(alloc),
    }
}

/// What a call on numbers in use answers.
fn ids_answer(
    alloc: Global,
    call: &str,
    ids: &InUse<'_>,
    arguments: &Arguments,
) -> Result<Vec<u8>, AllocError> {
    match call {
        "in-use-id" => id_or_none(alloc, ids.id_of(arguments.at(3))),
        "in-use-held" => held_answer(alloc, ids, arguments.at(3), None),
        _ => held_answer(alloc, ids, arguments.at(3), Some(arguments.at(4))),
    }
}

/// The number of an account that some digits spell.
fn small(digits: &[u8]) -> Option<u32> {
    u32::try_from(number_in(digits)?).ok()
}

/// Whether a name, one other than `but` where that is given, has a number.
fn held_answer(
    alloc: Global,
    ids: &InUse<'_>,
    id: &[u8],
    but: Option<&[u8]>,
) -> Result<Vec<u8>, AllocError> {
    let Some(id) = small(id) else {
        return unread(alloc);
    };
    let is_held = match but {
        Some(but) => ids.is_held_beside(id, but),
        None => ids.is_held(id),
    };
    new_messages(alloc, if is_held { "held" } else { "free" })
}
