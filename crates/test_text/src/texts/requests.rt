//! Lines of sysusers.d(5).
use super::given::place_in;
use crate::marks::{named, new_messages, shown, unread};
use pv_requests::{Primary, Request, RequestFault, UserId, name_of, read_request};
use pv_text::Facts;
use std::alloc::{AllocError, Global};
use test_sheet::bytes_of;

/// What a call answers for words.
pub(crate) fn answer_to(alloc: Global, call: &str, words: &str) -> Result<Vec<u8>, AllocError> {
    let line = bytes_of(alloc, words)?;
    match call {
        "line" => read_answer(alloc, read(alloc, &line)),
        _ => unread(alloc),
    }
}

/// What a line is read as, as the first of a file.
fn read(alloc: Global, line: &[u8]) -> Result<Request, RequestFault> {
    let place = place_in(alloc, b"A", 1)?;
    read_request(alloc, line, place, &Facts::new(alloc))
}

/// A number, or `-`.
fn id_word(alloc: Global, id: Option<u32>) -> Result<String, AllocError> {
    match id {
        Some(id) => id.to_string(alloc),
        None => "-".to_string(alloc),
    }
}

/// The UID, the GID, and whether the group is named.
fn parts_of(id: &UserId) -> (Option<u32>, Option<u32>, bool) {
    match id {
        UserId::Number(uid) => (Some(*uid), None, false),
        UserId::Primary { uid, group } => match group {
            Primary::Gid(gid) => (*uid, Some(*gid), false),
            Primary::Name(_) => (*uid, None, true),
        },
        _ => (None, None, false),
    }
}

/// Of a u line: whether it is locked, its UID, its GID, and whether its group is named.
fn user_answer(alloc: Global, id: &UserId, locked: bool) -> Result<Vec<u8>, AllocError> {
    let (uid, gid, named) = parts_of(id);
    let (uid, gid) = (id_word(alloc, uid)?, id_word(alloc, gid)?);
    shown(alloc, &format_args!("{locked} {uid} {gid} {named}"))
}

/// The parts of a u line.
fn request_answer(alloc: Global, request: &Request) -> Result<Vec<u8>, AllocError> {
    match request {
        Request::User { id, locked, .. } => user_answer(alloc, id, *locked),
        _ => new_messages(alloc, "no user"),
    }
}

/// The parts of a u line, or the name of the fault.
fn read_answer(alloc: Global, read: Result<Request, RequestFault>) -> Result<Vec<u8>, AllocError> {
    match read {
        Ok(request) => request_answer(alloc, &request),
        Err(fault) => fault_answer(alloc, fault),
    }
}

/// A fault by its name, which is also what is printed of it.
fn fault_answer(alloc: Global, fault: RequestFault) -> Result<Vec<u8>, AllocError> {
    named(alloc, name_of(fault), &shown(alloc, &fault)?)
}
