//! Reads a request from the bytes of a line, or gives its first error.
ghost use Rattle.std.specs.Prelude.{◌≡◌, true, Bool, Ok, Err, IfOk, IfErr};
ghost use Rattle.pv_text.specs.declared.place.Place.{Place};
ghost use Rattle.pv_requests.specs.Allowed.{IsAllowed};
ghost use Rattle.pv_requests.specs.Faults.{Gives};
ghost use Rattle.pv_requests.specs.FieldTexts.{has_more};
ghost use Rattle.pv_requests.specs.Paths.{HasFewNames};
ghost use Rattle.pv_requests.specs.Requests.{are_account_texts, group_with, member_with, range_with, request_by, request_in, request_of, type_of, two_needed, two_texts, user_texts, user_with};
ghost use Rattle.pv_requests.specs.declared.request.Request.TheVariants.{Group, User};

use crate::field_texts::{GECOS, HOME, SHELL, given, has_more, is_dash, text, written};
use crate::names::{is_account_name, is_comment, is_place};
use crate::numbers::{group_id_in, range_in, user_id_in};
use crate::request::{GroupId, Request, UserId};
use crate::request_fault::RequestFault;
use pv_path::Bytes;
use pv_text::{Facts, Fields, Place, fields};
use std::alloc::Global;

/// The type of a line (sysusers.d(5), "Type").
#[derive(Clone, Copy)]
pub enum LineType {
    /// `u`, or with `true` `u!`, by which the account is locked.
    User(bool),
    /// `g`, a group.
    Group,
    /// `m`, a member of a group.
    Member,
    /// `r`, a range of numbers.
    Range,
}

/// The texts of a `u` line.
#[derive(Drop)]
pub struct UserTexts {
    name: Bytes,
    id: Bytes,
    gecos: Option<Bytes>,
    home: Option<Bytes>,
    shell: Option<Bytes>,
}

/// Reads the type of a line.
fn type_of(text: &[u8]) -> Result<LineType, RequestFault>
    ensures { result ≡ type_of text.now }
{
    match text {
        b"u" => Ok(LineType::User(false)),
        b"u!" => Ok(LineType::User(true)),
        b"g" => Ok(LineType::Group),
        b"m" => Ok(LineType::Member),
        b"r" => Ok(LineType::Range),
        _ => Err(RequestFault::BadType),
    }
}

/// Returns the texts of a `u` line.
fn user_texts(alloc: Global, facts: &Facts, fields: &Fields<'_>) -> Result<UserTexts, RequestFault>
    ensures { Gives result (user_texts facts.now fields.now) }
{
    Ok(UserTexts {
        name: written(alloc, facts, fields, 1)?,
        id: written(alloc, facts, fields, 2)?,
        gecos: given(alloc, facts, fields, GECOS)?,
        home: given(alloc, facts, fields, HOME)?,
        shell: given(alloc, facts, fields, SHELL)?,
    })
}

/// Returns whether an account may have these texts.
fn are_account_texts(texts: &UserTexts) -> bool
    ensures { result ≡ are_account_texts texts.now }
{
    is_comment(&texts.gecos) && is_place(&texts.home) && is_place(&texts.shell)
}

/// Returns the user with these texts, whose UID comes from `id`.
fn user_request(place: Place, locked: bool, id: UserId, texts: UserTexts) -> Request
    ensures { result ≡ User texts.name id locked texts.gecos texts.home texts.shell place }
{
    Request::User {
        name: texts.name,
        id,
        locked,
        gecos: texts.gecos,
        home: texts.home,
        shell: texts.shell,
        place,
    }
}

/// Reads where the UID comes from that a `u` line of these texts asks for.
fn asked_user_id(alloc: Global, more: bool, texts: &UserTexts) -> Result<UserId, RequestFault>
    ensures value { (place : Place) (locked : Bool) → IfOk result (λ id.
        user_with place locked more texts.now ≡ Ok (User texts.now.name id locked texts.now.gecos texts.now.home texts.now.shell place)) }
    ensures fault { (place : Place) (locked : Bool) → IfErr result (λ fault. Gives (Err fault) (user_with place locked more texts.now)) }
{
    if !is_account_name(texts.name.as_slice()) {
        return Err(RequestFault::BadName);
    }
    let id = user_id_in(alloc, texts.id.as_slice())?.ok_or(RequestFault::BadId)?;
    if are_account_texts(texts) && !more {
        Ok(id)
    } else {
        Err(RequestFault::BadField)
    }
}

/// Reads a `u` line of these texts.
fn user_with(
    alloc: Global,
    place: Place,
    locked: bool,
    more: bool,
    texts: UserTexts,
) -> Result<Request, RequestFault>
    ensures { Gives result (user_with place locked more texts) }
{
    let id = asked_user_id(alloc, more, &texts)?;
    Ok(user_request(place, locked, id, texts))
}

/// Reads where the GID comes from that a `g` line of this name and ID asks for.
fn asked_group_id(
    alloc: Global,
    more: bool,
    name: &Bytes,
    id: &Bytes,
) -> Result<GroupId, RequestFault>
    ensures value { (place : Place) → IfOk result (λ asked. group_with place more name.now id.now ≡ Ok (Group name.now asked place)) }
    ensures fault { (place : Place) → IfErr result (λ fault. Gives (Err fault) (group_with place more name.now id.now)) }
{
    if !is_account_name(name.as_slice()) {
        return Err(RequestFault::BadName);
    }
    let asked = group_id_in(alloc, id.as_slice())?.ok_or(RequestFault::BadId)?;
    if more {
        Err(RequestFault::BadField)
    } else {
        Ok(asked)
    }
}

/// Reads a `g` line of this name and ID.
fn group_with(
    alloc: Global,
    place: Place,
    more: bool,
    name: Bytes,
    id: Bytes,
) -> Result<Request, RequestFault>
    ensures { Gives result (group_with place more name id) }
{
    let id = asked_group_id(alloc, more, &name, &id)?;
    Ok(Request::Group { name, id, place })
}

/// Reads an `m` line of this user and group.
fn member_with(place: Place, more: bool, user: Bytes, group: Bytes) -> Result<Request, RequestFault>
    ensures { result ≡ member_with place more user group }
{
    let named = is_account_name(group.as_slice());
    if !is_account_name(user.as_slice()) || !named {
        Err(RequestFault::BadName)
    } else if more {
        Err(RequestFault::BadField)
    } else {
        Ok(Request::Member { user, group, place })
    }
}

/// Reads an `r` line of this name and range.
fn range_with(
    place: Place,
    more: bool,
    name: &Bytes,
    range: &Bytes,
) -> Result<Request, RequestFault>
    ensures { result ≡ range_with place more name.now range.now }
{
    if !is_dash(name.as_slice()) {
        return Err(RequestFault::BadName);
    }
    let (first, last) = range_in(range.as_slice()).ok_or(RequestFault::BadRange)?;
    if more {
        Err(RequestFault::BadField)
    } else {
        Ok(Request::Range { first, last, place })
    }
}

/// Reads a `u` line.
fn user_of(
    alloc: Global,
    facts: &Facts,
    place: Place,
    fields: &Fields<'_>,
    locked: bool,
) -> Result<Request, RequestFault>
    ensures { Gives result (request_by facts.now place fields.now (LineType.User locked)) }
{
    let texts = user_texts(alloc, facts, fields)?;
    user_with(alloc, place, locked, has_more(fields), texts)
}

/// Returns the name and the ID of a line.
fn two_texts(
    alloc: Global,
    facts: &Facts,
    fields: &Fields<'_>,
) -> Result<(Bytes, Bytes), RequestFault>
    ensures { Gives result (two_texts facts.now fields.now) }
{
    let name = written(alloc, facts, fields, 1)?;
    let id = written(alloc, facts, fields, 2)?;
    Ok((name, id))
}

/// Returns the name and the ID of a line whose ID may not be omitted.
fn two_needed(
    alloc: Global,
    facts: &Facts,
    fields: &Fields<'_>,
) -> Result<(Bytes, Bytes), RequestFault>
    ensures { Gives result (two_needed facts.now fields.now) }
{
    if is_dash(text(alloc, fields, 2)?.as_slice()) {
        return Err(RequestFault::MissingField);
    }
    two_texts(alloc, facts, fields)
}

/// Reads a `g` line.
fn group_of(
    alloc: Global,
    facts: &Facts,
    place: Place,
    fields: &Fields<'_>,
) -> Result<Request, RequestFault>
    ensures { Gives result (request_by facts.now place fields.now LineType.Group) }
{
    let (name, id) = two_texts(alloc, facts, fields)?;
    group_with(alloc, place, has_more(fields), name, id)
}

/// Reads an `m` line.
fn member_of(
    alloc: Global,
    facts: &Facts,
    place: Place,
    fields: &Fields<'_>,
) -> Result<Request, RequestFault>
    ensures { Gives result (request_by facts.now place fields.now LineType.Member) }
{
    let (user, group) = two_needed(alloc, facts, fields)?;
    member_with(place, has_more(fields), user, group)
}

/// Reads an `r` line.
fn range_of(
    alloc: Global,
    facts: &Facts,
    place: Place,
    fields: &Fields<'_>,
) -> Result<Request, RequestFault>
    ensures { Gives result (request_by facts.now place fields.now LineType.Range) }
{
    let (name, range) = two_needed(alloc, facts, fields)?;
    range_with(place, has_more(fields), &name, &range)
}

/// Reads a line of a type.
fn request_by(
    alloc: Global,
    facts: &Facts,
    place: Place,
    fields: &Fields<'_>,
    typed: LineType,
) -> Result<Request, RequestFault>
    ensures { Gives result (request_by facts.now place fields.now typed) }
{
    match typed {
        LineType::User(locked) => user_of(alloc, facts, place, fields, locked),
        LineType::Group => group_of(alloc, facts, place, fields),
        LineType::Member => member_of(alloc, facts, place, fields),
        LineType::Range => range_of(alloc, facts, place, fields),
    }
}

/// Reads a line with these fields.
fn request_in(
    alloc: Global,
    facts: &Facts,
    place: Place,
    fields: &Fields<'_>,
) -> Result<Request, RequestFault>
    ensures { Gives result (request_in facts.now place fields.now) }
{
    let typed = type_of(text(alloc, fields, 0)?.as_slice())?;
    request_by(alloc, facts, place, fields, typed)
}

/// Reads one line of a configuration (sysusers.d(5)).
///
/// - `line` is the line without its line feed: Type, Name, ID, GECOS, Home, Shell. A field after Name that is not
///   there, or is a dash, counts as omitted.
/// - `place` is the location of the line, which the answer keeps.
/// - `facts` has the values of specifiers such as `%m`.
///
/// The answer is the request, or the first error in the order of `RequestFault`:
/// 1. `Field`, then `BadType`.
/// 2. `MissingField`, if the ID of an `m` or `r` line is omitted.
/// 3. `Expand`, of the fields from the left.
/// 4. `BadName`, then `BadId` or `BadRange`, then `BadField`.
///
/// Fields that a type does not use are not checked, except their quotes and escapes. A path from which the numbers are
/// to be taken must not be the root, /etc or an account file, and must have no staging name. Otherwise the error is
/// `BadId`. `Memory` comes if memory runs out, and then says nothing about the line.
///
/// For example, `u app 470 "An app" /var/lib/app` asks for the user `app` with the UID 470, a comment and a home
/// directory.
pub fn read_request(
    alloc: Global,
    line: &[u8],
    place: Place,
    facts: &Facts,
) -> Result<Request, RequestFault>
    ensures gives { Gives result (request_of facts.now place line.now) }

    // A path that gives numbers has fewer than 2^32 names.
    ensures few { IfOk result HasFewNames }
    ensures allowed { IfOk result IsAllowed }
{
    match fields(line) {
        Ok(fields) => request_in(alloc, facts, place, &fields),
        Err(fault) => Err(RequestFault::Field(fault)),
    }
}
