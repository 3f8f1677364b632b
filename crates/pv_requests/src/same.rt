//! Whether two requests ask for the same, wherever their lines are.
ghost use Rattle.std.specs.Prelude.{◌≡◌};
ghost use Rattle.pv_requests.specs.Same.{same_number, same_primary, same_text, same_user, same_user_id};

use crate::request::{Primary, Request, UserId};
use pv_path::Bytes;

/// Returns whether two optional texts are the same.
fn is_same_text(a: &Option<Bytes>, b: &Option<Bytes>) -> bool
    ensures { result ≡ same_text a.now b.now }
{
    match a {
        None => b.is_none(),
        Some(a) => match b {
            Some(b) => a.is_same(b),
            None => false,
        },
    }
}

/// Returns whether two optional numbers are the same.
fn is_same_number(a: Option<u32>, b: Option<u32>) -> bool
    ensures { result ≡ same_number a b }
{
    match a {
        None => b.is_none(),
        Some(a) => match b {
            Some(b) => a == b,
            None => false,
        },
    }
}

/// Returns whether two primary groups are the same.
fn is_same_primary(a: &Primary, b: &Primary) -> bool
    ensures { result ≡ same_primary a.now b.now }
{
    match a {
        Primary::Gid(a) => match b {
            Primary::Gid(b) => *a == *b,
            Primary::Name(_) => false,
        },
        Primary::Name(a) => match b {
            Primary::Gid(_) => false,
            Primary::Name(b) => a.is_same(b),
        },
    }
}

/// Returns whether two UIDs come from the same.
fn is_same_user_id(a: &UserId, b: &UserId) -> bool
    ensures { result ≡ same_user_id a.now b.now }
{
    match a {
        UserId::Auto => matches!(b, UserId::Auto),
        UserId::Number(a) => match b {
            UserId::Number(b) => *a == *b,
            _ => false,
        },
        UserId::Path(a) => match b {
            UserId::Path(b) => a == b,
            _ => false,
        },
        UserId::Primary { uid, group } => match b {
            UserId::Primary {
                uid: other,
                group: of_other,
            } => {
                let grouped = is_same_primary(group, of_other);
                is_same_number(*uid, *other) && grouped
            }
            _ => false,
        },
    }
}

/// Returns whether two requests are for the same user with the same settings, wherever their lines are.
///
/// The answer is `true` if both are of the type `u` or `u!`, and all fields except the location are equal. For any
/// other pair it is `false`. The call does not allocate.
pub fn is_same_user(a: &Request, b: &Request) -> bool
    ensures { result ≡ same_user a.now b.now }
{
    match a {
        Request::User {
            name,
            id,
            locked,
            gecos,
            home,
            shell,
            ..
        } => match b {
            Request::User {
                name: other,
                id: of_id,
                locked: of_locked,
                gecos: of_gecos,
                home: of_home,
                shell: of_shell,
                ..
            } => {
                let comment = is_same_text(gecos, of_gecos);
                let directory = is_same_text(home, of_home);
                let program = is_same_text(shell, of_shell);
                let flag = *locked == *of_locked;
                let number = is_same_user_id(id, of_id);
                name.is_same(other) && number && flag && comment && directory && program
            }
            _ => false,
        },
        _ => false,
    }
}
