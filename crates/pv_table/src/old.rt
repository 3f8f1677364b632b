//! Whether an object is old by an age.
ghost use Rattle.std.specs.Prelude.{◌≡◌, ◌||◌, not, nat_lt};
ghost use Rattle.std.specs.List.{list_all};
ghost use Rattle.pv_age.specs.Stamps.{has};
ghost use Rattle.pv_table.specs.Old.{is_old, is_before, stamps_of_kind};

use bitflags::Flags;
use pv_age::{Age, StampSet};
use pv_steps::{Kind, Node};

/// Returns whether an object is old by an age (tmpfiles.d(5), "Age").
///
/// `now` is the time of the run in microseconds since 1970-01-01 UTC. By the age 0 every object is old. By any other
/// age an object is old if both hold:
/// - The age is at most `now`.
/// - Each timestamp that the age looks at for this kind of object is before `now` minus the age.
///
/// If the age looks at no timestamp for this kind of object, the second condition holds. The call does not allocate.
pub fn is_old(node: &Node, age: &Age, now: u64) -> bool
    ensures { result ≡ is_old node.now age.now now }
{
    if age.micros == 0 {
        return true;
    }
    match now.checked_sub(age.micros) {
        Some(limit) => is_before(node, age.by, limit),
        None => false,
    }
}

/// Returns whether each timestamp that counts for the kind of an object is before a time.
fn is_before(node: &Node, by: StampSet, limit: u64) -> bool
    ensures { result ≡ list_all (is_before by limit) (stamps_of_kind node.now.kind node.now.stamps) }
{
    let stamps = &node.stamps;
    match node.kind {
        Kind::Directory => {
            is_stamp_before(by, StampSet::A, stamps.access, limit)
                && is_stamp_before(by, StampSet::B, stamps.birth, limit)
                && is_stamp_before(by, StampSet::C, stamps.change, limit)
                && is_stamp_before(by, StampSet::M, stamps.modify, limit)
        }
        Kind::File | Kind::Link | Kind::Fifo | Kind::CharDevice | Kind::BlockDevice => {
            is_stamp_before(by, StampSet::a, stamps.access, limit)
                && is_stamp_before(by, StampSet::b, stamps.birth, limit)
                && is_stamp_before(by, StampSet::c, stamps.change, limit)
                && is_stamp_before(by, StampSet::m, stamps.modify, limit)
        }
    }
}

/// Returns whether a timestamp does not count, or is before a time.
fn is_stamp_before(by: StampSet, letter: StampSet, stamp: u64, limit: u64) -> bool
    ensures { result ≡ (not (has by letter.0) || nat_lt stamp limit) }
{
    !by.contains(letter) || stamp < limit
}
