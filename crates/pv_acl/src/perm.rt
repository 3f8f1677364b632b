//! Permissions, and the user or group of a named entry.
ghost use Rattle.std.specs.Prelude.{◌≡◌, ◌≤◌, ◌*◌, ◌%◌, bit_or};
ghost use Rattle.std.specs.Ordering.{is_lt};
ghost use Rattle.pv_acl.specs.NamedEntries.{who_cmp};

use std::marker::Model;

/// A permission: the sum of read (4), write (2) and execute (1).
///
/// In contracts, a value is that number, from 0 to 7.
#[derive(Clone, Copy, PartialEq, Eq)]
pub struct Perm {
    /// The sum, from 0 to 7.
    pub bits: u8,
}

impl Model for Perm {
    ghost use Rattle.std.specs.Prelude.{ℕ, ◌≤◌};

    ghost Value = { ℕ };

    ghost view = { λ p. p.bits };

    ghost invariant = { λ p. p.bits ≤ 7 };

    ghost inverse = { λ bits. record { bits = bits } };
}

impl Perm {
    /// Returns the permission in the lowest three bits of a number.
    pub(crate) fn digit_of(mode: u16) -> Perm
        ensures { result ≡ mode % 8 }
    {
        Perm {
            bits: (mode % 8) as u8,
        }
    }

    /// Returns the permission as a digit of a mode: its number times `place`, which is 1, 8 or 64.
    pub(crate) fn times(self, place: u16) -> u16
        requires { place ≤ 64 }
        ensures value { result ≡ place * self }
        ensures range { self ≤ 7 }
    {
        place * u16::from(self.bits)
    }

    /// Returns the permission that grants what at least one of the two grants.
    pub fn union(self, other: Perm) -> Perm
        ensures { result ≡ bit_or self other }
    {
        Perm {
            bits: self.bits | other.bits,
        }
    }
}

/// The user or the group of a named entry, by its ID.
#[derive(Clone, Copy, PartialEq, Eq, PartialOrd, Ord)]
pub enum Who {
    /// The user with this ID.
    User(u32),
    /// The group with this ID.
    Group(u32),
}

impl Who {
    /// Returns whether a named entry for `self` comes before one for `other`: users by ID, then groups by ID.
    pub fn is_before(self, other: Who) -> bool
        ensures { result ≡ is_lt (who_cmp self other) }
    {
        self < other
    }
}

/// A named entry (acl(5)): the permissions of one more user or group.
#[derive(Clone, Copy, PartialEq, Eq)]
pub struct Named {
    /// Whose permissions these are.
    pub who: Who,
    /// The permissions.
    pub perm: Perm,
}
