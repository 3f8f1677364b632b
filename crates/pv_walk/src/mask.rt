//! Masked modes (tmpfiles.d(5), the prefix `~` of a mode).
ghost use Rattle.std.specs.Prelude.{◌≡◌, bit_and, if◌then◌else◌};
ghost use Rattle.pv_acl.specs.Parts.{with_mode};
ghost use Rattle.pv_walk.specs.Masks.{granted, with_masked, masked_special};

use pv_acl::{Part, Perm};
use pv_steps::{Kind, special_bits};

/// Gives an ACL part the base entries of a masked mode (tmpfiles.d(5), the prefix `~` of a mode).
///
/// `mode` is the 12 bits of chmod(2). Of read, write and execute, only those are kept that at least one of the old
/// base entries grants. The named entries and the mask stay.
///
/// For example, a file with mode 0644 grants execute to nobody, so the masked mode 0755 gives it 0644.
pub fn set_masked_base(part: &mut Part, mode: u16)
    ensures { part.new ≡ with_masked mode part.old }
{
    let granted = granted(part);
    part.set_base(mode);
    part.owner = common(part.owner, granted);
    part.group = common(part.group, granted);
    part.other = common(part.other, granted);
}

/// Returns the special bits that a masked mode gives to an object of a kind. A directory gets those of the mode,
/// and any other object gets none.
pub fn masked_special(kind: Kind, mode: u16) -> u8
    ensures { result ≡ masked_special kind mode }
{
    if kind.is_directory() {
        special_bits(mode)
    } else {
        0
    }
}

/// Returns those of read, write and execute that at least one of the base entries grants.
fn granted(part: &Part) -> Perm
    ensures { result ≡ granted part.now }
{
    part.owner.union(part.group.union(part.other))
}

/// Returns what two permissions both grant.
fn common(a: Perm, b: Perm) -> Perm
    ensures { result ≡ bit_and a b }
{
    Perm {
        bits: a.bits & b.bits,
    }
}
