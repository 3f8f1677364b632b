//! Names of directory entries, which are the components of a path (path_resolution(7)), and staging names.
ghost use Rattle.std.specs.Prelude.{◌≡◌, ℕ, ◌≤◌, List, true, length, IfOk};
ghost use Rattle.std.specs.Ordering.{nat_cmp, as_partial_cmp};
ghost use Rattle.std.specs.Cmp.{partial_equiv_from_equiv};
ghost use Rattle.std.specs.Cmp.Lexicographic.{slice_cmp, nat_list_cmp_total, nat_list_eq_equiv, texts_ties, texts_po};
ghost use Rattle.std.specs.Hash as fed;
ghost use Rattle.std.proofs.Common.{rules, refl};
ghost use Rattle.std.specs.List.{list_all};
ghost use Rattle.pv_path.specs.Heads.{head_of};
ghost use Rattle.pv_path.specs.Names.{is_dots, is_name, is_name_byte, is_staging, staging_name, same_bytes};

use crate::short_bytes::ShortBytes;
use std::alloc::{AllocError, Global};
use std::cmp::Ordering;
use std::hash::{Hash, Hasher};
use std::marker::Model;

/// Returns whether no byte is NUL or a slash.
fn has_name_bytes(bytes: &[u8]) -> bool
    ensures { result ≡ list_all is_name_byte bytes.now }
{
    bytes.iter().all(|b| *b != 0 && *b != b'/')
}

/// Returns whether the bytes are `.` or `..`, which name a directory itself and its parent.
fn is_dots(bytes: &[u8]) -> bool
    ensures { result ≡ is_dots bytes.now }
{
    matches!(bytes, b"." | b"..")
}

/// Returns whether the bytes are a name: 1 to 255 bytes, none of them a slash or NUL, and neither `.` nor `..`.
///
/// A name is one component of a path (path_resolution(7)). The call does not allocate.
pub fn is_name(bytes: &[u8]) -> bool
    ensures { result ≡ is_name bytes.now }
{
    let plain = has_name_bytes(bytes);
    let dots = is_dots(bytes);
    !bytes.is_empty() && bytes.len() <= 255 && plain && !dots
}

/// Returns whether the bytes begin with `.#tf-`, which marks a staging name.
///
/// Staging names belong to the program: it makes a new object under such a name and then renames it into place. The
/// call does not allocate.
pub fn is_staging(name: &[u8]) -> bool
    ensures { result ≡ is_staging name.now }
{
    name.starts_with(b".#tf-")
}

/// A name of a directory entry: 1 to 255 bytes, none of them a slash or NUL, and neither `.` nor `..`.
///
/// A name of at most 16 bytes is kept inside of this value, without an allocation of its own. In contracts, a value
/// is the list of its bytes. Names are ordered by their bytes.
#[derive(Drop)]
pub struct Name {
    bytes: ShortBytes,
}

impl Model for Name {
    ghost Value = { List ℕ };

    ghost view = { λ n. n.bytes };

    ghost invariant = { λ n. is_name n.bytes ≡ true };
}

impl Name {
    /// Makes a name from a copy of the bytes.
    ///
    /// The bytes must be a name, as `is_name` tests. The only error is `AllocError`.
    pub fn of(alloc: Global, bytes: &[u8]) -> Result<Name, AllocError>
        requires { is_name bytes.now ≡ true }
        ensures { IfOk result (λ name. name ≡ bytes.now) }
    {
        Ok(Name {
            bytes: ShortBytes::of(alloc, bytes)?,
        })
    }

    /// Returns the bytes of the name.
    pub fn bytes(&self) -> &[u8]
        ensures value { result.now ≡ self.now }
        ensures name { is_name self.now ≡ true }
    {
        self.bytes.as_slice()
    }

    /// Returns the first eight bytes of the name as one big-endian number. If the name is shorter, zeros follow.
    pub fn head(&self) -> u64
        ensures value { result ≡ head_of self.now }
        ensures name { is_name self.now ≡ true }
    {
        self.bytes.head()
    }

    /// Returns a copy of the name. The only error is `AllocError`.
    pub fn copy(&self) -> Result<Name, AllocError>
        ensures { IfOk result (λ name. name ≡ self.now) }
    {
        Ok(Name {
            bytes: self.bytes.copy()?,
        })
    }

    /// Returns the staging name for this name: `.#tf-` and then the name.
    ///
    /// The name must have at most 250 bytes, because the staging name is 5 bytes longer, and a name has at most 255.
    /// The only error is `AllocError`. For example, the staging name for `a.conf` is `.#tf-a.conf`.
    pub fn staging(&self, alloc: Global) -> Result<Name, AllocError>
        requires { length self.now ≤ 250 }
        ensures { IfOk result (λ name. name ≡ staging_name self.now) }
    {
        let mut bytes = Vec::from_slice(alloc, b".#tf-")?;
        bytes.extend_from_slice(self.bytes.as_slice())?;
        Name::of(alloc, &bytes)
    }
}

impl Clone for Name {
    ghost is_clone = { λ name copy. copy ≡ name };

    fn clone(&self) -> Result<Name, AllocError> {
        self.copy()
    }
}

impl PartialEq for Name {
    ghost eq = { same_bytes };

    ghost laws = { partial_equiv_from_equiv nat_list_eq_equiv };

    // The heads tell most names apart. The bytes are compared only if the heads are equal and have no zero byte.
    #[tactic(auto, using(crate::proofs::HeadLaws::told_different, crate::proofs::HeadLaws::told_same))]
    fn eq(&self, other: &Name) -> bool {
        let head = self.head();
        if head != other.head() {
            return false;
        }
        if head % 256 == 0 {
            return true;
        }
        self.bytes() == other.bytes()
    }
}

impl Eq for Name {
    ghost laws = { nat_list_eq_equiv };
}

impl Ord for Name {
    ghost cmp = { slice_cmp nat_cmp };

    ghost total = { nat_list_cmp_total };

    ghost matches_partial_cmp = { λ _ _. refl };

    ghost matches_eq = { texts_ties };

    // The heads order most names. The bytes are compared only if the heads are equal and have no zero byte.
    #[tactic(auto, using(crate::proofs::HeadLaws::told_less, crate::proofs::HeadLaws::told_greater, crate::proofs::HeadLaws::told_equal))]
    fn cmp(&self, other: &Name) -> Ordering {
        let (head, other_head) = (self.head(), other.head());
        if head < other_head {
            return Ordering::Less;
        }
        if other_head < head {
            return Ordering::Greater;
        }
        if head % 256 == 0 {
            return Ordering::Equal;
        }
        self.bytes().cmp(other.bytes())
    }
}

impl PartialOrd for Name {
    ghost partial_cmp = { as_partial_cmp (slice_cmp nat_cmp) };

    ghost laws = { texts_po };

    fn partial_cmp(&self, other: &Name) -> Option<Ordering> {
        Some(self.cmp(other))
    }
}

impl Hash for Name {
    ghost hash_input = { fed.slice fed.u8 };

    ghost respects_eq = { Prim.search rules };

    fn hash<H: Hasher>(&self, state: &mut H) {
        self.bytes().hash(state);
    }
}
