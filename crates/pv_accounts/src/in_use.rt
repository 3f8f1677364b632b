//! The names and IDs that are in use, as a map (passwd(5), group(5)).
ghost use Rattle.std.specs.Prelude.{◌≡◌, ◌+◌, [], ◌∷◌, ◌++◌, None, IfOk};
ghost use Rattle.pv_accounts.specs.InUse.{AreApart, count_of, id_of, ids_of, is_held, is_held_beside, is_own, with_line};
ghost use Rattle.pv_accounts.specs.Kinds.{test_of};

use crate::cutting::cut;
use crate::find::{Kind, named_in};
use indexmap::IndexMap;
use std::alloc::{AllocError, Global};
use std::collections::HashMap;
use std::marker::Model;

/// A map from names to their IDs, which can also be searched by ID. A lookup does not read the file again.
///
/// In contracts, a value is the list of names with their IDs, in the order in which they were added.
#[derive(Drop)]
pub struct InUse<'a> {
    /// The ID of each name.
    ids: IndexMap<&'a [u8], u32>,
    /// How many names have each ID.
    counts: HashMap<u32, usize>,
}

impl<'a> Model for InUse<'a> {
    ghost use Rattle.std.specs.Prelude.{ℕ, List, map};
    ghost use Rattle.pv_accounts.specs.InUse.{AreApart, AreCounts};

    ghost Value = { List (List ℕ × ℕ) };

    ghost view = { λ u. map (λ e. (e.0.now, e.1)) u.ids.entries };

    ghost invariant = { λ u. AreApart (map (λ e. (e.0.now, e.1)) u.ids.entries)
        × AreCounts u.counts.entries (map (λ e. (e.0.now, e.1)) u.ids.entries) };
}

/// Adds one to a number. A number above 64 bits counts as running out of memory.
fn next_count(count: usize) -> Result<usize, AllocError>
    ensures { IfOk result (λ next. next ≡ count + 1) }
{
    count.checked_add(1).ok_or(AllocError)
}

impl<'a> InUse<'a> {
    /// Makes an empty map. The call does not allocate.
    pub fn new(alloc: Global) -> Self
        ensures { result ≡ [] }
    {
        InUse {
            ids: IndexMap::new(alloc),
            counts: HashMap::new(alloc),
        }
    }

    /// Collects the names and the IDs of the entries of a file. `kind` says which of the four files it is.
    ///
    /// Only entries whose third field is a decimal ID are in the map. Of two such entries with one name the first
    /// counts. The only error is `AllocError`.
    pub fn of(alloc: Global, kind: Kind, file: &'a [u8]) -> Result<Self, AllocError>
        ensures { IfOk result (λ ids. ids ≡ ids_of (test_of kind) file.entry.now) }
    {
        let mut ids = InUse::new(alloc);
        let mut rest = file;
        while let Some((line, more)) = cut(rest, b'\n') {
            ids = ids.with_line(kind, line)?;
            rest = more;
        }
        ids.with_line(kind, rest)
    }

    /// Adds the name and the ID of a line, unless the name is already there.
    fn with_line(self, kind: Kind, line: &'a [u8]) -> Result<Self, AllocError>
        ensures { IfOk result (λ ids. ids ≡ with_line (test_of kind) self.entry line.entry.now) }
    {
        let Some((name, id)) = named_in(kind, line) else {
            return Ok(self);
        };
        if self.id_of(name).is_some() {
            return Ok(self);
        }
        self.with(name, id)
    }

    /// Adds a name with its ID at the end. The name must not be there yet.
    ///
    /// The only error is `AllocError`, and then the map is gone.
    pub fn with(self, name: &'a [u8], id: u32) -> Result<Self, AllocError>
        requires { id_of self name.now ≡ None }
        ensures { IfOk result (λ ids. ids ≡ self.entry ++ (name.entry.now, id) ∷ []) }
    {
        let count = next_count(self.count(id))?;
        let InUse {
            mut ids,
            mut counts,
        } = self;
        counts.insert(id, count)?;
        ids.insert(name, id)?;
        Ok(InUse { ids, counts })
    }

    /// Returns the ID of a name, or `None` if the name is not there.
    pub fn id_of(&self, name: &[u8]) -> Option<u32>
        ensures value { result ≡ id_of self.now name.now }
        ensures apart { AreApart self.now }
    {
        self.ids.get(name).copied()
    }

    /// Returns how many names have an ID.
    fn count(&self, id: u32) -> usize
        ensures { result ≡ count_of self.now id }
    {
        self.counts.get(&id).copied().unwrap_or(0)
    }

    /// Returns whether some name has this ID.
    pub fn is_held(&self, id: u32) -> bool
        ensures { result ≡ is_held self.now id }
    {
        self.count(id) > 0
    }

    /// Returns whether a name other than `but` has this ID.
    pub fn is_held_beside(&self, id: u32, but: &[u8]) -> bool
        ensures { result ≡ is_held_beside self.now id but.now }
    {
        let count = self.count(id);
        if self.is_own(id, but) {
            count > 1
        } else {
            count > 0
        }
    }

    /// Returns whether this name has this ID.
    fn is_own(&self, id: u32, name: &[u8]) -> bool
        ensures value { result ≡ is_own self.now id name.now }
        ensures apart { AreApart self.now }
    {
        match self.id_of(name) {
            Some(own) => own == id,
            None => false,
        }
    }
}
