//! The names of the entries of a file, as a set (passwd(5), group(5), shadow(5), gshadow(5)).
ghost use Rattle.std.specs.Prelude.{◌≡◌, ◌||◌, ℕ, List, is_some, IfOk, OnOk};
ghost use Rattle.std.specs.Str.{bytes_eq};
ghost use Rattle.pv_accounts.specs.Among.{is_among};
ghost use Rattle.pv_accounts.specs.Files.{entry_named};
ghost use Rattle.pv_accounts.specs.Kinds.{is_entry_named, test_of};

use crate::cutting::cut;
use crate::find::{Kind, name_in};
use std::alloc::{AllocError, Global};
use std::collections::HashSet;

/// A set of names of entries. A lookup does not read the file again.
#[derive(Drop)]
pub struct EntryNames<'a> {
    names: HashSet<&'a [u8]>,
}

impl<'a> EntryNames<'a> {
    /// Collects the names of all entries of a file. `kind` says which of the four files it is.
    ///
    /// The only error is `AllocError`.
    pub fn of(alloc: Global, kind: Kind, file: &'a [u8]) -> Result<Self, AllocError>
        ensures { IfOk result (λ names. (name : List ℕ) →
            is_among names name ≡ is_some (entry_named (test_of kind) file.entry.now name)) }
    {
        let mut names = EntryNames {
            names: HashSet::new(alloc),
        };
        let mut rest = file;
        while let Some((line, more)) = cut(rest, b'\n') {
            names.add_line(kind, line)?;
            rest = more;
        }
        names.add_line(kind, rest)?;
        Ok(names)
    }

    /// Adds the name of the entry that a line is, if it is one.
    fn add_line(&mut self, kind: Kind, line: &'a [u8]) -> Result<(), AllocError>
        ensures { OnOk result ((name : List ℕ) →
            is_among self.new name ≡ (is_entry_named (test_of kind) name line.entry.now || is_among self.old name)) }
    {
        match name_in(kind, line) {
            Some(name) => self.add(name),
            None => Ok(()),
        }
    }

    /// Adds a name. Nothing changes if the name is already there.
    ///
    /// The only error is `AllocError`.
    pub fn add(&mut self, name: &'a [u8]) -> Result<(), AllocError>
        ensures { OnOk result ((other : List ℕ) →
            is_among self.new other ≡ (bytes_eq name.entry.now other || is_among self.old other)) }
    {
        self.names.insert(name)?;
        Ok(())
    }

    /// Returns whether a name is in the set: that of an entry of the file, or one that was added.
    pub fn contains(&self, name: &[u8]) -> bool
        ensures { result ≡ is_among self.now name.now }
    {
        self.names.contains(name)
    }
}
