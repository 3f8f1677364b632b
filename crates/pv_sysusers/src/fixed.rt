//! The numbers that lines fix for groups.
ghost use Rattle.std.specs.Prelude.{◌≡◌, ℕ, List, [], ◌∷◌, is_some, IfOk, OnOk};
ghost use Rattle.std.specs.Option.{option_map, option_or};
ghost use Rattle.pv_sysusers.specs.Deciding.{fixed_by};
ghost use Rattle.pv_sysusers.specs.Needs.{fixed_for};

use crate::needs::Need;
use pv_text::Place;
use std::alloc::{AllocError, Global};
use std::collections::HashMap;

/// For each group, the number that the first line with a number fixes for it, and the location of this line.
#[derive(Drop)]
pub struct Fixed<'a> {
    numbers: HashMap<&'a [u8], (u32, &'a Place)>,
}

impl<'a> Fixed<'a> {
    /// Returns the number that is fixed for a group, with the location of the line, or `None` if none is fixed.
    pub(crate) fn of(&self, name: &[u8]) -> Option<(u32, &'a Place)>
        ensures { option_map (λ f. (f.0, f.1.now)) result ≡ fixed_by self.now name.now }
    {
        self.numbers.get(name).copied()
    }

    /// Returns whether a number is fixed for a group.
    fn has(&self, name: &[u8]) -> bool
        ensures { result ≡ is_some (fixed_by self.now name.now) }
    {
        match self.of(name) {
            Some(_) => true,
            None => false,
        }
    }

    /// Adds the number that a line fixes, unless an earlier line fixes one for this group.
    fn add(&mut self, need: &'a Need) -> Result<(), AllocError>
        ensures { OnOk result ((name : List ℕ) → fixed_by self.new name ≡ option_or (fixed_by self.old name) (fixed_for (need.entry.now ∷ []) name)) }
    {
        let Some(n) = need.number else {
            return Ok(());
        };
        let name = need.name.as_slice();
        if self.has(name) {
            return Ok(());
        }
        self.numbers.insert(name, (n, &need.place))?;
        Ok(())
    }
}

/// Returns what lines fix.
pub(crate) fn fixed_in(alloc: Global, needs: &[Need]) -> Result<Fixed<'_>, AllocError>
    ensures { IfOk result (λ fixed. (name : List ℕ) → fixed_by fixed name ≡ fixed_for needs.entry.now name) }
{
    let mut fixed = Fixed {
        numbers: HashMap::new(alloc),
    };
    for need in needs {
        fixed.add(need)?;
    }
    Ok(fixed)
}
