//! Which calls of a source or a sink in memory fail, and how many faults were counted.
ghost use Rattle.std.specs.Prelude.{◌≡◌, ◌≤◌, ◌^◌, ◌↔◌, Contains, IsTrue, unwrap_or};
ghost use Rattle.pv_io.specs.Calls.{call_after};
ghost use Rattle.pv_io.specs.Faults.{HasRisen, fault_after};
ghost use Rattle.pv_io.specs.Memory.{fresh};

use std::marker::Model;

/// Which calls are to fail, with the number of the next call and a count of faults.
///
/// In contracts, a value is these three: `calls` is the number of the next call, `fails` the listed numbers,
/// `faults` the count.
#[derive(Drop)]
pub struct Plan {
    fails: Vec<u64>,
    /// The number of the next call. It is `None` once all numbers of 64 bits are used up. No list has such a call.
    next: Option<u64>,
    faults: u64,
}

impl Model for Plan {
    ghost use Rattle.std.specs.Prelude.{◌^◌, unwrap_or};
    ghost use Rattle.pv_io.specs.Memory as memory;

    ghost Value = { memory.Plan };

    ghost view = { λ p. record {
      calls = unwrap_or p.next (2 ^ 64);
      fails = p.fails.items;
      faults = p.faults;
    } };
}

impl Plan {
    /// Makes a plan before the first call. The calls with these numbers are to fail, where the first call has
    /// number 0.
    pub fn new(fails: Vec<u64>) -> Plan
        ensures { result ≡ fresh fails.items }
    {
        Plan {
            fails,
            next: Some(0),
            faults: 0,
        }
    }

    /// Counts one call, and returns whether the plan lists its number, so that the call is to fail.
    ///
    /// Numbers have 64 bits. A call past the greatest number is never listed.
    pub fn begin_call(&mut self) -> bool
        ensures listed { IsTrue result ↔ Contains self.old.fails self.old.calls }
        ensures counted { self.new ≡ record self.old { calls = call_after self.old.calls } }
    {
        let number = self.next;
        self.next = number_after(number);
        is_listed(&self.fails, number)
    }

    /// Adds 1 to the count of faults, which stops at 2^64 - 1.
    pub fn count_fault(&mut self)
        ensures counted { self.new ≡ record self.old { faults = fault_after self.old.faults } }
        ensures rises { HasRisen self.old.faults self.new.faults }
        ensures never_falls { self.old.faults ≤ self.new.faults }
    {
        self.faults = self.faults.saturating_add(1);
    }
}

/// Returns the number of the call after the one with this number.
fn number_after(number: Option<u64>) -> Option<u64>
    ensures { unwrap_or result (2 ^ 64) ≡ call_after (unwrap_or number (2 ^ 64)) }
{
    number?.checked_add(1)
}

/// Returns whether the list has the number.
fn is_listed(fails: &Vec<u64>, number: Option<u64>) -> bool
    ensures { IsTrue result ↔ Contains fails.now.items (unwrap_or number (2 ^ 64)) }
{
    match number {
        Some(number) => fails.contains(&number),
        None => false,
    }
}
