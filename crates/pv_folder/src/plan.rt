//! Which calls of a host in memory fail, and how many did.
ghost use Rattle.std.specs.Prelude.{◌≡◌, ◌≤◌, ◌↔◌, Contains, IsErr, OnOk, OnErr, IsErrOf};
ghost use Rattle.pv_io.specs.Calls.{call_after};
ghost use Rattle.pv_io.specs.Faults.{HasRisen, fault_after};
ghost use Rattle.pv_io.specs.Memory.{fresh};
ghost use Rattle.pv_folder.specs.Counts.{count_after};

use crate::host::HostFault;
use std::marker::Model;

/// A plan of the calls of a host that fail.
#[derive(Drop)]
pub(crate) struct Plan {
    calls: pv_io::Plan,
}

impl Model for Plan {
    ghost use Rattle.pv_io.specs.Memory as memory;

    ghost Value = { memory.Plan };

    ghost view = { λ p. p.calls };
}

impl Plan {
    /// Returns a plan before the first call.
    pub(crate) fn new(fails: Vec<u64>) -> Plan
        ensures { result ≡ fresh fails.items }
    {
        Plan {
            calls: pv_io::Plan::new(fails),
        }
    }

    /// Counts a call. It fails if the plan has its number.
    pub(crate) fn begin_call(&mut self) -> Result<(), HostFault>
        ensures listed { IsErr result ↔ Contains self.old.fails self.old.calls }
        ensures failed { IsErrOf result HostFault.Memory → ⊥ }
        ensures ok { OnOk result (self.new ≡ record self.old { calls = call_after self.old.calls }) }
        ensures err { OnErr result (self.new ≡ record self.old {
          calls = call_after self.old.calls;
          faults = fault_after self.old.faults;
        }) }
        ensures rises { OnErr result (HasRisen self.old.faults self.new.faults) }
        ensures never_falls { self.old.faults ≤ self.new.faults }
        ensures count { self.new.faults ≡ count_after result self.old.faults }
    {
        if self.calls.begin_call() {
            self.calls.count_fault();
            return Err(HostFault::Failed);
        }
        Ok(())
    }
}
