//! A source and a sink in memory, for tests. They fail at chosen calls.
ghost use Rattle.std.specs.Prelude.{◌≡◌, ◌<◌, ◌≤◌, ◌-◌, ◌↔◌, ◌⊎◌, ◌++◌, [], length, min, take, drop, Contains, IsErr, IfOk, OnErr, Some};
ghost use Rattle.std.specs.Io.KnownBytes.{Appends, Consumes, IsAtEnd, Keeps};
ghost use Rattle.pv_io.specs.Calls.{call_after, CountsCall};
ghost use Rattle.pv_io.specs.Faults.{HasRisen, fault_after};
ghost use Rattle.pv_io.specs.Memory.{fresh};

use crate::plan::Plan;
use crate::transfer::{Sink, Source};
use crate::transfer_fault::Failed;
use std::alloc::{AllocError, Global};
use std::marker::Model;

/// A source that gives bytes from memory. It fails exactly at the calls that its plan lists.
///
/// In contracts, a value is the bytes that are left, and the plan.
#[derive(Drop)]
pub struct MemSource {
    content: Vec<u8>,
    given: usize,
    plan: Plan,
}

impl Model for MemSource {
    ghost use Rattle.std.specs.Prelude.{◌≤◌, drop, length};
    ghost use Rattle.pv_io.specs.Memory as memory;

    ghost Value = { memory.Reading };

    ghost view = { λ s. record { left = drop s.given s.content.items; plan = s.plan } };

    ghost invariant = { λ s. s.given ≤ length s.content.items };
}

impl MemSource {
    /// Makes a source of the bytes in `content`. Its calls whose numbers are in `fails` fail, where the first call
    /// has number 0.
    pub fn new(content: Vec<u8>, fails: Vec<u64>) -> MemSource
        ensures { result ≡ record { left = content.items; plan = fresh fails.items } }
    {
        MemSource {
            content,
            given: 0,
            plan: Plan::new(fails),
        }
    }
}

impl Source for MemSource {
    ghost left = { λ s. Some s.left };

    ghost faults = { λ s. s.plan.faults };

    ghost calls = { λ s. Some s.plan.calls };

    /// Copies the next bytes to the front of the buffer, as many as fit and are left, and returns how many.
    ///
    /// It is 0 exactly at the end, since the buffer must not be empty. `Failed` comes exactly if the plan lists the
    /// number of this call. Then the buffer and the bytes left are unchanged, and one fault more is counted.
    fn read(&mut self, buf: &mut [u8]) -> Result<usize, Failed>
        requires { 0 < length buf.old }
        ensures planned { IsErr result ↔ Contains self.old.plan.fails self.old.plan.calls }
        ensures given { IfOk result (λ n. (n ≡ min (length buf.old) (length self.old.left))
            × (buf.new ≡ take n self.old.left ++ drop n buf.old)) }
        ensures ok { IfOk result (λ n. self.new ≡ record {
          left = drop n self.old.left;
          plan = record self.old.plan { calls = call_after self.old.plan.calls };
        }) }
        ensures err { OnErr result ((buf.new ≡ buf.old) × (self.new ≡ record self.old {
          plan = record self.old.plan {
            calls = call_after self.old.plan.calls;
            faults = fault_after self.old.plan.faults;
          };
        })) }
        ensures fits { IfOk result (λ n. n ≤ length buf.new) }
        ensures takes { IfOk result (λ n. self.old.left ≡ take n buf.new ++ self.new.left) }
        ensures end { IfOk result (λ n. n ≡ 0 → self.new.left ≡ []) }
        ensures kept { OnErr result (self.new.left ≡ self.old.left) }
        ensures cause { OnErr result (HasRisen self.old.plan.faults self.new.plan.faults) }
        ensures never_falls { self.old.plan.faults ≤ self.new.plan.faults }
        ensures counted { self.new.plan.calls ≡ call_after self.old.plan.calls }
    {
        if self.plan.begin_call() {
            self.plan.count_fault();
            return Err(Failed);
        }
        let count = put_front(buf, &self.content[self.given..]);
        self.given += count;
        Ok(count)
    }
}

/// A sink that keeps bytes in memory. It fails exactly at the calls that its plan lists, and when it is full.
///
/// In contracts, a value is the bytes written, the greatest piece that one call takes, the room for bytes in all,
/// and the plan.
#[derive(Drop)]
pub struct MemSink {
    content: Vec<u8>,
    most: usize,
    room: usize,
    plan: Plan,
}

impl Model for MemSink {
    ghost use Rattle.std.specs.Prelude.{◌≤◌, vec_capacity, vec_len};
    ghost use Rattle.pv_io.specs.Memory as memory;

    ghost Value = { memory.Writing };

    ghost view = { λ s. record {
      written = s.content.items;
      most = s.most;
      room = s.room;
      plan = s.plan;
    } };

    ghost invariant = { λ s. (1 ≤ s.most) × (vec_len s.content ≤ s.room)
        × (s.room ≤ vec_capacity s.content) };
}

impl MemSink {
    /// Makes an empty sink with room for `room` bytes in all.
    ///
    /// One call takes at most `most` bytes, which must be at least 1. Calls whose numbers are in `fails` fail,
    /// where the first call has number 0. All room is allocated here, so that no write allocates. The only error is
    /// `AllocError`.
    pub fn new(
        alloc: Global,
        most: usize,
        room: usize,
        fails: Vec<u64>,
    ) -> Result<MemSink, AllocError>
        requires { 1 ≤ most }
        ensures { IfOk result (λ s. s ≡ record {
          written = [];
          most = most;
          room = room;
          plan = fresh fails.items;
        }) }
    {
        Ok(MemSink {
            content: Vec::with_capacity(alloc, room)?,
            most,
            room,
            plan: Plan::new(fails),
        })
    }

    /// Returns the bytes written so far.
    pub fn written(&self) -> &[u8]
        ensures { result.now ≡ self.now.written }
    {
        self.content.as_slice()
    }
}

impl Sink for MemSink {
    ghost written = { λ s. Some s.written };

    ghost faults = { λ s. s.plan.faults };

    ghost calls = { λ s. Some s.plan.calls };

    /// Takes the first bytes of the piece, as many as `most` and the free room allow, and returns how many.
    ///
    /// It is at least 1, since the piece must not be empty. `Failed` comes exactly if the plan lists the number of this
    /// call or the sink is full. Then the bytes written are unchanged, and one fault more is counted. The call does not
    /// allocate.
    fn write(&mut self, bytes: &[u8]) -> Result<usize, Failed>
        requires { 0 < length bytes.now }
        ensures planned { IsErr result ↔ (Contains self.old.plan.fails self.old.plan.calls
            ⊎ (self.old.room ≤ length self.old.written)) }
        ensures taken { IfOk result (λ n.
            n ≡ min (length bytes.now) (min self.old.most (self.old.room - length self.old.written))) }
        ensures ok { IfOk result (λ n. self.new ≡ record self.old {
          written = self.old.written ++ take n bytes.now;
          plan = record self.old.plan { calls = call_after self.old.plan.calls };
        }) }
        ensures err { OnErr result (self.new ≡ record self.old {
          plan = record self.old.plan {
            calls = call_after self.old.plan.calls;
            faults = fault_after self.old.plan.faults;
          };
        }) }
        ensures some { IfOk result (λ n. 1 ≤ n) }
        ensures fits { IfOk result (λ n. n ≤ length bytes.now) }
        ensures takes { IfOk result (λ n. self.new.written ≡ self.old.written ++ take n bytes.now) }
        ensures kept { OnErr result (self.new.written ≡ self.old.written) }
        ensures cause { OnErr result (HasRisen self.old.plan.faults self.new.plan.faults) }
        ensures never_falls { self.old.plan.faults ≤ self.new.plan.faults }
        ensures counted { self.new.plan.calls ≡ call_after self.old.plan.calls }
    {
        let free = self.room - self.content.len();
        if self.plan.begin_call() || free == 0 {
            self.plan.count_fault();
            return Err(Failed);
        }
        let count = bytes.len().min(self.most).min(free);
        self.content.extend_from_slice(&bytes[..count]).unwrap();
        Ok(count)
    }
}

/// Copies as many of the bytes as fit to the front of the buffer, and returns how many.
fn put_front(buf: &mut [u8], bytes: &[u8]) -> usize
    ensures count { result ≡ min (length buf.old) (length bytes.now) }
    ensures put { buf.new ≡ take result bytes.now ++ drop result buf.old }
    ensures front { take result buf.new ≡ take result bytes.now }
{
    let count = buf.len().min(bytes.len());
    buf[..count].copy_from_slice(&bytes[..count]);
    count
}
