//! What every source and every sink of bytes promises.
ghost use Rattle.std.specs.Prelude.{◌≡◌, ◌<◌, ◌≤◌, ℕ, Option, List, length, take, IfOk, OnErr};
ghost use Rattle.std.specs.Io.KnownBytes.{Appends, Consumes, IsAtEnd, Keeps};
ghost use Rattle.pv_io.specs.Calls.{CountsCall};
ghost use Rattle.pv_io.specs.Faults.{HasRisen};

use crate::transfer_fault::Failed;

/// Something that gives bytes, such as standard input.
///
/// A source counts its faults. The count never falls. A call is said to raise the count if the count is greater after
/// the call, or is at its maximum, 2^64 - 1.
pub trait Source {
    /// In contracts: the bytes that are left, or `None` if they are not known.
    ghost left: { Self → Option (List ℕ) };

    /// In contracts: the number of faults so far.
    ghost faults: { Self → ℕ };

    /// In contracts: the number of reads so far, or `None` if they are not counted.
    ghost calls: { Self → Option ℕ };

    /// Copies the next bytes to the front of the buffer, which must not be empty, and returns the number of these
    /// bytes.
    ///
    /// This number is at most the length of the buffer. It is 0 only at the end of the input. If the bytes left are
    /// known, it is always 0 at the end. `Failed` comes only if the count of faults rose. Then no byte was taken.
    fn read(&mut self, buf: &mut [u8]) -> Result<usize, Failed>
        requires { 0 < length buf.old }
        ensures fits { IfOk result (λ n. n ≤ length buf.new) }
        ensures takes { IfOk result (λ n. Consumes (left self.old) (left self.new) (take n buf.new)) }
        ensures end { IfOk result (λ n. n ≡ 0 → IsAtEnd (left self.new)) }
        ensures kept { OnErr result (Keeps (left self.old) (left self.new)) }
        ensures cause { OnErr result (HasRisen (faults self.old) (faults self.new)) }
        ensures never_falls { faults self.old ≤ faults self.new }
        ensures counted { CountsCall (calls self.old) (calls self.new) };
}

/// Something that takes bytes, such as standard output.
///
/// A sink counts its faults. The count never falls. A call is said to raise the count if the count is greater after the
/// call, or is at its maximum, 2^64 - 1.
pub trait Sink {
    /// In contracts: the bytes written so far, or `None` if they are not known.
    ghost written: { Self → Option (List ℕ) };

    /// In contracts: the number of faults so far.
    ghost faults: { Self → ℕ };

    /// In contracts: the number of writes so far, or `None` if they are not counted.
    ghost calls: { Self → Option ℕ };

    /// Takes the first bytes of the piece, which must not be empty, and returns how many: at least 1, and at most
    /// all of them.
    ///
    /// `Failed` comes only if the count of faults rose. Then no byte was taken. If a device takes no byte, that is
    /// `Failed` too.
    fn write(&mut self, bytes: &[u8]) -> Result<usize, Failed>
        requires { 0 < length bytes.now }
        ensures some { IfOk result (λ n. 1 ≤ n) }
        ensures fits { IfOk result (λ n. n ≤ length bytes.now) }
        ensures takes { IfOk result (λ n. Appends (written self.old) (written self.new) (take n bytes.now)) }
        ensures kept { OnErr result (Keeps (written self.old) (written self.new)) }
        ensures cause { OnErr result (HasRisen (faults self.old) (faults self.new)) }
        ensures never_falls { faults self.old ≤ faults self.new }
        ensures counted { CountsCall (calls self.old) (calls self.new) };
}
