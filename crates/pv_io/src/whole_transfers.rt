//! Transfers of all bytes: from a source to its end, and of a slice to a sink.
ghost use Rattle.std.specs.Prelude.{◌≡◌, ◌<◌, ◌≤◌, ◌+◌, ◌++◌, ◌⊎◌, ℕ, List, length, nat_lt, IfOk, IfSome, OnOk, OnErr, IsErrOf};
ghost use Rattle.std.specs.Io.KnownBytes.{Appends, Consumes, IsAtEnd};
ghost use Rattle.pv_io.specs.Calls.{CountsAtMost, CountsCall};
ghost use Rattle.pv_io.specs.Faults.{HasRisen};
ghost use Rattle.pv_io.specs.Transfers.{AppendsPrefix, ConsumesPrefix};

use crate::transfer::{Sink, Source};
use crate::transfer_fault::{ReadAllFault, WriteFault};
use std::alloc::Global;

/// The most bytes that `read_all` reads from a source: 64 MiB.
pub const MOST_BYTES: usize = 67_108_864;

/// How many bytes one read asks for.
const PIECE: usize = 8192;

/// Reads all bytes that the source has left, to its end.
///
/// If the answer is `Ok`, it has exactly these bytes, at most [`MOST_BYTES`], and the source is at its end.
/// `TooLong` comes only if more than [`MOST_BYTES`] bytes were left. If more were left, then the answer is
/// `TooLong` or `Memory`, or the source's count of faults rose. `ReadFault` comes only if that count rose. `Memory`
/// means that an allocation failed.
///
/// The bytes taken are always a prefix of those left, even after an error. There are at most `MOST_BYTES + 1` reads.
/// What is said here about bytes holds if the bytes left are known. Those of standard input are not known.
pub fn read_all<S: Source>(alloc: Global, source: &mut S) -> Result<Vec<u8>, ReadAllFault>
    ensures ok { IfOk result (λ v. IfSome (S.left source.old) (λ xs. v.items ≡ xs)) }
    ensures end { OnOk result (IsAtEnd (S.left source.new)) }
    ensures fits { IfOk result (λ v. length v.items ≤ MOST_BYTES) }
    ensures too_long { IsErrOf result ReadAllFault.TooLong →
        IfSome (S.left source.old) (λ xs. MOST_BYTES < length xs) }
    ensures long { IfSome (S.left source.old) (λ xs. MOST_BYTES < length xs →
        IsErrOf result ReadAllFault.TooLong
        ⊎ (IsErrOf result ReadAllFault.Memory
        ⊎ HasRisen (S.faults source.old) (S.faults source.new))) }
    ensures cause { IsErrOf result ReadAllFault.ReadFault →
        HasRisen (S.faults source.old) (S.faults source.new) }
    ensures never_falls { S.faults source.old ≤ S.faults source.new }
    ensures prefix { ConsumesPrefix (S.left source.old) (S.left source.new) }
    ensures reads { CountsAtMost (MOST_BYTES + 1) (S.calls source.old) (S.calls source.new) }
{
    let mut content = Vec::new(alloc);
    for _ in 0..MOST_BYTES + 1 {
        let count = read_piece(source, &mut content)?;
        if count == 0 {
            return Ok(content);
        }
        if is_too_long(&content) {
            return Err(ReadAllFault::TooLong);
        }
    }
    unreachable!()
}

/// Returns whether there are more bytes than [`MOST_BYTES`].
fn is_too_long(content: &[u8]) -> bool
    ensures { result ≡ nat_lt MOST_BYTES (length content.now) }
{
    content.len() > MOST_BYTES
}

/// Reads once, appends the bytes that came, and returns how many came.
fn read_piece<S: Source>(source: &mut S, content: &mut Vec<u8>) -> Result<usize, ReadAllFault>
    ensures ok { IfOk result (λ n. (bs : List ℕ) × (length bs ≡ n)
        × Consumes (S.left source.old) (S.left source.new) bs
        × (content.new.items ≡ content.old.items ++ bs)) }
    ensures end { IfOk result (λ n. n ≡ 0 → IsAtEnd (S.left source.new)) }
    ensures short { IsErrOf result ReadAllFault.TooLong → ⊥ }
    ensures cause { IsErrOf result ReadAllFault.ReadFault →
        HasRisen (S.faults source.old) (S.faults source.new) }
    ensures never_falls { S.faults source.old ≤ S.faults source.new }
    ensures prefix { ConsumesPrefix (S.left source.old) (S.left source.new) }
    ensures counted { CountsCall (S.calls source.old) (S.calls source.new) }
{
    let mut piece = [0u8; PIECE];
    let count = source.read(&mut piece)?;
    content.extend_from_slice(&piece[..count])?;
    Ok(count)
}

/// Writes all bytes to the sink.
///
/// Each write is offered all bytes that are not yet written, so there is at most one write for each byte. If the answer
/// is `Ok`, exactly these bytes were appended. `WriteFault` comes only if the sink's count of faults rose. Then a
/// prefix of the bytes, and not all of them, was appended. The call does not allocate.
pub fn write_all_of<K: Sink>(sink: &mut K, bytes: &[u8]) -> Result<(), WriteFault>
    ensures ok { OnOk result (Appends (K.written sink.old) (K.written sink.new) bytes.now) }
    ensures prefix { OnErr result (AppendsPrefix (K.written sink.old) (K.written sink.new) bytes.now) }
    ensures cause { OnErr result (HasRisen (K.faults sink.old) (K.faults sink.new)) }
    ensures never_falls { K.faults sink.old ≤ K.faults sink.new }
    ensures writes { CountsAtMost (length bytes.now) (K.calls sink.old) (K.calls sink.new) }
{
    let mut done = 0;
    while done < bytes.len() {
        done += sink.write(&bytes[done..])?;
    }
    Ok(())
}
