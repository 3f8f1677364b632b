//! Runs from words and an image.
use provision_run::{provision, status};
use pv_io::{MemSink, MemSource};
use std::alloc::{AllocError, Global};
use test_sheet::words_of;

/// The moment of the runs, in microseconds since 1970.
pub(crate) const NOW: u64 = 1_000_000_000_000;

/// More than a run writes.
const ROOM: usize = 16_777_216;

/// A source or a sink that fails at a call, counted from 0.
#[derive(Drop, Clone, Copy)]
pub(crate) enum Broken {
    Source(u64),
    Sink(u64),
}

/// A source of these bytes.
fn source_of(alloc: Global, input: &[u8], broken: Option<Broken>) -> Result<MemSource, AllocError> {
    let mut faults = Vec::new(alloc);
    if let Some(Broken::Source(call)) = broken {
        faults.push(call)?;
    }
    Ok(MemSource::new(Vec::from_slice(alloc, input)?, faults))
}

/// An empty sink; one that fails takes ten bytes a call.
fn sink_of(alloc: Global, broken: Option<Broken>) -> Result<MemSink, AllocError> {
    match broken {
        Some(Broken::Sink(call)) => MemSink::new(alloc, 10, 64, vec![in alloc; call]?),
        _ => MemSink::new(alloc, 65_536, ROOM, Vec::new(alloc)),
    }
}

/// What a run writes, and its status.
pub(crate) fn run_with(
    alloc: Global,
    words: &str,
    input: &[u8],
    broken: Option<Broken>,
) -> Result<(Vec<u8>, u8), AllocError> {
    let words = words_of(alloc, words)?;
    let mut source = source_of(alloc, input, broken)?;
    let mut sink = sink_of(alloc, broken)?;
    let outcome = provision(alloc, &words, NOW, &mut source, &mut sink);
    Ok((Vec::from_slice(alloc, sink.written())?, status(&outcome)))
}

/// What a run writes, and its status.
pub(crate) fn run(alloc: Global, words: &str, input: &[u8]) -> Result<(Vec<u8>, u8), AllocError> {
    run_with(alloc, words, input, None)
}

/// What a run writes that is stopped after so many steps, if it is stopped.
pub(crate) fn stopped(
    alloc: Global,
    words: &str,
    input: &[u8],
    steps: u32,
) -> Result<Option<Vec<u8>>, AllocError> {
    let words = format!(in alloc; "{words} --stop-after={steps}")?;
    let (half, end) = run(alloc, &words, input)?;
    Ok(if end == 75 { Some(half) } else { None })
}
