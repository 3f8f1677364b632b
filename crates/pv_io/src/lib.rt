//! Reads the input of a run and writes its output.
//!
//! A [`Source`] gives bytes, and a [`Sink`] takes them. [`read_all`] reads everything that a source has left, and
//! [`write_all_of`] writes all of a slice to a sink. [`StdSource`] and [`StdSink`] use a reader and a writer of
//! std, such as standard input and output. [`MemSource`] and [`MemSink`] are in memory, and fail at chosen calls.
#![tactic(auto)]

mod memory;
mod plan;
mod standard;
mod transfer;
mod transfer_fault;
mod whole_transfers;

pub use memory::{MemSink, MemSource};
pub use plan::Plan;
pub use standard::{StdSink, StdSource};
pub use transfer::{Sink, Source};
pub use transfer_fault::{Failed, ReadAllFault, WriteFault};
pub use whole_transfers::{MOST_BYTES, read_all, write_all_of};
