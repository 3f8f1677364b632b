//! Reads the arguments of the command line. One option table decides for every list of them whether it means
//! anything, and what.
#![tactic(auto)]

mod checks;
mod command;
mod invocation;
mod matches;
mod option;
mod options;
mod rooted;
mod values;
mod words_fault;

pub use invocation::{Invocation, parse_args};
pub use options::{Options, options_of};
pub use rooted::{Rooted, rooted_of};
pub use words_fault::WordsFault;
