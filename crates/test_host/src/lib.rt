//! Tests of folders: of the machine's own, and of folders of a host in memory that are opened; and of interrupted streams.
#![tactic(auto)]

#[cfg(test)]
mod machine_tests;
#[cfg(test)]
mod opening_tests;
#[cfg(test)]
mod run_tests;
#[cfg(test)]
mod stream_tests;
