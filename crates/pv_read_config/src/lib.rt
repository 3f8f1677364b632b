//! Reads the configuration of a run: the lines of all files that the tool reads in a tree.
//!
//! The input paths are what a configuration depends on. They are the four folders of the tool with all that is below
//! them. For systemd-tmpfiles they also include `/etc/passwd` and `/etc/group`.
#![tactic(auto)]

mod configuration;
mod cutting;
mod file_lines;
mod laws;
mod line_reader;
mod sysusers;
mod tmpfiles;

pub use configuration::Configuration;
pub use file_lines::read_lines;
pub use laws::{
    a_configuration_depends_on_input_paths, a_run_outside_leaves_the_configuration,
    each_request_is_allowed, requests_depend_on_their_folders,
    steps_elsewhere_leave_the_configuration,
};
pub use line_reader::LineReader;
pub use sysusers::read_requests;
pub use tmpfiles::read_configuration;
