//! The clean phase of systemd-tmpfiles (tmpfiles.d(5), "Age"; systemd-tmpfiles(8), `--clean`). [`clean_run`] removes
//! what is older than the age of its directory.
#![tactic(auto)]

mod aging;
mod cleaning;
mod laws;
mod naming;
mod steps;

pub use cleaning::clean_run;
pub use laws::{
    a_cleaning_leaves_what_lines_are_read_from, a_stopped_clean_took_what_is_aged,
    only_what_is_aged_is_as_the_manual_says, what_is_aged_is_as_the_manual_says,
    what_is_aged_is_governed,
};
