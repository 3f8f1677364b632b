//! The create phase of systemd-tmpfiles (tmpfiles.d(5), systemd-tmpfiles(8)). [`create_run`] carries out the lines of a
//! table over a tree. If a run was stopped, a complete run of the same lines recovers.
#![tactic(auto)]

mod deciding;
mod kept;
mod laws;
mod line;
mod line_at;
mod object;
mod putting;
mod reached;
mod refusing;
mod run;
mod settling;
mod turning;
mod wanted;

pub use laws::{
    a_directory_that_a_directory_replaces_is_never_absent, a_run_leaves_what_lines_are_read_from,
    the_steps_of_a_run_leave_what_lines_are_read_from, what_one_rename_can_replace_is_never_absent,
};
pub use pv_laws::{
    each_path_by_itself_is_what_lines_leave,
    each_path_by_itself_is_what_lines_without_reasons_leave,
    states_after_a_stop_end_as_from_the_start,
};
pub use run::create_run;
