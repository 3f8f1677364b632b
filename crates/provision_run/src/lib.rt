//! One run of the program as a library call. [`provision`] reads an image from a source, carries out what the words of
//! a command ask for, and writes messages and an image to a sink. [`provision_all`] can also run on a folder of a host.
//! [`run_on_tree`] does the same over any tree, without reading or writing an image.
#![tactic(auto)]

mod accounting;
mod answer;
mod boot;
mod configured_phases;
mod ending;
mod explaining;
mod generated;
mod laws;
mod lent;
mod message;
mod on_folder;
mod outcome;
mod phase;
mod phase_laws;
mod reporting;
mod run;
mod run_input;
mod running;
mod task;
mod top;

pub use boot::boot_run;
pub use ending::RunEnd;
pub use laws::{
    a_run_on_a_folder_always_holds_an_intermediate_tree, folders_of_killed_runs_recover,
    folders_of_stopped_runs_recover, outputs_of_stopped_runs_recover,
    trees_of_stopped_runs_recover,
};
pub use outcome::{Outcome, status};
pub use phase::{Phase, phases_of, run_phases};
pub use phase_laws::{
    a_boot_cut_short_recovers, a_boot_leaves_what_lines_are_read_from,
    a_boot_on_its_way_removes_or_is_between_two_lines, boots_cut_short_again_and_again_recover,
    what_no_line_governs_stays,
};
pub use run::run_on_tree;
pub use top::{provision, provision_all};
