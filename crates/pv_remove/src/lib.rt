//! The phases that remove what lines name. [`remove_run`] is for the lines r, R and D (tmpfiles.d(5)). [`purge_run`] is
//! for lines with `$` (systemd-tmpfiles(8), `--purge`).
#![tactic(auto)]

mod covering;
mod judging;
mod laws;
mod plan;
mod purging;
mod removing;
mod taking_away;

pub use laws::{
    a_purge_cut_short_recovers, a_purge_leaves_what_lines_are_read_from,
    a_removal_cut_short_recovers, a_removal_leaves_what_lines_are_read_from,
    only_what_is_gone_is_as_the_manual_says, what_a_removal_leaves_is_a_tree,
    what_a_whole_removal_leaves_no_removal_takes, what_is_gone_is_as_the_manual_says,
    what_is_purged_is_governed, what_is_removed_is_governed,
};
pub use purging::purge_run;
pub use removing::remove_run;
