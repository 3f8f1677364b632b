//! Laws of what configuration lines leave in the create phase (tmpfiles.d(5)), over the definitions alone.
//!
//! They say what a run leaves at each path, and that the next run completes a run that was stopped. There is nothing
//! here to call: the laws are for proofs.
#![tactic(auto)]

mod laws;

pub use laws::{
    a_line_leaves_what_it_asks_for, a_piece_ends_as_the_start, a_run_cut_short_recovers,
    a_run_from_pieces_recovers, a_run_leaves_no_staging_name, active_lines_are_distinct,
    each_path_by_itself_is_what_lines_leave,
    each_path_by_itself_is_what_lines_without_reasons_leave, lines_leave_what_they_ask_for,
    lines_that_are_apart_commute, messages_and_trees_need_no_moment,
    nothing_is_said_against_lines_without_reasons, on_the_way_each_path_is_between_two_lines,
    refusing_no_line_needs_no_moment, runs_cut_short_again_and_again_recover,
    states_after_a_stop_end_as_from_the_start, what_is_on_the_way_is_a_piece,
    what_lines_copy_stays, what_no_line_governs_stays,
};
