//! The table of the active lines, and what each line asks for (tmpfiles.d(5)).
//!
//! The crate says which lines are active, and in which order they are carried out. Its definitions say what each
//! phase of a run leaves.
#![tactic(auto)]

mod action;
mod action_table;
mod age_scope;
mod building;
mod laws;
mod message;
mod named;
mod old;
mod order;
mod reach;
mod reason;
mod same;
mod scope;
mod staying;
mod table;
mod taking;

pub use action::{Action, Adjustment, Copying, Making, OperationList};
pub use action_table::{action_of, is_writing, sparing_of, taking_of};
pub use age_scope::scope_of;
pub use building::build;
pub use laws::{
    a_line_asks_nothing_elsewhere, active_lines_make_different_paths,
    refusing_no_line_does_not_depend_on_the_moment, what_lies_above_comes_first,
};
pub use message::{left_text, place_text, say_left, say_refused, say_source_refused};
pub use named::{named_paths, standing_at};
pub use old::is_old;
pub use order::{create_order, remove_order};
pub use reach::{is_creating, names, names_first, path_of};
pub use reason::Reason;
pub use scope::Scope;
pub use table::Table;
pub use taking::{Sparing, Taking};

/// A list of indices of lines in a table, counted from 0.
pub type IndexList = pv_path::Sequence<usize>;
