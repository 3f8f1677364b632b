//! Reads the lines of a tmpfiles.d(5) configuration from their bytes.
#![tactic(auto)]

mod argument_field;
mod attributes;
mod fault_name;
mod line;
mod line_fault;
mod line_list;
mod mode_field;
mod path_field;
mod read;
mod type_field;
mod types;

pub use fault_name::name_of;
pub use line::{Argument, Line, LineId, LineMode, LinePath};
pub use line_fault::LineFault;
pub use line_list::LineList;
pub use read::read_line;
