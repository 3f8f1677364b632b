//! Ages of tmpfiles.d(5): reads the text of the field "Age".
//!
//! An age is a time span, the timestamps that it looks at, and whether the first level of a directory is spared.
//! Whether an object is old by an age is decided in pv_table.
#![tactic(auto)]

mod age;
mod age_fault;
mod laws;
mod stamps;
mod sum;
mod unit;

pub use age::{Age, parse_age};
pub use age_fault::AgeFault;
pub use laws::printed_numbers_with_units_read_back_as_their_sum;
pub use stamps::StampSet;
