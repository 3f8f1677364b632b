//! Rows as they are written in a text, with the texts and images that they stand for. No part of the program.
#![tactic(auto)]

mod images;
mod marks;
mod objects;
mod reports;
mod rows;
mod wants;

pub use marks::{bytes_of, words_of};
pub use objects::{attr_of, attrs_of, kind_of, letter_of, letters_of, plain_node, plain_object};
pub use reports::{Calls, report};
pub use rows::{Row, Sheet};
pub use wants::{ended, input, output};
