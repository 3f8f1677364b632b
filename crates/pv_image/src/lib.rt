//! Reads and writes the tree image: one text that holds a complete file tree, and facts about its system.
//!
//! docs/FORMAT.md describes the format. Each tree with its facts has exactly one text in each version.
#![tactic(auto)]

mod attrs;
mod column;
mod cut;
mod extent;
mod extras;
mod image_fault;
mod laws;
mod letters;
mod line;
mod name;
mod node;
mod payload;
mod printed;
mod reader;
mod tree;
mod version;
mod write;
mod writer;

pub use image_fault::ImageFault;
pub use laws::{
    an_old_text_is_an_image, bytes_are_one_image, bytes_have_one_fault, image_has_no_fault,
    line_says_one_thing, text_is_an_image, text_is_read_again,
};
pub use reader::{Image, read_image};
pub use version::Version;
pub use write::print_node;
pub use writer::{add_image, write_emptied, write_image};
