//! Trees and steps: what a file tree is, and what each atomic change (step) does to it. All runs of the program are
//! described by these definitions.
//!
//! The crate has the trait `Tree` of trees that can be read and changed. It also says what several actions leave
//! that are done one after the other.
#![tactic(auto)]

mod asking;
mod attr;
mod carried;
mod laws;
mod letters;
mod looking;
mod node;
mod object;
mod step;
mod tree;
mod why;

pub use asking::{try_all, try_step};
pub use attr::{Attr, AttrList, is_attr, is_attr_name};
pub use carried::Carried;
pub use laws::{
    a_run_leaves_what_it_does_not_alter, a_run_outside_leaves_contents, a_run_passes_trees,
    a_run_passes_trees_on_the_way, a_step_leaves_a_tree, a_step_leaves_what_it_says,
    names_are_of_what_stands_there, names_rise_strictly, presence_decides_names,
};
pub use letters::{LetterHow, LetterSet};
pub use looking::{is_directory, is_present, kind_at, node_of};
pub use node::{Kind, Node, Stamps, special_bits};
pub use object::{Object, is_target};
pub use step::Step;
pub use tree::{Tree, TreeFault};
pub use why::Why;
