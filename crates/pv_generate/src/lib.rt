//! Generates trees from a seed: old files in eight directories, and a configuration of pseudo-random lines for
//! them.
#![tactic(auto)]

mod counting;
mod drawing;
mod lines;
mod objects;
mod plan;
mod tree;

pub use counting::node_count;
pub use tree::generated_tree;
