//! A file tree in memory (`MemTree`), a builder that makes one from a sorted list of objects, and a tree with a
//! step limit (`Fused`).
//!
//! In memory a tree is a list of numbered slots. Each slot has an object and the numbers of its children by name,
//! as a directory has inode numbers.
#![tactic(auto)]

mod apply;
mod binary_search;
mod builder;
mod children;
mod content;
mod edits;
mod fused;
mod mem_tree;
mod slot;
mod slots;
mod sought_name;
mod step_log;
mod walk;

pub use apply::parts_fit;
pub use binary_search::{Probe, find};
pub use builder::{BuildFault, TreeBuilder};
pub use fused::Fused;
pub use mem_tree::MemTree;
pub use pv_steps::{Kind, Node, Object, Stamps, Step, Tree, TreeFault, Why};
pub use walk::{Walk, WalkEntry};
