//! A file tree in a folder of a host: its directories and files are real, and a manifest has everything else.
//!
//! [`Host`] is the trait of what a file system can do. [`MemHost`] is a host over a tree in memory, which fails at
//! planned calls. [`RealHost`] is the machine's own file system.
//!
//! [`read_folder`] opens a folder, and [`merge`] merges a manifest with the real objects. [`FolderTree`] is a tree
//! in memory that does its steps in the folder too, and [`close_folder`] writes the manifest.
#![tactic(auto)]

mod asking;
mod change;
mod closing;
mod copied_facts;
mod folder_tree;
mod found;
mod growing;
mod host;
mod host_path;
mod item;
mod laws;
mod looking;
mod mem_host;
mod merged_object;
mod merging;
mod open_fault;
mod plain;
mod plan;
mod reading;
mod reading_tree;
mod real_host;
mod spelling;
mod tree_host;
mod writing;

pub use closing::close_folder;
pub use folder_tree::FolderTree;
pub use host::{FileBytes, Host, HostFault};
pub use item::{HostItem, HostKind, HostList};
pub use laws::{
    a_closed_folder_is_opened_again, a_folder_always_holds_an_intermediate_tree,
    an_interrupted_folder_is_opened_as_merged, an_opened_folder_keeps_its_tree,
};
pub use mem_host::MemHost;
pub use merging::merge;
pub use open_fault::OpenFault;
pub use reading::read_folder;
pub use real_host::RealHost;
