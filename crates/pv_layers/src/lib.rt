//! Chooses the files of a tree that a run reads as its configuration (tmpfiles.d(5), sysusers.d(5)).
//!
//! Each tool has four folders. A file hides a file of the same name in each folder of lower precedence.
#![tactic(auto)]

mod chosen;
mod folders;
mod found;
mod laws;
mod words;

pub use chosen::{Chosen, chosen_files};
pub use folders::{etc_path, inputs};
pub use laws::{the_choice_depends_on_the_folders, the_chosen_stand_in_the_folders};
