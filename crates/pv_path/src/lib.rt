//! Names and paths in a file tree: how they are read, compared and printed. Also the list types that other crates
//! share.
#![tactic(auto)]

mod cutting;
mod name;
mod parse;
mod path;
mod path_fault;
mod print;
mod rare;
mod relate;
mod sequence;
mod short_bytes;

pub use cutting::pieces_of;
pub use name::{Name, is_name, is_staging};
pub use parse::parse_path;
pub use path::TreePath;
pub use path_fault::PathFault;
pub use print::{add_plain, add_printed, add_printed_but, is_plain, print_bytes, print_path};
pub use rare::RareList;
pub use relate::{child, has_staging, is_prefix, names_under, parent, rebase, staging};
pub use sequence::Sequence;

/// A list of bytes: the content of a file, the target of a symbolic link, or a text.
pub type Bytes = Sequence<u8>;

/// A list of names, in the order in which they were added.
pub type NameList = Sequence<Name>;

/// The arguments of a command line, in order, each as its bytes.
pub type WordList = Sequence<Bytes>;

/// A list of paths, in the order in which they were added.
pub type PathList = Sequence<TreePath>;
