//! Access control lists (acl(5)): permissions, named entries, the entries of configuration lines, and their texts.
#![tactic(auto)]

mod acl_fault;
mod apply;
mod line;
mod list;
mod names;
mod numbers;
mod parse;
mod part;
mod perm;
mod print;
mod read;

pub use acl_fault::AclFault;
pub use apply::apply_entries;
pub use line::{AclLine, Entry, EntryList, How};
pub use list::NamedList;
pub use names::Names;
pub use numbers::{number, written_id};
pub use parse::parse_acl;
pub use part::{Acl, Part, effective_mask};
pub use perm::{Named, Perm, Who};
pub use print::print_acl;
pub use read::{decimal_id, read_acl};
