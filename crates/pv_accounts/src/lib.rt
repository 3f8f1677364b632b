//! The account files /etc/passwd, /etc/group, /etc/shadow and /etc/gshadow (passwd(5), group(5), shadow(5),
//! gshadow(5)).
//!
//! The crate reads their entries as slices of the file, looks up names and IDs, and makes files with more entries or
//! more members. Lines that are not entries are passed over, and are kept byte for byte.
#![tactic(auto)]

mod cutting;
mod edit;
mod entry;
mod entry_names;
mod find;
mod in_use;
mod names;
mod views;

pub use cutting::{cut, uncut};
pub use edit::{add_member, add_member_in, append_entries, append_entry};
pub use entry::{GroupEntry, PasswdEntry, ShadowEntry, gshadow_parts};
pub use entry_names::EntryNames;
pub use find::{Kind, find_line};
pub use in_use::InUse;
pub use names::FileNames;
pub use views::{GroupView, PasswdView, ShadowView, group_view, passwd_view, shadow_view};
