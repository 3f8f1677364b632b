//! The file of group passwords, /etc/gshadow (gshadow(5)). [`gshadow_view`] looks up an entry without copying it.
//! [`add_group`] and [`add_gshadow_member`] give the text of the file with one more group or member.
#![tactic(auto)]

mod edit;
mod view;

pub use edit::{add_group, add_gshadow_member, new_group};
pub use view::{GshadowEntry, GshadowView, gshadow_view};
