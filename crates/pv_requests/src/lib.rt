//! Reads the lines of a sysusers.d(5) configuration: users, groups, members and ranges of numbers.
#![tactic(auto)]

mod field_texts;
mod names;
mod numbers;
mod read;
mod request;
mod request_fault;
mod same;

pub use names::is_account_name;
pub use read::read_request;
pub use request::{GroupId, Primary, Request, UserId};
pub use request_fault::{RequestFault, name_of};
pub use same::is_same_user;

/// A list of requests, in the order in which their lines are read.
pub type RequestList = pv_path::Sequence<Request>;
