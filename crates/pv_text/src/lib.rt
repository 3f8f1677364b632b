//! Fields, escapes and specifiers of configuration lines. Also what several crates share: facts, messages and
//! locations.
//!
//! [`fields`] splits a line, [`unescape`] replaces the escapes of a field, and [`expand`] its specifiers. [`Facts`] has
//! the values of specifiers, [`Messages`] the messages of a run, and [`Place`] the location of a line.
#![tactic(auto)]

mod escapes;
mod facts;
mod lent_fields;
mod messages;
mod one_line;
mod place;
mod spans;
mod specifiers;
mod splitting;
mod text_fault;
mod tool;

pub use escapes::unescape;
pub use facts::{FACT_LETTERS, Facts};
pub use lent_fields::Fields;
pub use messages::{Messages, say_all};
pub use one_line::OneLine;
pub use place::Place;
pub use specifiers::expand;
pub use splitting::{fields, is_blank};
pub use text_fault::{ExpandFault, FieldFault};
pub use tool::Tool;
