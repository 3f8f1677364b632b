//! The explanation of one path (tmpfiles.d(5), `--explain`). [`explain`] finds the lines that change what is at the
//! path in the create phase, and the object there at the end. It changes nothing. What lines leave is computed for each
//! path without looking at whether a path is safe to walk, so that no line counts as refused. Timestamps are left out.
#![tactic(auto)]

mod comparing;
mod copied;
mod explained;
mod explaining;
mod following;
mod line_turn;
mod made;
mod point;
mod region;
mod standing;
mod state;
mod tree_standing;

pub use explained::{Act, ActList, Explained, LineAct};
pub use explaining::explain;
pub use standing::Standing;
pub use state::{after_line, after_line_at, places_along, state_after};
