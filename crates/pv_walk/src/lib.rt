//! Work on one object of a tree and on everything below it: walking along a path, replacing, setting metadata,
//! finding and removing.
//!
//! New objects are staged: they are made under a staging name, which begins with `.#tf-`, in the same directory. Then
//! they are renamed into place in one step. Metadata are owner, mode, ACL, extended attributes and file attribute
//! flags.
//!
//! [`walk`] checks that a path is safe to walk. [`prepare`] makes its parents, [`put_over`] puts a new object there,
//! and [`copy_over`] a copy. [`set_metadata`] changes owners, mode and the rest. [`matching_paths`] finds what a
//! pattern matches, and [`remove_below`] and [`sweep`] remove. The other items are the parts that these calls are made
//! of, and what the phases of a run share.
#![tactic(auto)]

mod copying;
mod known_child;
mod laws;
mod listing;
mod mask;
mod matching;
mod new_file;
mod object_state;
mod operation;
mod order;
mod path_set;
mod preparing;
mod publishing;
mod put;
mod remove;
mod run;
mod setting_metadata;
mod stage;
mod standing;
mod subtree;
mod sweeping;
mod walking;
mod whole_subtrees;

pub use copying::{TopNode, copy_over, stage_copy};
pub use laws::{
    a_first_renewal_absorbs_what_was_there, a_list_with_an_erasure_leaves_the_same,
    a_mask_takes_nothing_from_a_part_with_its_mode, a_mask_takes_nothing_from_its_own_mode,
    an_erasure_without_a_make_leaves_nothing, first_operations_are_absorbed,
    objects_are_compared_without_stamps, operations_do_the_same_in_parts,
};
pub use listing::{object_state_at, topped};
pub use mask::{masked_special, set_masked_base};
pub use matching::matching_paths;
pub use new_file::{NewFile, NewKind, new_object_state};
pub use object_state::{Body, Metadata, ObjectState};
pub use operation::{Change, Guard, Operation, Test};
pub use order::in_order;
pub use path_set::{PathSet, is_among};
pub use preparing::prepare;
pub use publishing::publish;
pub use put::{put_over, stage_file};
pub use pv_steps::Why;
pub use remove::{below, removal, remove_all, remove_below};
pub use run::{admits, run_operations, stays};
pub use setting_metadata::{is_same_base, set_metadata};
pub use stage::put_held;
pub use standing::add_standing;
pub use sweeping::sweep;
pub use walking::{Walked, refusal_of, unsafe_component, walk};
pub use whole_subtrees::{deepest_last, whole_of};
