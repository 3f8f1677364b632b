//! What systemd-sysusers does with /etc/passwd, /etc/group, /etc/shadow and /etc/gshadow (sysusers.d(5),
//! systemd-sysusers(8)). [`plan`] computes the new texts of these files. [`accounts_run`] reads the files of a tree,
//! stages the new texts and renames them into place.
#![tactic(auto)]

mod accounts_fault;
mod edit;
mod editing;
mod file_writing;
mod fixed;
mod groups;
mod judging;
mod laws;
mod lines;
mod members;
mod needs;
mod owners;
mod path_ids;
mod paths;
mod plan_fault;
mod planned;
mod planning;
mod pool;
mod publishing;
mod run_laws;
mod running;
mod staging;
mod sweeping;
mod texts;
mod users;
mod wanted;

pub use accounts_fault::AccountsFault;
pub use laws::{
    a_plan_among_new_files_gives_the_same_texts, groups_that_are_there_stay,
    users_that_are_there_stay,
};
pub use path_ids::{PathId, PathIds};
pub use plan_fault::PlanFault;
pub use planned::{Texts, duplicates, plan};
pub use pv_steps::Carried;
pub use run_laws::{
    a_run_stopped_after_putting_etc_recovers, stamps_and_staging_names_do_not_count,
    what_is_said_does_not_depend_on_stamps,
};
pub use running::accounts_run;
