//! Rows of single calls over trees: steps, trees, what is staged in them, what metadata gives and trees that are drawn.
#![tactic(auto)]

#[cfg(test)]
mod generate_tests;
#[cfg(test)]
mod metadata_tests;
#[cfg(test)]
mod plain_tree;
#[cfg(test)]
mod shown;
#[cfg(test)]
mod staging_tests;
#[cfg(test)]
mod step_rows;
#[cfg(test)]
mod step_tests;
#[cfg(test)]
mod tree_tests;
