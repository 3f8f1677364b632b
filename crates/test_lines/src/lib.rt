//! Rows of single calls over lines and objects: images, ages, operations, tables of lines, what lines leave, and reports.
#![tactic(auto)]

#[cfg(test)]
mod age_tests;
#[cfg(test)]
mod create_tests;
#[cfg(test)]
mod fault_tests;
#[cfg(test)]
mod image_tests;
#[cfg(test)]
mod lines;
#[cfg(test)]
mod object_state_tests;
#[cfg(test)]
mod operation_tests;
#[cfg(test)]
mod phase_tests;
#[cfg(test)]
mod pointwise_tests;
#[cfg(test)]
mod report_tests;
#[cfg(test)]
mod standings;
#[cfg(test)]
mod table_tests;
#[cfg(test)]
mod things;
