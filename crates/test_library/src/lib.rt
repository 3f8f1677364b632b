//! The examples of the library's documentation, as tests: what a program writes that uses the crates by themselves.
#![tactic(auto)]

#[cfg(test)]
mod image_examples;
#[cfg(test)]
mod line_examples;
#[cfg(test)]
mod nobody;
#[cfg(test)]
mod pattern_examples;
#[cfg(test)]
mod run_examples;
