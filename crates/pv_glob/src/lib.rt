//! Patterns of paths (glob(7)): how they are read, which paths they match, and the first path that two of them share.
//!
//! A program needs [`parse_pattern`], [`literal`], [`matches`] and [`meet`]. The other items are the parts that these
//! calls are made of.
#![tactic(auto)]

mod alike;
mod apart;
mod beginning;
mod brace_reading;
mod braces;
mod bracket;
mod class;
mod component;
mod earlier;
mod element;
mod laws;
mod literal_name;
mod matching;
mod meeting;
mod moves;
mod pair;
mod parse;
mod pattern;
mod pattern_fault;
mod plain;
mod rank;
mod search;
mod spot;
mod taker;
mod word;
mod words;

pub use element::{ByteRange, ByteSet, Component, Element};
pub use laws::an_escaped_path_spells_its_literal;
pub use literal_name::written;
pub use meeting::{Reach, meet};
pub use moves::{Move, MoveList, Moves};
pub use pair::PairMachine;
pub use parse::parse_pattern;
pub use pattern::{Pattern, literal, matches, matches_first};
pub use pattern_fault::PatternFault;
pub use plain::Plain;
pub use search::least_word;
