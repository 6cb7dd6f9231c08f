//! How a text was read, as lines of text.
#![tactic(auto)]

mod formula;
mod lists;
mod pieces;
mod whole;

pub use whole::line;
