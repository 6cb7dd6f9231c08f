//! A line of printed text as a value of fixed size: at most 64 bytes, made piece by piece.
#![tactic(auto)]

mod line;

pub use line::Line;
