//! The tokens of a rules text, one at a time, with no memory of its own.
#![tactic(auto)]

pub mod bounds;
pub mod look;
pub mod token;
