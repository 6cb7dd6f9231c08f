//! Reads a rules text into a specification.
#![tactic(auto)]

pub mod read;
pub mod shown;
pub mod specification;
