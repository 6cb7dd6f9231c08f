//! The grammar of a rules text: how it is read, and the laws of its reading.
#![tactic(auto)]

pub mod head;
pub mod laws;
