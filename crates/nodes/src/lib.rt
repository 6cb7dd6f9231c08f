//! Written formulas as lists of nodes, parts before wholes.
#![tactic(auto)]

pub mod node;
pub mod syntax;
