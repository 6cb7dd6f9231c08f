//! Marking a card: is it accepted for a specification, with which verdict and depth, or which condition fails first?
#![tactic(auto)]

pub mod check;
mod leaves;
mod listing;
mod node_by_node;
mod terms;
pub mod verdict;
