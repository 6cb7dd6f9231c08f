//! Labels of nodes and what moves leave of them, as marks over a card's formulas; and with these the tests of the root and of a step.
#![tactic(auto)]

pub mod kept;
pub mod sets;
