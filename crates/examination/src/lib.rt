//! A text and a card examined together: the text is read, and the card checked for its specification.
#![tactic(auto)]

pub mod examine;
pub mod fault;
