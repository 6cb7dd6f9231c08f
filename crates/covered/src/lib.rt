//! What a set of a card's formulas holds and covers, as marks over the card's formula numbers.
#![tactic(auto)]

pub mod cover;
mod formula;
pub mod hold;
pub mod marks;
