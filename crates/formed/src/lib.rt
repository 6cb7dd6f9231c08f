//! The first tests of a card, which look at its entries one by one: counts and kind, the form of every entry, and equal formulas.
#![tactic(auto)]

pub mod counts;
pub mod entries;
pub mod equal;
mod form;
mod table;

pub use table::Records;
pub use table::copy::formulas_of;
