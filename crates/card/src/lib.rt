//! Cards: what a source of one answers, the card file, the sheet of tables in memory, and the writer of card files.
#![tactic(auto)]

mod counts;
pub mod entries;
pub mod entry;
pub mod file;
mod layout;
pub mod limits;
pub mod sheet;
pub mod source;
#[cfg(test)]
mod tests;
pub mod variables;
pub mod writer;
