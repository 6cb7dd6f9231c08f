//! Whether the moves of a node cover as its card asks: a bitmap over the valuations, which stops at the first that is marked twice.
#![tactic(auto)]

mod bitmap;
pub mod covering;
mod cube;
