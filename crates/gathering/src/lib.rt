//! Gathers a value of securities from a giver's free amounts, over any book and any valuation.
#![tactic(auto)]

mod basket;
mod course;
mod most;
mod order;
mod taking;

pub use basket::Basket;
pub use course::gather;
pub use order::{Order, Pick};
