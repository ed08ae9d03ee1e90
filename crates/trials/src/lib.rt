//! Tests by table over the whole library, the smallest book of one's own, and a host over its own memory.
#![tactic(auto)]

mod lending;
mod movements;
mod sealed;

pub use lending::{left_of_layer_over_journal, moved_in_place};
pub use sealed::Sealed;

#[cfg(test)]
mod baskets;
#[cfg(test)]
mod books_alike;
#[cfg(test)]
mod damages;
#[cfg(test)]
mod lines;
#[cfg(test)]
mod parts;
#[cfg(test)]
mod register;
#[cfg(test)]
mod rows;
#[cfg(test)]
mod soundness;
#[cfg(test)]
mod worths;
