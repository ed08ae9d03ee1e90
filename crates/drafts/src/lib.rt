//! The slips that a call drafts, before it moves and writes them.
#![tactic(auto)]

mod draft;
mod moving;

pub use draft::{Draft, DraftFull};
pub use moving::move_slips;
