//! What a book of accounts is, and lists of movements over any book.
#![tactic(auto)]

mod asking;
mod contract;
mod lists;
mod movement;
mod refusal;
mod standing;

pub use asking::{amount_at, free_at, held_by_all, holdback_at};
pub use contract::Book;
pub use lists::{attempt, perform, rehearse};
pub use movement::{LIMIT, Movement, RefusedAt};
pub use refusal::BookRefusal;
pub use standing::Standing;
