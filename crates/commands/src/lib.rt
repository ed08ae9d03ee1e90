//! What the console's commands do to the book, to the register's memory and to the sides in hand.
#![tactic(auto)]

mod acting;
mod hand;
mod obeying;
mod poking;
mod preparing;
mod pricing;
mod unobeyed;

pub use acting::act;
pub use hand::Hand;
pub use obeying::obey;
pub use preparing::prepare;
pub use unobeyed::Unobeyed;
