//! The commands to a book: the words of a line are read into one.
#![tactic(auto)]

mod command;
mod verb;

pub use command::{BookChoice, BookKind, Command, Holding};
pub use verb::Verb;
