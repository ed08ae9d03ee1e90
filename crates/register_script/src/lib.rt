//! The console's whole language: the commands to a book, those to a register over it, and its calls.
#![tactic(auto)]

mod beginning;
mod call;
mod command;
mod naming;
mod poke;
mod reading;
mod stating;
mod verb;

pub use call::{Amendment, Call, Substitution};
pub use command::{Beginning, Command, Quotation, RegisterCommand};
pub use poke::{DealField, HeadField, LineField, Poke, Target};
