//! Changes of a register's tables, what the lines of a deal are worth, and its cash shared out over them.
#![tactic(auto)]

mod deals;
mod gap;
mod held;
mod lines;
mod sharing_out;
mod totals;
mod worth;

pub use deals::{add_deal, remove_deal};
pub use lines::{add_line, lower_line};
pub use worth::Pricing;
