//! Five of the nine calls. Each borrows for writing only the parts of the register that it writes; one value of all three parts
//! would ask a caller for more.
#![tactic(auto)]

mod amending;
mod day_end;
mod growth;
mod paying;

pub use amending::amend;
pub use day_end::{close, lift, open};
pub use paying::pay;
