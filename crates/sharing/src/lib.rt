//! Cash shared over lines, and interest that accrues.
#![tactic(auto)]

mod accrual;
mod apportioning;
mod laws;
mod limits;
mod refusal;
mod share;

pub use accrual::{DayBase, Interest};
pub use apportioning::apportion;
pub use laws::laws_stand;
pub use refusal::SharingRefusal;
pub use share::Share;
