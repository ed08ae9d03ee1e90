//! Books: amounts in lent memory, a journal of postings, and a layer that holds back.
#![tactic(auto)]

mod grid;
mod holdback;
mod journal;
mod laid;
mod laying;
mod posting;
mod row;

pub use grid::Grid;
pub use holdback::Holdback;
pub use journal::Journal;
pub use laid::{Amounts, Laid};
pub use laying::{check, state_amount};
pub use posting::{BLANK, Posting};
