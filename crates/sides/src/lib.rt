//! What the two sides of a deal state, their matching, the day sheet, and why the register refuses.
#![tactic(auto)]

mod day_end;
mod pair;
mod refusal;
mod side;
mod terms;

pub use day_end::{
    DaySheet, NotClosed, close_day_end, lift_day_end, open_day_end, rehearse_day_end,
};
pub use pair::{Matched, Unmatched, match_sides};
pub use refusal::Refusal;
pub use side::{Giver, GiverSide, Side, Taker, TakerSide};
pub use terms::Terms;
