//! The front panel: what of a member's securities is still to come back, by the standing lines.
#![tactic(auto)]

mod asking;
mod party;
mod refusal;
mod standing;

pub use asking::{Position, open_returns, position_of, still_to_come_back};
pub use party::Party;
pub use refusal::PanelRefusal;
