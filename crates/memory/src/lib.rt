//! The register's memory, which a host lends: its rows, and whether they are sound.
#![tactic(auto)]

mod beginning;
mod cash;
mod checking;
mod deal;
mod finding;
mod judging;
mod kept;
mod line;
mod place;
mod register;
mod row;
mod rules;
mod slip;
mod tally;
mod valuer;

pub use beginning::begin;
pub use finding::find;
pub use kept::Row;
pub use place::{Fault, Table};
pub use register::{Checked, Register};
pub use row::{
    Deal, Head, Kind, Line, NO_DEAL, NO_LINE, NO_SLIP, Next, Phase, Sense, Slip, Used, Weighing,
    day_base,
};
pub use valuer::Valuer;
