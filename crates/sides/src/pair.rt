//! A giver's and a taker's side that state the same.
ghost use Rattle.std.specs.Prelude.{◌≡◌, true};
ghost use Rattle.sides.specs.Ranges.{terms_fit};

use crate::side::{GiverSide, TakerSide};
use crate::terms::Terms;

mod matching;

pub use matching::match_sides;

/// A matched pair, by the terms that both sides stated. It settles once, or is let go.
#[derive(Drop)]
pub struct Matched {
    terms: Terms,
    ghost fits: { terms_fit terms ≡ true },
}

/// Two sides that differ, handed back.
#[derive(Drop)]
pub struct Unmatched {
    pub giver: GiverSide,
    pub taker: TakerSide,
}
