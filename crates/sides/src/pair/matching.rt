//! How two sides become a pair.
ghost use Rattle.std.specs.Prelude.{◌≡◌};
ghost use Rattle.sides.specs.declared.refusal.Refusal.TheVariants.{SidesDiffer};
ghost use Rattle.sides.specs.Sides.{pair_terms, matched};

use crate::pair::{Matched, Unmatched};
use crate::refusal::Refusal;
use crate::side::{GiverSide, TakerSide};
use crate::terms::Terms;

/// A pair where the sides are equal in every field, else both sides again.
#[tactic(auto, using(crate::proofs::Equal::agree, crate::proofs::Equal::differ))]
pub fn match_sides(giver: GiverSide, taker: TakerSide) -> Result<Matched, Unmatched>
    ensures { pair_terms result ≡ matched giver.terms taker.terms }
{
    let terms = giver.terms();
    if terms != taker.terms() {
        return Err(Unmatched { giver, taker });
    }
    Ok(Matched { terms })
}

impl Matched {
    pub fn terms(&self) -> Terms
        ensures { result ≡ self.now.terms }
    {
        self.terms
    }
}

impl Unmatched {
    pub fn refusal(&self) -> Refusal
        ensures { result ≡ SidesDiffer }
    {
        Refusal::SidesDiffer
    }
}
