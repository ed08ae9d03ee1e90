//! The sides and the pair that the console has in hand.
ghost use Rattle.std.specs.Prelude.{◌≡◌};
ghost use Rattle.commands.specs.Hands.{held, nothing, side_answer, given_after, taken_after, match_answer, matched_after};

use crate::unobeyed::Unobeyed;
use sides::{GiverSide, Matched, Refusal, TakerSide, Terms, Unmatched, match_sides};

// A side may be stated anew while a pair is in hand, so each of the three comes and goes for itself.
#[derive(Drop)]
pub struct Hand {
    giver: Option<GiverSide>,
    taker: Option<TakerSide>,
    pair: Option<Matched>,
}

impl Hand {
    pub fn empty() -> Hand
        ensures { held result ≡ nothing }
    {
        Hand {
            giver: None,
            taker: None,
            pair: None,
        }
    }

    /// States the giver's side, in the place of an earlier one.
    pub(crate) fn state_giver(&mut self, terms: Terms) -> Result<(), Unobeyed>
        ensures answer { result ≡ side_answer terms }
        ensures change { held self.new ≡ given_after terms (held self.old) }
    {
        // The same as for the taker but for the party, which its type says.
        self.giver = Some(GiverSide::state(terms)?);
        Ok(())
    }

    /// States the taker's side, in the place of an earlier one.
    pub(crate) fn state_taker(&mut self, terms: Terms) -> Result<(), Unobeyed>
        ensures answer { result ≡ side_answer terms }
        ensures change { held self.new ≡ taken_after terms (held self.old) }
    {
        self.taker = Some(TakerSide::state(terms)?);
        Ok(())
    }

    /// Matches the two sides; where they differ, both stay in hand.
    pub(crate) fn match_sides(&mut self) -> Result<(), Unobeyed>
        ensures answer { result ≡ match_answer (held self.old) }
        ensures change { held self.new ≡ matched_after (held self.old) }
    {
        if self.pair.is_some() || self.taker.is_none() {
            return Err(Unobeyed::Misplaced);
        }
        let giver = self.giver.take().ok_or(Unobeyed::Misplaced)?;
        let taker = self.taker.take().ok_or(Unobeyed::Misplaced)?;
        match match_sides(giver, taker) {
            Ok(pair) => {
                self.pair = Some(pair);
                Ok(())
            }
            Err(Unmatched { giver, taker }) => {
                self.giver = Some(giver);
                self.taker = Some(taker);
                Err(Refusal::SidesDiffer.into())
            }
        }
    }

    /// Lets go of the sides and of the pair.
    pub(crate) fn withdraw(&mut self)
        ensures { held self.new ≡ nothing }
    {
        *self = Hand::empty();
    }
}
