//! The lines of a party, listed in memory that is lent for it.
ghost use Rattle.std.specs.Prelude.{◌≡◌, length, slice_set};
ghost use Rattle.memory.specs.Sound.{used_deals, used_lines};
ghost use Rattle.panel.specs.Standing.{lines_of, listed};

use crate::party::Holder;
use crate::standing::StandingRows;
use memory::Line;

/// Writes a line at a place; past the end there is no room for it.
#[tactic(auto, using(crate::proofs::Listed::past_the_end))]
fn put(places: &mut [Line], place: usize, line: Line)
    ensures { places.new ≡ slice_set places.old place line }
{
    // By index, since the proof is not told what a write through `get_mut` leaves.
    if place < places.len() {
        places[place] = line;
    }
}

impl StandingRows<'_> {
    /// Lists the lines of deals that have the holder, as many as there is room for; how many there are.
    pub(crate) fn list(&self, holder: Holder, places: &mut [Line]) -> usize
        ensures count { result ≡ length (lines_of holder.party holder.account (used_deals self.now.checked.register.head.now self.now.checked.register.deals.now) (used_lines self.now.checked.register.head.now self.now.checked.register.lines.now)) }
        ensures places { places.new ≡ listed (lines_of holder.party holder.account (used_deals self.now.checked.register.head.now self.now.checked.register.deals.now) (used_lines self.now.checked.register.head.now self.now.checked.register.lines.now)) places.old }
    {
        let mut count = 0;
        for line in self.used_lines() {
            if self.has(holder, line.deal) {
                put(places, count, *line);
                count += 1;
            }
        }
        count
    }
}
