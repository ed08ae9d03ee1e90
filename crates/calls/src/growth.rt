//! Interest for some days on every deal.
ghost use Rattle.std.specs.Prelude.{◌≡◌, map};
ghost use Rattle.memory.specs.Deals.{grown};

use memory::Deal;

/// Every deal accrues for some days.
pub(crate) fn accrue_all(deals: &mut [Deal], days: u16)
    ensures { deals.new ≡ map (grown days) deals.old }
{
    for deal in deals.iter_mut() {
        deal.accrue(days);
    }
}
