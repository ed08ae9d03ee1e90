//! The two parties to a deal.
ghost use Rattle.std.specs.Prelude.{◌≡◌};
ghost use Rattle.panel.specs.declared.party.Party.TheVariants.{Giver, Taker};
ghost use Rattle.panel.specs.Standing.{party_of};

use memory::Deal;

#[derive(Clone, Copy)]
pub enum Party {
    Giver,
    Taker,
}

impl Party {
    pub(crate) fn of(self, deal: &Deal) -> u32
        ensures { result ≡ party_of self deal.now }
    {
        match self {
            Party::Giver => deal.giver,
            Party::Taker => deal.taker,
        }
    }
}

/// An account, as one of the parties.
#[derive(Clone, Copy)]
pub(crate) struct Holder {
    pub(crate) party: Party,
    pub(crate) account: u32,
}

impl Holder {
    pub(crate) fn giver(account: u32) -> Holder
        ensures party { result.party ≡ Giver }
        ensures account { result.account ≡ account }
    {
        Holder {
            party: Party::Giver,
            account,
        }
    }

    pub(crate) fn taker(account: u32) -> Holder
        ensures party { result.party ≡ Taker }
        ensures account { result.account ≡ account }
    {
        Holder {
            party: Party::Taker,
            account,
        }
    }
}
