//! At most 99 picks, in the order in which they were taken.
ghost use Rattle.std.specs.Prelude.{◌≡◌, ◌<◌, [], ◌∷◌, ◌++◌, length, nat_le};

use crate::order::Pick;
use arrayvec::ArrayVec;

const MOST_PICKS: usize = 99;

#[derive(Drop)]
pub struct Basket {
    picks: ArrayVec<Pick, MOST_PICKS>,
}

impl Basket {
    ghost use Rattle.gathering.specs.Baskets.{picks_of, most_picks};

    pub(crate) fn empty() -> Basket
        ensures { picks_of result ≡ [] }
    {
        Basket {
            picks: ArrayVec::new(),
        }
    }

    /// How many picks there are.
    pub fn len(&self) -> usize
        ensures { result ≡ length (picks_of self.now) }
    {
        self.picks.len()
    }

    /// The picks, by rising security.
    pub fn picks(&self) -> &[Pick]
        ensures { result.now ≡ picks_of self.now }
    {
        self.picks.as_slice()
    }

    pub(crate) fn is_full(&self) -> bool
        ensures { result ≡ nat_le most_picks (length (picks_of self.now)) }
    {
        self.picks.is_full()
    }

    pub(crate) fn put(&mut self, pick: Pick)
        requires { length (picks_of self.old) < most_picks }
        ensures { picks_of self.new ≡ picks_of self.old ++ (pick ∷ []) }
    {
        self.picks.push(pick);
    }
}
