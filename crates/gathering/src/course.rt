//! The course of a gathering.
ghost use Rattle.std.specs.Prelude.{◌≡◌, ◌+◌, ◌-◌, ◌<◌, [], ◌∷◌, ◌++◌, length, MatchOption, slice_index_or};
ghost use Rattle.std.specs.Option.{option_map};
ghost use Rattle.valuation.specs.Prices.{no_price};
ghost use Rattle.gathering.specs.Baskets.{picks_of, most_picks};
ghost use Rattle.gathering.specs.Gathered.{gathered, completed};
ghost use Rattle.gathering.specs.Law.{Covers, Fails};

use crate::basket::Basket;
use crate::order::Order;
use crate::taking::Taken;
use book::Book;
use valuation::{Price, Valuation};

/// What a gathering goes by: `held` says what the deal's own lines in each security are worth.
#[derive(Drop)]
pub(crate) struct Course<'a, B, V> {
    pub(crate) book: &'a B,
    pub(crate) valuation: &'a V,
    pub(crate) prices: &'a [Price],
    pub(crate) order: Order,
    pub(crate) held: &'a [u64],
}

/// Puts into the basket what is taken, and answers the need that is then open.
fn take(basket: &mut Basket, taken: Taken, need: u64) -> u64
    requires { length (picks_of basket.old) < most_picks }
    ensures left { result ≡ need - taken.worth }
    ensures picks { picks_of basket.new ≡ picks_of basket.old ++ (taken.pick ∷ []) }
{
    basket.put(taken.pick);
    need.saturating_sub(taken.worth)
}

impl<B: Book, V: Valuation> Course<'_, B, V> {
    /// Tries the security of the record at `place`, and answers the need that is then open.
    #[tactic(auto, using(crate::proofs::Steps::ended_more, crate::proofs::Steps::full_more, crate::proofs::Steps::passed_more, crate::proofs::Steps::taken_more))]
    fn try_at(&self, place: usize, price: &Price, need: u64, basket: &mut Basket) -> u64
        requires listed { place < length self.now.prices.now }
        requires record_at { price.now ≡ slice_index_or self.now.prices.now place no_price }
        ensures { let done = completed (B.Book.meaning self.now.book.now) (V.Valuation.worth self.now.valuation.now) self.now.prices.now self.now.order self.now.held.now in done (place + 1) result (picks_of basket.new) ≡ done place need (picks_of basket.old) }
    {
        if need == 0 || basket.is_full() {
            return need;
        }
        match self.taken_at(place, price, need) {
            Some(taken) => take(basket, taken, need),
            None => need,
        }
    }

    /// What is answered once every security was tried.
    #[tactic(auto, using(crate::proofs::Steps::covered_all, crate::proofs::Steps::open_all))]
    fn outcome(&self, need: u64, basket: Basket) -> Option<Basket>
        requires { let done = completed (B.Book.meaning self.now.book.now) (V.Valuation.worth self.now.valuation.now) self.now.prices.now self.now.order self.now.held.now in done (length self.now.prices.now) need (picks_of basket) ≡ done 0 self.now.order.need [] }
        ensures answer { option_map picks_of result ≡ gathered (B.Book.meaning self.now.book.now) (V.Valuation.worth self.now.valuation.now) self.now.prices.now self.now.order self.now.held.now }
        ensures stands { MatchOption (option_map picks_of result) (Fails (B.Book.meaning self.now.book.now) (V.Valuation.worth self.now.valuation.now) self.now.prices.now self.now.order self.now.held.now) (Covers (B.Book.meaning self.now.book.now) (V.Valuation.worth self.now.valuation.now) self.now.prices.now self.now.order self.now.held.now) }
    {
        if need == 0 { Some(basket) } else { None }
    }
}

/// Gathers the order's need from the giver's securities, tried by rising number: security 3 has the first
/// price record, 4 the second, and so on. `held` says what the deal's own lines in each are worth, from security 3 on,
/// and 0 beyond. Nothing where the need stays open.
pub fn gather<B: Book, V: Valuation>(
    book: &B,
    valuation: &V,
    prices: &[Price],
    order: Order,
    held: &[u64],
) -> Option<Basket>
    ensures answer { option_map picks_of result ≡ gathered (B.Book.meaning book.now) (V.Valuation.worth valuation.now) prices.now order held.now }
    ensures stands { MatchOption (option_map picks_of result) (Fails (B.Book.meaning book.now) (V.Valuation.worth valuation.now) prices.now order held.now) (Covers (B.Book.meaning book.now) (V.Valuation.worth valuation.now) prices.now order held.now) }
{
    let course = Course {
        book,
        valuation,
        prices,
        order,
        held,
    };
    let mut basket = Basket::empty();
    let mut need = order.need;
    for (place, price) in prices.iter().enumerate() {
        need = course.try_at(place, price, need, &mut basket);
    }
    course.outcome(need, basket)
}
