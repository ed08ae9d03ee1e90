//! What a quantity of a security is worth, and what a line is.
ghost use Rattle.std.specs.Prelude.{◌≡◌};
ghost use Rattle.std.specs.Option.{option_map};
ghost use Rattle.valuation.specs.Prices.{quoted};
ghost use Rattle.valuation.specs.Ranges.{terms};
ghost use Rattle.gathering.specs.Law.{record_of};
ghost use Rattle.tables.specs.Values.{worth_of, line_worth};

use memory::Line;
use valuation::{Currency, Price, Quote, Units, Valuation};

/// How a deal's securities are priced: by a valuation, over the price records, in the deal's currency.
#[derive(Drop)]
pub struct Pricing<'a, V> {
    pub valuation: &'a V,
    pub prices: &'a [Price],
    pub currency: Currency,
}

impl<V> Pricing<'_, V> {
    /// The quote of a security: its record is the first for security 3, the second for 4, and so on.
    fn quote_of(&self, security: u32) -> Option<Quote>
        ensures { option_map terms result ≡ quoted self.now.currency (record_of self.now.prices.now security) }
    {
        let place = (security as usize).saturating_sub(3);
        Quote::of(self.prices.get(place)?, self.currency)
    }
}

impl<V: Valuation> Pricing<'_, V> {
    /// What a quantity of a security is worth. It is 0 where the security has no price, and above 1,000,000,000 units.
    pub fn quantity_worth(&self, security: u32, quantity: u64) -> u64
        ensures { result ≡ worth_of (V.Valuation.worth self.now.valuation.now) self.now.currency self.now.prices.now security quantity }
    {
        match (self.quote_of(security), Units::new(quantity)) {
            (Some(quote), Some(units)) => self.valuation.value(quote, units),
            _ => 0,
        }
    }

    /// What a line is worth.
    pub fn line_worth(&self, line: &Line) -> u64
        ensures { result ≡ line_worth (V.Valuation.worth self.now.valuation.now) self.now.currency self.now.prices.now line.now }
    {
        self.quantity_worth(line.security, line.quantity)
    }
}
