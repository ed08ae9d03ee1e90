//! The price list: a record for each security.
ghost use Rattle.std.specs.Prelude.{◌≡◌};
ghost use Rattle.valuation.specs.Prices.{price_in, in_ranges, eligible_in, first_fault, fault_of};

use crate::currency::Currency;

/// What is stated of a security. It is memory that a host lends, so any contents are possible.
#[derive(Clone, Copy, PartialEq, Eq, Debug)]
pub struct Price {
    /// 0 to 15.
    pub category: u8,
    pub excluded: bool,
    /// 0 to 10,000 hundredths of a percent.
    pub haircut: u16,
    /// A price in each currency, 0 to 100,000,000 thousandths of a minor unit; 0 is no price.
    pub gbp: u32,
    pub eur: u32,
    pub usd: u32,
}

impl Price {
    pub fn in_currency(&self, currency: Currency) -> u32
        ensures { result ≡ price_in currency self.now }
    {
        match currency {
            Currency::Gbp => self.gbp,
            Currency::Eur => self.eur,
            Currency::Usd => self.usd,
        }
    }

    pub(crate) fn in_ranges(&self) -> bool
        ensures { result ≡ in_ranges self.now }
    {
        self.category <= 15
            && self.haircut <= 10_000
            && self.gbp <= 100_000_000
            && self.eur <= 100_000_000
            && self.usd <= 100_000_000
    }

    /// Whether the class admits the security's category, it is not excluded, and it has a price in the currency.
    pub fn eligible(&self, class: u16, currency: Currency) -> bool
        ensures { result ≡ eligible_in class currency self.now }
    {
        self.category < 16
            && (class >> self.category) % 2 == 1
            && !self.excluded
            && self.in_currency(currency) > 0
    }
}

/// The place of the first record that is out of its ranges.
fn first_fault(prices: &[Price]) -> Option<usize>
    ensures { result ≡ first_fault prices.now }
{
    prices.iter().position(|price| !price.in_ranges())
}

/// The place of the first record that is out of its ranges; 0 where the list has not one record for each
/// security of a book with so many resources. A place, or none: a question, of which the caller makes its own refusal.
pub fn price_fault(prices: &[Price], resources: u32) -> Option<usize>
    ensures { result ≡ fault_of resources prices.now }
{
    if resources < 3 || prices.len() != resources as usize - 3 {
        return Some(0);
    }
    first_fault(prices)
}
