//! Numbers that are known to be in their ranges.
ghost use Rattle.std.specs.Prelude.{◌≡◌, ◌-◌, ◌<◌, ◌≤◌};
ghost use Rattle.std.specs.Option.{option_map};
ghost use Rattle.valuation.specs.Most.{most_price, most_haircut, most_margin, most_units, most_sought};

use crate::currency::Currency;
use crate::price::Price;

/// A security's price in a currency, in thousandths of a minor unit, and its haircut, in hundredths of a percent.
#[derive(Clone, Copy, PartialEq, Eq, Debug)]
pub struct Quote {
    pub(crate) price: u32,
    pub(crate) haircut: u16,
    ghost ok: { (0 < price) × (price ≤ most_price) × (haircut ≤ most_haircut) },
}

impl Quote {
    ghost use Rattle.valuation.specs.Prices.{quoted};
    ghost use Rattle.valuation.specs.Ranges.{terms};

    /// Nothing where the record is out of its ranges or has no price in the currency.
    pub fn of(price: &Price, currency: Currency) -> Option<Quote>
        ensures { option_map terms result ≡ quoted currency price.now }
    {
        let stated = price.in_currency(currency);
        if !price.in_ranges() || stated == 0 {
            return None;
        }
        Some(Quote {
            price: stated,
            haircut: price.haircut,
        })
    }

    pub fn price(self) -> u32
        ensures { result ≡ self.price }
    {
        self.price
    }

    pub fn haircut(self) -> u16
        ensures { result ≡ self.haircut }
    {
        self.haircut
    }
}

/// A quantity of a security.
#[derive(Clone, Copy, PartialEq, Eq, Debug)]
pub struct Units {
    pub(crate) count: u64,
    ghost ok: { count ≤ most_units },
}

impl Units {
    ghost use Rattle.valuation.specs.Ranges.{ranged, counted};

    /// Nothing above 1,000,000,000.
    pub fn new(count: u64) -> Option<Units>
        ensures { option_map counted result ≡ ranged 0 most_units count }
    {
        if count > 1_000_000_000 {
            return None;
        }
        Some(Units { count })
    }

    pub fn count(self) -> u64
        ensures { result ≡ self.count }
    {
        self.count
    }

    /// What is left once `taken` is taken, or 0.
    pub(crate) fn less(self, taken: Units) -> Units
        ensures { result.count ≡ self.count - taken.count }
    {
        Units {
            count: self.count.saturating_sub(taken.count),
        }
    }
}

/// A value sought, in minor units.
#[derive(Clone, Copy, PartialEq, Eq, Debug)]
pub struct Sought {
    pub(crate) value: u64,
    ghost ok: { (0 < value) × (value ≤ most_sought) },
}

impl Sought {
    ghost use Rattle.valuation.specs.Ranges.{ranged, valued};

    /// Nothing at 0, or above 1,000,000,000,000.
    pub fn new(value: u64) -> Option<Sought>
        ensures { option_map valued result ≡ ranged 1 most_sought value }
    {
        if value == 0 || value > 1_000_000_000_000 {
            return None;
        }
        Some(Sought { value })
    }

    pub fn value(self) -> u64
        ensures { result ≡ self.value }
    {
        self.value
    }
}

/// A margin, in hundredths of a percent.
#[derive(Clone, Copy, PartialEq, Eq, Debug)]
pub struct Margin {
    pub(crate) margin: u16,
    ghost ok: { margin ≤ most_margin },
}

impl Margin {
    ghost use Rattle.valuation.specs.Ranges.{ranged, rated};

    /// Nothing above 5,000 hundredths of a percent.
    pub fn new(margin: u16) -> Option<Margin>
        ensures { option_map rated result ≡ ranged 0 most_margin margin }
    {
        if margin > 5_000 {
            return None;
        }
        Some(Margin { margin })
    }
}
