//! The currencies, which are also the first resources of every book.
ghost use Rattle.std.specs.Prelude.{◌≡◌};
ghost use Rattle.valuation.specs.Currencies.{number_of};

use std::fmt;

#[derive(Clone, Copy, PartialEq, Eq, Debug)]
pub enum Currency {
    Gbp = 0,
    Eur = 1,
    Usd = 2,
}

impl Currency {
    /// Its number, which is also its resource.
    pub fn number(self) -> u32
        ensures { result ≡ number_of self }
    {
        self as u32
    }
}

impl fmt::Display for Currency {
    fn fmt<W: fmt::Write>(&self, f: &mut fmt::Formatter<W>) -> fmt::Result {
        match self {
            Currency::Gbp => write!(f, "GBP"),
            Currency::Eur => write!(f, "EUR"),
            Currency::Usd => write!(f, "USD"),
        }
    }
}
