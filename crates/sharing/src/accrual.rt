//! Interest, as whole minor units and a residue.
ghost use Rattle.std.specs.Prelude.{◌≡◌, ◌*◌, ◌<◌, ◌≤◌};
ghost use Rattle.sharing.specs.Limits.{most_cash, most_rate, most_days, most_whole};

use crate::limits::{MOST_CASH, MOST_DAYS, MOST_RATE, MOST_WHOLE};

/// How many days a year has by the terms of a deal.
#[derive(Clone, Copy, PartialEq, Eq, Debug)]
pub enum DayBase {
    Actual365 = 365,
    Actual360 = 360,
}

impl DayBase {
    ghost use Rattle.sharing.specs.Accrual.{days_of};

    /// Its number of days.
    pub fn days(self) -> u64
        ensures { result ≡ days_of self }
    {
        self as u64
    }
}

/// What days add to the residue.
#[tactic(auto, using(crate::proofs::Accruing::growth_low))]
fn growth(cash: u64, rate: u32, days: u16) -> u64
    requires { (cash ≤ most_cash) × ((rate ≤ most_rate) × (days ≤ most_days)) }
    ensures is { result ≡ cash * rate * days }
    ensures fits { result ≤ 6_200_000_000_000_000_000 }
{
    cash * rate as u64 * days as u64
}

/// Whole minor units, and a residue in parts of a unit.
#[derive(Clone, Copy, PartialEq, Eq, Debug, Default)]
pub struct Interest {
    pub whole: u64,
    pub residue: u64,
}

impl Interest {
    ghost use Rattle.sharing.specs.Accrual.{carried, accrual};

    /// Moves what the residue has of whole units over to them.
    fn carried(self, unit: u64) -> Interest
        requires { (self.whole ≤ most_whole) × ((self.residue < 7_000_000_000_000_000_000) × (0 < unit)) }
        ensures { result ≡ carried self unit }
    {
        Interest {
            whole: self.whole + self.residue / unit,
            residue: self.residue % unit,
        }
    }

    /// With the interest of some days on standing cash, at a rate in millionths a year. Nothing where a number is out of
    /// its range.
    pub fn accrue(self, cash: u64, rate: u32, days: u16, base: DayBase) -> Option<Interest>
        ensures { result ≡ accrual self cash rate days base }
    {
        let unit = base.days() * 1_000_000;
        if cash > MOST_CASH
            || rate > MOST_RATE
            || days > MOST_DAYS
            || self.residue >= unit
            || self.whole > MOST_WHOLE
        {
            return None;
        }
        let grown = Interest {
            residue: self.residue + growth(cash, rate, days),
            ..self
        };
        Some(grown.carried(unit))
    }
}
