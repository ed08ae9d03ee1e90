//! What is asked of a deal's row, and how it changes.
ghost use Rattle.std.specs.Prelude.{◌≡◌, is_some, if◌then◌else◌, Some, nat_le};
ghost use Rattle.std.specs.Option.{option_map};
ghost use Rattle.memory.specs.Deals.{target_of, due_at, amended, less_cash, accrual_of, grown, valuation_of, target_in};
ghost use Rattle.memory.specs.Kinds.{base_of};
ghost use Rattle.memory.specs.Valuers.{meaning_of};
ghost use Rattle.memory.specs.Blanks.{blank_deal};
ghost use Rattle.memory.specs.Rows.{no_deal, using_deals};
ghost use Rattle.memory.specs.Sound.{number, zero_deal};
ghost use Rattle.std.proofs.Common.{rules};

use crate::kept::Row;
use crate::row::{Deal, Head, NO_DEAL, Used, Weighing, day_base};
use crate::valuer::Valuer;
use sharing::{DayBase, Interest};
use valuation::{Haircut, Margin, Sought, Valuation};

/// The target of the value that a deal seeks, by the deal's own valuation.
fn target_by(deal: &Deal, valuer: Valuer, sought: Sought) -> u64
    requires { (Some (meaning_of valuer) ≡ valuation_of deal.now) × (sought.value ≡ deal.now.sought) }
    ensures { result ≡ target_of deal.now }
{
    valuer.target_for(sought)
}

impl Deal {
    /// Whether the date has reached the return day.
    pub fn is_due(&self, date: u16) -> bool
        ensures { result ≡ due_at date self.now }
    {
        self.due <= date
    }

    pub fn day_base(&self) -> DayBase
        ensures { result ≡ base_of self.now.currency }
    {
        day_base(self.currency)
    }

    /// How the deal's securities are valued; nothing where its margin is out of range.
    pub fn valuation(&self) -> Option<Valuer>
        ensures { option_map meaning_of result ≡ valuation_of self.now }
    {
        match self.weighing {
            Weighing::Margin => Some(Valuer::Margin(Margin::new(self.margin)?)),
            Weighing::Haircut => {
                if self.margin > 0 {
                    return None;
                }
                Some(Valuer::Haircut(Haircut))
            }
        }
    }

    /// What is to be gathered for the value sought; nothing where that or the margin is out of range.
    pub fn target(&self) -> Option<u64>
        ensures { result ≡ target_in self.now }
    {
        let valuer = self.valuation()?;
        let sought = Sought::new(self.sought)?;
        Some(target_by(self, valuer, sought))
    }

    /// Lowers the standing cash by a part of it; nothing changes where the part is larger.
    pub fn lower_cash(&mut self, part: u64) -> bool
        ensures answer { result ≡ nat_le part self.old.cash }
        ensures change { self.new ≡ (if nat_le part self.old.cash then less_cash part self.old else self.old) }
    {
        if part > self.cash {
            return false;
        }
        self.cash -= part;
        true
    }

    /// Adds the interest of some days; nothing changes where a number is out of its range.
    pub fn accrue(&mut self, days: u16) -> bool
        ensures answer { result ≡ is_some (accrual_of days self.old) }
        ensures change { self.new ≡ grown days self.old }
    {
        let interest = Interest {
            whole: self.whole,
            residue: self.residue,
        };
        let Some(grown) = interest.accrue(self.cash, self.rate, days, self.day_base()) else {
            return false;
        };
        self.whole = grown.whole;
        self.residue = grown.residue;
        true
    }

    pub fn amend(&mut self, rate: u32, due: u16)
        ensures { self.new ≡ amended rate due self.old }
    {
        self.rate = rate;
        self.due = due;
    }
}

impl Row for Deal {
    const MOST: usize = 64;

    ghost MOST = { 64 };

    const NONE: Deal = NO_DEAL;

    ghost NONE = { no_deal };

    ghost blank = { zero_deal };

    ghost key = { number };

    ghost used = { λ h. h.used.deals };

    ghost using = { using_deals };

    ghost few = { Prim.search rules };

    ghost used_back = { λ n h. Prim.search rules };

    ghost blanks = { blank_deal };

    fn number(&self) -> u32 {
        self.number
    }

    fn used(head: &Head) -> u32 {
        head.used.deals
    }

    fn set_used(head: &mut Head, count: u32) {
        head.used = Used {
            deals: count,
            ..head.used
        };
    }
}
