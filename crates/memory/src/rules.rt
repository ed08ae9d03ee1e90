//! The rules that a row is judged by.
ghost use Rattle.std.specs.Prelude.{◌≡◌};
ghost use Rattle.memory.specs.Sound.{parties_fit, terms_fit, interest_fits, numbered, ranges_fit, head_sound};

use crate::row::{Deal, Head, Line, day_base};

/// Next numbers from 1, and no more used rows than the tables have.
pub(crate) fn head_sound(head: &Head, deal_rows: usize, line_rows: usize) -> bool
    ensures { result ≡ head_sound head.now deal_rows line_rows }
{
    head.next.deal >= 1
        && head.next.line >= 1
        && head.used.deals as usize <= deal_rows
        && head.used.lines as usize <= line_rows
}

/// A number above that of the row before, and below the head's next.
pub(crate) fn in_turn(next: u32, before: u64, number: u32) -> bool
    ensures { result ≡ numbered next before number }
{
    before < number as u64 && number < next
}

impl Deal {
    pub(crate) fn parties_fit(&self, accounts: u32) -> bool
        ensures { result ≡ parties_fit accounts self.now }
    {
        self.giver < accounts && self.taker < accounts && self.giver != self.taker
    }

    pub(crate) fn terms_fit(&self) -> bool
        ensures { result ≡ terms_fit self.now }
    {
        self.weighing.admits_margin(self.margin)
            && self.sought >= 1
            && self.sought <= 1_000_000_000_000
            && self.rate <= 200_000
            && self.cash <= 1_000_000_000_000
    }

    pub(crate) fn interest_fits(&self, date: u16) -> bool
        ensures { result ≡ interest_fits date self.now }
    {
        self.whole <= 600_000_000 * date as u64
            && self.residue < day_base(self.currency).days() * 1_000_000
    }
}

impl Line {
    pub(crate) fn ranges_fit(&self, resources: u32) -> bool
        ensures { result ≡ ranges_fit resources self.now }
    {
        self.security >= 3
            && self.security < resources
            && self.quantity >= 1
            && self.quantity <= 1_000_000_000
            && self.part <= 1_000_000_000_000
    }
}
