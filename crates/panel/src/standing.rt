//! The rows that stand, and what stands on them.
ghost use Rattle.std.specs.Prelude.{◌≡◌, ◌^◌, ◌<◌};
ghost use Rattle.memory.specs.Sound.{used_deals, used_lines};
ghost use Rattle.panel.specs.Standing.{is_party, lines_of, quantity_of, quantity_on, Orderly};

use crate::party::Holder;
use memory::{Checked, Line};

mod listing;

/// The rows of a register that breaks no rule.
#[derive(Clone, Copy)]
pub(crate) struct StandingRows<'a> {
    pub(crate) checked: Checked<'a>,
    ghost orderly: { Orderly checked.register.head.now checked.register.deals.now checked.register.lines.now },
}

fn quantity_of(line: &Line, security: Option<u32>) -> u64
    ensures { result ≡ quantity_of security line.now }
{
    match security {
        Some(wanted) => if line.security == wanted {
            line.quantity
        } else {
            0
        },
        None => line.quantity,
    }
}

impl StandingRows<'_> {
    /// Whether the standing deal of that number has the holder.
    fn has(&self, holder: Holder, number: u32) -> bool
        ensures { result ≡ is_party holder.party holder.account number (used_deals self.now.checked.register.head.now self.now.checked.register.deals.now) }
    {
        let Some(row) = self.checked.find_deal(number) else {
            return false;
        };
        holder.party.of(&self.checked.register.deals[row]) == holder.account
    }

    fn used_lines(&self) -> &[Line]
        ensures { result.now ≡ used_lines self.now.checked.register.head.now self.now.checked.register.lines.now }
    {
        &self.checked.register.lines[..self.checked.register.head.used.lines as usize]
    }

    /// What stands for the holder, of a security or, where none is named, of all.
    pub(crate) fn quantity(&self, holder: Holder, security: Option<u32>) -> u64
        ensures { result ≡ quantity_on security (lines_of holder.party holder.account (used_deals self.now.checked.register.head.now self.now.checked.register.deals.now) (used_lines self.now.checked.register.head.now self.now.checked.register.lines.now)) }
    {
        self.counted(holder, security)
    }

    /// The same, where it fits.
    fn counted(&self, holder: Holder, security: Option<u32>) -> u64
        requires { quantity_on security (lines_of holder.party holder.account (used_deals self.now.checked.register.head.now self.now.checked.register.deals.now) (used_lines self.now.checked.register.head.now self.now.checked.register.lines.now)) < 2 ^ 64 }
        ensures { result ≡ quantity_on security (lines_of holder.party holder.account (used_deals self.now.checked.register.head.now self.now.checked.register.deals.now) (used_lines self.now.checked.register.head.now self.now.checked.register.lines.now)) }
    {
        self.used_lines()
            .iter()
            .filter(|line| self.has(holder, line.deal))
            .map(|line| quantity_of(line, security))
            .sum()
    }
}
