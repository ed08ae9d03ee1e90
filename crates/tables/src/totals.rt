//! What the lines of a deal are worth together.
ghost use Rattle.std.specs.Prelude.{◌≡◌, ◌<◌, ◌≤◌, ◌^◌, length, take, filter, if◌then◌else◌, Some, None};
ghost use Rattle.std.specs.List.{sum_by};
ghost use Rattle.tables.specs.Rows.{fits};
ghost use Rattle.tables.specs.Values.{line_worth, deal_worth, on_deal};

use crate::gap::fit;
use crate::worth::Pricing;
use memory::Line;
use valuation::Valuation;

impl<V: Valuation> Pricing<'_, V> {
    /// The sum over the lines of a deal.
    fn sum_on(&self, number: u32, lines: &[Line]) -> u64
        requires { sum_by (line_worth (V.Valuation.worth self.now.valuation.now) self.now.currency self.now.prices.now) (filter (on_deal number) lines.now) < 2 ^ 64 }
        ensures { result ≡ sum_by (line_worth (V.Valuation.worth self.now.valuation.now) self.now.currency self.now.prices.now) (filter (on_deal number) lines.now) }
    {
        lines
            .iter()
            .filter(|line| line.deal == number)
            .map(|line| self.line_worth(line))
            .sum()
    }

    /// What the lines of a deal are worth together.
    pub(crate) fn total_on(&self, number: u32, lines: &[Line]) -> u64
        requires { length lines.now ≤ 1024 }
        ensures { result ≡ deal_worth (V.Valuation.worth self.now.valuation.now) self.now.currency self.now.prices.now number lines.now }
    {
        self.sum_on(number, lines)
    }

    /// What the used lines of a deal are worth together. Nothing where the table does not fit its count.
    pub fn deal_worth(&self, number: u32, lines: &[Line], used: u32) -> Option<u64>
        ensures { result ≡ (if fits 1024 used lines.now then Some (deal_worth (V.Valuation.worth self.now.valuation.now) self.now.currency self.now.prices.now number (take used lines.now)) else None) }
    {
        if !fit(lines, used) {
            return None;
        }
        Some(self.total_on(number, &lines[..used as usize]))
    }
}
