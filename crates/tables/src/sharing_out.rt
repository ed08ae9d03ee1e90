//! A deal's standing cash, shared out over its lines.
ghost use Rattle.std.specs.Prelude.{◌≡◌, ◌+◌, ◌-◌, ◌≤◌, ◌&&◌, ◌==◌, true, length, count_by, if◌then◌else◌, nat_le};
ghost use Rattle.sharing.specs.Limits.{most_cash};
ghost use Rattle.sharing.specs.Parts.{line_part};
ghost use Rattle.tables.specs.Rows.{fits};
ghost use Rattle.tables.specs.Values.{line_worth, on_deal, with_part, shared_out, shared_in};
ghost use Rattle.tables.specs.Walks.{Reached, walked};

use crate::gap::fit;
use crate::worth::Pricing;
use memory::Line;
use sharing::Share;
use valuation::Valuation;

/// What the lines that have got their parts are worth, and how many are left.
#[derive(Clone, Copy)]
pub(crate) struct Walk {
    before: u64,
    left: usize,
}

/// How many lines a deal has.
fn count_on(number: u32, lines: &[Line]) -> usize
    ensures { result ≡ count_by (on_deal number) lines.now }
{
    lines.iter().filter(|line| line.deal == number).count()
}

impl<V: Valuation> Pricing<'_, V> {
    /// Gives a line its part, if it is on the deal.
    fn part_line(&self, number: u32, share: &Share, line: &mut Line, walk: Walk) -> Walk
        requires { on_deal number line.old ≡ true → (walk.before + line_worth (V.Valuation.worth self.now.valuation.now) self.now.currency self.now.prices.now line.old ≤ share.now.total) × (1 ≤ walk.left) }
        ensures line { line.new ≡ (if on_deal number line.old then with_part line.old (line_part share.now.cash share.now.total walk.before (line_worth (V.Valuation.worth self.now.valuation.now) self.now.currency self.now.prices.now line.old) (walk.left == 1)) else line.old) }
        ensures walk { result ≡ (if on_deal number line.old then record { before = walk.before + line_worth (V.Valuation.worth self.now.valuation.now) self.now.currency self.now.prices.now line.old; left = walk.left - 1 } else walk) }
    {
        if line.deal != number {
            return walk;
        }
        let worth = self.line_worth(line);
        line.part = share.part(walk.before, worth, walk.left == 1);
        Walk {
            before: walk.before + worth,
            left: walk.left - 1,
        }
    }

    /// Gives the lines from the first on their parts.
    fn part_all(&self, number: u32, share: &Share, lines: &mut [Line], mut walk: Walk)
        requires { Reached (V.Valuation.worth self.now.valuation.now) self.now.currency self.now.prices.now number share.now.total lines.old 0 walk }
        ensures { lines.new ≡ walked (V.Valuation.worth self.now.valuation.now) self.now.currency self.now.prices.now number share.now.cash share.now.total walk.before 0 lines.old }
    {
        for line in lines.iter_mut() {
            walk = self.part_line(number, share, line, walk);
        }
    }

    /// Shares the cash out over the lines of a deal, unless it is over 10^12.
    fn share_over(&self, number: u32, cash: u64, lines: &mut [Line]) -> bool
        requires { length lines.old ≤ 1024 }
        ensures answer { result ≡ nat_le cash most_cash }
        ensures lines { lines.new ≡ (if nat_le cash most_cash then shared_out (V.Valuation.worth self.now.valuation.now) self.now.currency self.now.prices.now number cash lines.old else lines.old) }
    {
        let total = self.total_on(number, lines);
        let left = count_on(number, lines);
        let Some(share) = Share::new(cash, total) else {
            return false;
        };
        self.part_all(number, &share, lines, Walk { before: 0, left });
        true
    }

    /// Shares the cash out over the used lines of a deal, by their worth. False, and nothing changes, where the table
    /// does not fit its count or the cash is over 10^12.
    pub fn share_out(&self, number: u32, cash: u64, lines: &mut [Line], used: u32) -> bool
        ensures answer { result ≡ (fits 1024 used lines.old && nat_le cash most_cash) }
        ensures lines { lines.new ≡ (if fits 1024 used lines.old && nat_le cash most_cash then shared_in (V.Valuation.worth self.now.valuation.now) self.now.currency self.now.prices.now number cash used lines.old else lines.old) }
    {
        if !fit(lines, used) {
            return false;
        }
        self.share_over(number, cash, &mut lines[..used as usize])
    }
}
