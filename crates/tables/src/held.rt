//! What the lines of a deal are worth, security by security.
ghost use Rattle.std.specs.Prelude.{◌≡◌, ℕ, ◌*◌, ◌<◌, ◌≤◌, length, take, if◌then◌else◌, Some, None, slice_index};
ghost use Rattle.valuation.specs.Most.{most_worth};
ghost use Rattle.tables.specs.Held.{with_held};
ghost use Rattle.tables.specs.Rows.{fits};
ghost use Rattle.tables.specs.Values.{held_worths};

use crate::gap::fit;
use crate::worth::Pricing;
use memory::Line;
use valuation::Valuation;

impl<V: Valuation> Pricing<'_, V> {
    /// Adds a line to the sum of its security, if it is on the deal. No sum has more than 1,023 lines before it.
    fn hold(&self, number: u32, line: &Line, sums: &mut [u64; 125])
        requires { (k : ℕ) → k < 125 → slice_index sums.old k ≤ 1023 * most_worth }
        ensures { sums.new ≡ with_held (V.Valuation.worth self.now.valuation.now) self.now.currency self.now.prices.now number line.now sums.old }
    {
        if line.deal == number && line.security >= 3 && line.security < 128 {
            sums[line.security as usize - 3] += self.line_worth(line);
        }
    }

    /// What the lines of a deal are worth in each security from 3 on.
    fn held_on(&self, number: u32, lines: &[Line]) -> [u64; 125]
        requires { length lines.now ≤ 1024 }
        ensures { result ≡ held_worths (V.Valuation.worth self.now.valuation.now) self.now.currency self.now.prices.now number lines.now }
    {
        let mut sums = [0; 125];
        for line in lines {
            self.hold(number, line, &mut sums);
        }
        sums
    }

    /// What the used lines of a deal are worth in each security from 3 on; a line of another resource counts nowhere.
    /// Nothing where the table does not fit its count.
    pub fn held_worths(&self, number: u32, lines: &[Line], used: u32) -> Option<[u64; 125]>
        ensures { result ≡ (if fits 1024 used lines.now then Some (held_worths (V.Valuation.worth self.now.valuation.now) self.now.currency self.now.prices.now number (take used lines.now)) else None) }
    {
        if !fit(lines, used) {
            return None;
        }
        Some(self.held_on(number, &lines[..used as usize]))
    }
}
