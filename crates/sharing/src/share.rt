//! Cash that is shared over lines, by their values.
ghost use Rattle.std.specs.Prelude.{◌≡◌, ◌^◌, ◌<◌, ◌≤◌};
ghost use Rattle.std.specs.Option.{option_map};
ghost use Rattle.sharing.specs.Limits.{most_cash};
ghost use Rattle.sharing.specs.Parts.{scale_of, scaled, up_to, line_part};

use crate::limits::MOST_CASH;

/// The smallest of 1, 10, 100 and so on at which the total comes to a million at most.
#[tactic(auto, using(crate::proofs::Scales::tried_one, crate::proofs::Scales::tried_more, crate::proofs::Scales::scale_room))]
fn scale_of(total: u64) -> u64
    ensures is { result ≡ scale_of total }
    ensures some { 0 < result }
{
    let mut scale = 1;
    while total / scale > 1_000_000 {
        scale *= 10;
    }
    scale
}

/// An amount of cash, the total of the values that it is shared over, and the total's scale.
#[derive(Clone, Copy, PartialEq, Eq, Debug)]
pub struct Share {
    cash: u64,
    total: u64,
    scale: u64,
    ghost ok: { (cash ≤ most_cash) × (total < 2 ^ 64) × (scale ≡ scale_of total) × (0 < scale) },
}

impl Share {
    ghost use Rattle.sharing.specs.Shares.{terms_of, sharable};

    /// Nothing where the cash is over 10^12.
    pub fn new(cash: u64, total: u64) -> Option<Share>
        ensures { option_map terms_of result ≡ sharable cash total }
    {
        if cash > MOST_CASH {
            return None;
        }
        Some(Share {
            cash,
            total,
            scale: scale_of(total),
        })
    }

    /// A sum of values by the scale, rounded down.
    fn by_scale(&self, sum: u64) -> u64
        ensures { result ≡ scaled self.now.total sum }
    {
        sum / self.scale
    }

    /// What the lines up to a running total have together.
    #[tactic(auto, using(crate::proofs::Scales::scaled_some, crate::proofs::Scales::product_fits), unfolding(crate::specs::Parts::up_to))]
    fn up_to(&self, running: u64) -> u64
        requires { (running ≤ self.now.total) × (0 < self.now.total) }
        ensures { result ≡ up_to self.now.cash self.now.total running }
    {
        self.cash * self.by_scale(running) / self.by_scale(self.total)
    }

    /// The part of a line, after lines whose values come to `before`. Where all values are 0 the last line has the whole cash.
    /// A line that passes the total has nothing.
    pub fn part(&self, before: u64, value: u64, last: bool) -> u64
        ensures { result ≡ line_part self.now.cash self.now.total before value last }
    {
        if value > self.total || before > self.total - value {
            return 0;
        }
        if self.total == 0 {
            return if last { self.cash } else { 0 };
        }
        self.up_to(before + value)
            .saturating_sub(self.up_to(before))
    }
}
