//! Tables that are judged row by row.
ghost use Rattle.std.specs.Prelude.{◌≡◌, ℕ, ◌<◌, ◌≤◌, Bool, not, length, drop, position, IfSome};
ghost use Rattle.memory.specs.Sound.{first_broken, first_set, deal_fits, line_fits};
ghost use Rattle.memory.specs.declared.row.Head.{Head};

use crate::kept::Row;
use crate::row::{Deal, Head, Line};
use crate::rules::in_turn;

/// A row that keeps its own rules, in a book with so many accounts or resources and after a row of the number `before`.
pub(crate) trait Judged: Row {
    ghost fits: { ℕ → Head → ℕ → Self → Bool };

    fn fits(&self, head: &Head, bound: u32, before: u64) -> bool
        ensures { result ≡ fits bound head.now before self.now };
}

/// The rules of a deal's row, but for its standing cash.
impl Judged for Deal {
    ghost fits = { deal_fits };

    fn fits(&self, head: &Head, bound: u32, before: u64) -> bool {
        in_turn(head.next.deal, before, self.number)
            && self.parties_fit(bound)
            && self.terms_fit()
            && self.interest_fits(head.date)
    }
}

/// The rules of a line's row, but for its deal.
impl Judged for Line {
    ghost fits = { line_fits };

    fn fits(&self, head: &Head, bound: u32, before: u64) -> bool {
        in_turn(head.next.line, before, self.number) && self.ranges_fit(bound)
    }
}

/// The place of the first row that breaks a rule.
pub(crate) fn first_broken<R: Judged>(rows: &[R], head: &Head, bound: u32) -> Option<usize>
    ensures { result ≡ first_broken R.Row.key (R.fits bound head.now) 0 0 rows.now }
{
    let mut before = 0;
    for (place, row) in rows.iter().enumerate() {
        if !row.fits(head, bound, before) {
            return Some(place);
        }
        before = row.number() as u64;
    }
    None
}

/// The place of the first row that is not an unused one.
fn first_written<R: Row>(rows: &[R]) -> Option<usize>
    ensures place { result ≡ position (λ x. not (R.eq x R.NONE)) rows.now }
    ensures within { IfSome result (λ i. i < length rows.now) }
{
    rows.iter().position(|row| *row != R::NONE)
}

/// The place of the first row from there on that is not an unused one.
pub(crate) fn first_set<R: Row>(rows: &[R], from: usize) -> Option<usize>
    requires { from ≤ length rows.now }
    ensures { result ≡ first_set R.blank from (drop from rows.now) }
{
    let place = first_written(&rows[from..])?;
    Some(from + place)
}
