//! The first rule that a register breaks.
ghost use Rattle.std.specs.Prelude.{◌≡◌, ◌≤◌, length, Some, None, MatchResult};
ghost use Rattle.memory.specs.Checks.{earlier, first_loose, lines_judged};
ghost use Rattle.memory.specs.Register.{checked};
ghost use Rattle.memory.specs.Sound.{number, deal_sound, first_broken, used_deals, used_lines, deals_fault, at, fault_of};

use crate::cash::{first_uneven, keys_of};
use crate::judging::{first_broken, first_set};
use crate::place::{Fault, Table};
use crate::register::Register;
use crate::row::{Deal, Head, Line};
use crate::rules::head_sound;
use crate::tally::tally;

/// Looks at the used rows: the first deal that breaks a rule or, where none does, the first line whose deal does not
/// stand.
fn look(head: &Head, accounts: u32, deals: &[Deal], lines: &[Line]) -> Result<Option<usize>, Fault>
    requires { length deals.now ≤ 64 }
    ensures { MatchResult result (λ loose. (None ≡ first_broken number (deal_sound accounts head.now lines.now) 0 0 deals.now) × (loose ≡ first_loose deals.now lines.now)) (λ fault. Some fault ≡ at Table.Deals (first_broken number (deal_sound accounts head.now lines.now) 0 0 deals.now)) }
{
    let unfit = first_broken(deals, head, accounts);
    let count = unfit.unwrap_or(deals.len());
    let fit = &deals[..count];
    let keys = keys_of(fit, head.next.deal);
    let mut sums = [0; 64];
    let loose = tally(&keys, count, &mut sums, lines);
    Table::Deals.sound_unless(first_uneven(fit, &sums).or(unfit))?;
    Ok(loose)
}

fn earlier_of(one: Option<usize>, other: Option<usize>) -> Option<usize>
    ensures { result ≡ earlier one other }
{
    // The order of the library puts nothing before every place, so its least of two would be nothing.
    match (one, other) {
        (Some(i), Some(j)) => Some(i.min(j)),
        _ => one.or(other),
    }
}

impl Register<'_> {
    /// The first line whose deal does not stand, where no rule of the deal table is broken.
    fn check_deals(&self, accounts: u32) -> Result<Option<usize>, Fault>
        requires { (self.now.head.now.used.deals ≤ length self.now.deals.now) × (self.now.head.now.used.lines ≤ length self.now.lines.now) }
        ensures { MatchResult result (λ loose. (None ≡ deals_fault accounts self.now.head.now self.now.deals.now self.now.lines.now) × (loose ≡ first_loose (used_deals self.now.head.now self.now.deals.now) (used_lines self.now.head.now self.now.lines.now))) (λ fault. Some fault ≡ at Table.Deals (deals_fault accounts self.now.head.now self.now.deals.now self.now.lines.now)) }
    {
        if self.deals.is_empty() || self.deals.len() > 64 {
            return Err(Fault {
                table: Table::Deals,
                row: 0,
            });
        }
        let used = self.head.used.deals as usize;
        let used_lines = &self.lines[..self.head.used.lines as usize];
        let loose = look(self.head, accounts, &self.deals[..used], used_lines)?;
        Table::Deals.sound_unless(first_set(self.deals, used))?;
        Ok(loose)
    }

    /// The first row of the line table that breaks a rule, where the first line whose deal does not stand is known.
    fn first_broken_line(&self, resources: u32, loose: Option<usize>) -> Option<usize>
        requires { self.now.head.now.used.lines ≤ length self.now.lines.now }
        ensures { result ≡ lines_judged resources self.now.head.now loose self.now.lines.now }
    {
        if self.lines.is_empty() || self.lines.len() > 1_024 {
            return Some(0);
        }
        let used = self.head.used.lines as usize;
        let unfit = first_broken(&self.lines[..used], self.head, resources);
        earlier_of(unfit, loose).or(first_set(self.lines, used))
    }

    /// The first rule that is broken, as an error.
    #[tactic(auto, using(crate::proofs::Lines::fault_of_lines))]
    pub(crate) fn check_rows(&self, accounts: u32, resources: u32) -> Result<(), Fault>
        ensures { result ≡ checked (fault_of accounts resources self.now.head.now self.now.deals.now self.now.lines.now) }
    {
        if !head_sound(self.head, self.deals.len(), self.lines.len()) {
            return Err(Fault {
                table: Table::Head,
                row: 0,
            });
        }
        let loose = self.check_deals(accounts)?;
        Table::Lines.sound_unless(self.first_broken_line(resources, loose))
    }
}
