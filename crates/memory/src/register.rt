//! A register's memory as one value, and as one that breaks no rule.
ghost use Rattle.std.specs.Prelude.{◌≡◌, IfOk, IfSome, IsNone};
ghost use Rattle.std.specs.Result.{result_err};
ghost use Rattle.memory.specs.Places.{place_of, deal_numbers, line_numbers, FoundAt};
ghost use Rattle.memory.specs.Register.{Told};
ghost use Rattle.memory.specs.Sound.{fault_of, number as deal_number, return_number};

use crate::finding::find;
use crate::place::Fault;
use crate::row::{Deal, Head, Line};

/// A register's memory, lent to be looked at. Any contents are possible.
#[derive(Clone, Copy)]
pub struct Register<'a> {
    pub head: &'a Head,
    pub deals: &'a [Deal],
    pub lines: &'a [Line],
}

/// A register that breaks no rule over a book with so many accounts and resources.
#[derive(Clone, Copy)]
pub struct Checked<'a> {
    pub register: Register<'a>,
    pub accounts: u32,
    pub resources: u32,
    ghost sound: { IsNone (fault_of accounts resources register.head.now register.deals.now register.lines.now) },
}

impl<'a> Register<'a> {
    /// The register as one that breaks no rule over a book with so many accounts and resources, or the first rule that
    /// it breaks.
    pub fn check(self, accounts: u32, resources: u32) -> Result<Checked<'a>, Fault>
        ensures answer { result_err result ≡ fault_of accounts resources self.entry.head.now self.entry.deals.now self.entry.lines.now }
        ensures parts { IfOk result (λ checked. (checked.register ≡ self.entry) × (checked.accounts ≡ accounts) × (checked.resources ≡ resources)) }
        ensures sound { Told (result_err result) accounts resources self.entry.head.now self.entry.deals.now self.entry.lines.now }
    {
        self.check_rows(accounts, resources)?;
        Ok(Checked {
            register: self,
            accounts,
            resources,
        })
    }
}

impl Checked<'_> {
    /// The place of the deal of that number.
    pub fn find_deal(self, number: u32) -> Option<usize>
        ensures found { IfSome result (FoundAt deal_number self.entry.register.deals.now self.entry.register.head.now.used.deals number) }
        ensures place { result ≡ place_of number (deal_numbers self.entry.register.head.now self.entry.register.deals.now) }
    {
        find(self.register.head, self.register.deals, number)
    }

    /// The place of the line of that return number.
    pub fn find_line(self, number: u32) -> Option<usize>
        ensures found { IfSome result (FoundAt return_number self.entry.register.lines.now self.entry.register.head.now.used.lines number) }
        ensures place { result ≡ place_of number (line_numbers self.entry.register.head.now self.entry.register.lines.now) }
    {
        find(self.register.head, self.register.lines, number)
    }
}
