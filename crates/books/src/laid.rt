//! Amounts that lie in memory row by row, at account × resources + resource.
ghost use Rattle.std.specs.Prelude.{◌≡◌, ℕ, List, IfOk};
ghost use Rattle.books.specs.Laying.{Fit, inside, seen_in, cell, checked, outcome};

use crate::laying::check;
use book::BookRefusal;

/// Memory that shows a list of amounts, lent to read or also to write.
pub trait Amounts: Drop {
    ghost listed: { Self → List ℕ };

    fn as_slice(&self) -> &[u64]
        ensures { result.now ≡ listed self.now };
}

impl<'a> Amounts for &'a [u64] {
    ghost listed = { λ amounts. amounts.now };

    fn as_slice(&self) -> &[u64] {
        *self
    }
}

impl<'a> Amounts for &'a mut [u64] {
    ghost listed = { λ amounts. amounts.now };

    fn as_slice(&self) -> &[u64] {
        self
    }
}

/// Amounts laid out for a book, which it can be laid over.
#[derive(Drop)]
pub struct Laid<S: Amounts> {
    pub(crate) accounts: u32,
    pub(crate) resources: u32,
    pub(crate) amounts: S,
    ghost fit: { Fit accounts resources (S.listed amounts) },
}

impl<S: Amounts> Laid<S> {
    /// Lays amounts out for so many accounts and resources, or refuses them as unfit.
    pub fn over(accounts: u32, resources: u32, amounts: S) -> Result<Laid<S>, BookRefusal>
        ensures answer { outcome result ≡ checked accounts resources (S.listed amounts) }
        ensures laid { IfOk result (λ laid. (laid.accounts ≡ accounts) × (laid.resources ≡ resources) × (laid.amounts ≡ amounts)) }
    {
        check(accounts, resources, amounts.as_slice())?;
        Ok(Laid {
            accounts,
            resources,
            amounts,
        })
    }

    /// Whether there is such an account and resource.
    pub(crate) fn has(&self, account: u32, resource: u32) -> bool
        ensures { result ≡ inside self.now.accounts self.now.resources account resource }
    {
        account < self.accounts && resource < self.resources
    }

    /// The amount of an account in a resource; nothing outside.
    pub(crate) fn get(&self, account: u32, resource: u32) -> Option<u64>
        ensures { result ≡ seen_in self.now.accounts self.now.resources (S.listed self.now.amounts) account resource }
    {
        if !self.has(account, resource) {
            return None;
        }
        let place = (account * self.resources + resource) as usize;
        Some(self.amounts.as_slice()[place])
    }

    /// The amount of an account in a resource, 0 outside.
    pub(crate) fn cell(&self, account: u32, resource: u32) -> u64
        ensures { result ≡ cell self.now.accounts self.now.resources (S.listed self.now.amounts) account resource }
    {
        self.get(account, resource).unwrap_or(0)
    }
}
