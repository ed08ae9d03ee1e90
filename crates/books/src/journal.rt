//! A book that writes each movement as a posting into memory that the host lends.
ghost use Rattle.std.specs.Prelude.{◌≡◌, ℕ, ◌<◌, ◌≤◌, length, slice_index_or};
ghost use Rattle.books.specs.Laying.{Fit};
ghost use Rattle.books.specs.Postings.{blank, Sound};

use crate::laid::Laid;
use crate::posting::{Posting, newest};
use book::{Book, BookRefusal, Movement, Standing};

/// Opening amounts, and the postings that were made since.
///
/// The opening amounts stand in fields of their own: beside lent postings, a field whose type has a ghost field would
/// keep a journal from being the type that another type is named with, as that of the layer over it.
#[derive(Drop)]
pub struct Journal<'a> {
    accounts: u32,
    resources: u32,
    opening: &'a [u64],
    // The postings are memory that the host lends, of a length of its own.
    used: usize,
    postings: &'a mut [Posting],
    ghost fit: { Fit accounts resources opening.now },
    ghost room: { used ≤ length postings.now },
    ghost sound: { (k : ℕ) → k < used → Sound accounts resources (slice_index_or postings.now k blank) },
}

impl<'a> Journal<'a> {
    ghost use Rattle.std.specs.Prelude.{◌+◌, ◌-◌, Ok, slice_set};
    ghost use Rattle.book.specs.Moving.{verdict, moved};
    ghost use Rattle.books.specs.Journals.{made, journal_meaning, journal_amount, posting_of};
    ghost use Rattle.books.specs.Laying.{opened};
    ghost use Rattle.books.specs.Postings.{latest};

    /// Opens a journal over amounts, with all postings unused.
    pub fn over(opening: Laid<&'a [u64]>, postings: &'a mut [Posting]) -> Journal<'a>
        ensures meaning { journal_meaning result ≡ opened opening.entry.accounts opening.entry.resources (length postings.old) opening.entry.amounts.now }
        ensures home { result.postings.ghost_name ≡ postings.entry.ghost_name }
    {
        let Laid {
            accounts,
            resources,
            amounts,
        } = opening;
        Journal {
            accounts,
            resources,
            opening: amounts,
            used: 0,
            postings,
        }
    }

    /// The opening amounts as they are laid.
    fn laid(&self) -> Laid<&[u64]>
        ensures accounts { result.accounts ≡ self.now.accounts }
        ensures resources { result.resources ≡ self.now.resources }
        ensures amounts { result.amounts.now ≡ self.now.opening.now }
    {
        Laid {
            accounts: self.accounts,
            resources: self.resources,
            amounts: self.opening,
        }
    }

    /// How many postings are unused.
    fn unused(&self) -> u64
        ensures { result ≡ length self.now.postings.now - self.now.used }
    {
        (self.postings.len() - self.used) as u64
    }

    /// What the newest posting says that names an account and a resource.
    fn posted(&self, account: u32, resource: u32) -> Option<u64>
        ensures { result ≡ latest (made self.now) account resource }
    {
        newest(&self.postings[..self.used], account, resource)
    }

    /// The amount of an account in a resource, 0 outside.
    fn standing(&self, account: u32, resource: u32) -> u64
        ensures { result ≡ journal_amount self.now account resource }
    {
        let opening = self.laid().cell(account, resource);
        self.posted(account, resource).unwrap_or(opening)
    }

    /// Writes a movement as the first unused posting, with the sender's and the receiver's new amounts.
    fn post(&mut self, movement: Movement, sender: u64, receiver: u64)
        requires accepted { Ok tt ≡ verdict (journal_meaning self.old) movement }
        requires sender { sender ≡ journal_amount self.old movement.from movement.resource - movement.quantity }
        requires receiver { receiver ≡ journal_amount self.old movement.to movement.resource + movement.quantity }
        ensures change { journal_meaning self.new ≡ moved (journal_meaning self.old) movement }
        ensures memory { self.new.postings.now ≡ slice_set self.old.postings.now self.old.used (posting_of self.old movement) }
        ensures stays { self.new.postings.ghost_name ≡ self.old.postings.ghost_name }
    {
        let at = self.used;
        self.postings[at] = Posting {
            from: movement.from,
            to: movement.to,
            resource: movement.resource,
            sender,
            receiver,
        };
        self.used = at + 1;
    }
}

impl<'a> Book for Journal<'a> {
    ghost use Rattle.std.specs.Prelude.{◌-◌, [], ◌∷◌};
    ghost use Rattle.book.specs.Moving.{verdict, after};
    ghost use Rattle.books.specs.Journals.{journal_meaning, journal_memory};
    ghost use Rattle.books.specs.InRange.{journalled_lawful};

    ghost meaning = { journal_meaning };

    ghost home = { λ j. j.postings.ghost_name ∷ [] };

    ghost lawful = { λ j. journalled_lawful j.accounts j.resources (length j.postings.now - j.used) j.used j.opening.now j.postings.now j.fit j.room j.sound };

    fn accounts(&self) -> u32 {
        self.accounts
    }

    fn resources(&self) -> u32 {
        self.resources
    }

    fn amount(&self, account: u32, resource: u32) -> Option<u64> {
        let opening = self.laid().get(account, resource)?;
        Some(self.posted(account, resource).unwrap_or(opening))
    }

    fn holdback(&self, account: u32, resource: u32) -> Option<u64> {
        self.laid().has(account, resource).then_some(0)
    }

    fn movements_left(&self) -> u64 {
        self.unused()
    }

    fn transfer(&mut self, movement: Movement) -> Result<(), BookRefusal>
        ensures answer { result ≡ verdict (journal_meaning self.old) movement }
        ensures change { journal_meaning self.new ≡ after (journal_meaning self.old) movement }
        ensures stays { self.new.postings.ghost_name ∷ [] ≡ self.old.postings.ghost_name ∷ [] }
        ensures memory { self.new.postings.now ≡ journal_memory self.old movement }
    {
        let had = self.standing(movement.from, movement.resource);
        let has = self.standing(movement.to, movement.resource);
        let standing = Standing {
            accounts: self.accounts,
            resources: self.resources,
            had,
            held: 0,
            has,
            left: self.unused(),
        };
        standing.judge(movement)?;
        self.post(movement, had - movement.quantity, has + movement.quantity);
        Ok(())
    }
}
