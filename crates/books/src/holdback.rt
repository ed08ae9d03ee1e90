//! A layer over any book that holds back.
ghost use Rattle.std.specs.Prelude.{◌≡◌, true, replicate, if◌then◌else◌, Ok, Err};
ghost use Rattle.book.specs.Meaning.{within};
ghost use Rattle.book.specs.Moving.{verdict, moved};
ghost use Rattle.books.specs.Holding.{layered, crowded, hold_verdict, rows_with, rows_after, holding_more, held_after};
ghost use Rattle.books.specs.InRange.{layered_lawful};
ghost use Rattle.books.specs.Rows.{free_row, distinct};

use crate::row::{FREE, HoldRow, free_place, held_in, naming_place};
use book::{Book, BookRefusal, LIMIT, Movement};

/// At most 32 rows, whose quantities are added to what the book below holds back.
#[derive(Drop)]
pub struct Holdback<B> {
    below: B,
    rows: [HoldRow; 32],
    ghost apart: { distinct rows ≡ true },
}

impl<B: Book> Holdback<B> {
    /// The layer with rows that are all free.
    fn with_rows(below: B, rows: [HoldRow; 32]) -> Holdback<B>
        requires { rows ≡ replicate 32 free_row }
        ensures meaning { layered (B.Book.meaning result.below) result.rows ≡ B.Book.meaning below }
        ensures below { result.below ≡ below }
        ensures rows { result.rows ≡ rows }
    {
        Holdback { below, rows }
    }

    /// Lays the layer over a book, with all rows free.
    pub fn over(below: B) -> Holdback<B>
        ensures meaning { layered (B.Book.meaning result.below) result.rows ≡ B.Book.meaning below }
        ensures below { result.below ≡ below }
        ensures rows { result.rows ≡ replicate 32 free_row }
    {
        Self::with_rows(below, [FREE; 32])
    }

    /// Sets, replaces or frees the row of an account and a resource, or refuses where one is needed and none is free.
    fn set_row(&mut self, account: u32, resource: u32, quantity: u64) -> Result<(), BookRefusal>
        requires { within (B.Book.meaning self.old.below) account resource ≡ true }
        ensures answer { result ≡ (if crowded self.old.rows account resource quantity then Err BookRefusal.NoRow else Ok tt) }
        ensures rows { self.new.rows ≡ (if crowded self.old.rows account resource quantity then self.old.rows else rows_with self.old.rows account resource quantity) }
        ensures below { self.new.below ≡ self.old.below }
        ensures change { layered (B.Book.meaning self.new.below) self.new.rows ≡ (if crowded self.old.rows account resource quantity then layered (B.Book.meaning self.old.below) self.old.rows else holding_more (B.Book.meaning self.old.below) self.old.rows account resource quantity) }
    {
        let row = HoldRow::of(account, resource, quantity);
        if let Some(i) = naming_place(&self.rows, account, resource) {
            self.rows[i] = row;
            return Ok(());
        }
        if quantity == 0 {
            return Ok(());
        }
        let Some(i) = free_place(&self.rows) else {
            return Err(BookRefusal::NoRow);
        };
        self.rows[i] = row;
        Ok(())
    }

    /// Holds back a quantity of an account in a resource, in the place of what the layer held back of it; 0 frees its row.
    pub fn hold(&mut self, account: u32, resource: u32, quantity: u64) -> Result<(), BookRefusal>
        ensures answer { result ≡ hold_verdict (B.Book.meaning self.old.below) self.old.rows account resource quantity }
        ensures rows { self.new.rows ≡ rows_after (B.Book.meaning self.old.below) self.old.rows account resource quantity }
        ensures below { self.new.below ≡ self.old.below }
        ensures change { layered (B.Book.meaning self.new.below) self.new.rows ≡ held_after (B.Book.meaning self.old.below) self.old.rows account resource quantity }
    {
        if account >= self.below.accounts() || resource >= self.below.resources() {
            return Err(BookRefusal::Outside);
        }
        if quantity > LIMIT {
            return Err(BookRefusal::Quantity);
        }
        self.set_row(account, resource, quantity)
    }

    /// What is held back of an account in a resource, 0 outside.
    fn held_back(&self, account: u32, resource: u32) -> u64
        ensures { result ≡ (layered (B.Book.meaning self.now.below) self.now.rows).holdback account resource }
    {
        let Some(below) = self.below.holdback(account, resource) else {
            return 0;
        };
        below
            .saturating_add(held_in(&self.rows, account, resource))
            .min(LIMIT)
    }

    /// Makes a movement that the layer accepts on the book below, which holds back no more.
    fn make(&mut self, movement: Movement)
        requires { Ok tt ≡ verdict (layered (B.Book.meaning self.old.below) self.old.rows) movement }
        ensures change { layered (B.Book.meaning self.new.below) self.new.rows ≡ moved (layered (B.Book.meaning self.old.below) self.old.rows) movement }
        ensures stays { B.Book.home self.new.below ≡ B.Book.home self.old.below }
    {
        let _ = self.below.transfer(movement);
    }
}

impl<B: Book> Book for Holdback<B> {
    ghost meaning = { λ h. layered (B.Book.meaning h.below) h.rows };

    ghost lawful = { λ h. layered_lawful (B.Book.meaning h.below) h.rows (B.Book.lawful h.below) };

    ghost home = { λ h. B.Book.home h.below };

    fn accounts(&self) -> u32 {
        self.below.accounts()
    }

    fn resources(&self) -> u32 {
        self.below.resources()
    }

    fn amount(&self, account: u32, resource: u32) -> Option<u64> {
        self.below.amount(account, resource)
    }

    fn holdback(&self, account: u32, resource: u32) -> Option<u64> {
        if account < self.below.accounts() && resource < self.below.resources() {
            Some(self.held_back(account, resource))
        } else {
            None
        }
    }

    fn movements_left(&self) -> u64 {
        self.below.movements_left()
    }

    fn transfer(&mut self, movement: Movement) -> Result<(), BookRefusal> {
        self.judge(movement)?;
        self.make(movement);
        Ok(())
    }
}
