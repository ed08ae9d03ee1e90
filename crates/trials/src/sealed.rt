//! The smallest book of one's own: a book that answers questions and takes no movements.
ghost use Rattle.std.specs.Prelude.{◌≡◌};
ghost use Rattle.trials.specs.Sealed.{sealed, sealed_lawful};

use book::{Book, BookRefusal, Movement};

/// A book after hours.
#[derive(Drop)]
pub struct Sealed<B> {
    pub below: B,
}

impl<B: Book> Book for Sealed<B> {
    ghost meaning = { λ s. sealed (B.Book.meaning s.below) };

    ghost lawful = { λ s. sealed_lawful (B.Book.meaning s.below) (B.Book.lawful s.below) };

    ghost home = { λ s. B.Book.home s.below };

    fn accounts(&self) -> u32 {
        self.below.accounts()
    }

    fn resources(&self) -> u32 {
        self.below.resources()
    }

    fn amount(&self, account: u32, resource: u32) -> Option<u64> {
        self.below.amount(account, resource)
    }

    fn holdback(&self, account: u32, resource: u32) -> Option<u64> {
        self.below.holdback(account, resource)
    }

    fn movements_left(&self) -> u64 {
        0
    }

    fn transfer(&mut self, movement: Movement) -> Result<(), BookRefusal> {
        self.judge(movement)
    }
}
