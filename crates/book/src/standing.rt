//! What a movement meets in a book.
ghost use Rattle.std.specs.Prelude.{◌≡◌};
ghost use Rattle.book.specs.Moving.{judged};

use crate::movement::{LIMIT, Movement};
use crate::refusal::BookRefusal;

/// The numbers that a book's answer to a movement depends on.
#[derive(Clone, Copy)]
pub struct Standing {
    pub accounts: u32,
    pub resources: u32,
    /// The sender's amount.
    pub had: u64,
    /// What of it is held back.
    pub held: u64,
    /// The receiver's amount.
    pub has: u64,
    /// The movements left.
    pub left: u64,
}

impl Standing {
    /// What a book answers to a movement that meets these numbers.
    pub fn judge(self, movement: Movement) -> Result<(), BookRefusal>
        ensures { result ≡ judged self.accounts self.resources self.had self.held self.has self.left movement }
    {
        let Movement {
            from,
            to,
            resource,
            quantity,
        } = movement;
        if from >= self.accounts
            || to >= self.accounts
            || resource >= self.resources
            || from == to
        {
            return Err(BookRefusal::Outside);
        }
        if quantity == 0 {
            return Err(BookRefusal::Quantity);
        }
        if self.had.saturating_sub(self.held) < quantity {
            return Err(BookRefusal::NotFree);
        }
        if quantity > LIMIT || self.has > LIMIT - quantity {
            return Err(BookRefusal::NoRoom);
        }
        if self.left == 0 {
            return Err(BookRefusal::NoMovements);
        }
        Ok(())
    }
}
