//! The trait that every book implements.
ghost use Rattle.std.specs.Prelude.{◌≡◌, List};
ghost use Rattle.std.specs.Borrow.{GName};
ghost use Rattle.book.specs.Meaning.{Meaning, Lawful, seen, kept};
ghost use Rattle.book.specs.Moving.{verdict, after};

use crate::movement::Movement;
use crate::refusal::BookRefusal;
use crate::standing::Standing;

pub trait Book {
    /// What the book means. Two books with one meaning answer alike.
    ghost meaning: { Self → Meaning };

    /// The names of the memory that was lent to the book for writing, which it keeps.
    ghost home: { Self → List GName };

    fn accounts(&self) -> u32
        ensures { result ≡ (meaning self.now).accounts };

    fn resources(&self) -> u32
        ensures { result ≡ (meaning self.now).resources };

    /// Nothing where the book has no such account or resource.
    fn amount(&self, account: u32, resource: u32) -> Option<u64>
        ensures { result ≡ seen (meaning self.now) account resource };

    /// Nothing where the book has no such account or resource.
    fn holdback(&self, account: u32, resource: u32) -> Option<u64>
        ensures { result ≡ kept (meaning self.now) account resource };

    fn movements_left(&self) -> u64
        ensures { result ≡ (meaning self.now).left };

    /// What the book answers to a movement. Nothing is moved.
    fn judge(&self, movement: Movement) -> Result<(), BookRefusal>
        ensures { result ≡ verdict (meaning self.now) movement }
    {
        let Movement {
            from,
            to,
            resource,
            ..
        } = movement;
        let standing = Standing {
            accounts: self.accounts(),
            resources: self.resources(),
            had: self.amount(from, resource).unwrap_or(0),
            held: self.holdback(from, resource).unwrap_or(0),
            has: self.amount(to, resource).unwrap_or(0),
            left: self.movements_left(),
        };
        standing.judge(movement)
    }

    /// Makes a movement, or refuses it and changes nothing.
    fn transfer(&mut self, movement: Movement) -> Result<(), BookRefusal>
        ensures answer { result ≡ verdict (meaning self.old) movement }
        ensures change { meaning self.new ≡ after (meaning self.old) movement }
        ensures stays { home self.new ≡ home self.old };

    /// Every meaning is in its ranges.
    ghost lawful: { (x : Self) → Lawful (meaning x) };
}
