//! Lists of movements on any book: foreseen, made as a whole, or tried one by one.
ghost use Rattle.std.specs.Prelude.{◌≡◌, ◌≤◌, length, is_ok, if◌then◌else◌, Ok};
ghost use Rattle.book.specs.Meaning.{limit};
ghost use Rattle.book.specs.Moving.{shifted, verdict};
ghost use Rattle.book.specs.Lists.{run, rehearsed, performed, attempted, accepted};
ghost use Rattle.book.specs.Law.{Conserved};

use crate::asking::{amount_at, holdback_at};
use crate::contract::Book;
use crate::movement::{Movement, RefusedAt};
use crate::refusal::BookRefusal;
use crate::standing::Standing;

/// What an amount becomes by a movement.
fn shift(amount: u64, account: u32, resource: u32, movement: Movement) -> u64
    requires { (amount ≤ limit) × (movement.quantity ≤ limit) }
    ensures { result ≡ shifted movement account resource amount }
{
    if resource != movement.resource {
        amount
    } else if account == movement.from {
        amount.saturating_sub(movement.quantity)
    } else if account == movement.to {
        amount + movement.quantity
    } else {
        amount
    }
}

/// The amount of an account in a resource once movements are made, all of which the book accepts.
fn amount_after<B: Book>(book: &B, made: &[Movement], account: u32, resource: u32) -> u64
    requires { Ok tt ≡ rehearsed (B.Book.meaning book.now) made.now }
    ensures { result ≡ (run (B.Book.meaning book.now) made.now).amount account resource }
{
    let mut amount = amount_at(book, account, resource);
    for movement in made {
        amount = shift(amount, account, resource, *movement);
    }
    amount
}

/// What the book will answer to a movement once others are made, all of which it accepts.
#[tactic(auto, using(crate::proofs::Runs::verdict_run))]
fn foresee<B: Book>(book: &B, made: &[Movement], next: Movement) -> Result<(), BookRefusal>
    requires { Ok tt ≡ rehearsed (B.Book.meaning book.now) made.now }
    ensures { result ≡ verdict (run (B.Book.meaning book.now) made.now) next }
{
    let standing = Standing {
        accounts: book.accounts(),
        resources: book.resources(),
        had: amount_after(book, made, next.from, next.resource),
        held: holdback_at(book, next.from, next.resource),
        has: amount_after(book, made, next.to, next.resource),
        left: book.movements_left().saturating_sub(made.len() as u64),
    };
    standing.judge(next)
}

/// What the book will answer to a list that is made as a whole: the first refusal, with its place. Nothing is moved.
#[tactic(auto, using(crate::proofs::Runs::refused_at, crate::proofs::Runs::accepted_more))]
pub fn rehearse<B: Book>(book: &B, moves: &[Movement]) -> Result<(), RefusedAt>
    ensures { result ≡ rehearsed (B.Book.meaning book.now) moves.now }
{
    for (place, next) in moves.iter().enumerate() {
        if let Err(refusal) = foresee(book, &moves[..place], *next) {
            return Err(RefusedAt { place, refusal });
        }
    }
    Ok(())
}

/// Makes a list of movements as a whole: all of them, or none and the first refusal with its place.
#[tactic(auto, using(crate::proofs::Runs::run_step, crate::proofs::Runs::accepted_step))]
pub fn perform<B: Book>(book: &mut B, moves: &[Movement]) -> Result<(), RefusedAt>
    ensures answer { result ≡ rehearsed (B.Book.meaning book.old) moves.now }
    ensures change { B.Book.meaning book.new ≡ performed (B.Book.meaning book.old) moves.now }
    ensures conserved { Conserved (B.Book.meaning book.old) (B.Book.meaning book.new) (if is_ok result then length moves.now else 0) }
    ensures stays { B.Book.home book.new ≡ B.Book.home book.old }
{
    rehearse(book, moves)?;
    for movement in moves {
        let _ = book.transfer(*movement);
    }
    Ok(())
}

/// Tries movements one by one, and answers how many were accepted.
#[tactic(auto, using(crate::proofs::Attempts::attempted_more, crate::proofs::Attempts::accepted_more))]
pub fn attempt<B: Book>(book: &mut B, moves: &[Movement]) -> usize
    ensures answer { result ≡ accepted (B.Book.meaning book.old) moves.now }
    ensures change { B.Book.meaning book.new ≡ attempted (B.Book.meaning book.old) moves.now }
    ensures conserved { Conserved (B.Book.meaning book.old) (B.Book.meaning book.new) result }
    ensures stays { B.Book.home book.new ≡ B.Book.home book.old }
{
    let mut made = 0;
    for movement in moves {
        if book.transfer(*movement).is_ok() {
            made += 1;
        }
    }
    made
}
