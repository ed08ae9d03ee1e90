//! Questions to any book that have an answer at every account and resource.
ghost use Rattle.std.specs.Prelude.{◌≡◌};
ghost use Rattle.book.specs.Meaning.{free};
ghost use Rattle.book.specs.Totals.{in_all};

use crate::contract::Book;

/// The amount of an account in a resource, 0 outside.
pub fn amount_at<B: Book>(book: &B, account: u32, resource: u32) -> u64
    ensures { result ≡ (B.Book.meaning book.now).amount account resource }
{
    book.amount(account, resource).unwrap_or(0)
}

/// What is held back of an account in a resource, 0 outside.
pub fn holdback_at<B: Book>(book: &B, account: u32, resource: u32) -> u64
    ensures { result ≡ (B.Book.meaning book.now).holdback account resource }
{
    book.holdback(account, resource).unwrap_or(0)
}

/// What an account may send of a resource, 0 outside.
pub fn free_at<B: Book>(book: &B, account: u32, resource: u32) -> u64
    ensures { result ≡ free (B.Book.meaning book.now) account resource }
{
    amount_at(book, account, resource).saturating_sub(holdback_at(book, account, resource))
}

/// What all accounts together have of a resource.
pub fn held_by_all<B: Book>(book: &B, resource: u32) -> u64
    ensures { result ≡ in_all (B.Book.meaning book.now) resource }
{
    // As a chain that ends in `sum`, two facts stay open, also where a second function requires that `in_all` fits: that
    // the items' sum fits, and that it is `in_all`, which adds below a number and is no sum of a list.
    let mut sum = 0;
    for account in 0..book.accounts() {
        sum += amount_at(book, account, resource);
    }
    sum
}
