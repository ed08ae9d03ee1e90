//! Memory that a book can be laid over, and amounts that are stated in it.
ghost use Rattle.std.specs.Prelude.{◌≡◌, ◌+◌, ◌*◌, length, is_ok, IfOk, if◌then◌else◌, slice_set};
ghost use Rattle.books.specs.Laying.{Fit, all_low, checked, stated_verdict};

use book::{BookRefusal, LIMIT};

/// Whether no amount is over the limit.
fn all_low(amounts: &[u64]) -> bool
    ensures { result ≡ all_low amounts.now }
{
    amounts.iter().all(|amount| *amount <= LIMIT)
}

/// Whether a book of so many accounts and resources can be laid over the amounts.
pub fn check(accounts: u32, resources: u32, amounts: &[u64]) -> Result<(), BookRefusal>
    ensures answer { result ≡ checked accounts resources amounts.now }
    ensures fit { IfOk result (λ _. Fit accounts resources amounts.now) }
{
    if accounts < 2 || accounts > 64 || resources < 4 || resources > 128 {
        return Err(BookRefusal::Unfit);
    }
    if amounts.len() != accounts as usize * resources as usize {
        return Err(BookRefusal::Unfit);
    }
    if !all_low(amounts) {
        return Err(BookRefusal::Unfit);
    }
    Ok(())
}

/// States an amount in memory that a book is to be laid over.
pub fn state_amount(
    accounts: u32,
    resources: u32,
    amounts: &mut [u64],
    account: u32,
    resource: u32,
    quantity: u64,
) -> Result<(), BookRefusal>
    ensures answer { result ≡ stated_verdict accounts resources (length amounts.old) account resource quantity }
    ensures memory { amounts.new ≡ (if is_ok result then slice_set amounts.old (account * resources + resource) quantity else amounts.old) }
{
    if account >= accounts || resource >= resources {
        return Err(BookRefusal::Outside);
    }
    let place = account as usize * resources as usize + resource as usize;
    if place >= amounts.len() {
        return Err(BookRefusal::Outside);
    }
    if quantity > LIMIT {
        return Err(BookRefusal::Unfit);
    }
    amounts[place] = quantity;
    Ok(())
}
