//! A deal's rate and return day replaced.
ghost use Rattle.std.specs.Prelude.{◌≡◌, ◌<◌, IfSome, length};
ghost use Rattle.law.specs.Calls.{amend as amend_call};
ghost use Rattle.law.specs.Outcomes.{outcome, after};
ghost use Rattle.calls.specs.Amending.{amendable, amend_verdict, amended_rows};
ghost use Rattle.calls.specs.Clauses.{lent, verdict_by, GoesOn};

use book::Book;
use memory::{Deal, Head, Line, Phase, Register};
use sides::Refusal;

fn is_amendable(date: u16, rate: u32, due: u16) -> bool
    ensures { result ≡ amendable date rate due }
{
    rate <= 200_000 && date <= due && due - date <= 730
}

/// Replaces the rate and the return day of the deal that was found at `row`, if one was.
fn amend_found(
    head: &Head,
    deals: &mut [Deal],
    row: Option<usize>,
    rate: u32,
    due: u16,
) -> Result<(), Refusal>
    requires { IfSome row (λ i. i < length deals.old) }
    ensures answer { result ≡ amend_verdict head.now deals.old rate due row }
    ensures deals { deals.new ≡ amended_rows head.now deals.old rate due row }
{
    if let Phase::DayEnd = head.phase {
        return Err(Refusal::WrongPhase);
    }
    let row = row.ok_or(Refusal::NotStanding)?;
    if !is_amendable(head.date, rate, due) {
        return Err(Refusal::OutOfRange);
    }
    if deals[row].is_due(head.date) {
        return Err(Refusal::ReturnDay);
    }
    deals[row].amend(rate, due);
    Ok(())
}

/// Replaces the rate and the return day of a deal that is not due.
pub fn amend<B: Book>(
    head: &Head,
    deals: &mut [Deal],
    lines: &[Line],
    book: &B,
    number: u32,
    rate: u32,
    due: u16,
) -> Result<(), Refusal>
    ensures answer { result ≡ verdict_by (outcome (amend_call number rate due) (lent head.now deals.old lines.now (B.Book.meaning book.now))) }
    ensures world { lent head.now deals.new lines.now (B.Book.meaning book.now) ≡ after (amend_call number rate due) (lent head.now deals.old lines.now (B.Book.meaning book.now)) }
    ensures law { GoesOn (amend_call number rate due) (lent head.now deals.old lines.now (B.Book.meaning book.now)) (lent head.now deals.new lines.now (B.Book.meaning book.now)) }
{
    let register = Register { head, deals, lines };
    let checked = register.check(book.accounts(), book.resources())?;
    let row = checked.find_deal(number);
    amend_found(head, deals, row, rate, due)
}
