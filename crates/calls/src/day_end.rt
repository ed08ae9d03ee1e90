//! The day end opened, closed and lifted.
ghost use Rattle.std.specs.Prelude.{◌≡◌, ◌-◌, ◌≤◌, ◌++◌, map, length, take, drop, is_ok, if◌then◌else◌, Ok};
ghost use Rattle.std.specs.Result.{result_err};
ghost use Rattle.memory.specs.Deals.{grown};
ghost use Rattle.memory.specs.Sound.{fault_of};
ghost use Rattle.sides.specs.DayEnd.{opening, opened, closing, closed, close_verdict, lifted};
ghost use Rattle.law.specs.Calls.{open_day_end, close_day_end, lift_day_end};
ghost use Rattle.law.specs.Outcomes.{outcome, after};
ghost use Rattle.calls.specs.Clauses.{lent, sheet_by, verdict_by, closed_by, GoesOn, or_broken_fault, unless_broken};

use crate::growth::accrue_all;
use book::Book;
use memory::{Deal, Fault, Head, Line, Register};
use sides::{DaySheet, NotClosed, Refusal, close_day_end, lift_day_end, open_day_end};

/// Refuses by the first rule that the register breaks over the book. The answer borrows nothing,
/// so the head may change after it.
fn check<B: Book>(book: &B, register: Register) -> Result<(), Fault>
    ensures { result_err result ≡ fault_of (B.Book.meaning book.now).accounts (B.Book.meaning book.now).resources register.entry.head.now register.entry.deals.now register.entry.lines.now }
{
    register.check(book.accounts(), book.resources())?;
    Ok(())
}

fn open_unbroken(head: &mut Head, checked: Result<(), Fault>) -> Result<DaySheet, Refusal>
    ensures answer { result ≡ or_broken_fault checked (opening head.old) }
    ensures change { head.new ≡ unless_broken checked (opened head.old) head.old }
{
    checked?;
    open_day_end(head)
}

/// Opens the day end, and hands out the sheet that is owed at its close or lift.
pub fn open<B: Book>(
    head: &mut Head,
    deals: &[Deal],
    lines: &[Line],
    book: &B,
) -> Result<DaySheet, Refusal>
    ensures answer { result ≡ sheet_by (outcome open_day_end (lent head.old deals.now lines.now (B.Book.meaning book.now))) }
    ensures world { lent head.new deals.now lines.now (B.Book.meaning book.now) ≡ after open_day_end (lent head.old deals.now lines.now (B.Book.meaning book.now)) }
    ensures law { GoesOn open_day_end (lent head.old deals.now lines.now (B.Book.meaning book.now)) (lent head.new deals.now lines.now (B.Book.meaning book.now)) }
{
    let register = Register { head, deals, lines };
    let checked = check(book, register);
    open_unbroken(head, checked)
}

fn lift_unbroken(
    head: &mut Head,
    checked: Result<(), Fault>,
    sheet: DaySheet,
) -> Result<(), Refusal>
    ensures answer { result ≡ or_broken_fault checked (Ok tt) }
    ensures change { head.new ≡ unless_broken checked (lifted head.old) head.old }
{
    if let Err(broken) = checked {
        let mut spare = *head;
        lift_day_end(&mut spare, sheet);
        return Err(broken.into());
    }
    lift_day_end(head, sheet);
    Ok(())
}

/// Lifts the day end at the same date. The sheet is spent, whatever is answered.
pub fn lift<B: Book>(
    head: &mut Head,
    deals: &[Deal],
    lines: &[Line],
    book: &B,
    sheet: DaySheet,
) -> Result<(), Refusal>
    ensures answer { result ≡ verdict_by (outcome lift_day_end (lent head.old deals.now lines.now (B.Book.meaning book.now))) }
    ensures world { lent head.new deals.now lines.now (B.Book.meaning book.now) ≡ after lift_day_end (lent head.old deals.now lines.now (B.Book.meaning book.now)) }
    ensures law { GoesOn lift_day_end (lent head.old deals.now lines.now (B.Book.meaning book.now)) (lent head.new deals.now lines.now (B.Book.meaning book.now)) }
{
    let register = Register { head, deals, lines };
    let checked = check(book, register);
    lift_unbroken(head, checked, sheet)
}

/// Over a register that breaks no rule.
fn close_sound(
    head: &mut Head,
    deals: &mut [Deal],
    sheet: DaySheet,
    date: u16,
) -> Result<(), NotClosed>
    requires { head.old.used.deals ≤ length deals.old }
    ensures answer { result ≡ closing head.old date sheet }
    ensures change { head.new ≡ closed head.old date }
    ensures deals { deals.new ≡ (if is_ok (close_verdict head.old date) then map (grown (date - head.old.date)) (take head.old.used.deals deals.old) ++ drop head.old.used.deals deals.old else deals.old) }
{
    let before = head.date;
    close_day_end(head, sheet, date)?;
    accrue_all(&mut deals[..head.used.deals as usize], date - before);
    Ok(())
}

/// Closes the day end at a new date, and every deal accrues for the days until then. A refusal hands the sheet back.
pub fn close<B: Book>(
    head: &mut Head,
    deals: &mut [Deal],
    lines: &[Line],
    book: &B,
    sheet: DaySheet,
    date: u16,
) -> Result<(), NotClosed>
    ensures answer { result ≡ closed_by sheet (outcome (close_day_end date) (lent head.old deals.old lines.now (B.Book.meaning book.now))) }
    ensures world { lent head.new deals.new lines.now (B.Book.meaning book.now) ≡ after (close_day_end date) (lent head.old deals.old lines.now (B.Book.meaning book.now)) }
    ensures law { GoesOn (close_day_end date) (lent head.old deals.old lines.now (B.Book.meaning book.now)) (lent head.new deals.new lines.now (B.Book.meaning book.now)) }
{
    let register = Register { head, deals, lines };
    if let Err(broken) = register.check(book.accounts(), book.resources()) {
        return Err(NotClosed {
            refusal: Refusal::from(broken),
            sheet,
        });
    }
    close_sound(head, deals, sheet, date)
}
