//! The day end, and the day sheet that is handed out while it lasts.
ghost use Rattle.std.specs.Prelude.{◌≡◌};
ghost use Rattle.sides.specs.DayEnd.{open_verdict, opening, opened, closing, closed, lifted};

use crate::refusal::Refusal;
use memory::{Head, Phase};

/// What is owed at close or lift. It has no `Drop`, so it cannot be let go: it ends only in `lift_day_end`, and in
/// `close_day_end`, which calls it.
#[must_use]
pub struct DaySheet(());

/// Why the day end is not closed, with the sheet.
pub struct NotClosed {
    pub refusal: Refusal,
    pub sheet: DaySheet,
}

/// Refused by 2 in the day end.
pub fn open_day_end(head: &mut Head) -> Result<DaySheet, Refusal>
    ensures answer { result ≡ opening head.old }
    ensures change { head.new ≡ opened head.old }
{
    if let Phase::DayEnd = head.phase {
        return Err(Refusal::WrongPhase);
    }
    head.phase = Phase::DayEnd;
    Ok(DaySheet(()))
}

/// Ends the day end at a new date. Refused by 2 in the day, by 4 where the date is not 1 to 31 days later.
pub fn close_day_end(head: &mut Head, sheet: DaySheet, date: u16) -> Result<(), NotClosed>
    ensures answer { result ≡ closing head.old date sheet }
    ensures change { head.new ≡ closed head.old date }
{
    if let Phase::Day = head.phase {
        return Err(NotClosed {
            refusal: Refusal::WrongPhase,
            sheet,
        });
    }
    if date <= head.date || date - head.date > 31 {
        return Err(NotClosed {
            refusal: Refusal::OutOfRange,
            sheet,
        });
    }
    head.date = date;
    lift_day_end(head, sheet);
    Ok(())
}

/// Ends the day end at the same date; in the day nothing changes.
pub fn lift_day_end(head: &mut Head, sheet: DaySheet)
    ensures { head.new ≡ lifted head.old }
{
    let DaySheet(()) = sheet;
    head.phase = Phase::Day;
}

/// Opens the day end and lifts it again, to see whether it may be opened.
pub fn rehearse_day_end(head: &mut Head) -> Result<(), Refusal>
    ensures answer { result ≡ open_verdict head.old }
    ensures change { head.new ≡ head.old }
{
    let owed = open_day_end(head)?;
    lift_day_end(head, owed);
    Ok(())
}
