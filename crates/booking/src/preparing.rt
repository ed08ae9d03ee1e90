//! The commands before the book is made: its choice and its opening amounts.
ghost use Rattle.std.specs.Prelude.{◌≡◌, length};
ghost use Rattle.booking.specs.Preparing.{chosen_answer, chosen_after, stated_answer, stated_after, prepared_answer, prepared_choice, prepared_amounts};

use crate::unobeyed::Unobeyed;
use book::BookRefusal;
use books::state_amount;
use script::{BookChoice, Command, Holding};

/// Chooses the book, where none is chosen yet.
fn choose(chosen: &mut Option<BookChoice>, wanted: BookChoice) -> Result<(), Unobeyed>
    ensures answer { result ≡ chosen_answer chosen.old wanted }
    ensures change { chosen.new ≡ chosen_after chosen.old wanted }
{
    let BookChoice {
        kind: _,
        accounts,
        resources,
        count,
    } = wanted;
    if chosen.is_some() {
        return Err(Unobeyed::Misplaced);
    }
    if accounts < 2 || accounts > 64 || resources < 4 || resources > 128 || count > 65_535 {
        return Err(Unobeyed::Refused(BookRefusal::Unfit));
    }
    *chosen = Some(wanted);
    Ok(())
}

/// States an opening amount of the book that is chosen.
fn state(chosen: &Option<BookChoice>, amounts: &mut [u64], stated: Holding) -> Result<(), Unobeyed>
    ensures answer { result ≡ stated_answer chosen.now (length amounts.old) stated }
    ensures change { amounts.new ≡ stated_after chosen.now amounts.old stated }
{
    let book = chosen.ok_or(Unobeyed::Misplaced)?;
    let verdict = state_amount(
        book.accounts,
        book.resources,
        amounts,
        stated.account,
        stated.resource,
        stated.quantity,
    );
    Ok(verdict?)
}

/// Carries out a command that stands before the book is made.
pub fn prepare(
    chosen: &mut Option<BookChoice>,
    amounts: &mut [u64],
    command: Command,
) -> Result<(), Unobeyed>
    ensures answer { result ≡ prepared_answer chosen.old (length amounts.old) command }
    ensures choice { chosen.new ≡ prepared_choice chosen.old command }
    ensures amounts { amounts.new ≡ prepared_amounts chosen.old amounts.old command }
{
    match command {
        Command::Choose(wanted) => choose(chosen, wanted),
        Command::Amount(stated) => state(chosen, amounts, stated),
        Command::Hold(_) | Command::Move(_) | Command::Show => Err(Unobeyed::Misplaced),
    }
}
