//! What the front panel answers.
ghost use Rattle.std.specs.Prelude.{◌≡◌, IfOk};
ghost use Rattle.std.specs.Result.{result_err};
ghost use Rattle.memory.specs.Register.{Told};
ghost use Rattle.memory.specs.Sound.{fault_of};
ghost use Rattle.memory.specs.Register.{Told};
ghost use Rattle.memory.specs.Sound.{fault_of};
ghost use Rattle.panel.specs.Asking.{refusal_of, position_in, owed_to, open_count, open_listed};
ghost use Rattle.panel.specs.Standing.{Orderly, Whole};

use crate::party::Holder;
use crate::refusal::PanelRefusal;
use crate::standing::StandingRows;
use book::Book;
use memory::{Checked, Fault, Line, Register};

/// What stands of a security for an account.
#[derive(Clone, Copy)]
pub struct Position {
    /// On lines that the account gives: still to come back to it.
    pub given: u64,
    /// On lines that the account takes.
    pub taken: u64,
}

/// The register as one that breaks no rule over the book, or the first rule that it breaks.
fn check_over<'a, B: Book>(book: &B, register: Register<'a>) -> Result<Checked<'a>, Fault>
    ensures answer { result_err result ≡ fault_of (B.Book.meaning book.now).accounts (B.Book.meaning book.now).resources register.entry.head.now register.entry.deals.now register.entry.lines.now }
    ensures told { Told (result_err result) (B.Book.meaning book.now).accounts (B.Book.meaning book.now).resources register.entry.head.now register.entry.deals.now register.entry.lines.now }
    ensures register { IfOk result (λ checked. checked.register ≡ register.entry) }
{
    register.check(book.accounts(), book.resources())
}

/// The register that the panel answers by, where what is asked about is inside the book or not.
fn check<'a, B: Book>(
    book: &B,
    register: Register<'a>,
    inside: bool,
) -> Result<Checked<'a>, PanelRefusal>
    ensures answer { result_err result ≡ refusal_of (B.Book.meaning book.now) register.entry.head.now register.entry.deals.now register.entry.lines.now inside }
    ensures register { IfOk result (λ checked. checked.register ≡ register.entry) }
    ensures orderly { IfOk result (λ checked. Orderly checked.register.head.now checked.register.deals.now checked.register.lines.now) }
    ensures whole { IfOk result (λ _. Whole (B.Book.meaning book.now).resources register.entry.head.now register.entry.deals.now register.entry.lines.now) }
{
    let checked = check_over(book, register)?;
    if !inside {
        return Err(PanelRefusal::Outside);
    }
    Ok(checked)
}

/// What stands of a security for an account. Refused by 1 where the register breaks a rule, and by 41 where the
/// account or the security is not of the book.
pub fn position_of<B: Book>(
    book: &B,
    register: Register,
    account: u32,
    security: u32,
) -> Result<Position, PanelRefusal>
    ensures { result ≡ position_in (B.Book.meaning book.now) register.entry.head.now register.entry.deals.now register.entry.lines.now account security }
{
    let inside = account < book.accounts() && security >= 3 && security < book.resources();
    let checked = check(book, register, inside)?;
    let rows = StandingRows { checked };
    Ok(Position {
        given: rows.quantity(Holder::giver(account), Some(security)),
        taken: rows.quantity(Holder::taker(account), Some(security)),
    })
}

/// What of all securities is still to come back to an account. Refused by 1 where the register breaks a rule, and by
/// 41 where the account is not of the book.
pub fn still_to_come_back<B: Book>(
    book: &B,
    register: Register,
    account: u32,
) -> Result<u64, PanelRefusal>
    ensures { result ≡ owed_to (B.Book.meaning book.now) register.entry.head.now register.entry.deals.now register.entry.lines.now account }
{
    let checked = check(book, register, account < book.accounts())?;
    let rows = StandingRows { checked };
    Ok(rows.quantity(Holder::giver(account), None))
}

/// The lines that are to come back to an account, in the order of their table. They are written to `places`, as many
/// as there is room for, and the answer is how many there are. Refused by 1 where the register breaks a rule, and by
/// 41 where the account is not of the book; then nothing is written.
pub fn open_returns<B: Book>(
    book: &B,
    register: Register,
    account: u32,
    places: &mut [Line],
) -> Result<usize, PanelRefusal>
    ensures answer { result ≡ open_count (B.Book.meaning book.now) register.entry.head.now register.entry.deals.now register.entry.lines.now account }
    ensures places { places.new ≡ open_listed (B.Book.meaning book.now) register.entry.head.now register.entry.deals.now register.entry.lines.now account places.old }
{
    let checked = check(book, register, account < book.accounts())?;
    let rows = StandingRows { checked };
    Ok(rows.list(Holder::giver(account), places))
}
