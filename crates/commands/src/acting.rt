//! What a command does to a register that stands.
ghost use Rattle.std.specs.Prelude.{◌≡◌};
ghost use Rattle.panel.specs.Asking.{owed_to};
ghost use Rattle.commands.specs.Acting.{panel_answer, act_answer, head_after, deals_after, lines_after, prices_after, held_after};
ghost use Rattle.commands.specs.Hands.{held};

use crate::hand::Hand;
use crate::poking::poke;
use crate::pricing::quote;
use crate::unobeyed::Unobeyed;
use book::Book;
use memory::{Deal, Head, Line, Register};
use panel::still_to_come_back;
use register_script::RegisterCommand;
use valuation::Price;

fn look<B: Book>(book: &B, register: Register, account: u32) -> Result<(), Unobeyed>
    ensures { result ≡ panel_answer (owed_to (B.Book.meaning book.now) register.entry.head.now register.entry.deals.now register.entry.lines.now account) }
{
    still_to_come_back(book, register, account)?;
    Ok(())
}

/// Carries out a command on the register's memory and on what is in hand.
pub fn act<B: Book>(
    book: &B,
    head: &mut Head,
    deals: &mut [Deal],
    lines: &mut [Line],
    prices: &mut [Price],
    hand: &mut Hand,
    command: RegisterCommand,
) -> Result<(), Unobeyed>
    ensures answer { result ≡ act_answer (B.Book.meaning book.now) head.old deals.old lines.old prices.old (held hand.old) command }
    ensures head { head.new ≡ head_after head.old command }
    ensures deals { deals.new ≡ deals_after deals.old command }
    ensures lines { lines.new ≡ lines_after lines.old command }
    ensures prices { prices.new ≡ prices_after prices.old command }
    ensures hand { held hand.new ≡ held_after (held hand.old) command }
{
    match command {
        RegisterCommand::Price(quotation) => quote(prices, quotation),
        RegisterCommand::Giver(terms) => hand.state_giver(terms),
        RegisterCommand::Taker(terms) => hand.state_taker(terms),
        RegisterCommand::Match => hand.match_sides(),
        RegisterCommand::Withdraw => {
            hand.withdraw();
            Ok(())
        }
        RegisterCommand::Panel(account) => look(book, Register { head, deals, lines }, account),
        RegisterCommand::Poke(change) => poke(head, deals, lines, change),
        RegisterCommand::Call(_) => Err(Unobeyed::Misplaced),
    }
}
