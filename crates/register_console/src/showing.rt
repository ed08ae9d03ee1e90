//! What is written of a register that stands.
use crate::register::Register;
use book::Book;
use booking::show_amounts;
use memory::{Deal, Line};
use panel::{Position, position_of, still_to_come_back};
use std::io::Write;
use std::{fmt, io};

/// A deal as it is written.
#[derive(Clone, Copy)]
struct DealText<'a>(&'a Deal);

impl<'a> fmt::Display for DealText<'a> {
    fn fmt<W: fmt::Write>(&self, f: &mut fmt::Formatter<W>) -> fmt::Result {
        let Deal {
            number,
            giver,
            taker,
            currency,
            class,
            weighing,
            margin,
            sought,
            rate,
            due,
            limit,
            cash,
            whole,
            residue,
        } = *self.0;
        let limit = if limit { "yes" } else { "no" };
        write!(
            f,
            "deal {number} giver {giver} taker {taker} {currency} class {class} {weighing} "
        )?;
        write!(
            f,
            "margin {margin} sought {sought} rate {rate} return {due} limit {limit} "
        )?;
        write!(f, "cash {cash} whole {whole} residue {residue}")
    }
}

/// A line as it is written.
#[derive(Clone, Copy)]
struct LineText<'a>(&'a Line);

impl<'a> fmt::Display for LineText<'a> {
    fn fmt<W: fmt::Write>(&self, f: &mut fmt::Formatter<W>) -> fmt::Result {
        let Line {
            number,
            deal,
            security,
            quantity,
            part,
        } = *self.0;
        write!(
            f,
            "line {number} deal {deal} security {security} quantity {quantity} part {part}"
        )
    }
}

/// Writes the head, the deals, the lines and every amount above 0.
pub fn show_register<B: Book, W: Write>(
    out: &mut W,
    number: usize,
    book: &B,
    register: &Register,
) -> io::Result<()> {
    let head = register.head;
    let date = head.date;
    let phase = head.phase.number();
    let deal = head.next.deal;
    let line = head.next.line;
    let left = book.movements_left();
    write!(
        out,
        "{number} show ok date {date} phase {phase} next deal {deal} "
    )?;
    writeln!(out, "next return {line} movements left {left}")?;
    for deal in register.deals.iter().take(head.used.deals as usize) {
        let deal = DealText(deal);
        writeln!(out, "  {deal}")?;
    }
    for line in register.lines.iter().take(head.used.lines as usize) {
        let line = LineText(line);
        writeln!(out, "  {line}")?;
    }
    show_amounts(out, book)
}

/// Writes what of all securities is still to come back to an account, and its position in each.
pub fn show_panel<B: Book, W: Write>(
    out: &mut W,
    number: usize,
    book: &B,
    register: &Register,
    account: u32,
) -> io::Result<()> {
    let lent = register.lent();
    if let Ok(total) = still_to_come_back(book, lent, account) {
        writeln!(
            out,
            "{number} panel ok account {account} still to come back {total}"
        )?;
    }
    for security in 3..book.resources() {
        if let Ok(position) = position_of(book, lent, account, security) {
            show_position(out, security, position)?;
        }
    }
    Ok(())
}

fn show_position<W: Write>(out: &mut W, security: u32, position: Position) -> io::Result<()> {
    let Position { given, taken } = position;
    if given == 0 && taken == 0 {
        return Ok(());
    }
    writeln!(out, "  security {security} out {given} in {taken}")
}
