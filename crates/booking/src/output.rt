//! What is written of a command, and of a book.
use book::Book;
use std::fmt::Display;
use std::io::Write;
use std::{fmt, io};
use text::Reader;

/// A line of a script that is answered, with its number.
#[derive(Clone, Copy)]
pub struct Asked<'a> {
    pub number: usize,
    pub line: &'a [u8],
}

/// Writes `N WORD` and that the command is carried out, or how it is refused; it was understood.
// Inlined, it keeps its callers from it, and each of them copies the large result.
#[inline(never)]
pub fn report<W: Write, R: Display + Drop>(
    out: &mut W,
    asked: Asked,
    answer: Result<(), R>,
) -> io::Result<bool> {
    let Asked { number, line } = asked;
    write!(out, "{number} ")?;
    out.write_all(Reader::over(line).word())?;
    match answer {
        Ok(()) => writeln!(out, " ok 0")?,
        Err(refusal) => writeln!(out, " refused {refusal}")?,
    }
    Ok(true)
}

/// Writes `N ? WORD`, where a command is not understood, and says so.
pub fn report_misplaced<W: Write>(out: &mut W, asked: Asked) -> io::Result<bool> {
    let Asked { number, line } = asked;
    write!(out, "{number} ? ")?;
    out.write_all(Reader::over(line).word())?;
    writeln!(out)?;
    Ok(false)
}

/// Writes the movements left and every amount above 0.
pub fn show_book<B: Book, W: Write>(out: &mut W, number: usize, book: &B) -> io::Result<()> {
    let left = book.movements_left();
    writeln!(out, "{number} show ok movements left {left}")?;
    show_amounts(out, book)
}

/// Writes every amount above 0, by rising account and resource.
pub fn show_amounts<B: Book, W: Write>(out: &mut W, book: &B) -> io::Result<()> {
    for account in 0..book.accounts() {
        for resource in 0..book.resources() {
            if let Some(amount) = book.amount(account, resource) {
                show_amount(out, account, resource, amount)?;
            }
        }
    }
    Ok(())
}

/// A resource as it is written: a currency by its name, and a security by its number.
#[derive(Clone, Copy)]
struct ResourceName(u32);

impl fmt::Display for ResourceName {
    fn fmt<W: fmt::Write>(&self, f: &mut fmt::Formatter<W>) -> fmt::Result {
        match self.0 {
            0 => write!(f, "GBP"),
            1 => write!(f, "EUR"),
            2 => write!(f, "USD"),
            security => write!(f, "{security}"),
        }
    }
}

fn show_amount<W: Write>(out: &mut W, account: u32, resource: u32, amount: u64) -> io::Result<()> {
    if amount == 0 {
        return Ok(());
    }
    let resource = ResourceName(resource);
    writeln!(
        out,
        "  amount account {account} resource {resource} {amount}"
    )
}
