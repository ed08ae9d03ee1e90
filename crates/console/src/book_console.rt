//! The console over a book alone.
use book::Book;
use booking::{Asked, Console, Unobeyed, obey, prepare, report, report_misplaced, show_book};
use books::Holdback;
use script::{BookChoice, Command};
use std::io;
use std::io::Write;

pub struct BookConsole;

/// Writes what came of a command; whether it was understood.
#[inline]
fn tell<W: Write>(out: &mut W, asked: Asked, answer: Result<(), Unobeyed>) -> io::Result<bool> {
    // With `?` in each arm, the large result of a write is copied only where the write failed.
    let understood = match answer {
        Ok(()) => report(out, asked, Ok::<(), u32>(()))?,
        Err(Unobeyed::Refused(refusal)) => report(out, asked, Err(refusal.number()))?,
        Err(Unobeyed::Misplaced) => report_misplaced(out, asked)?,
    };
    Ok(understood)
}

impl Console for BookConsole {
    type Command = Command;

    fn needs_book(&self, command: Command) -> bool {
        matches!(command, Command::Hold(_) | Command::Move(_))
    }

    fn prepare<W: Write>(
        &self,
        out: &mut W,
        asked: Asked,
        chosen: &mut Option<BookChoice>,
        amounts: &mut [u64],
        command: Command,
    ) -> io::Result<bool> {
        tell(out, asked, prepare(chosen, amounts, command))
    }

    fn obey<B: Book, W: Write>(
        &self,
        out: &mut W,
        asked: Asked,
        book: &mut Holdback<B>,
        command: Command,
    ) -> io::Result<bool> {
        let understood = if let Command::Show = command {
            show_book(out, asked.number, book)?;
            true
        } else {
            tell(out, asked, obey(book, command))?
        };
        Ok(understood)
    }
}
