//! What is written of a command.
use booking::{Asked, report, report_misplaced};
use commands::Unobeyed;
use sides::Refusal;
use std::io::Write;
use std::{fmt, io};

/// A refusal as it is written: by its number, and its place where it has one.
#[derive(Clone, Copy)]
struct RefusalText(Refusal);

impl fmt::Display for RefusalText {
    fn fmt<W: fmt::Write>(&self, f: &mut fmt::Formatter<W>) -> fmt::Result {
        let code = self.0.number();
        match self.0 {
            Refusal::Broken(fault) => {
                let table = fault.table.number();
                let row = fault.row;
                write!(f, "{code} {table} {row}")
            }
            Refusal::Book(refused) => {
                let place = refused.place;
                let number = refused.refusal.number();
                write!(f, "{code} {place} {number}")
            }
            _ => write!(f, "{code}"),
        }
    }
}

/// Writes what came of a command; whether it was understood.
pub fn tell<W: Write>(out: &mut W, asked: Asked, answer: Result<(), Unobeyed>) -> io::Result<bool> {
    match answer {
        Ok(()) => report(out, asked, Ok::<(), u32>(())),
        Err(Unobeyed::ByBook(refusal)) => report(out, asked, Err(refusal.number())),
        Err(Unobeyed::ByRegister(refusal)) => report(out, asked, Err(RefusalText(refusal))),
        Err(Unobeyed::Misplaced) => report_misplaced(out, asked),
    }
}
