//! The console over a book and a register that stands over it.
use crate::output::tell;
use crate::register::Register;
use crate::showing::{show_panel, show_register};
use book::Book;
use booking::{Asked, Console, report_misplaced, show_book};
use books::Holdback;
use commands::{Unobeyed, obey, prepare};
use register_script::{Beginning, Command, RegisterCommand};
use script::BookChoice;
use std::alloc::Global;
use std::io;
use std::io::Write;
use std::ops::ControlFlow;
use text::{Script, Unread, read_line};

#[derive(Clone, Copy)]
pub struct RegisterConsole {
    pub heap: Global,
}

/// Writes what came of a command to a register; whether it was understood.
fn tell_of_register<B: Book, W: Write>(
    out: &mut W,
    asked: Asked,
    book: &B,
    register: &Register,
    command: Command,
    answer: Result<(), Unobeyed>,
) -> io::Result<bool> {
    let understood = match (command, answer) {
        (Command::Book(script::Command::Show), Ok(())) => {
            show_register(out, asked.number, book, register)?;
            true
        }
        (Command::Register(RegisterCommand::Panel(account)), Ok(())) => {
            show_panel(out, asked.number, book, register, account)?;
            true
        }
        _ => tell(out, asked, answer)?,
    };
    Ok(understood)
}

/// Carries out the rest of the script on a register over the book; whether each line was understood.
fn keep<B: Book, W: Write>(
    out: &mut W,
    script: Script,
    book: &B,
    register: &mut Register,
) -> io::Result<bool> {
    let mut understood = true;
    for (number, line) in script {
        let asked = Asked { number, line };
        understood &= match read_line(line) {
            Ok(None) => true,
            Err(Unread) => report_misplaced(out, asked)?,
            Ok(Some(command)) => {
                let answer = register.obey(book, command);
                tell_of_register(out, asked, book, register, command, answer)?
            }
        };
    }
    Ok(understood)
}

impl RegisterConsole {
    /// Begins a register over the book and keeps it to the end of the script; where `begin` is refused, none stands.
    fn begin<B: Book, W: Write>(
        &self,
        out: &mut W,
        rest: Script,
        asked: Asked,
        book: &B,
        sizes: Beginning,
    ) -> anyhow::Result<ControlFlow<bool, bool>> {
        let mut register = Register::new(self.heap, book.resources(), sizes)?;
        let answer = register.begin(sizes.date);
        tell(out, asked, answer)?;
        if answer.is_err() {
            return Ok(ControlFlow::Continue(true));
        }
        Ok(ControlFlow::Break(keep(out, rest, book, &mut register)?))
    }
}

impl Console for RegisterConsole {
    type Command = Command;

    fn needs_book(&self, command: Command) -> bool {
        matches!(
            command,
            Command::Book(script::Command::Hold(_) | script::Command::Move(_)) | Command::Begin(_)
        )
    }

    fn prepare<W: Write>(
        &self,
        out: &mut W,
        asked: Asked,
        chosen: &mut Option<BookChoice>,
        amounts: &mut [u64],
        command: Command,
    ) -> io::Result<bool> {
        tell(out, asked, prepare(chosen, amounts, command))
    }

    fn obey<B: Book, W: Write>(
        &self,
        out: &mut W,
        asked: Asked,
        book: &mut Holdback<B>,
        command: Command,
    ) -> io::Result<bool> {
        let understood = if let Command::Book(script::Command::Show) = command {
            show_book(out, asked.number, book)?;
            true
        } else {
            tell(out, asked, obey(book, command))?
        };
        Ok(understood)
    }

    fn takes_over(&self, command: Command) -> bool {
        matches!(command, Command::Begin(_))
    }

    fn take_over<B: Book, W: Write>(
        &self,
        out: &mut W,
        rest: Script,
        asked: Asked,
        book: &mut Holdback<B>,
        command: Command,
    ) -> anyhow::Result<ControlFlow<bool, bool>> {
        if let Command::Begin(sizes) = command {
            return self.begin(out, rest, asked, book, sizes);
        }
        Ok(ControlFlow::Continue(self.obey(out, asked, book, command)?))
    }
}
