//! What a console makes of the commands of its language.
use crate::output::Asked;
use book::Book;
use books::Holdback;
use script::BookChoice;
use std::io;
use std::io::Write;
use std::ops::ControlFlow;
use text::{FromWords, Script};

pub trait Console {
    type Command: FromWords + Copy;

    /// Whether a command waits for the book, once one is chosen.
    fn needs_book(&self, command: Self::Command) -> bool;

    /// Carries out a command before the book is made, and writes what came of it; whether it was understood.
    fn prepare<W: Write>(
        &self,
        out: &mut W,
        asked: Asked,
        chosen: &mut Option<BookChoice>,
        amounts: &mut [u64],
        command: Self::Command,
    ) -> io::Result<bool>;

    /// Carries out a command on the book, and writes what came of it; whether it was understood.
    fn obey<B: Book, W: Write>(
        &self,
        out: &mut W,
        asked: Asked,
        book: &mut Holdback<B>,
        command: Self::Command,
    ) -> io::Result<bool>;

    /// Whether a command may carry out the rest of the script: it goes to `take_over` then, and to `obey` otherwise.
    /// The result of `take_over` is large and is cleared at each call, which every line would pay for.
    fn takes_over(&self, _command: Self::Command) -> bool {
        false
    }

    /// Carries out a command on the book, and writes what came of it. Whether it was understood, and, where it carried
    /// out the rest of the script, whether each line of that was.
    fn take_over<B: Book, W: Write>(
        &self,
        out: &mut W,
        _rest: Script,
        asked: Asked,
        book: &mut Holdback<B>,
        command: Self::Command,
    ) -> anyhow::Result<ControlFlow<bool, bool>> {
        Ok(ControlFlow::Continue(self.obey(out, asked, book, command)?))
    }
}
