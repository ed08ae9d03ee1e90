//! What a command does to the book, before a register stands over it.
ghost use Rattle.std.specs.Prelude.{◌≡◌};
ghost use Rattle.books.specs.Holding.{layered};
ghost use Rattle.commands.specs.Obeying.{answer_to, meaning_after};

use crate::unobeyed::Unobeyed;
use book::Book;
use books::Holdback;
use register_script::Command;

/// Carries out a command on the book.
pub fn obey<B: Book>(book: &mut Holdback<B>, command: Command) -> Result<(), Unobeyed>
    ensures answer { result ≡ answer_to (B.Book.meaning book.old.below) book.old.rows command }
    ensures change { layered (B.Book.meaning book.new.below) book.new.rows ≡ meaning_after (B.Book.meaning book.old.below) book.old.rows command }
{
    match command {
        Command::Book(command) => Ok(booking::obey(book, command)?),
        Command::Begin(_) | Command::Register(_) => Err(Unobeyed::Misplaced),
    }
}
