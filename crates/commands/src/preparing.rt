//! The commands before the book is made.
ghost use Rattle.std.specs.Prelude.{◌≡◌, length};
ghost use Rattle.commands.specs.Preparing.{prepared_answer, prepared_choice, prepared_amounts};

use crate::unobeyed::Unobeyed;
use register_script::Command;
use script::BookChoice;

/// Carries out a command that stands before the book is made.
pub fn prepare(
    chosen: &mut Option<BookChoice>,
    amounts: &mut [u64],
    command: Command,
) -> Result<(), Unobeyed>
    ensures answer { result ≡ prepared_answer chosen.old (length amounts.old) command }
    ensures choice { chosen.new ≡ prepared_choice chosen.old command }
    ensures amounts { amounts.new ≡ prepared_amounts chosen.old amounts.old command }
{
    match command {
        Command::Book(command) => Ok(booking::prepare(chosen, amounts, command)?),
        Command::Begin(_) | Command::Register(_) => Err(Unobeyed::Misplaced),
    }
}
