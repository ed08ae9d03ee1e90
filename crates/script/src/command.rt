//! Commands, and the words that are read into one.
ghost use Rattle.std.specs.Prelude.{◌≡◌};
ghost use Rattle.text.specs.Readers.{left_of};
ghost use Rattle.script.specs.Commands.{choice_in, holding_in, movement_in, fields_in, command_in};

use crate::verb::Verb;
use book::Movement;
use text::{FromWord, FromWords, Reader};

#[derive(Clone, Copy)]
pub enum BookKind {
    Grid,
    Journal,
}

/// A book by its sizes, with its movements or postings.
#[derive(Clone, Copy)]
pub struct BookChoice {
    pub kind: BookKind,
    pub accounts: u32,
    pub resources: u32,
    pub count: u64,
}

/// A quantity of an account in a resource.
#[derive(Clone, Copy)]
pub struct Holding {
    pub account: u32,
    pub resource: u32,
    pub quantity: u64,
}

#[derive(Clone, Copy)]
pub enum Command {
    Choose(BookChoice),
    Amount(Holding),
    Hold(Holding),
    Move(Movement),
    Show,
}

fn read_choice(kind: BookKind, reader: &mut Reader) -> Option<BookChoice>
    ensures { result ≡ choice_in kind (left_of reader.old) }
{
    let accounts = reader.field()?;
    let resources = reader.field()?;
    let count = reader.field()?;
    reader.whole(BookChoice {
        kind,
        accounts,
        resources,
        count,
    })
}

fn read_holding(reader: &mut Reader) -> Option<Holding>
    ensures { result ≡ holding_in (left_of reader.old) }
{
    let account = reader.field()?;
    let resource = reader.field()?;
    let quantity = reader.field()?;
    reader.whole(Holding {
        account,
        resource,
        quantity,
    })
}

fn read_movement(reader: &mut Reader) -> Option<Movement>
    ensures { result ≡ movement_in (left_of reader.old) }
{
    let from = reader.field()?;
    let to = reader.field()?;
    let resource = reader.field()?;
    let quantity = reader.field()?;
    reader.whole(Movement {
        from,
        to,
        resource,
        quantity,
    })
}

impl Verb {
    /// The command that begins with this word and goes on with those behind it.
    pub fn command(self, reader: &mut Reader) -> Option<Command>
        ensures { result ≡ fields_in self (left_of reader.old) }
    {
        match self {
            Verb::Grid => read_choice(BookKind::Grid, reader).map(Command::Choose),
            Verb::Journal => read_choice(BookKind::Journal, reader).map(Command::Choose),
            Verb::Amount => read_holding(reader).map(Command::Amount),
            Verb::Hold => read_holding(reader).map(Command::Hold),
            Verb::Move => read_movement(reader).map(Command::Move),
            Verb::Show => reader.whole(Command::Show),
        }
    }
}

impl FromWords for Command {
    ghost said_by = { command_in };

    fn from_words(word: &[u8], reader: &mut Reader) -> Option<Command> {
        Verb::from_word(word)?.command(reader)
    }
}
