//! The words of a line, read into a command.
ghost use Rattle.std.specs.Prelude.{◌≡◌};
ghost use Rattle.text.specs.Readers.{left_of};
ghost use Rattle.register_script.specs.Commands.{register_in, command_in};

use crate::beginning::read_beginning;
use crate::call::read_call;
use crate::command::{Command, RegisterCommand};
use crate::poke::read_poke;
use crate::stating::{read_quotation, read_terms};
use crate::verb::{CallVerb, RegisterVerb};
use text::{FromWord, FromWords, Reader};

fn read_register(verb: RegisterVerb, reader: &mut Reader) -> Option<RegisterCommand>
    ensures { result ≡ register_in verb (left_of reader.old) }
{
    match verb {
        RegisterVerb::Price => read_quotation(reader).map(RegisterCommand::Price),
        RegisterVerb::Giver => read_terms(reader).map(RegisterCommand::Giver),
        RegisterVerb::Taker => read_terms(reader).map(RegisterCommand::Taker),
        RegisterVerb::Match => reader.whole(RegisterCommand::Match),
        RegisterVerb::Withdraw => reader.whole(RegisterCommand::Withdraw),
        RegisterVerb::Panel => {
            let account = reader.field()?;
            reader.whole(RegisterCommand::Panel(account))
        }
        RegisterVerb::Poke => read_poke(reader).map(RegisterCommand::Poke),
    }
}

impl FromWords for Command {
    ghost said_by = { command_in };

    fn from_words(word: &[u8], reader: &mut Reader) -> Option<Command> {
        if let b"begin" = word {
            return read_beginning(reader).map(Command::Begin);
        }
        if let Some(verb) = script::Verb::from_word(word) {
            return verb.command(reader).map(Command::Book);
        }
        if let Some(verb) = RegisterVerb::from_word(word) {
            return read_register(verb, reader).map(Command::Register);
        }
        let call = read_call(CallVerb::from_word(word)?, reader)?;
        Some(Command::Register(RegisterCommand::Call(call)))
    }
}
