//! The first word of a command.
ghost use Rattle.script.specs.Verbs.{verb_of};

use text::FromWord;

#[derive(Clone, Copy)]
pub enum Verb {
    Grid,
    Journal,
    Amount,
    Hold,
    Move,
    Show,
}

impl FromWord for Verb {
    ghost named_by = { verb_of };

    fn from_word(word: &[u8]) -> Option<Verb> {
        match word {
            b"grid" => Some(Verb::Grid),
            b"journal" => Some(Verb::Journal),
            b"amount" => Some(Verb::Amount),
            b"hold" => Some(Verb::Hold),
            b"move" => Some(Verb::Move),
            b"show" => Some(Verb::Show),
            _ => None,
        }
    }
}
