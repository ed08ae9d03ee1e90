//! The first words of commands to a register.
ghost use Rattle.register_script.specs.Verbs.{register_verb, call_verb};

use text::FromWord;

#[derive(Clone, Copy)]
pub(crate) enum RegisterVerb {
    Price,
    Giver,
    Taker,
    Match,
    Withdraw,
    Panel,
    Poke,
}

#[derive(Clone, Copy)]
pub(crate) enum CallVerb {
    Settle,
    Return,
    Substitute,
    Amend,
    Open,
    Mark,
    Close,
    Lift,
    Pay,
}

impl FromWord for RegisterVerb {
    ghost named_by = { register_verb };

    fn from_word(word: &[u8]) -> Option<RegisterVerb> {
        match word {
            b"price" => Some(RegisterVerb::Price),
            b"giver" => Some(RegisterVerb::Giver),
            b"taker" => Some(RegisterVerb::Taker),
            b"match" => Some(RegisterVerb::Match),
            b"withdraw" => Some(RegisterVerb::Withdraw),
            b"panel" => Some(RegisterVerb::Panel),
            b"poke" => Some(RegisterVerb::Poke),
            _ => None,
        }
    }
}

impl FromWord for CallVerb {
    ghost named_by = { call_verb };

    fn from_word(word: &[u8]) -> Option<CallVerb> {
        match word {
            b"settle" => Some(CallVerb::Settle),
            b"return" => Some(CallVerb::Return),
            b"substitute" => Some(CallVerb::Substitute),
            b"amend" => Some(CallVerb::Amend),
            b"open" => Some(CallVerb::Open),
            b"mark" => Some(CallVerb::Mark),
            b"close" => Some(CallVerb::Close),
            b"lift" => Some(CallVerb::Lift),
            b"pay" => Some(CallVerb::Pay),
            _ => None,
        }
    }
}
