//! A flag, `yes` or `no`.
ghost use Rattle.text.specs.Flags.{flag_of};

use crate::from_word::FromWord;

impl FromWord for bool {
    ghost named_by = { flag_of };

    fn from_word(word: &[u8]) -> Option<bool> {
        match word {
            b"yes" => Some(true),
            b"no" => Some(false),
            _ => None,
        }
    }
}
