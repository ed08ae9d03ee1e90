//! A line of a script, read into what it says.
ghost use Rattle.std.specs.Prelude.{◌≡◌, ℕ, List};
ghost use Rattle.std.specs.declared.option.Option.{Option};
ghost use Rattle.text.specs.Saying.{line_of};
ghost use Rattle.text.specs.Readers.{left_of};

use crate::reader::Reader;

/// A type that the words of a line can say a value of.
pub trait FromWords: Sized {
    // The value that a first word says with what is left behind it.
    ghost said_by: { List ℕ → List ℕ → Option Self };

    fn from_words(word: &[u8], reader: &mut Reader) -> Option<Self>
        ensures { result ≡ said_by word.now (left_of reader.old) };
}

/// A line of which the words say nothing.
#[derive(Clone, Copy, PartialEq, Eq, Debug)]
pub struct Unread;

/// Reads a line of a script; nothing where no word stands on it.
pub fn read_line<C: FromWords>(line: &[u8]) -> Result<Option<C>, Unread>
    ensures { result ≡ line_of C.said_by line.now }
{
    let mut reader = Reader::over(line);
    let word = reader.word();
    if word.is_empty() {
        return Ok(None);
    }
    C::from_words(word, &mut reader).map(Some).ok_or(Unread)
}
