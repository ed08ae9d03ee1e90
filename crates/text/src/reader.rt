//! A line that is read word by word.
ghost use Rattle.std.specs.Prelude.{◌≡◌, not, position};
ghost use Rattle.text.specs.Numbers.{wholly};
ghost use Rattle.text.specs.Words.{blank, ending, next, rest};

use crate::from_word::FromWord;

fn is_blank(byte: u8) -> bool
    ensures { result ≡ blank byte }
{
    byte == b' ' || byte == b'\t'
}

fn ends_word(byte: u8) -> bool
    ensures { result ≡ ending byte }
{
    is_blank(byte) || byte == b'#'
}

/// Where the first byte stands that is no blank.
fn word_start(line: &[u8]) -> Option<usize>
    ensures { result ≡ position (λ byte. not (blank byte)) line.now }
{
    line.iter().position(|&byte| !is_blank(byte))
}

/// Where the first blank or comment stands.
fn word_end(line: &[u8]) -> Option<usize>
    ensures { result ≡ position ending line.now }
{
    line.iter().position(|&byte| ends_word(byte))
}

/// What of a line was not read yet.
#[derive(Drop)]
pub struct Reader<'a> {
    pub(crate) left: &'a [u8],
}

impl<'a> Reader<'a> {
    ghost use Rattle.text.specs.Readers.{left_of};

    pub fn over(line: &'a [u8]) -> Reader<'a>
        ensures { left_of result ≡ line.now }
    {
        Reader { left: line }
    }

    #[tactic(auto, using(crate::proofs::Places::place_within))]
    /// The next word; no bytes where none is left.
    // Inlined at each field of a command, its searches run out of registers.
    #[inline(never)]
    pub fn word(&mut self) -> &'a [u8]
        ensures word { result.now ≡ next (left_of self.old) }
        ensures left { left_of self.new ≡ rest (left_of self.old) }
    {
        let start = word_start(self.left).unwrap_or(self.left.len());
        let left = &self.left[start..];
        let end = word_end(left).unwrap_or(left.len());
        let (word, left) = left.split_at(end);
        self.left = left;
        word
    }

    /// What the next word says.
    pub fn field<T: FromWord>(&mut self) -> Option<T>
        ensures answer { result ≡ T.named_by (next (left_of self.old)) }
        ensures left { left_of self.new ≡ rest (left_of self.old) }
    {
        T::from_word(self.word())
    }

    /// The value, where no word is left.
    pub fn whole<X: Drop>(&mut self, value: X) -> Option<X>
        ensures { result ≡ wholly value (left_of self.old) }
    {
        if !self.word().is_empty() {
            return None;
        }
        Some(value)
    }
}
