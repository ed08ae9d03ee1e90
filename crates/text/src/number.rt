//! Numbers in decimal digits.
ghost use Rattle.std.specs.Prelude.{◌≡◌};
ghost use Rattle.text.specs.Numbers.{with_digit, number_of, small_of, short_of, tiny_of};

use crate::from_word::FromWord;

/// The number that goes on with a digit, where the byte is one and the number stays below 2^64.
fn with_digit(number: u64, byte: u8) -> Option<u64>
    ensures { result ≡ with_digit number byte }
{
    if !byte.is_ascii_digit() {
        return None;
    }
    number.checked_mul(10)?.checked_add(u64::from(byte - b'0'))
}

/// The number that a word of decimal digits writes, where it is below 2^64.
impl FromWord for u64 {
    ghost named_by = { number_of };

    fn from_word(word: &[u8]) -> Option<u64> {
        if word.is_empty() {
            return None;
        }
        let mut number = 0;
        for &byte in word {
            number = with_digit(number, byte)?;
        }
        Some(number)
    }
}

impl FromWord for u32 {
    ghost named_by = { small_of };

    fn from_word(word: &[u8]) -> Option<u32> {
        u32::try_from(u64::from_word(word)?).ok()
    }
}

impl FromWord for u16 {
    ghost named_by = { short_of };

    fn from_word(word: &[u8]) -> Option<u16> {
        u16::try_from(u64::from_word(word)?).ok()
    }
}

impl FromWord for u8 {
    ghost named_by = { tiny_of };

    fn from_word(word: &[u8]) -> Option<u8> {
        u8::try_from(u64::from_word(word)?).ok()
    }
}

impl FromWord for usize {
    ghost named_by = { number_of };

    fn from_word(word: &[u8]) -> Option<usize> {
        usize::try_from(u64::from_word(word)?).ok()
    }
}
