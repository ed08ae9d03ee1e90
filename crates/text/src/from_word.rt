//! What a word says, by the type that is asked for.
ghost use Rattle.std.specs.Prelude.{◌≡◌, ℕ, List};
ghost use Rattle.std.specs.declared.option.Option.{Option};

/// A type that a word can name a value of.
pub trait FromWord: Sized {
    // The value that a word names.
    ghost named_by: { List ℕ → Option Self };

    fn from_word(word: &[u8]) -> Option<Self>
        ensures { result ≡ named_by word.now };
}
