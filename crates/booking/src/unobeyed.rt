//! Why a command does nothing.
ghost use Rattle.std.specs.Prelude.{◌≡◌};
ghost use Rattle.booking.specs.declared.unobeyed.Unobeyed.TheVariants.{Refused};

use book::BookRefusal;

#[derive(Clone, Copy)]
pub enum Unobeyed {
    /// The book refuses.
    Refused(BookRefusal),
    /// The command cannot stand here.
    Misplaced,
}

impl From<BookRefusal> for Unobeyed {
    ghost from_gives = { λ refusal result. result ≡ Refused refusal };

    fn from(refusal: BookRefusal) -> Unobeyed {
        Unobeyed::Refused(refusal)
    }
}
