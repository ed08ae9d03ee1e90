//! Why a command does nothing.
ghost use Rattle.std.specs.Prelude.{◌≡◌};
ghost use Rattle.commands.specs.declared.unobeyed.Unobeyed.TheVariants.{ByRegister};
ghost use Rattle.commands.specs.Answers.{by_book, by_fault, by_panel};

use book::BookRefusal;
use memory::Fault;
use panel::PanelRefusal;
use sides::Refusal;

#[derive(Clone, Copy)]
pub enum Unobeyed {
    /// The book refuses.
    ByBook(BookRefusal),
    /// The register refuses.
    ByRegister(Refusal),
    /// The command cannot stand here.
    Misplaced,
}

impl From<booking::Unobeyed> for Unobeyed {
    ghost from_gives = { λ reason result. result ≡ by_book reason };

    fn from(reason: booking::Unobeyed) -> Unobeyed {
        match reason {
            booking::Unobeyed::Refused(refusal) => Unobeyed::ByBook(refusal),
            booking::Unobeyed::Misplaced => Unobeyed::Misplaced,
        }
    }
}

impl From<Refusal> for Unobeyed {
    ghost from_gives = { λ refusal result. result ≡ ByRegister refusal };

    fn from(refusal: Refusal) -> Unobeyed {
        Unobeyed::ByRegister(refusal)
    }
}

impl From<Fault> for Unobeyed {
    ghost from_gives = { λ fault result. result ≡ by_fault fault };

    fn from(fault: Fault) -> Unobeyed {
        Unobeyed::ByRegister(Refusal::Broken(fault))
    }
}

impl From<PanelRefusal> for Unobeyed {
    ghost from_gives = { λ refusal result. result ≡ by_panel refusal };

    fn from(refusal: PanelRefusal) -> Unobeyed {
        match refusal {
            PanelRefusal::Broken(fault) => Unobeyed::from(fault),
            PanelRefusal::Outside => Unobeyed::ByBook(BookRefusal::Outside),
        }
    }
}
