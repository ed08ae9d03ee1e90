//! Why the register refuses.
ghost use Rattle.std.specs.Prelude.{◌≡◌};
ghost use Rattle.sides.specs.Refusals.{number_of};
ghost use Rattle.sides.specs.declared.refusal.Refusal.TheVariants.{Broken, Book};

use book::RefusedAt;
use memory::Fault;

#[derive(Clone, Copy, PartialEq, Eq, Debug)]
pub enum Refusal {
    /// The register or the price list breaks a rule.
    Broken(Fault),
    /// Not in this phase.
    WrongPhase,
    /// No deal or line of that number stands.
    NotStanding,
    /// A stated field is out of its range.
    OutOfRange,
    /// The sides differ.
    SidesDiffer,
    /// The pair's day is not the date.
    OtherDay,
    /// An account is not in the book.
    NoAccount,
    /// Not due yet, or already due.
    ReturnDay,
    /// Lines stand.
    LinesStand,
    /// Gathering fails, or a replacement is not eligible, or is beyond 10^9 or the free amount.
    NoSecurities,
    /// A table is too short for the rows after the call.
    NoRows,
    /// A next number would pass its limit.
    NoNumbers,
    /// The slip list is too short.
    NoSlips,
    /// The book would refuse a movement.
    Book(RefusedAt),
}

impl Refusal {
    pub fn number(&self) -> u32
        ensures { result ≡ number_of self.now }
    {
        // Two variants carry what was found, so the number is no discriminant.
        match self {
            Refusal::Broken(_) => 1,
            Refusal::WrongPhase => 2,
            Refusal::NotStanding => 3,
            Refusal::OutOfRange => 4,
            Refusal::SidesDiffer => 5,
            Refusal::OtherDay => 6,
            Refusal::NoAccount => 7,
            Refusal::ReturnDay => 8,
            Refusal::LinesStand => 9,
            Refusal::NoSecurities => 10,
            Refusal::NoRows => 11,
            Refusal::NoNumbers => 12,
            Refusal::NoSlips => 13,
            Refusal::Book(_) => 14,
        }
    }
}

impl From<Fault> for Refusal {
    ghost from_gives = { λ fault r. r ≡ Broken fault };

    fn from(fault: Fault) -> Refusal {
        Refusal::Broken(fault)
    }
}

impl From<RefusedAt> for Refusal {
    ghost from_gives = { λ refused r. r ≡ Book refused };

    fn from(refused: RefusedAt) -> Refusal {
        Refusal::Book(refused)
    }
}
