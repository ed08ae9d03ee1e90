//! Why the front panel does not answer.
ghost use Rattle.std.specs.Prelude.{◌≡◌};
ghost use Rattle.panel.specs.Asking.{number_of};
ghost use Rattle.panel.specs.declared.refusal.PanelRefusal.TheVariants.{Broken};

use memory::Fault;

#[derive(Clone, Copy, PartialEq, Eq, Debug)]
pub enum PanelRefusal {
    /// The register breaks a rule.
    Broken(Fault),
    /// An account or a security that the book does not have.
    Outside,
}

impl PanelRefusal {
    pub fn number(self) -> u32
        ensures { result ≡ number_of self }
    {
        // One variant carries a fault, so the number is no discriminant.
        match self {
            PanelRefusal::Broken(_) => 1,
            PanelRefusal::Outside => 41,
        }
    }
}

impl From<Fault> for PanelRefusal {
    ghost from_gives = { λ fault r. r ≡ Broken fault };

    fn from(fault: Fault) -> PanelRefusal {
        PanelRefusal::Broken(fault)
    }
}
