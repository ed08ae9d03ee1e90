//! What holds of every sharing and of every accrual. Each function answers true, and is proved only where its law is.
ghost use Rattle.std.specs.Prelude.{◌≡◌, true};
ghost use Rattle.sharing.specs.AccrualLaw.{AccrualLaw, AccrualFigures};
ghost use Rattle.sharing.specs.PartsLaw.{PartsLaw, PartsFigures};

#[tactic(auto, using(crate::proofs::Telescope::parts_law, crate::proofs::Telescope::parts_figures))]
fn parts_stand() -> bool
    ensures answer { result ≡ true }
    ensures law { PartsLaw }
    ensures figures { PartsFigures }
{
    true
}

#[tactic(auto, using(crate::proofs::Accruing::accrual_law, crate::proofs::Accruing::accrual_figures))]
fn accrual_stands() -> bool
    ensures answer { result ≡ true }
    ensures law { AccrualLaw }
    ensures figures { AccrualFigures }
{
    true
}

/// The laws of parts and of interest, with worked figures.
pub fn laws_stand() -> bool
    ensures answer { result ≡ true }
    ensures parts { (PartsLaw) × (PartsFigures) }
    ensures accrual { (AccrualLaw) × (AccrualFigures) }
{
    let parts = parts_stand();
    let accrual = accrual_stands();
    parts && accrual
}
