//! What the definitions that the contracts cite come to.
ghost use Rattle.std.specs.Prelude.{◌≡◌, true};
ghost use Rattle.valuation.specs.Stands.{Largest, Smallest, Faults, Rounded, Figures};

/// The largest and the smallest that a search finds, the first fault of a price list and a target's rounding
/// are what these words say, and the worked figures hold.
#[tactic(auto, using(crate::proofs::Bests::largest_is, crate::proofs::Bests::smallest_is, crate::proofs::Faults::faults))]
pub fn definitions_stand() -> bool
    ensures answer { result ≡ true }
    ensures largest { Largest }
    ensures smallest { Smallest }
    ensures faults { Faults }
    ensures rounded { Rounded }
    ensures figures { Figures }
{
    true
}
