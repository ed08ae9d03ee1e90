//! The valuation of a deal, by margin or by haircut.
ghost use Rattle.std.specs.Prelude.{◌≡◌, ℕ, ◌≤◌};
ghost use Rattle.memory.specs.Valuers.{valuer_worth, valuer_target};
ghost use Rattle.valuation.specs.Worth.{market_value};
ghost use Rattle.valuation.specs.Bounds.{market_more, haircut_more, market_most, haircut_less};
ghost use Rattle.memory.specs.declared.valuer.Valuer.TheVariants.{Margin, Haircut};
ghost use Rattle.std.proofs.Common.{arith, rules};
ghost use Rattle.valuation.specs.Most.{most_units};

use valuation::{Haircut, Margin, Quote, Sought, Units, Valuation};

#[derive(Clone, Copy)]
pub enum Valuer {
    Margin(Margin),
    Haircut(Haircut),
}

impl Valuation for Valuer {
    ghost worth = { valuer_worth };

    ghost target = { valuer_target };

    ghost none = { Prim.search rules };

    ghost more = { elim [
      | Margin m ↦ λ p h a b le. market_more p a b le
      | Haircut c ↦ λ p h a b le. haircut_more h (market_value p a) (market_value p b) (market_more p a b le)
    ] };

    ghost most = { elim [
      | Margin m ↦ λ p h hp. market_most p most_units hp (omega arith)
      | Haircut c ↦ λ p h hp. omega (arith, haircut_less h (market_value p most_units), market_most p most_units hp (omega arith))
    ] };

    ghost enough = { Prim.search rules };

    fn value(&self, quote: Quote, quantity: Units) -> u64 {
        match self {
            Valuer::Margin(margin) => margin.value(quote, quantity),
            Valuer::Haircut(haircut) => haircut.value(quote, quantity),
        }
    }

    fn target_for(&self, sought: Sought) -> u64 {
        match self {
            Valuer::Margin(margin) => margin.target_for(sought),
            Valuer::Haircut(haircut) => haircut.target_for(sought),
        }
    }
}
