//! What the two sides of a deal state.
ghost use Rattle.std.specs.Prelude.{◌≡◌};
ghost use Rattle.sides.specs.Ranges.{parties_fit, margin_fits, amounts_fit, due_fits, terms_fit};

use memory::Weighing;
use valuation::Currency;

#[derive(Clone, Copy, PartialEq, Eq, Debug)]
pub struct Terms {
    pub day: u16,
    pub giver: u32,
    pub taker: u32,
    pub currency: Currency,
    /// Bit k admits category k.
    pub class: u16,
    pub weighing: Weighing,
    /// Hundredths of a percent; 0 with haircut.
    pub margin: u16,
    /// The value sought.
    pub sought: u64,
    /// 0 is free of payment.
    pub cash: u64,
    /// Millionths a year.
    pub rate: u32,
    /// The return day.
    pub due: u16,
    /// Whether the concentration limit holds.
    pub limit: bool,
}

impl Terms {
    fn parties_fit(&self) -> bool
        ensures { result ≡ parties_fit self.now }
    {
        self.giver <= 63 && self.taker <= 63 && self.giver != self.taker
    }

    fn margin_fits(&self) -> bool
        ensures { result ≡ margin_fits self.now }
    {
        self.weighing.admits_margin(self.margin)
    }

    fn amounts_fit(&self) -> bool
        ensures { result ≡ amounts_fit self.now }
    {
        self.sought >= 1
            && self.sought <= 1_000_000_000_000
            && self.cash <= 1_000_000_000_000
            && self.rate <= 200_000
    }

    fn due_fits(&self) -> bool
        ensures { result ≡ due_fits self.now }
    {
        self.due > self.day && self.due - self.day <= 730
    }

    /// Whether every field is in its range.
    #[tactic(auto, unfolding(crate::specs::Ranges::terms_fit))]
    pub(crate) fn fit(&self) -> bool
        ensures { result ≡ terms_fit self.now }
    {
        self.parties_fit() && self.margin_fits() && self.amounts_fit() && self.due_fits()
    }
}
