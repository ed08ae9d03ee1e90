//! The theorems. Each function answers true, and is proved only where what it says is.
ghost use Rattle.std.specs.Prelude.{◌≡◌, true};
ghost use Rattle.law.specs.Figures.{WorkedDeal};
ghost use Rattle.law.specs.Life.{LifeSlips, LifeRefusals};
ghost use Rattle.law.specs.Theorems.{EveryPastAgrees, EveryPastIsSound, EveryPanelTells, EveryPastConserves, EveryPastIsBounded, SettleCovers, MarkCovers, SubstituteCovers};

fn pasts_agree() -> bool
    ensures answer { result ≡ true }
    ensures agree { EveryPastAgrees }
    ensures panel { EveryPanelTells }
{
    true
}

fn pasts_are_sound() -> bool
    ensures answer { result ≡ true }
    ensures sound { EveryPastIsSound }
    ensures conserved { EveryPastConserves }
    ensures bounded { EveryPastIsBounded }
{
    true
}

/// Whatever calls a register underwent: its rows, its book and its panel agree with the slips of its history, no rule is
/// broken, nothing is made or lost in the book, and no bound is passed.
pub fn every_past_keeps() -> bool
    ensures answer { result ≡ true }
    ensures agree { EveryPastAgrees }
    ensures sound { EveryPastIsSound }
    ensures panel { EveryPanelTells }
    ensures conserved { EveryPastConserves }
    ensures bounded { EveryPastIsBounded }
{
    let agree = pasts_agree();
    let sound = pasts_are_sound();
    agree && sound
}

fn deliveries_cover() -> bool
    ensures answer { result ≡ true }
    ensures settle { SettleCovers }
    ensures mark { MarkCovers }
    ensures substitute { SubstituteCovers }
{
    true
}

fn worked_deal_stands() -> bool
    ensures answer { result ≡ true }
    ensures figures { WorkedDeal }
    ensures slips { LifeSlips }
    ensures refusals { LifeRefusals }
{
    true
}

/// What a settle, a mark and a substitute that are accepted come to; a deal worked through; and a deal lived through,
/// with every slip, and each condition met by itself.
pub fn calls_achieve() -> bool
    ensures answer { result ≡ true }
    ensures settle { SettleCovers }
    ensures mark { MarkCovers }
    ensures substitute { SubstituteCovers }
    ensures figures { WorkedDeal }
    ensures slips { LifeSlips }
    ensures refusals { LifeRefusals }
{
    let covers = deliveries_cover();
    let worked = worked_deal_stands();
    covers && worked
}
