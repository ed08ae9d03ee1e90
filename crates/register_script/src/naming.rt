//! Words that name a currency or a valuation.
ghost use Rattle.std.specs.Prelude.{◌≡◌};
ghost use Rattle.register_script.specs.Naming.{currency_of, weighing_of};

use memory::Weighing;
use valuation::Currency;

pub(crate) fn currency_of(word: &[u8]) -> Option<Currency>
    ensures { result ≡ currency_of word.now }
{
    match word {
        b"GBP" => Some(Currency::Gbp),
        b"EUR" => Some(Currency::Eur),
        b"USD" => Some(Currency::Usd),
        _ => None,
    }
}

pub(crate) fn weighing_of(word: &[u8]) -> Option<Weighing>
    ensures { result ≡ weighing_of word.now }
{
    match word {
        b"margin" => Some(Weighing::Margin),
        b"haircut" => Some(Weighing::Haircut),
        _ => None,
    }
}
