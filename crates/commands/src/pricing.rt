//! The price list.
ghost use Rattle.std.specs.Prelude.{◌≡◌, length};
ghost use Rattle.valuation.specs.Prices.{in_ranges};
ghost use Rattle.commands.specs.Pricing.{priced_answer, priced_after};

use crate::unobeyed::Unobeyed;
use register_script::Quotation;
use sides::Refusal;
use valuation::{Price, price_fault};

/// Whether a record is in its ranges: a list of it alone has no fault.
fn in_ranges(price: Price) -> bool
    ensures { result ≡ in_ranges price }
{
    price_fault(&[price], 4).is_none()
}

/// Replaces the record of a security; the list has one for each security from 3 on.
pub(crate) fn quote(prices: &mut [Price], quotation: Quotation) -> Result<(), Unobeyed>
    ensures answer { result ≡ priced_answer (length prices.old) quotation }
    ensures change { prices.new ≡ priced_after quotation prices.old }
{
    let Quotation { security, price } = quotation;
    let place = security.checked_sub(3).ok_or(Refusal::OutOfRange)? as usize;
    if place >= prices.len() || !in_ranges(price) {
        return Err(Refusal::OutOfRange.into());
    }
    // With `get_mut`, what the list becomes stays open.
    prices[place] = price;
    Ok(())
}
