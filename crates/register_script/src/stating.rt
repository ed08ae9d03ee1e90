//! What is stated of a security and of a deal.
ghost use Rattle.std.specs.Prelude.{◌≡◌};
ghost use Rattle.text.specs.Readers.{left_of};
ghost use Rattle.register_script.specs.Stating.{terms_in, quotation_in};

use crate::command::Quotation;
use crate::naming::{currency_of, weighing_of};
use sides::Terms;
use text::Reader;
use valuation::Price;

/// The twelve fields of a side, and no more.
pub(crate) fn read_terms(reader: &mut Reader) -> Option<Terms>
    ensures { result ≡ terms_in (left_of reader.old) }
{
    let day = reader.field()?;
    let giver = reader.field()?;
    let taker = reader.field()?;
    let currency = currency_of(reader.word())?;
    let class = reader.field()?;
    let weighing = weighing_of(reader.word())?;
    let margin = reader.field()?;
    let sought = reader.field()?;
    let cash = reader.field()?;
    let rate = reader.field()?;
    let due = reader.field()?;
    let limit = reader.field()?;
    reader.whole(Terms {
        day,
        giver,
        taker,
        currency,
        class,
        weighing,
        margin,
        sought,
        cash,
        rate,
        due,
        limit,
    })
}

/// A security and its record, and no more.
pub(crate) fn read_quotation(reader: &mut Reader) -> Option<Quotation>
    ensures { result ≡ quotation_in (left_of reader.old) }
{
    let security = reader.field()?;
    let category = reader.field()?;
    let excluded = reader.field()?;
    let haircut = reader.field()?;
    let gbp = reader.field()?;
    let eur = reader.field()?;
    let usd = reader.field()?;
    let price = Price {
        category,
        excluded,
        haircut,
        gbp,
        eur,
        usd,
    };
    reader.whole(Quotation { security, price })
}
