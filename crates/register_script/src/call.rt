//! The register's calls.
ghost use Rattle.std.specs.Prelude.{◌≡◌};
ghost use Rattle.text.specs.Readers.{left_of};
ghost use Rattle.register_script.specs.Calls.{substitution_in, amendment_in, call_in};

use crate::verb::CallVerb;
use text::Reader;

/// A quantity of a line that another security comes in for.
#[derive(Clone, Copy)]
pub struct Substitution {
    pub number: u32,
    pub quantity: u64,
    pub security: u32,
}

/// A deal with another rate and return day.
#[derive(Clone, Copy)]
pub struct Amendment {
    pub deal: u32,
    pub rate: u32,
    pub due: u16,
}

#[derive(Clone, Copy)]
pub enum Call {
    Settle,
    Return(u32),
    Substitute(Substitution),
    Amend(Amendment),
    Open,
    Mark(u32),
    Close(u16),
    Lift,
    Pay(u32),
}

fn read_substitution(reader: &mut Reader) -> Option<Substitution>
    ensures { result ≡ substitution_in (left_of reader.old) }
{
    let number = reader.field()?;
    let quantity = reader.field()?;
    let security = reader.field()?;
    reader.whole(Substitution {
        number,
        quantity,
        security,
    })
}

fn read_amendment(reader: &mut Reader) -> Option<Amendment>
    ensures { result ≡ amendment_in (left_of reader.old) }
{
    let deal = reader.field()?;
    let rate = reader.field()?;
    let due = reader.field()?;
    reader.whole(Amendment { deal, rate, due })
}

pub(crate) fn read_call(verb: CallVerb, reader: &mut Reader) -> Option<Call>
    ensures { result ≡ call_in verb (left_of reader.old) }
{
    match verb {
        CallVerb::Settle => reader.whole(Call::Settle),
        CallVerb::Return => {
            let number = reader.field()?;
            reader.whole(Call::Return(number))
        }
        CallVerb::Substitute => read_substitution(reader).map(Call::Substitute),
        CallVerb::Amend => read_amendment(reader).map(Call::Amend),
        CallVerb::Open => reader.whole(Call::Open),
        CallVerb::Mark => {
            let deal = reader.field()?;
            reader.whole(Call::Mark(deal))
        }
        CallVerb::Close => {
            let date = reader.field()?;
            reader.whole(Call::Close(date))
        }
        CallVerb::Lift => reader.whole(Call::Lift),
        CallVerb::Pay => {
            let deal = reader.field()?;
            reader.whole(Call::Pay(deal))
        }
    }
}
