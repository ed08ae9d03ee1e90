//! The command that begins a register over a book.
ghost use Rattle.std.specs.Prelude.{◌≡◌};
ghost use Rattle.text.specs.Readers.{left_of};
ghost use Rattle.text.specs.Words.{rest};
ghost use Rattle.register_script.specs.Beginnings.{count, beginning_in};

use crate::command::Beginning;
use text::Reader;

/// A count of rows or places, at most 4,096.
fn read_count(reader: &mut Reader) -> Option<u32>
    ensures answer { result ≡ count (left_of reader.old) }
    ensures left { left_of reader.new ≡ rest (left_of reader.old) }
{
    reader.field().filter(|&count| count <= 4_096)
}

pub(crate) fn read_beginning(reader: &mut Reader) -> Option<Beginning>
    ensures { result ≡ beginning_in (left_of reader.old) }
{
    let date = reader.field()?;
    let deals = read_count(reader)?;
    let lines = read_count(reader)?;
    let slips = read_count(reader)?;
    reader.whole(Beginning {
        date,
        deals,
        lines,
        slips,
    })
}
