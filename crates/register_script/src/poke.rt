//! Writing into the lent memory: a field of the head or of a row, and its value.
ghost use Rattle.std.specs.Prelude.{◌≡◌, IfSome};
ghost use Rattle.text.specs.Readers.{left_of};
ghost use Rattle.text.specs.Saying.{past};
ghost use Rattle.register_script.specs.Pokes.{head_field, deal_field, line_field, target_in, words_to, poke_in};

use text::{FromWord, Reader};

#[derive(Clone, Copy)]
pub enum HeadField {
    Date,
    NextDeal,
    NextReturn,
    Deals,
    Lines,
}

#[derive(Clone, Copy)]
pub enum DealField {
    Number,
    Giver,
    Taker,
    Class,
    Margin,
    Sought,
    Rate,
    Return,
    Cash,
    Whole,
    Residue,
}

#[derive(Clone, Copy)]
pub enum LineField {
    Number,
    Deal,
    Security,
    Quantity,
    Part,
}

/// A field of the head, or of the row at a place of a table.
#[derive(Clone, Copy)]
pub enum Target {
    Head(HeadField),
    Deal(usize, DealField),
    Line(usize, LineField),
}

#[derive(Clone, Copy)]
pub struct Poke {
    pub target: Target,
    pub value: u64,
}

impl FromWord for HeadField {
    ghost named_by = { head_field };

    fn from_word(word: &[u8]) -> Option<HeadField> {
        match word {
            b"date" => Some(HeadField::Date),
            b"next_deal" => Some(HeadField::NextDeal),
            b"next_return" => Some(HeadField::NextReturn),
            b"deals" => Some(HeadField::Deals),
            b"lines" => Some(HeadField::Lines),
            _ => None,
        }
    }
}

impl FromWord for DealField {
    ghost named_by = { deal_field };

    fn from_word(word: &[u8]) -> Option<DealField> {
        match word {
            b"number" => Some(DealField::Number),
            b"giver" => Some(DealField::Giver),
            b"taker" => Some(DealField::Taker),
            b"class" => Some(DealField::Class),
            b"margin" => Some(DealField::Margin),
            b"sought" => Some(DealField::Sought),
            b"rate" => Some(DealField::Rate),
            b"return" => Some(DealField::Return),
            b"cash" => Some(DealField::Cash),
            b"whole" => Some(DealField::Whole),
            b"residue" => Some(DealField::Residue),
            _ => None,
        }
    }
}

impl FromWord for LineField {
    ghost named_by = { line_field };

    fn from_word(word: &[u8]) -> Option<LineField> {
        match word {
            b"number" => Some(LineField::Number),
            b"deal" => Some(LineField::Deal),
            b"security" => Some(LineField::Security),
            b"quantity" => Some(LineField::Quantity),
            b"part" => Some(LineField::Part),
            _ => None,
        }
    }
}

/// The table, a row of it where it is none of one row, and a field.
fn read_target(reader: &mut Reader) -> Option<Target>
    ensures answer { result ≡ target_in (left_of reader.old) }
    ensures left { IfSome result (λ target. left_of reader.new ≡ past (words_to target) (left_of reader.old)) }
{
    match reader.word() {
        b"head" => Some(Target::Head(reader.field()?)),
        b"deal" => Some(Target::Deal(reader.field()?, reader.field()?)),
        b"line" => Some(Target::Line(reader.field()?, reader.field()?)),
        _ => None,
    }
}

pub(crate) fn read_poke(reader: &mut Reader) -> Option<Poke>
    ensures { result ≡ poke_in (left_of reader.old) }
{
    let target = read_target(reader)?;
    let value = reader.field()?;
    reader.whole(Poke { target, value })
}
