//! Writing into the lent memory as a faulty host would.
ghost use Rattle.std.specs.Prelude.{◌≡◌, ℕ};
ghost use Rattle.std.specs.declared.option.Option.{Option};
ghost use Rattle.std.specs.Option.{unwrap_or};
ghost use Rattle.commands.specs.Poking.{head_with, deal_with, line_with, row_with, written, done, poke_answer, poked_head, poked_deals, poked_lines};

use crate::unobeyed::Unobeyed;
use memory::{Deal, Head, Line};
use register_script::{DealField, HeadField, LineField, Poke, Target};

/// Memory of which each field can be written for itself.
trait Poked: Copy {
    type Field: Copy;

    // It with another value in a field, where the value fits.
    ghost with_field: { Self.Field → ℕ → Self → Option Self };

    fn with(self, field: Self::Field, value: u64) -> Option<Self>
        ensures { result ≡ with_field field value self };
}

impl Poked for Head {
    type Field = HeadField;

    ghost with_field = { head_with };

    fn with(mut self, field: HeadField, value: u64) -> Option<Head> {
        match field {
            HeadField::Date => self.date = u16::try_from(value).ok()?,
            HeadField::NextDeal => self.next.deal = u32::try_from(value).ok()?,
            HeadField::NextReturn => self.next.line = u32::try_from(value).ok()?,
            HeadField::Deals => self.used.deals = u32::try_from(value).ok()?,
            HeadField::Lines => self.used.lines = u32::try_from(value).ok()?,
        }
        Some(self)
    }
}

impl Poked for Deal {
    type Field = DealField;

    ghost with_field = { deal_with };

    fn with(mut self, field: DealField, value: u64) -> Option<Deal> {
        match field {
            DealField::Number => self.number = u32::try_from(value).ok()?,
            DealField::Giver => self.giver = u32::try_from(value).ok()?,
            DealField::Taker => self.taker = u32::try_from(value).ok()?,
            DealField::Class => self.class = u16::try_from(value).ok()?,
            DealField::Margin => self.margin = u16::try_from(value).ok()?,
            DealField::Sought => self.sought = value,
            DealField::Rate => self.rate = u32::try_from(value).ok()?,
            DealField::Return => self.due = u16::try_from(value).ok()?,
            DealField::Cash => self.cash = value,
            DealField::Whole => self.whole = value,
            DealField::Residue => self.residue = value,
        }
        Some(self)
    }
}

impl Poked for Line {
    type Field = LineField;

    ghost with_field = { line_with };

    fn with(mut self, field: LineField, value: u64) -> Option<Line> {
        match field {
            LineField::Number => self.number = u32::try_from(value).ok()?,
            LineField::Deal => self.deal = u32::try_from(value).ok()?,
            LineField::Security => self.security = u32::try_from(value).ok()?,
            LineField::Quantity => self.quantity = value,
            LineField::Part => self.part = value,
        }
        Some(self)
    }
}

fn poke_head(head: &mut Head, field: HeadField, value: u64) -> Result<(), Unobeyed>
    ensures answer { result ≡ done (head_with field value head.old) }
    ensures change { head.new ≡ unwrap_or (head_with field value head.old) head.old }
{
    *head = head.with(field, value).ok_or(Unobeyed::Misplaced)?;
    Ok(())
}

fn poke_row<R: Poked>(
    rows: &mut [R],
    row: usize,
    field: R::Field,
    value: u64,
) -> Result<(), Unobeyed>
    ensures answer { result ≡ done (row_with (R.with_field field value) row rows.old) }
    ensures change { rows.new ≡ written (row_with (R.with_field field value) row rows.old) row rows.old }
{
    let standing = rows.get(row).ok_or(Unobeyed::Misplaced)?;
    // With `get_mut`, what the rows become stays open.
    rows[row] = standing.with(field, value).ok_or(Unobeyed::Misplaced)?;
    Ok(())
}

/// Writes a value into a field; not understood past a table, or where the value does not fit.
pub(crate) fn poke(
    head: &mut Head,
    deals: &mut [Deal],
    lines: &mut [Line],
    poke: Poke,
) -> Result<(), Unobeyed>
    ensures answer { result ≡ poke_answer poke.target poke.value head.old deals.old lines.old }
    ensures head { head.new ≡ poked_head poke.target poke.value head.old }
    ensures deals { deals.new ≡ poked_deals poke.target poke.value deals.old }
    ensures lines { lines.new ≡ poked_lines poke.target poke.value lines.old }
{
    match poke.target {
        Target::Head(field) => poke_head(head, field, poke.value),
        Target::Deal(row, field) => poke_row(deals, row, field, poke.value),
        Target::Line(row, field) => poke_row(lines, row, field, poke.value),
    }
}
