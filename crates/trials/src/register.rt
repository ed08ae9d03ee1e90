//! A sound register with fields at their limits, and the damage that a host may do to it.
use memory::{Deal, Head, Line, NO_DEAL, NO_LINE, Next, Phase, Used, Weighing};
use valuation::Currency;

pub(crate) const HEAD: Head = Head {
    date: 1,
    phase: Phase::Day,
    next: Next { deal: 10, line: 20 },
    used: Used { deals: 2, lines: 3 },
};

/// Two deals, the first with the least in its fields and the second with the most, and an unused row.
pub(crate) const DEALS: [Deal; 3] = [
    Deal {
        number: 1,
        giver: 0,
        taker: 1,
        currency: Currency::Gbp,
        class: 0,
        weighing: Weighing::Margin,
        margin: 0,
        sought: 1,
        rate: 0,
        due: 0,
        limit: false,
        cash: 5,
        whole: 0,
        residue: 0,
    },
    Deal {
        number: 9,
        giver: 3,
        taker: 2,
        currency: Currency::Usd,
        class: u16::MAX,
        weighing: Weighing::Haircut,
        margin: 0,
        sought: 1_000_000_000_000,
        rate: 200_000,
        due: u16::MAX,
        limit: true,
        cash: 1_000_000_000_000,
        whole: 600_000_000,
        residue: 359_999_999,
    },
    NO_DEAL,
];

/// Three lines and an unused row. The first and the third are of deal 1.
pub(crate) const LINES: [Line; 4] = [
    Line {
        number: 1,
        deal: 1,
        security: 3,
        quantity: 1,
        part: 2,
    },
    Line {
        number: 2,
        deal: 9,
        security: 5,
        quantity: 1_000_000_000,
        part: 1_000_000_000_000,
    },
    Line {
        number: 19,
        deal: 1,
        security: 4,
        quantity: 7,
        part: 3,
    },
    NO_LINE,
];

/// A value written into a field of the head.
#[derive(Clone, Copy)]
pub(crate) enum InHead {
    Date(u16),
    Phase(Phase),
    NextDeal(u32),
    NextLine(u32),
    Deals(u32),
    Lines(u32),
}

impl InHead {
    fn write(self, head: &mut Head) {
        match self {
            InHead::Date(date) => head.date = date,
            InHead::Phase(phase) => head.phase = phase,
            InHead::NextDeal(number) => head.next.deal = number,
            InHead::NextLine(number) => head.next.line = number,
            InHead::Deals(count) => head.used.deals = count,
            InHead::Lines(count) => head.used.lines = count,
        }
    }
}

/// A value written into a field of a deal.
#[derive(Clone, Copy)]
pub(crate) enum InDeal {
    Number(u32),
    Giver(u32),
    Taker(u32),
    Currency(Currency),
    Class(u16),
    Weighing(Weighing),
    Margin(u16),
    Sought(u64),
    Rate(u32),
    Due(u16),
    Limit(bool),
    Cash(u64),
    Whole(u64),
    Residue(u64),
}

impl InDeal {
    fn write(self, deal: &mut Deal) {
        match self {
            InDeal::Number(number) => deal.number = number,
            InDeal::Giver(giver) => deal.giver = giver,
            InDeal::Taker(taker) => deal.taker = taker,
            InDeal::Currency(currency) => deal.currency = currency,
            InDeal::Class(class) => deal.class = class,
            InDeal::Weighing(weighing) => deal.weighing = weighing,
            InDeal::Margin(margin) => deal.margin = margin,
            InDeal::Sought(sought) => deal.sought = sought,
            InDeal::Rate(rate) => deal.rate = rate,
            InDeal::Due(due) => deal.due = due,
            InDeal::Limit(limit) => deal.limit = limit,
            InDeal::Cash(cash) => deal.cash = cash,
            InDeal::Whole(whole) => deal.whole = whole,
            InDeal::Residue(residue) => deal.residue = residue,
        }
    }
}

/// A value written into a field of a line.
#[derive(Clone, Copy)]
pub(crate) enum InLine {
    Number(u32),
    Deal(u32),
    Security(u32),
    Quantity(u64),
    Part(u64),
}

impl InLine {
    fn write(self, line: &mut Line) {
        match self {
            InLine::Number(number) => line.number = number,
            InLine::Deal(deal) => line.deal = deal,
            InLine::Security(security) => line.security = security,
            InLine::Quantity(quantity) => line.quantity = quantity,
            InLine::Part(part) => line.part = part,
        }
    }
}

/// A value written into a field of the head, or of the row at a place.
#[derive(Clone, Copy)]
pub(crate) enum Damage {
    Head(InHead),
    Deal(usize, InDeal),
    Line(usize, InLine),
}

impl Damage {
    pub(crate) fn befall(self, head: &mut Head, deals: &mut [Deal], lines: &mut [Line]) {
        match self {
            Damage::Head(value) => value.write(head),
            Damage::Deal(row, value) => {
                if let Some(deal) = deals.get_mut(row) {
                    value.write(deal);
                }
            }
            Damage::Line(row, value) => {
                if let Some(line) = lines.get_mut(row) {
                    value.write(line);
                }
            }
        }
    }
}

/// What befalls the register, and the table and row of the first rule that is then broken.
pub(crate) type Case = (&'static [Damage], Option<(u32, usize)>);
