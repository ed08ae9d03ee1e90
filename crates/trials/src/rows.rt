//! The start of a register, rows by their numbers, and what a deal's row answers.
use crate::register::{DEALS, HEAD, LINES};
use memory::{Deal, Head, NO_DEAL, NO_LINE, Register, Used, begin, find};
use valuation::{Currency, Price, Quote, Units, Valuation};

#[test]
fn a_fresh_register(rt: HostRuntime) {
    let mut head = HEAD;
    let mut deals = DEALS;
    let mut lines = LINES;
    assert!(rt; begin(&mut head, &mut deals, &mut lines, 7).is_ok());
    assert!(rt; head.date == 7 && head.phase.number() == 0);
    assert!(rt; head.next.deal == 1 && head.next.line == 1);
    assert!(rt; head.used.deals == 0 && head.used.lines == 0);
    assert!(rt; deals[1].cash == 0 && lines[2].part == 0);
    let register = Register {
        head: &head,
        deals: &deals,
        lines: &lines,
    };
    assert!(rt; register.check(0, 0).is_ok());
}

/// The table of a wrong length, and the date that then stands.
fn begun(deals: usize, lines: usize) -> (Option<(u32, usize)>, u16) {
    let mut head = HEAD;
    let mut deal_rows = [NO_DEAL; 65];
    let mut line_rows = [NO_LINE; 1025];
    let found = begin(
        &mut head,
        &mut deal_rows[0..deals.min(65)],
        &mut line_rows[0..lines.min(1_025)],
        7,
    );
    match found {
        Err(fault) => (Some((fault.table.number(), fault.row)), head.date),
        Ok(()) => (None, head.date),
    }
}

#[test]
fn lengths_at_the_start(rt: HostRuntime) {
    for (deals, lines, expected) in [
        (1, 1, (None, 7)),
        (64, 1_024, (None, 7)),
        (0, 1_025, (Some((1, 0)), 1)),
        (65, 1, (Some((1, 0)), 1)),
        (64, 0, (Some((2, 0)), 1)),
        (64, 1_025, (Some((2, 0)), 1)),
    ] {
        assert_eq!(rt; (deals, begun(deals, lines)), (deals, expected));
    }
}

#[test]
fn rows_by_number(rt: HostRuntime) {
    for (number, deal, line) in [
        (0, None, None),
        (1, Some(0), Some(0)),
        (2, None, Some(1)),
        (9, Some(1), None),
        (10, None, None),
        (19, None, Some(2)),
        (u32::MAX, None, None),
    ] {
        assert_eq!(rt; (number, find(&HEAD, &DEALS, number)), (number, deal));
        assert_eq!(rt; (number, find(&HEAD, &LINES, number)), (number, line));
    }
    let fewer = Head {
        used: Used { deals: 1, lines: 2 },
        ..HEAD
    };
    assert_eq!(rt; find(&fewer, &DEALS, 9), None);
    assert_eq!(rt; find(&fewer, &LINES, 19), None);
    assert_eq!(rt; find(&fewer, &LINES, 2), Some(1));
}

#[test]
fn standing_cash(rt: HostRuntime) {
    let mut deal = DEALS[0];
    assert!(rt; !deal.lower_cash(6) && deal.cash == 5);
    assert!(rt; deal.lower_cash(0) && deal.cash == 5);
    assert!(rt; deal.lower_cash(5) && deal.cash == 0);
    assert!(rt; !deal.lower_cash(u64::MAX));
}

#[test]
fn interest_of_a_deal(rt: HostRuntime) {
    let mut deal = DEALS[1];
    assert!(rt; !deal.accrue(32));
    assert!(rt; deal.whole == 600_000_000 && deal.residue == 359_999_999);
    assert!(rt; deal.accrue(1));
    assert!(rt; deal.whole == 1_155_555_556 && deal.residue == 199_999_999);
    deal.amend(200_001, 7);
    assert!(rt; !deal.accrue(1) && deal.rate == 200_001 && deal.due == 7);
    assert!(rt; deal.is_due(7) && !deal.is_due(6));
    assert_eq!(rt;
        (DEALS[0].day_base().days(), deal.day_base().days()),
        (365, 360)
    );
}

#[test]
fn targets_of_deals(rt: HostRuntime) {
    for (row, margin, sought, expected) in [
        (0, 5_000, 3, Some(5)),
        (0, 5_001, 3, None),
        (0, 5_000, 0, None),
        (0, 0, 1_000_000_000_000, Some(1_000_000_000_000)),
        (0, 0, 1_000_000_000_001, None),
        (1, 0, 3, Some(3)),
        (1, 1, 3, None),
    ] {
        let deal = Deal {
            margin,
            sought,
            ..DEALS[row % 3]
        };
        assert_eq!(rt; (row, deal.target()), (row, expected));
    }
}

/// What 1,000 units with a market value of 1,000 and a haircut of a half are worth by a deal's own valuation.
fn worth_by(deal: &Deal) -> Option<u64> {
    let record = Price {
        category: 0,
        excluded: false,
        haircut: 5_000,
        gbp: 1_000,
        eur: 0,
        usd: 0,
    };
    let quote = Quote::of(&record, Currency::Gbp)?;
    let units = Units::new(1_000)?;
    let valuer = deal.valuation()?;
    Some(valuer.value(quote, units))
}

#[test]
fn valuations_of_deals(rt: HostRuntime) {
    assert_eq!(rt; worth_by(&DEALS[0]), Some(1_000));
    assert_eq!(rt; worth_by(&DEALS[1]), Some(500));
    assert_eq!(rt;
        worth_by(&Deal {
            margin: 1,
            ..DEALS[1]
        },),
        None
    );
}
