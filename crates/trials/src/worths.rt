//! What quantities are worth, targets, and quantities by their worth, at their edges.
use std::test::Fail;
use valuation::{
    Currency, Haircut, Margin, Price, Quote, Sought, Units, Valuation, largest, most_taken,
    smallest,
};

const MOST_UNITS: u64 = 1_000_000_000;

const MOST_PRICE: u32 = 100_000_000;

fn quote(price: u32, haircut: u16) -> Option<Quote> {
    let record = Price {
        category: 15,
        excluded: false,
        haircut,
        gbp: 0,
        eur: price,
        usd: 0,
    };
    Quote::of(&record, Currency::Eur)
}

/// Nothing where a number is out of its range.
fn worth<V: Valuation>(valuation: &V, price: u32, haircut: u16, count: u64) -> Option<u64> {
    Some(valuation.value(quote(price, haircut)?, Units::new(count)?))
}

#[test]
fn worth_by_haircut(rt: HostRuntime) {
    for (price, haircut, count, expected) in [
        (999, 0, 0, Some(0)),
        (999, 0, 1, Some(0)),
        (999, 0, 2, Some(1)),
        (1_000, 1, 9_999, Some(9_998)),
        (MOST_PRICE, 0, MOST_UNITS, Some(100_000_000_000_000)),
        (MOST_PRICE, 9_999, MOST_UNITS, Some(10_000_000_000)),
        (MOST_PRICE, 10_000, MOST_UNITS, Some(0)),
        (MOST_PRICE, 10_001, 1, None),
        (MOST_PRICE, 0, MOST_UNITS + 1, None),
        (MOST_PRICE + 1, 0, 1, None),
        (0, 0, 1, None),
    ] {
        assert_eq!(rt;
            (count, worth(&Haircut, price, haircut, count)),
            (count, expected)
        );
    }
}

#[test]
fn worth_by_margin(rt: HostRuntime) -> Result<(), Fail> {
    let Some(margin) = Margin::new(5_000) else {
        return Err(Fail::new("a margin"));
    };
    assert_eq!(rt;
        worth(&margin, MOST_PRICE, 10_000, MOST_UNITS),
        Some(100_000_000_000_000)
    );
    assert_eq!(rt; worth(&margin, 999, 10_000, 1_000), Some(999));
    assert_eq!(rt; worth(&margin, 999, 10_000, 1_001), Some(999));
    Ok(())
}

fn target(margin: u16, sought: u64) -> Option<u64> {
    Some(Margin::new(margin)?.target_for(Sought::new(sought)?))
}

#[test]
fn targets(rt: HostRuntime) -> Result<(), Fail> {
    for (margin, sought, expected) in [
        (0, 1, Some(1)),
        (1, 1, Some(2)),
        (1, 10_000, Some(10_001)),
        (1, 10_001, Some(10_003)),
        (800, 50_000_000_000, Some(54_000_000_000)),
        (5_000, 3, Some(5)),
        (5_000, 1_000_000_000_000, Some(1_500_000_000_000)),
        (5_000, 1_000_000_000_001, None),
        (5_000, 0, None),
        (5_001, 1, None),
    ] {
        assert_eq!(rt; (sought, target(margin, sought)), (sought, expected));
    }
    let Some(most) = Sought::new(1_000_000_000_000) else {
        return Err(Fail::new("a value sought"));
    };
    assert_eq!(rt; Haircut.target_for(most), 1_000_000_000_000);
    Ok(())
}

/// By a price with no haircut. Nothing where a number is out of its range.
fn largest_of(price: u32, most: u64, bound: u64) -> Option<u64> {
    let found = largest(&Haircut, quote(price, 0)?, Units::new(most)?, bound);
    Some(found.count())
}

#[test]
fn the_largest(rt: HostRuntime) {
    for (price, most, bound, expected) in [
        (999, MOST_UNITS, 0, 1),
        (999, 0, 0, 0),
        (999, 1, 0, 1),
        (999, MOST_UNITS, 998, 999),
        (999, 998, 998, 998),
        (1_001, MOST_UNITS, 0, 0),
        (1, MOST_UNITS, 999_999, 999_999_999),
        (1, MOST_UNITS, 1_000_000, MOST_UNITS),
        (MOST_PRICE, MOST_UNITS, u64::MAX, MOST_UNITS),
    ] {
        assert_eq!(rt;
            (bound, largest_of(price, most, bound)),
            (bound, Some(expected))
        );
    }
}

/// The same; 0 where no quantity is worth the need.
fn smallest_of(price: u32, most: u64, need: u64) -> Option<u64> {
    match smallest(&Haircut, quote(price, 0)?, Units::new(most)?, need) {
        Some(found) => Some(found.count()),
        None => Some(0),
    }
}

#[test]
fn the_smallest(rt: HostRuntime) {
    for (price, most, need, expected) in [
        (999, 0, 0, 0),
        (999, 1, 0, 1),
        (999, 1, 1, 0),
        (999, 2, 1, 2),
        (999, 1_000, 999, 1_000),
        (999, 999, 999, 0),
        (1, MOST_UNITS, 1_000_000, MOST_UNITS),
        (1, MOST_UNITS, 1_000_001, 0),
        (MOST_PRICE, MOST_UNITS, 100_000_000_000_000, MOST_UNITS),
        (MOST_PRICE, MOST_UNITS, u64::MAX, 0),
    ] {
        assert_eq!(rt;
            (need, smallest_of(price, most, need)),
            (need, Some(expected))
        );
    }
}

fn most_taken_of(price: u32, held: u64, most: u64, bound: u64) -> Option<u64> {
    let quote = quote(price, 0)?;
    let taken = most_taken(&Haircut, quote, Units::new(held)?, Units::new(most)?, bound);
    Some(taken.count())
}

#[test]
fn the_most_taken(rt: HostRuntime) {
    for (price, held, most, bound, expected) in [
        (1_000, 10, 100, 0, 10),
        (1_000, 10, 100, 4, 6),
        (1_000, 10, 100, 10, 0),
        (1_000, 10, 100, 11, 0),
        (1_000, 10, 5, 4, 5),
        (1_000, 10, 0, 4, 0),
        (999, 10, 100, 8, 1),
        (999, 10, 100, 9, 0),
        (1_000, MOST_UNITS, MOST_UNITS, 1, MOST_UNITS - 1),
    ] {
        assert_eq!(rt;
            (bound, most_taken_of(price, held, most, bound)),
            (bound, Some(expected))
        );
    }
}
