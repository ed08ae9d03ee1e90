//! What is gathered, at its edges.
use crate::books_alike::lay;
use books::Grid;
use gathering::{Basket, Order, gather};
use std::process::Abort;
use std::test::Fail;
use valuation::{Currency, Haircut, Price};

/// A whole minor unit for each unit of the security.
const PAR: Price = Price {
    category: 0,
    excluded: false,
    haircut: 0,
    gbp: 1_000,
    eur: 0,
    usd: 0,
};

/// How many securities were taken, and the last with its quantity.
fn last_of(basket: Option<Basket>) -> Option<(usize, u32, u64)> {
    let basket = basket?;
    match basket.picks().last() {
        Some(pick) => Some((basket.len(), pick.security, pick.quantity)),
        None => Some((0, 0, 0)),
    }
}

/// What each security of a giver has, the price list, the target where the limit holds (or 0), the need, what the deal's
/// lines are worth, and what is then gathered.
type Case = (
    u64,
    &'static [Price],
    u64,
    u64,
    &'static [u64],
    Option<(usize, u32, u64)>,
);

fn check_cases(rt: &impl Abort, cases: &[Case]) -> Result<(), Fail> {
    for (each, prices, target, need, held, expected) in cases.iter().copied() {
        let mut amounts = [each; 256];
        let laid = lay(2, 128, &mut amounts[..])?;
        let order = Order {
            giver: 1,
            currency: Currency::Gbp,
            class: 1,
            limit: target > 0,
            target,
            need,
        };
        let grid = Grid::over(laid, 0);
        let basket = gather(&grid, &Haircut, prices, order, held);
        assert_eq!(rt; (need, last_of(basket)), (need, expected));
    }
    Ok(())
}

const FULL: &[Price] = &[PAR; 125];

/// One security after the other, and no more than 99.
const COUNTS: [Case; 11] = [
    (10, FULL, 0, 0, &[], Some((0, 0, 0))),
    (10, FULL, 0, 1, &[], Some((1, 3, 1))),
    (10, FULL, 0, 10, &[], Some((1, 3, 10))),
    (10, FULL, 0, 11, &[], Some((2, 4, 1))),
    (10, FULL, 0, 981, &[], Some((99, 101, 1))),
    (10, FULL, 0, 990, &[], Some((99, 101, 10))),
    (10, FULL, 0, 991, &[], None),
    (10, FULL, 0, u64::MAX, &[], None),
    (0, FULL, 0, 1, &[], None),
    (10, &[], 0, 1, &[], None),
    (10, &[], 0, 0, &[], Some((0, 0, 0))),
];

#[test]
fn so_many_securities(rt: HostRuntime) -> Result<(), Fail> {
    check_cases(&rt, &COUNTS)
}

/// Units that are worth a little less than one each.
const BELOW_PAR: &[Price] = &[Price { gbp: 999, ..PAR }; 2];

const MOST: u64 = 1_000_000_000;

const PLENTY: u64 = 1_000_000_000_000_000;

/// The smallest quantity that covers the need, and a need that is a unit too large.
const COVERS: [Case; 11] = [
    (10, BELOW_PAR, 0, 8, &[], Some((1, 3, 9))),
    (10, BELOW_PAR, 0, 9, &[], Some((1, 3, 10))),
    (10, BELOW_PAR, 0, 10, &[], Some((2, 4, 2))),
    (10, BELOW_PAR, 0, 18, &[], Some((2, 4, 10))),
    (10, BELOW_PAR, 0, 19, &[], None),
    (1, BELOW_PAR, 0, 1, &[], None),
    (10, &[PAR; 3], 0, 30, &[], Some((3, 5, 10))),
    (10, &[PAR; 3], 0, 31, &[], None),
    (PLENTY, &[PAR; 2], 0, MOST + 1, &[], Some((2, 4, 1))),
    (PLENTY, &[PAR; 2], 0, 2 * MOST, &[], Some((2, 4, MOST))),
    (PLENTY, &[PAR; 2], 0, 2 * MOST + 1, &[], None),
];

#[test]
fn the_smallest_cover(rt: HostRuntime) -> Result<(), Fail> {
    check_cases(&rt, &COVERS)
}

/// A tenth of the target for each security, with what the deal has of it.
const LIMITS: [Case; 9] = [
    (10, FULL, 9, 1, &[], None),
    (10, FULL, 10, 1, &[], Some((1, 3, 1))),
    (10, FULL, 49, 4, &[], Some((1, 3, 4))),
    (10, FULL, 49, 5, &[], Some((2, 4, 1))),
    (10, FULL, 49, 396, &[], Some((99, 101, 4))),
    (10, FULL, 49, 397, &[], None),
    (10, FULL, 40, 2, &[5, 4, 3], Some((2, 6, 1))),
    (10, FULL, 40, 2, &[u64::MAX], Some((1, 4, 2))),
    (10, FULL, 0, 2, &[5, 4, 3], Some((1, 3, 2))),
];

#[test]
fn the_limit(rt: HostRuntime) -> Result<(), Fail> {
    check_cases(&rt, &LIMITS)
}

/// An excluded security, one of another category, one with no price, one out of its ranges, one worth nothing, and one to take.
const PASSED_OVER: &[Price] = &[
    Price {
        excluded: true,
        ..PAR
    },
    Price { category: 1, ..PAR },
    Price { gbp: 0, ..PAR },
    Price {
        category: 16,
        ..PAR
    },
    Price {
        haircut: 10_000,
        ..PAR
    },
    PAR,
];

#[test]
fn who_is_passed_over(rt: HostRuntime) -> Result<(), Fail> {
    check_cases(
        &rt,
        &[
            (10, PASSED_OVER, 0, 10, &[], Some((1, 8, 10))),
            (10, PASSED_OVER, 0, 11, &[], None),
        ],
    )
}
