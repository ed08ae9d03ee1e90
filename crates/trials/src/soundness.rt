//! Registers that break a rule: the first that is broken is told by its table and row.
use crate::damages::{DEAL_FIELDS, HEADS, JOINT, LINE_FIELDS, LOOSE, SUMS, TWO, UNUSED};
use crate::register::{Case, DEALS, Damage, HEAD, LINES};
use memory::{Deal, Head, Line, NO_DEAL, NO_LINE, Next, Register, Used};
use std::process::Abort;

/// The table and the row of the first fault, over a book of 4 accounts and 6 resources.
fn place(head: &Head, deals: &[Deal], lines: &[Line]) -> Option<(u32, usize)> {
    let register = Register { head, deals, lines };
    let found = register.check(4, 6).err()?;
    Some((found.table.number(), found.row))
}

/// Writes all damages, and answers the place that is then told.
fn place_in(
    damages: &[Damage],
    head: &mut Head,
    deals: &mut [Deal],
    lines: &mut [Line],
) -> Option<(u32, usize)> {
    for damage in damages {
        damage.befall(head, deals, lines);
    }
    place(head, deals, lines)
}

/// Each case befalls a sound register of its own.
fn check_cases(rt: &impl Abort, cases: &[Case]) {
    for (k, (damages, expected)) in cases.iter().copied().enumerate() {
        let mut head = HEAD;
        let mut deals = DEALS;
        let mut lines = LINES;
        let found = place_in(damages, &mut head, &mut deals, &mut lines);
        assert_eq!(rt; (k, found), (k, expected));
    }
}

#[test]
fn heads(rt: HostRuntime) {
    check_cases(&rt, &HEADS);
}

#[test]
fn fields_of_deals(rt: HostRuntime) {
    check_cases(&rt, &DEAL_FIELDS);
}

#[test]
fn fields_of_lines(rt: HostRuntime) {
    check_cases(&rt, &LINE_FIELDS);
}

#[test]
fn unused_rows(rt: HostRuntime) {
    check_cases(&rt, &UNUSED);
}

#[test]
fn joint_limits(rt: HostRuntime) {
    check_cases(&rt, &JOINT);
}

#[test]
fn sums(rt: HostRuntime) {
    check_cases(&rt, &SUMS);
}

#[test]
fn loose_lines(rt: HostRuntime) {
    check_cases(&rt, &LOOSE);
}

#[test]
fn the_first_of_two(rt: HostRuntime) {
    check_cases(&rt, &TWO);
}

/// What is told of the first rows of two tables.
fn place_within(
    head: &Head,
    deals: &[Deal],
    count: usize,
    lines: &[Line],
    others: usize,
) -> Option<(u32, usize)> {
    let count = count.min(deals.len());
    let others = others.min(lines.len());
    place(head, &deals[0..count], &lines[0..others])
}

#[test]
fn lengths(rt: HostRuntime) {
    let deals = [NO_DEAL; 5_000];
    let lines = [NO_LINE; 5_000];
    let head = Head {
        used: Used { deals: 0, lines: 0 },
        ..HEAD
    };
    for (count, others, expected) in [
        (1, 1, None),
        (64, 1_024, None),
        (0, 1, Some((1, 0))),
        (65, 1, Some((1, 0))),
        (5_000, 5_000, Some((1, 0))),
        (1, 0, Some((2, 0))),
        (1, 1_025, Some((2, 0))),
        (1, 5_000, Some((2, 0))),
        (0, 0, Some((1, 0))),
    ] {
        let found = place_within(&head, &deals, count, &lines, others);
        assert_eq!(rt; (count, found), (count, expected));
    }
    assert_eq!(rt; place(&HEAD, &[], &[]), Some((0, 0)));
    assert_eq!(rt;
        place_within(&HEAD, &deals, 65, &lines, 5_000),
        Some((1, 0))
    );
}

/// Heads over no used rows, and over tables with no row to spare.
#[test]
fn next_numbers_and_counts(rt: HostRuntime) {
    for (deal, line, expected) in [
        (1, 1, None),
        (0, 1, Some((0, 0))),
        (1, 0, Some((0, 0))),
        (u32::MAX, u32::MAX, None),
    ] {
        let head = Head {
            next: Next { deal, line },
            used: Used { deals: 0, lines: 0 },
            ..HEAD
        };
        assert_eq!(rt;
            (deal, place(&head, &[NO_DEAL], &[NO_LINE])),
            (deal, expected)
        );
    }
    for (deals, lines, expected) in [(2, 3, None), (3, 3, Some((0, 0))), (2, 4, Some((0, 0)))] {
        let head = Head {
            used: Used { deals, lines },
            ..HEAD
        };
        assert_eq!(rt;
            (deals, place_within(&head, &DEALS, 2, &LINES, 3)),
            (deals, expected)
        );
    }
}
