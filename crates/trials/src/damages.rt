//! Registers that break a rule at its edge, and how the first that is broken is told.
use crate::register::{Case, Damage, InDeal, InHead, InLine};
use memory::{Phase, Weighing};
use valuation::Currency;

const MOST: u64 = 1_000_000_000_000;

/// The head, with what the tables then break.
pub(crate) const HEADS: [Case; 21] = [
    (&[Damage::Head(InHead::Date(u16::MAX))], None),
    (&[Damage::Head(InHead::Phase(Phase::DayEnd))], None),
    (&[Damage::Head(InHead::NextDeal(u32::MAX))], None),
    (&[Damage::Head(InHead::NextLine(u32::MAX))], None),
    (&[Damage::Head(InHead::NextDeal(0))], Some((0, 0))),
    (&[Damage::Head(InHead::NextLine(0))], Some((0, 0))),
    (&[Damage::Head(InHead::Deals(4))], Some((0, 0))),
    (&[Damage::Head(InHead::Deals(u32::MAX))], Some((0, 0))),
    (&[Damage::Head(InHead::Lines(5))], Some((0, 0))),
    (&[Damage::Head(InHead::Lines(u32::MAX))], Some((0, 0))),
    (&[Damage::Head(InHead::Date(0))], Some((1, 1))),
    (&[Damage::Head(InHead::NextDeal(1))], Some((1, 0))),
    (&[Damage::Head(InHead::NextDeal(9))], Some((1, 1))),
    (&[Damage::Head(InHead::NextLine(1))], Some((2, 0))),
    (&[Damage::Head(InHead::NextLine(19))], Some((2, 2))),
    (&[Damage::Head(InHead::Deals(0))], Some((1, 0))),
    (&[Damage::Head(InHead::Deals(1))], Some((1, 1))),
    (&[Damage::Head(InHead::Deals(3))], Some((1, 2))),
    (&[Damage::Head(InHead::Lines(0))], Some((1, 0))),
    (&[Damage::Head(InHead::Lines(2))], Some((1, 0))),
    (&[Damage::Head(InHead::Lines(4))], Some((2, 3))),
];

/// Each field of a deal at its limits and beyond.
pub(crate) const DEAL_FIELDS: [Case; 52] = [
    (&[Damage::Deal(0, InDeal::Number(0))], Some((1, 0))),
    (&[Damage::Deal(1, InDeal::Number(0))], Some((1, 1))),
    (&[Damage::Deal(1, InDeal::Number(10))], Some((1, 1))),
    (&[Damage::Deal(1, InDeal::Number(u32::MAX))], Some((1, 1))),
    (&[Damage::Deal(0, InDeal::Giver(3))], None),
    (&[Damage::Deal(0, InDeal::Giver(4))], Some((1, 0))),
    (&[Damage::Deal(0, InDeal::Giver(1))], Some((1, 0))),
    (&[Damage::Deal(1, InDeal::Giver(0))], None),
    (&[Damage::Deal(1, InDeal::Giver(u32::MAX))], Some((1, 1))),
    (&[Damage::Deal(0, InDeal::Taker(3))], None),
    (&[Damage::Deal(0, InDeal::Taker(4))], Some((1, 0))),
    (&[Damage::Deal(1, InDeal::Taker(3))], Some((1, 1))),
    (&[Damage::Deal(1, InDeal::Taker(u32::MAX))], Some((1, 1))),
    (&[Damage::Deal(0, InDeal::Currency(Currency::Eur))], None),
    (&[Damage::Deal(1, InDeal::Currency(Currency::Gbp))], None),
    (&[Damage::Deal(1, InDeal::Currency(Currency::Eur))], None),
    (&[Damage::Deal(0, InDeal::Class(u16::MAX))], None),
    (&[Damage::Deal(1, InDeal::Class(0))], None),
    (
        &[Damage::Deal(0, InDeal::Weighing(Weighing::Haircut))],
        None,
    ),
    (&[Damage::Deal(1, InDeal::Weighing(Weighing::Margin))], None),
    (&[Damage::Deal(0, InDeal::Margin(5_000))], None),
    (&[Damage::Deal(0, InDeal::Margin(5_001))], Some((1, 0))),
    (&[Damage::Deal(0, InDeal::Margin(u16::MAX))], Some((1, 0))),
    (&[Damage::Deal(1, InDeal::Margin(1))], Some((1, 1))),
    (&[Damage::Deal(1, InDeal::Margin(u16::MAX))], Some((1, 1))),
    (&[Damage::Deal(0, InDeal::Sought(0))], Some((1, 0))),
    (&[Damage::Deal(0, InDeal::Sought(MOST))], None),
    (&[Damage::Deal(1, InDeal::Sought(1))], None),
    (&[Damage::Deal(1, InDeal::Sought(MOST + 1))], Some((1, 1))),
    (&[Damage::Deal(1, InDeal::Sought(u64::MAX))], Some((1, 1))),
    (&[Damage::Deal(0, InDeal::Rate(200_000))], None),
    (&[Damage::Deal(0, InDeal::Rate(u32::MAX))], Some((1, 0))),
    (&[Damage::Deal(1, InDeal::Rate(0))], None),
    (&[Damage::Deal(1, InDeal::Rate(200_001))], Some((1, 1))),
    (&[Damage::Deal(0, InDeal::Due(u16::MAX))], None),
    (&[Damage::Deal(1, InDeal::Due(0))], None),
    (&[Damage::Deal(0, InDeal::Limit(true))], None),
    (&[Damage::Deal(1, InDeal::Limit(false))], None),
    (&[Damage::Deal(0, InDeal::Cash(4))], Some((1, 0))),
    (&[Damage::Deal(0, InDeal::Cash(6))], Some((1, 0))),
    (&[Damage::Deal(1, InDeal::Cash(MOST - 1))], Some((1, 1))),
    (&[Damage::Deal(1, InDeal::Cash(MOST + 1))], Some((1, 1))),
    (&[Damage::Deal(1, InDeal::Cash(u64::MAX))], Some((1, 1))),
    (&[Damage::Deal(0, InDeal::Whole(600_000_000))], None),
    (&[Damage::Deal(0, InDeal::Whole(u64::MAX))], Some((1, 0))),
    (&[Damage::Deal(1, InDeal::Whole(0))], None),
    (&[Damage::Deal(1, InDeal::Whole(600_000_001))], Some((1, 1))),
    (&[Damage::Deal(0, InDeal::Residue(364_999_999))], None),
    (
        &[Damage::Deal(0, InDeal::Residue(365_000_000))],
        Some((1, 0)),
    ),
    (&[Damage::Deal(1, InDeal::Residue(0))], None),
    (
        &[Damage::Deal(1, InDeal::Residue(360_000_000))],
        Some((1, 1)),
    ),
    (&[Damage::Deal(1, InDeal::Residue(u64::MAX))], Some((1, 1))),
];

/// Each field of a line at its limits and beyond.
pub(crate) const LINE_FIELDS: [Case; 20] = [
    (&[Damage::Line(0, InLine::Number(0))], Some((2, 0))),
    (&[Damage::Line(1, InLine::Number(0))], Some((2, 1))),
    (&[Damage::Line(1, InLine::Number(1))], Some((2, 1))),
    (&[Damage::Line(1, InLine::Number(18))], None),
    (&[Damage::Line(2, InLine::Number(2))], Some((2, 2))),
    (&[Damage::Line(2, InLine::Number(3))], None),
    (&[Damage::Line(2, InLine::Number(20))], Some((2, 2))),
    (&[Damage::Line(2, InLine::Number(u32::MAX))], Some((2, 2))),
    (&[Damage::Line(0, InLine::Security(2))], Some((2, 0))),
    (&[Damage::Line(0, InLine::Security(5))], None),
    (&[Damage::Line(1, InLine::Security(3))], None),
    (&[Damage::Line(1, InLine::Security(6))], Some((2, 1))),
    (&[Damage::Line(2, InLine::Security(0))], Some((2, 2))),
    (&[Damage::Line(2, InLine::Security(u32::MAX))], Some((2, 2))),
    (&[Damage::Line(0, InLine::Quantity(0))], Some((2, 0))),
    (&[Damage::Line(0, InLine::Quantity(1_000_000_000))], None),
    (&[Damage::Line(1, InLine::Quantity(1))], None),
    (
        &[Damage::Line(1, InLine::Quantity(1_000_000_001))],
        Some((2, 1)),
    ),
    (&[Damage::Line(2, InLine::Quantity(u64::MAX))], Some((2, 2))),
    (&[Damage::Line(0, InLine::Number(2))], Some((2, 1))),
];

/// Each field of a row that is not used.
pub(crate) const UNUSED: [Case; 19] = [
    (&[Damage::Deal(2, InDeal::Number(1))], Some((1, 2))),
    (&[Damage::Deal(2, InDeal::Giver(1))], Some((1, 2))),
    (&[Damage::Deal(2, InDeal::Taker(1))], Some((1, 2))),
    (
        &[Damage::Deal(2, InDeal::Currency(Currency::Eur))],
        Some((1, 2)),
    ),
    (&[Damage::Deal(2, InDeal::Class(1))], Some((1, 2))),
    (
        &[Damage::Deal(2, InDeal::Weighing(Weighing::Haircut))],
        Some((1, 2)),
    ),
    (&[Damage::Deal(2, InDeal::Margin(1))], Some((1, 2))),
    (&[Damage::Deal(2, InDeal::Sought(1))], Some((1, 2))),
    (&[Damage::Deal(2, InDeal::Rate(1))], Some((1, 2))),
    (&[Damage::Deal(2, InDeal::Due(1))], Some((1, 2))),
    (&[Damage::Deal(2, InDeal::Limit(true))], Some((1, 2))),
    (&[Damage::Deal(2, InDeal::Cash(1))], Some((1, 2))),
    (&[Damage::Deal(2, InDeal::Whole(1))], Some((1, 2))),
    (&[Damage::Deal(2, InDeal::Residue(1))], Some((1, 2))),
    (&[Damage::Line(3, InLine::Number(1))], Some((2, 3))),
    (&[Damage::Line(3, InLine::Deal(1))], Some((2, 3))),
    (&[Damage::Line(3, InLine::Security(1))], Some((2, 3))),
    (&[Damage::Line(3, InLine::Quantity(1))], Some((2, 3))),
    (&[Damage::Line(3, InLine::Part(1))], Some((2, 3))),
];

/// Limits that move with another field.
pub(crate) const JOINT: [Case; 12] = [
    (
        &[
            Damage::Head(InHead::Date(u16::MAX)),
            Damage::Deal(0, InDeal::Whole(39_321_000_000_000)),
        ],
        None,
    ),
    (
        &[
            Damage::Head(InHead::Date(u16::MAX)),
            Damage::Deal(0, InDeal::Whole(39_321_000_000_001)),
        ],
        Some((1, 0)),
    ),
    (
        &[
            Damage::Deal(0, InDeal::Currency(Currency::Eur)),
            Damage::Deal(0, InDeal::Residue(359_999_999)),
        ],
        None,
    ),
    (
        &[
            Damage::Deal(0, InDeal::Currency(Currency::Usd)),
            Damage::Deal(0, InDeal::Residue(360_000_000)),
        ],
        Some((1, 0)),
    ),
    (
        &[
            Damage::Head(InHead::NextDeal(u32::MAX)),
            Damage::Deal(1, InDeal::Number(u32::MAX - 1)),
            Damage::Line(1, InLine::Deal(u32::MAX - 1)),
        ],
        None,
    ),
    (
        &[
            Damage::Head(InHead::NextDeal(u32::MAX)),
            Damage::Deal(1, InDeal::Number(u32::MAX)),
            Damage::Line(1, InLine::Deal(u32::MAX)),
        ],
        Some((1, 1)),
    ),
    (
        &[
            Damage::Head(InHead::NextLine(u32::MAX)),
            Damage::Line(2, InLine::Number(u32::MAX - 1)),
        ],
        None,
    ),
    (
        &[
            Damage::Head(InHead::NextLine(u32::MAX)),
            Damage::Line(2, InLine::Number(u32::MAX)),
        ],
        Some((2, 2)),
    ),
    (
        &[
            Damage::Deal(0, InDeal::Number(0)),
            Damage::Line(0, InLine::Deal(0)),
            Damage::Line(2, InLine::Deal(0)),
        ],
        Some((1, 0)),
    ),
    (
        &[
            Damage::Deal(1, InDeal::Number(10)),
            Damage::Line(1, InLine::Deal(10)),
        ],
        Some((1, 1)),
    ),
    (
        &[
            Damage::Deal(1, InDeal::Number(1)),
            Damage::Deal(1, InDeal::Cash(5)),
            Damage::Line(1, InLine::Deal(1)),
            Damage::Line(1, InLine::Part(0)),
        ],
        Some((1, 1)),
    ),
    (
        &[
            Damage::Deal(0, InDeal::Number(9)),
            Damage::Deal(0, InDeal::Cash(MOST)),
            Damage::Deal(1, InDeal::Number(1)),
            Damage::Deal(1, InDeal::Cash(5)),
        ],
        Some((1, 1)),
    ),
];

/// Standing cash against the parts of the used lines.
pub(crate) const SUMS: [Case; 7] = [
    (
        &[
            Damage::Line(0, InLine::Deal(9)),
            Damage::Deal(0, InDeal::Cash(3)),
            Damage::Deal(1, InDeal::Cash(MOST + 2)),
        ],
        Some((1, 1)),
    ),
    (
        &[
            Damage::Line(0, InLine::Part(u64::MAX)),
            Damage::Line(2, InLine::Part(6)),
        ],
        Some((1, 0)),
    ),
    (
        &[
            Damage::Line(0, InLine::Part(u64::MAX)),
            Damage::Line(2, InLine::Part(u64::MAX)),
            Damage::Deal(0, InDeal::Cash(u64::MAX)),
        ],
        Some((1, 0)),
    ),
    (
        &[
            Damage::Line(0, InLine::Part(0)),
            Damage::Line(2, InLine::Part(0)),
            Damage::Deal(0, InDeal::Cash(0)),
        ],
        None,
    ),
    (
        &[
            Damage::Head(InHead::Lines(2)),
            Damage::Deal(0, InDeal::Cash(2)),
        ],
        Some((2, 2)),
    ),
    (
        &[
            Damage::Head(InHead::Lines(2)),
            Damage::Deal(0, InDeal::Cash(2)),
            Damage::Line(2, InLine::Number(0)),
            Damage::Line(2, InLine::Deal(0)),
            Damage::Line(2, InLine::Security(0)),
            Damage::Line(2, InLine::Quantity(0)),
            Damage::Line(2, InLine::Part(0)),
        ],
        None,
    ),
    (
        &[
            Damage::Head(InHead::Lines(0)),
            Damage::Deal(0, InDeal::Cash(0)),
            Damage::Deal(1, InDeal::Cash(0)),
        ],
        Some((2, 0)),
    ),
];

/// Lines whose deal does not stand.
pub(crate) const LOOSE: [Case; 6] = [
    (
        &[
            Damage::Line(0, InLine::Deal(2)),
            Damage::Line(0, InLine::Part(0)),
            Damage::Deal(0, InDeal::Cash(3)),
        ],
        Some((2, 0)),
    ),
    (
        &[
            Damage::Line(0, InLine::Deal(2)),
            Damage::Line(0, InLine::Part(MOST + 1)),
            Damage::Deal(0, InDeal::Cash(3)),
        ],
        Some((2, 0)),
    ),
    (
        &[
            Damage::Line(2, InLine::Deal(0)),
            Damage::Line(2, InLine::Part(0)),
            Damage::Deal(0, InDeal::Cash(2)),
        ],
        Some((2, 2)),
    ),
    (
        &[
            Damage::Line(2, InLine::Deal(10)),
            Damage::Line(2, InLine::Part(0)),
            Damage::Deal(0, InDeal::Cash(2)),
        ],
        Some((2, 2)),
    ),
    (
        &[
            Damage::Line(2, InLine::Deal(12)),
            Damage::Line(2, InLine::Part(0)),
            Damage::Deal(0, InDeal::Cash(2)),
        ],
        Some((2, 2)),
    ),
    (
        &[
            Damage::Line(2, InLine::Deal(u32::MAX)),
            Damage::Line(2, InLine::Part(u64::MAX)),
            Damage::Deal(0, InDeal::Cash(2)),
        ],
        Some((2, 2)),
    ),
];

/// Two rules at once.
pub(crate) const TWO: [Case; 11] = [
    (
        &[
            Damage::Deal(0, InDeal::Giver(4)),
            Damage::Head(InHead::NextDeal(0)),
        ],
        Some((0, 0)),
    ),
    (
        &[
            Damage::Line(0, InLine::Quantity(0)),
            Damage::Head(InHead::Lines(5)),
        ],
        Some((0, 0)),
    ),
    (
        &[
            Damage::Deal(1, InDeal::Rate(200_001)),
            Damage::Deal(0, InDeal::Cash(4)),
        ],
        Some((1, 0)),
    ),
    (
        &[
            Damage::Deal(1, InDeal::Cash(4)),
            Damage::Deal(0, InDeal::Rate(200_001)),
        ],
        Some((1, 0)),
    ),
    (
        &[
            Damage::Deal(2, InDeal::Class(1)),
            Damage::Deal(1, InDeal::Cash(4)),
        ],
        Some((1, 1)),
    ),
    (
        &[
            Damage::Line(0, InLine::Quantity(0)),
            Damage::Deal(1, InDeal::Rate(200_001)),
        ],
        Some((1, 1)),
    ),
    (
        &[
            Damage::Line(0, InLine::Quantity(0)),
            Damage::Deal(2, InDeal::Class(1)),
        ],
        Some((1, 2)),
    ),
    (
        &[
            Damage::Line(2, InLine::Quantity(0)),
            Damage::Line(1, InLine::Security(6)),
        ],
        Some((2, 1)),
    ),
    (
        &[
            Damage::Line(3, InLine::Part(1)),
            Damage::Line(2, InLine::Quantity(0)),
        ],
        Some((2, 2)),
    ),
    (
        &[
            Damage::Line(2, InLine::Quantity(0)),
            Damage::Line(1, InLine::Deal(2)),
            Damage::Deal(1, InDeal::Cash(0)),
        ],
        Some((2, 1)),
    ),
    (
        &[
            Damage::Line(0, InLine::Quantity(0)),
            Damage::Line(1, InLine::Deal(2)),
            Damage::Deal(1, InDeal::Cash(0)),
        ],
        Some((2, 0)),
    ),
];
