//! The head and the rows, plain memory in which any contents are possible.
ghost use Rattle.std.specs.Prelude.{◌≡◌};
ghost use Rattle.memory.specs.Kinds.{phase_number, weighing_number, kind_number, sense_number, base_of};

use sharing::DayBase;
use std::fmt;
use valuation::Currency;

#[derive(Clone, Copy, PartialEq, Eq, Debug)]
pub enum Phase {
    Day = 0,
    DayEnd = 1,
}

impl Phase {
    pub fn number(self) -> u32
        ensures { result ≡ phase_number self }
    {
        self as u32
    }
}

/// How a deal's securities are valued.
#[derive(Clone, Copy, PartialEq, Eq, Debug)]
pub enum Weighing {
    Margin = 0,
    Haircut = 1,
}

impl Weighing {
    ghost use Rattle.memory.specs.Sound.{margin_fits};

    pub fn number(self) -> u32
        ensures { result ≡ weighing_number self }
    {
        self as u32
    }

    /// Whether a margin is in its range, which with haircut is 0 alone.
    pub fn admits_margin(self, margin: u16) -> bool
        ensures { result ≡ margin_fits self margin }
    {
        match self {
            Weighing::Margin => margin <= 5_000,
            Weighing::Haircut => margin == 0,
        }
    }
}

/// The year by which interest in a currency is counted.
pub fn day_base(currency: Currency) -> DayBase
    ensures { result ≡ base_of currency }
{
    match currency {
        Currency::Gbp => DayBase::Actual365,
        Currency::Eur => DayBase::Actual360,
        Currency::Usd => DayBase::Actual360,
    }
}

/// The numbers that the next deal and the next line get.
#[derive(Clone, Copy, PartialEq, Eq, Debug)]
pub struct Next {
    pub deal: u32,
    pub line: u32,
}

/// How many rows of each table are used.
#[derive(Clone, Copy, PartialEq, Eq, Debug)]
pub struct Used {
    pub deals: u32,
    pub lines: u32,
}

#[derive(Clone, Copy, PartialEq, Eq, Debug)]
pub struct Head {
    pub date: u16,
    pub phase: Phase,
    pub next: Next,
    pub used: Used,
}

#[derive(Clone, Copy, PartialEq, Eq, Debug)]
pub struct Deal {
    pub number: u32,
    pub giver: u32,
    pub taker: u32,
    pub currency: Currency,
    /// Bit k admits category k.
    pub class: u16,
    pub weighing: Weighing,
    pub margin: u16,
    pub sought: u64,
    /// Millionths a year.
    pub rate: u32,
    /// The return day.
    pub due: u16,
    /// Whether the concentration limit holds.
    pub limit: bool,
    /// The standing cash.
    pub cash: u64,
    /// The interest: whole minor units, and the residue in parts of a unit.
    pub whole: u64,
    pub residue: u64,
}

#[derive(Clone, Copy, PartialEq, Eq, Debug)]
pub struct Line {
    /// The return number.
    pub number: u32,
    pub deal: u32,
    pub security: u32,
    pub quantity: u64,
    /// The line's part of its deal's standing cash.
    pub part: u64,
}

#[derive(Clone, Copy, PartialEq, Eq, Debug, Default)]
pub enum Kind {
    #[default]
    Settle = 1,
    Return = 2,
    Substitute = 3,
    Mark = 4,
    Pay = 5,
}

impl Kind {
    pub fn number(self) -> u32
        ensures { result ≡ kind_number self }
    {
        self as u32
    }
}

#[derive(Clone, Copy, PartialEq, Eq, Debug, Default)]
pub enum Sense {
    #[default]
    Out = 0,
    Back = 1,
    Cash = 2,
}

impl Sense {
    pub fn number(self) -> u32
        ensures { result ≡ sense_number self }
    {
        self as u32
    }
}

/// The record of one movement that a call made.
#[derive(Clone, Copy, PartialEq, Eq, Debug, Default)]
pub struct Slip {
    pub kind: Kind,
    pub sense: Sense,
    pub deal: u32,
    /// The return number; 0 for the cash of a settlement or a payment.
    pub number: u32,
    pub resource: u32,
    pub from: u32,
    pub to: u32,
    pub amount: u64,
}

pub const NO_DEAL: Deal = Deal {
    number: 0,
    giver: 0,
    taker: 0,
    currency: Currency::Gbp,
    class: 0,
    weighing: Weighing::Margin,
    margin: 0,
    sought: 0,
    rate: 0,
    due: 0,
    limit: false,
    cash: 0,
    whole: 0,
    residue: 0,
};

pub const NO_LINE: Line = Line {
    number: 0,
    deal: 0,
    security: 0,
    quantity: 0,
    part: 0,
};

pub const NO_SLIP: Slip = Slip {
    kind: Kind::Settle,
    sense: Sense::Out,
    deal: 0,
    number: 0,
    resource: 0,
    from: 0,
    to: 0,
    amount: 0,
};

impl fmt::Display for Weighing {
    fn fmt<W: fmt::Write>(&self, f: &mut fmt::Formatter<W>) -> fmt::Result {
        match self {
            Weighing::Margin => write!(f, "margin"),
            Weighing::Haircut => write!(f, "haircut"),
        }
    }
}
