//! What a gathering is asked for, and what it takes.
use valuation::Currency;

#[derive(Clone, Copy, PartialEq, Eq, Debug)]
pub struct Order {
    /// The account whose securities are tried.
    pub giver: u32,
    pub currency: Currency,
    /// Sixteen bits, of which bit k admits category k.
    pub class: u16,
    /// Whether no security may pass a tenth of the target.
    pub limit: bool,
    pub target: u64,
    /// The value that is to be gathered.
    pub need: u64,
}

/// A quantity of a security.
#[derive(Clone, Copy, PartialEq, Eq, Debug, Default)]
pub struct Pick {
    pub security: u32,
    pub quantity: u64,
}
