//! The most that each number comes to.

pub const MOST_CASH: u64 = 1_000_000_000_000;

pub const MOST_RATE: u32 = 200_000;

pub const MOST_DAYS: u16 = 31;

pub const MOST_WHOLE: u64 = 600_000_000 * 65_535;
