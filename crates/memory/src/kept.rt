//! What a register's two tables have in common: rows with numbers, the used ones first.
ghost use Rattle.std.specs.Prelude.{◌≡◌, ℕ, ◌<◌, ◌^◌, Bool};
ghost use Rattle.memory.specs.declared.row.Head.{Head};

use crate::row::Head;

/// A row of one of the two tables.
pub trait Row: Copy + PartialEq {
    /// The most rows that its table may have.
    const MOST: usize;

    ghost MOST: { ℕ };

    /// The row that is not used.
    const NONE: Self;

    ghost NONE: { Self };

    ghost blank: { Self → Bool };

    ghost key: { Self → ℕ };

    ghost used: { Head → ℕ };

    ghost using: { ℕ → Head → Head };

    /// The number by which it is found.
    fn number(&self) -> u32
        ensures { result ≡ key self.now };

    /// How many rows of its table are used.
    fn used(head: &Head) -> u32
        ensures { result ≡ used head.now };

    fn set_used(head: &mut Head, count: u32)
        ensures { head.new ≡ using count head.old };

    ghost few: { MOST < 2 ^ 32 };

    ghost used_back: { (n : ℕ) (h : Head) → used (using n h) ≡ n };

    ghost blanks: { (x : Self) → Self.eq x NONE ≡ blank x };
}
