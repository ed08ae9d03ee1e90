//! Why a book refuses.
ghost use Rattle.std.specs.Prelude.{◌≡◌};
ghost use Rattle.book.specs.Refusals.{number_of};

#[derive(Clone, Copy, PartialEq, Eq, Debug)]
pub enum BookRefusal {
    /// An account or a resource that the book does not have, or one account twice.
    Outside = 41,
    /// Nothing is moved, or more than 10^15 would be held back.
    Quantity = 42,
    /// More than the sender's free amount.
    NotFree = 43,
    /// The receiver would pass 10^15.
    NoRoom = 44,
    /// No movements are left.
    NoMovements = 45,
    /// A row beyond those that the holdback layer has.
    NoRow = 46,
    /// Memory that no book can be laid over.
    Unfit = 47,
}

impl BookRefusal {
    pub fn number(self) -> u32
        ensures { result ≡ number_of self }
    {
        self as u32
    }
}
