//! A row of the holdback layer.
ghost use Rattle.std.specs.Prelude.{◌≡◌, position};
ghost use Rattle.books.specs.Rows.{named, free, row_of, held};

/// What is held back of an account in a resource; a row of quantity 0 is free.
#[derive(Clone, Copy)]
pub struct HoldRow {
    pub account: u32,
    pub resource: u32,
    pub quantity: u64,
}

pub(crate) const FREE: HoldRow = HoldRow {
    account: 0,
    resource: 0,
    quantity: 0,
};

impl HoldRow {
    /// The row that a quantity is written as: a free one where nothing is held back.
    pub(crate) fn of(account: u32, resource: u32, quantity: u64) -> HoldRow
        ensures { result ≡ row_of account resource quantity }
    {
        if quantity == 0 {
            return FREE;
        }
        HoldRow {
            account,
            resource,
            quantity,
        }
    }

    /// Whether the row holds back of the account in the resource.
    pub(crate) fn names(&self, account: u32, resource: u32) -> bool
        ensures { result ≡ named account resource self.now }
    {
        self.quantity > 0 && self.account == account && self.resource == resource
    }

    pub(crate) fn is_free(&self) -> bool
        ensures { result ≡ free self.now }
    {
        self.quantity == 0
    }
}

/// The place of the first row that holds back of an account in a resource.
pub(crate) fn naming_place(rows: &[HoldRow], account: u32, resource: u32) -> Option<usize>
    ensures { result ≡ position (named account resource) rows.now }
{
    rows.iter().position(|row| row.names(account, resource))
}

/// The place of the first free row.
pub(crate) fn free_place(rows: &[HoldRow]) -> Option<usize>
    ensures { result ≡ position free rows.now }
{
    rows.iter().position(|row| row.is_free())
}

/// What the rows hold back of an account in a resource.
pub(crate) fn held_in(rows: &[HoldRow], account: u32, resource: u32) -> u64
    ensures { result ≡ held rows.now account resource }
{
    rows.iter()
        .find(|row| row.names(account, resource))
        .map_or(0, |row| row.quantity)
}
