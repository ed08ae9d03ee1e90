//! A book whose amounts lie in memory that the host lends.
ghost use Rattle.books.specs.Laying.{Fit};

use crate::laid::Laid;
use book::{Book, BookRefusal, Movement, Standing};

/// Amounts that movements are written into; nothing is held back.
///
/// The memory stands in a field of its own, and the fields are open: a proof follows lent memory into a struct that a
/// function makes it part of, and loses it where it is handed over within another value. So a host whose contract says
/// what its memory holds makes the grid by itself, once `check` has passed over the memory.
#[derive(Drop)]
pub struct Grid<'a> {
    pub accounts: u32,
    pub resources: u32,
    pub left: u64,
    pub amounts: &'a mut [u64],
    pub ghost fit: { Fit accounts resources amounts.now },
}

impl<'a> Grid<'a> {
    ghost use Rattle.std.specs.Prelude.{◌≡◌, ◌+◌, ◌-◌, Ok};
    ghost use Rattle.book.specs.Moving.{verdict};
    ghost use Rattle.books.specs.Grids.{grid_meaning, grid_memory};
    ghost use Rattle.books.specs.Laying.{opened, cell};

    /// Lays a grid over amounts, with so many movements left.
    pub fn over(laid: Laid<&'a mut [u64]>, left: u64) -> Grid<'a>
        ensures meaning { grid_meaning result ≡ opened laid.entry.accounts laid.entry.resources left laid.entry.amounts.now }
        ensures home { result.amounts.ghost_name ≡ laid.entry.amounts.ghost_name }
    {
        let Laid {
            accounts,
            resources,
            amounts,
        } = laid;
        Grid {
            accounts,
            resources,
            left,
            amounts,
        }
    }

    /// The amounts as they are laid, to be read.
    fn laid(&self) -> Laid<&[u64]>
        ensures accounts { result.accounts ≡ self.now.accounts }
        ensures resources { result.resources ≡ self.now.resources }
        ensures amounts { result.amounts.now ≡ self.now.amounts.now }
    {
        Laid {
            accounts: self.accounts,
            resources: self.resources,
            amounts: self.amounts,
        }
    }

    /// The amount of an account in a resource, 0 outside.
    fn cell(&self, account: u32, resource: u32) -> u64
        ensures { result ≡ cell self.now.accounts self.now.resources self.now.amounts.now account resource }
    {
        self.laid().cell(account, resource)
    }

    /// Writes the sender's and the receiver's new amounts.
    fn write(&mut self, movement: Movement, sender: u64, receiver: u64)
        requires accepted { Ok tt ≡ verdict (grid_meaning self.old) movement }
        requires sender { sender ≡ cell self.old.accounts self.old.resources self.old.amounts.now movement.from movement.resource - movement.quantity }
        requires receiver { receiver ≡ cell self.old.accounts self.old.resources self.old.amounts.now movement.to movement.resource + movement.quantity }
        ensures meaning { grid_meaning self.new ≡ opened self.old.accounts self.old.resources (self.old.left - 1) (grid_memory self.old movement) }
        ensures memory { self.new.amounts.now ≡ grid_memory self.old movement }
        ensures stays { self.new.amounts.ghost_name ≡ self.old.amounts.ghost_name }
    {
        let from = (movement.from * self.resources + movement.resource) as usize;
        let to = (movement.to * self.resources + movement.resource) as usize;
        self.amounts[from] = sender;
        self.amounts[to] = receiver;
        self.left -= 1;
    }
}

impl<'a> Book for Grid<'a> {
    ghost use Rattle.std.specs.Prelude.{◌≡◌, [], ◌∷◌};
    ghost use Rattle.book.specs.Moving.{verdict, after};
    ghost use Rattle.books.specs.Grids.{grid_meaning, grid_memory};
    ghost use Rattle.books.specs.InRange.{opened_lawful};

    ghost meaning = { grid_meaning };

    ghost home = { λ g. g.amounts.ghost_name ∷ [] };

    ghost lawful = { λ g. opened_lawful g.accounts g.resources g.left g.amounts.now g.fit };

    fn accounts(&self) -> u32 {
        self.accounts
    }

    fn resources(&self) -> u32 {
        self.resources
    }

    fn amount(&self, account: u32, resource: u32) -> Option<u64> {
        self.laid().get(account, resource)
    }

    fn holdback(&self, account: u32, resource: u32) -> Option<u64> {
        self.laid().has(account, resource).then_some(0)
    }

    fn movements_left(&self) -> u64 {
        self.left
    }

    fn transfer(&mut self, movement: Movement) -> Result<(), BookRefusal>
        ensures answer { result ≡ verdict (grid_meaning self.old) movement }
        ensures change { grid_meaning self.new ≡ after (grid_meaning self.old) movement }
        ensures stays { self.new.amounts.ghost_name ∷ [] ≡ self.old.amounts.ghost_name ∷ [] }
        ensures memory { self.new.amounts.now ≡ grid_memory self.old movement }
    {
        let had = self.cell(movement.from, movement.resource);
        let has = self.cell(movement.to, movement.resource);
        let standing = Standing {
            accounts: self.accounts,
            resources: self.resources,
            had,
            held: 0,
            has,
            left: self.left,
        };
        standing.judge(movement)?;
        self.write(movement, had - movement.quantity, has + movement.quantity);
        Ok(())
    }
}
