//! Where the memory breaks a rule.
ghost use Rattle.std.specs.Prelude.{◌≡◌};
ghost use Rattle.memory.specs.Kinds.{table_number};

#[derive(Clone, Copy, PartialEq, Eq, Debug)]
pub enum Table {
    Head = 0,
    Deals = 1,
    Lines = 2,
    Prices = 3,
}

impl Table {
    ghost use Rattle.memory.specs.Register.{checked};
    ghost use Rattle.memory.specs.Sound.{at};

    pub fn number(self) -> u32
        ensures { result ≡ table_number self }
    {
        self as u32
    }

    /// The fault of a table of which that row is the first broken one, if there is one.
    pub(crate) fn sound_unless(self, broken: Option<usize>) -> Result<(), Fault>
        ensures { result ≡ checked (at self broken) }
    {
        match broken {
            Some(row) => Err(Fault { table: self, row }),
            None => Ok(()),
        }
    }
}

/// The first rule that is broken, by its table and its row from 0.
#[derive(Clone, Copy, PartialEq, Eq, Debug)]
pub struct Fault {
    pub table: Table,
    pub row: usize,
}
