//! The register's memory, lent by the console, and what the console has in hand.
use book::Book;
use commands::{Hand, Unobeyed, act};
use memory::{Deal, Head, Line, NO_DEAL, NO_LINE, NO_SLIP, Next, Phase, Slip, Used, begin};
use register_script::{Beginning, Command};
use std::alloc::{AllocError, Global};
use valuation::Price;

#[derive(Drop)]
pub struct Register {
    pub head: Head,
    pub deals: Vec<Deal>,
    pub lines: Vec<Line>,
    pub slips: Vec<Slip>,
    pub prices: Vec<Price>,
    pub hand: Hand,
}

const UNWRITTEN: Head = Head {
    date: 0,
    phase: Phase::Day,
    next: Next { deal: 0, line: 0 },
    used: Used { deals: 0, lines: 0 },
};

const NO_PRICE: Price = Price {
    category: 0,
    excluded: false,
    haircut: 0,
    gbp: 0,
    eur: 0,
    usd: 0,
};

impl Register {
    /// Memory for a register over a book of so many resources.
    pub fn new(heap: Global, resources: u32, sizes: Beginning) -> Result<Register, AllocError> {
        let deals = vec![in heap; NO_DEAL; sizes.deals as usize]?;
        let lines = vec![in heap; NO_LINE; sizes.lines as usize]?;
        let slips = vec![in heap; NO_SLIP; sizes.slips as usize]?;
        let prices = vec![in heap; NO_PRICE; resources.saturating_sub(3) as usize]?;
        Ok(Register {
            head: UNWRITTEN,
            deals,
            lines,
            slips,
            prices,
            hand: Hand::empty(),
        })
    }

    pub fn begin(&mut self, date: u16) -> Result<(), Unobeyed> {
        Ok(begin(&mut self.head, &mut self.deals, &mut self.lines, date)?)
    }

    /// What is looked at of it.
    pub fn lent(&self) -> memory::Register<'_> {
        memory::Register {
            head: &self.head,
            deals: &self.deals,
            lines: &self.lines,
        }
    }

    /// Carries out a command on the register.
    pub fn obey<B: Book>(&mut self, book: &B, command: Command) -> Result<(), Unobeyed> {
        match command {
            Command::Book(script::Command::Show) => {
                self.lent().check(book.accounts(), book.resources())?;
                Ok(())
            }
            Command::Register(command) => act(
                book,
                &mut self.head,
                &mut self.deals,
                &mut self.lines,
                &mut self.prices,
                &mut self.hand,
                command,
            ),
            _ => Err(Unobeyed::Misplaced),
        }
    }
}
