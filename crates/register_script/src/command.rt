//! Commands.
use crate::call::Call;
use crate::poke::Poke;
use sides::Terms;
use valuation::Price;

/// A fresh register by its date, the rows of its tables and the places of its slip list.
#[derive(Clone, Copy)]
pub struct Beginning {
    pub date: u16,
    pub deals: u32,
    pub lines: u32,
    pub slips: u32,
}

/// What is stated of a security.
#[derive(Clone, Copy)]
pub struct Quotation {
    pub security: u32,
    pub price: Price,
}

/// A command to a register that stands.
#[derive(Clone, Copy)]
pub enum RegisterCommand {
    Price(Quotation),
    Giver(Terms),
    Taker(Terms),
    Match,
    Withdraw,
    Panel(u32),
    Poke(Poke),
    Call(Call),
}

#[derive(Clone, Copy)]
pub enum Command {
    /// A command to the book; `show` is one to a register too, where one stands.
    Book(script::Command),
    Begin(Beginning),
    Register(RegisterCommand),
}
