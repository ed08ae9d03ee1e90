//! Movements, and where a list of them is refused.
use crate::refusal::BookRefusal;

/// The most that an account has of a resource, and the most that is held back of it.
pub const LIMIT: u64 = 1_000_000_000_000_000;

/// A quantity of a resource from one account to another.
#[derive(Clone, Copy, PartialEq, Eq, Debug, Default)]
pub struct Movement {
    pub from: u32,
    pub to: u32,
    pub resource: u32,
    pub quantity: u64,
}

/// The first movement of a list that a book refuses, by its place from 0.
#[derive(Clone, Copy, PartialEq, Eq, Debug)]
pub struct RefusedAt {
    pub place: usize,
    pub refusal: BookRefusal,
}
