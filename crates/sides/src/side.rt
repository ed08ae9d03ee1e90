//! The two sides of a deal, each by the terms that it stated.
ghost use Rattle.std.specs.Prelude.{◌≡◌, true};
ghost use Rattle.sides.specs.Ranges.{terms_fit};

use crate::terms::Terms;
use std::marker::PhantomData;

mod stating;

/// The party that gives the securities.
#[derive(Clone, Copy)]
pub struct Giver;

/// The party that takes them.
#[derive(Clone, Copy)]
pub struct Taker;

/// What a party to a deal stated. A side of one party cannot stand where the other's is asked.
#[derive(Drop)]
pub struct Side<P> {
    terms: Terms,
    party: PhantomData<P>,
    ghost fits: { terms_fit terms ≡ true },
}

pub type GiverSide = Side<Giver>;

pub type TakerSide = Side<Taker>;
