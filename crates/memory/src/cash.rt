//! The standing cash of the deals, against the parts of their lines.
ghost use Rattle.std.specs.Prelude.{◌≡◌, ◌<◌, ◌≤◌, length};
ghost use Rattle.memory.specs.Checks.{key_at, keys_of, uneven};

use crate::row::Deal;

fn key_at(deals: &[Deal], next: u32, place: usize) -> u64
    requires { place < 64 }
    ensures { result ≡ key_at next deals.now place }
{
    match deals.get(place) {
        Some(deal) => deal.number as u64,
        None => next as u64 + place as u64,
    }
}

/// The numbers of the deals, which are below the next one, and from there on numbers that rise further.
pub(crate) fn keys_of(deals: &[Deal], next: u32) -> [u64; 64]
    ensures { result ≡ keys_of next deals.now }
{
    let mut keys = [0; 64];
    for (place, key) in keys.iter_mut().enumerate() {
        *key = key_at(deals, next, place);
    }
    keys
}

/// The first deal whose cash is not its sum.
pub(crate) fn first_uneven(deals: &[Deal], sums: &[u64; 64]) -> Option<usize>
    requires { length deals.now ≤ 64 }
    ensures { result ≡ uneven deals.now sums.now }
{
    deals
        .iter()
        .zip(sums)
        .position(|(deal, sum)| deal.cash != *sum)
}
