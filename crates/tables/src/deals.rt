//! Deals that come into their table and go from it.
ghost use Rattle.std.specs.Prelude.{◌≡◌, ◌+◌, ◌-◌, if◌then◌else◌, slice_set};
ghost use Rattle.memory.specs.Rows.{no_deal, using_deals};
ghost use Rattle.memory.specs.Sound.{number as deal_number};
ghost use Rattle.tables.specs.Rows.{has_room, is_used, without};
ghost use Rattle.tables.specs.Stays.{AddsFilled, RemovesFilled};

use crate::gap::{add, remove};
use memory::{Deal, Head};

/// Adds a deal after the used ones. False, and nothing changes, where it has no place.
pub fn add_deal(head: &mut Head, deals: &mut [Deal], deal: Deal) -> bool
    ensures answer { result ≡ has_room 64 head.old.used.deals deals.old }
    ensures deals { deals.new ≡ (if has_room 64 head.old.used.deals deals.old then slice_set deals.old head.old.used.deals deal else deals.old) }
    ensures head { head.new ≡ (if has_room 64 head.old.used.deals deals.old then using_deals (head.old.used.deals + 1) head.old else head.old) }
    ensures filled { AddsFilled deal_number no_deal 64 deal head.old.used.deals deals.old head.new.used.deals deals.new }
{
    // The same as for a line, by one code for both tables.
    add(head, deals, deal)
}

/// Removes the deal at `row`; those after it move up. False, and nothing changes, where no used row is there.
pub fn remove_deal(head: &mut Head, deals: &mut [Deal], row: usize) -> bool
    ensures answer { result ≡ is_used 64 head.old.used.deals row deals.old }
    ensures deals { deals.new ≡ (if is_used 64 head.old.used.deals row deals.old then without no_deal head.old.used.deals row deals.old else deals.old) }
    ensures head { head.new ≡ (if is_used 64 head.old.used.deals row deals.old then using_deals (head.old.used.deals - 1) head.old else head.old) }
    ensures filled { RemovesFilled deal_number no_deal 64 head.old.used.deals deals.old head.new.used.deals deals.new }
{
    remove(head, deals, row)
}
