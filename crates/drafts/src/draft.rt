//! At most 1,024 slips, in order, with the movements that they record.
ghost use Rattle.std.specs.Prelude.{◌≡◌};
ghost use Rattle.law.specs.Slips.{movements_of};

use arrayvec::ArrayVec;
use book::Movement;
use memory::Slip;

mod drafting;

// The movements stand beside the slips, since a book performs a list of movements and there is no heap to make one on.
#[derive(Drop)]
pub struct Draft {
    slips: ArrayVec<Slip, 1024>,
    moves: ArrayVec<Movement, 1024>,
    ghost ok: { moves.items ≡ movements_of slips.items },
}

/// There is no room for a slip more.
#[derive(Clone, Copy, PartialEq, Eq, Debug)]
pub struct DraftFull;
